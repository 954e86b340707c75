//! Laws about the whole program of modules. A law is a function that does nothing and whose clause is a theorem.

ghost use Rattle.std.specs.Prelude.{◌≡◌, ◌≤◌, ◌+◌, ℕ, All, List, None, Some, length, slice_get};
ghost use Rattle.std.specs.Option.{option_map};
ghost use Rattle.common.specs.declared.limits.TheConstants.{MOST_STATEMENTS};
ghost use Rattle.zmo_object.specs.Modules.{Module, ModuleStatement};
ghost use Rattle.zmo_object.specs.Rules.{IsModule};
ghost use Rattle.zlink.specs.Program.Faults.{first_fault};
ghost use Rattle.zlink.specs.Program.Laws.{IsWithin, part_at, statement_count};
ghost use Rattle.zlink.specs.Program.Parts.{ModulePart, parts, all_publics};
ghost use Rattle.zlink.specs.Program.Whole.{program, stands};

/// Part number m is module number m with its base. The program has the statements of each module from its base on, and has no others.
pub fn laid_out()
    ensures parts { (modules : List Module) (m : ℕ) → slice_get (parts modules) m ≡ option_map (part_at modules m) (slice_get modules m) }
    ensures statements { (modules : List Module) (m i : ℕ) (p : ModulePart) (s : ModuleStatement) → slice_get (parts modules) m ≡ Some p → slice_get p.holds.statements i ≡ Some s →
        slice_get (program modules) (p.base + i) ≡ Some (record { statement = s; stands = stands (all_publics (parts modules)) p }) }
    ensures count { (modules : List Module) → length (program modules) ≡ statement_count modules }
{}

/// If modules have no error together, the program has no more statements than allowed, and each ref stands for one of them or the end.
pub fn within()
    ensures few { (modules : List Module) → first_fault modules ≡ None → length (program modules) ≤ MOST_STATEMENTS }
    ensures each { (modules : List Module) → All IsModule modules → first_fault modules ≡ None → All (IsWithin (length (program modules))) (program modules) }
{}
