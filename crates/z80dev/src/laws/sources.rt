//! Laws about sources: each has an answer, and what follows from that answer.

ghost use Rattle.std.specs.Prelude.{◌≡◌, ◌≢◌, ◌⊎◌, ◌↔◌, Bool, Contains, List, Result, true, ℕ};
ghost use Rattle.asm_macro.specs.declared.fault.MacroFault.{MacroFault};
ghost use Rattle.asm_macro.specs.Expands.{End, IsExpansion, Stopped};
ghost use Rattle.asm_module.specs.declared.fault.AsmFault.{AsmFault};
ghost use Rattle.asm_module.specs.Assembled.{Assembled, Assembles, HasCause};
ghost use Rattle.asm_text.specs.Lines.{Numbered};
ghost use Rattle.relax.specs.Choice.{Choice, IsSettled};
ghost use Rattle.z80dev.specs.Causes.{IsOfSource, LacksNoMemory};
ghost use Rattle.z80dev.specs.Grown.{IsMarkedJump};
ghost use Rattle.zlink.specs.declared.source.Source.{Source};
ghost use Rattle.zlink.specs.Linked.{IsOutput, Output};
ghost use Rattle.zlink.specs.Sources.{Assembly, AreAssembled, IsFirstFaulty};
ghost use Rattle.zlink.specs.File.Objects.{placed_shape};
ghost use Rattle.zlink.specs.Program.Whole.{program};
ghost use Rattle.zmo_object.specs.Modules.{Module};

/// Each source has an expansion, which may stop with an error. By `asm_macro::laws::one_expansion` it has only one. The error is
/// never `NoMemory`, and never has `NoMemory` inside, as `Scan(NoMemory)` would.
pub fn some_expansion()
    ensures some { (text : List ℕ) → (lines : List Numbered) × (end : End) × IsExpansion text lines end }
    ensures caused { (text : List ℕ) (lines : List Numbered) (number : ℕ) (why : MacroFault) → IsExpansion text lines (Stopped number why) → why ≢ MacroFault.NoMemory }
    ensures alone { (text : List ℕ) (lines : List Numbered) (number : ℕ) (why : MacroFault) → IsExpansion text lines (Stopped number why) → IsOfSource why }
{
    asm_line::laws::scanned();
    asm_macro::laws::parts();
}

/// Each source is a module, or has a first error, which is not `NoMemory` and never has `NoMemory` inside, as `Stmt(Expr(NoMemory))` would.
/// By `asm_module::laws::one_answer` only one of these holds, and only one module or error is possible.
pub fn some_answer()
    ensures some { (name text : List ℕ) (grow : Bool) → (result : Result Assembled AsmFault) × HasCause result × Assembles name text grow result }
    ensures alone { (name text : List ℕ) (grow : Bool) (result : Result Assembled AsmFault) → Assembles name text grow result → HasCause result → LacksNoMemory result }
{
    asm_line::laws::scanned();
    some_expansion();
}

/// Each list of sources is a list of programs, one for each source, or has a first source with an error, and its first error. So
/// what `zlink` says about lists in which each source is a program, and about lists in which one is not, covers all lists.
pub fn some_sources()
    ensures { (grow : Bool) (sources : List Source) →
        ((assemblies : List Assembly) × AreAssembled grow sources assemblies) ⊎ ((number : ℕ) × (fault : AsmFault) × IsFirstFaulty grow sources number fault) }
{
    some_answer();
}

/// The jumps that were written as a JR and grew, as `link` and `build_with` list them, are those that are long in every choice in
/// which each short jump reaches its target.
pub fn grown_are_needed()
    ensures { (modules : List Module) (order : List ℕ) (o : Output) → IsOutput modules order o → (k : ℕ) →
        Contains o.grown k ↔ (IsMarkedJump (program modules) k × ((c : Choice) → IsSettled c (placed_shape (program modules)) → c k ≡ true)) }
{}
