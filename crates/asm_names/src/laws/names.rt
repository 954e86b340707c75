//! Laws about names, as functions that do nothing. A caller calls one to use its clauses.

ghost use Rattle.std.specs.Prelude.{◌≡◌, ◌≤◌, ◌++◌, ◌∷◌, [], ℕ, List, None, Some, count_by, length, map, slice_get};
ghost use Rattle.std.specs.List.{IsDistinct};
ghost use Rattle.std.specs.Str.{bytes_eq};
ghost use Rattle.common.specs.declared.limits.TheConstants.{MOST_NAMES, MOST_STATEMENTS};
ghost use Rattle.asm_names.specs.Faults.{first_name_fault};
ghost use Rattle.asm_names.specs.Lines.{Taken, has_statement};
ghost use Rattle.asm_spell.specs.Line.{Equ, ExpressionItems};
ghost use Rattle.asm_names.specs.declared.kind.Kind.{Kind};
ghost use Rattle.asm_names.specs.Names.{defines, kind_of_name, names, with_names};

/// Lines without an error have no more names and statements than a module may have.
pub fn few()
    ensures names { (lines : List Taken) → first_name_fault lines ≡ None → length (names lines) ≤ MOST_NAMES }
    ensures statements { (lines : List Taken) → first_name_fault lines ≡ None → count_by (λ l. has_statement l.line) lines ≤ MOST_STATEMENTS }
{}

/// The names of some lines and of one more are those of the lines, and those that the one more defines.
pub fn one_more()
    ensures { (before : List Taken) (l : Taken) → names (before ++ l ∷ []) ≡ with_names (names before) (defines (length before) l.line) }
{}

/// No two names of a source are equal.
pub fn distinct()
    ensures { (lines : List Taken) → IsDistinct bytes_eq (map (λ d. d.0) (names lines)) }
{}

/// A name that is defined by EQU is defined in one line, an EQU line with this name. If no line has an error, each EQU line defines
/// its name.
pub fn given()
    ensures by { (lines : List Taken) (name : List ℕ) (at : ℕ) → kind_of_name (names lines) name ≡ Some (Kind.Equ at) →
        (l : Taken) × (slice_get lines at ≡ Some l) × ((e : ExpressionItems) × (l.line ≡ Equ name e)) }
    ensures each { (lines : List Taken) (at : ℕ) (l : Taken) (name : List ℕ) (e : ExpressionItems) → first_name_fault lines ≡ None → slice_get lines at ≡ Some l → l.line ≡ Equ name e →
        kind_of_name (names lines) name ≡ Some (Kind.Equ at) }
{}
