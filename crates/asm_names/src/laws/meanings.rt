//! Laws about the names that EQU defines, as functions that do nothing. A caller calls one to use its clauses.

ghost use Rattle.std.specs.Prelude.{◌≡◌, ◌<◌, ◌≤◌, ◌+◌, ℕ, Bool, true, false, List, None, Some, length};
ghost use Rattle.std.specs.List.{list_any};
ghost use Rattle.std.specs.Map.{lookup};
ghost use Rattle.std.specs.Str.{bytes_eq};
ghost use Rattle.asm_expr.specs.declared.meaning.Meaning.{Meaning};
ghost use Rattle.asm_parse.specs.Expression.{Expression};
ghost use Rattle.asm_parse.specs.Source.{Operand};
ghost use Rattle.asm_expr.specs.Below.{Atom, value};
ghost use Rattle.asm_expr.specs.Distances.{Step, is_unsized};
ghost use Rattle.asm_expr.specs.Origins.{Brings, is_number_name, is_valued_name};
ghost use Rattle.asm_expr.specs.Settling.{is_constant_name, known, replaced};
ghost use Rattle.asm_names.specs.declared.walk.Turn.{Turn};
ghost use Rattle.asm_names.specs.Orders.Order.{IsOrder};
ghost use Rattle.asm_names.specs.Faults as naming;
ghost use Rattle.asm_names.specs.Lines.{Taken};
ghost use Rattle.asm_names.specs.Names.{Names, names};
ghost use Rattle.asm_names.specs.Circles.{TellsCircles, lines_named};
ghost use Rattle.asm_names.specs.Layout.{Layout, next_at};
ghost use Rattle.asm_names.specs.Levels.{HasValue};
ghost use Rattle.asm_names.specs.Meanings.{name_meanings, externals, first_equ_fault, table_at};
ghost use Rattle.asm_names.specs.Settles.{is_marked_circular};

/// Turns that are an order of the lines mark exactly the lines that lead back to themselves.
pub fn told()
    ensures { (names : Names) (lines : List Taken) (turns : List Turn) → IsOrder (length lines) (lines_named names lines) turns → TellsCircles names lines (is_marked_circular turns) }
{}

/// If no line has an error, each name that is constant stands for a number. If also the size of each statement is known, each name
/// stands for a value.
pub fn valued()
    ensures constants { (lines : List Taken) (turns : List Turn) (layout : Layout) → naming.first_name_fault lines ≡ None →
        IsOrder (length lines) (lines_named (names lines) lines) turns → first_equ_fault (names lines) lines (is_marked_circular turns) layout ≡ None →
        (name : List ℕ) (what : Meaning) → lookup (bytes_eq name) (name_meanings (names lines) lines (is_marked_circular turns) layout) ≡ Some what →
        is_constant_name (Some what) ≡ true → is_number_name (Some what) ≡ true }
    ensures all { (lines : List Taken) (turns : List Turn) (layout : Layout) → naming.first_name_fault lines ≡ None →
        IsOrder (length lines) (lines_named (names lines) lines) turns → first_equ_fault (names lines) lines (is_marked_circular turns) layout ≡ None →
        list_any is_unsized layout.statements ≡ false →
        (name : List ℕ) (what : Meaning) → lookup (bytes_eq name) (name_meanings (names lines) lines (is_marked_circular turns) layout) ≡ Some what →
        is_valued_name (Some what) ≡ true }
{
    crate::laws::given();
    asm_expr::laws::number_of_numbers();
    asm_expr::laws::valued();
}

/// Names stand for refs less than `count`, if the numbers of all statements are less, and if `count` leaves room for all externals
/// after the statements and their end.
pub fn refs()
    ensures { (names : Names) (lines : List Taken) (circle : ℕ → Bool) (layout : Layout) (count : ℕ) → ((at : ℕ) → next_at layout at < count) →
        (length layout.statements + 1) + length (externals names) ≤ count →
        (name : List ℕ) (what : Meaning) → lookup (bytes_eq name) (name_meanings names lines circle layout) ≡ Some what → Brings (λ r. r < count) what }
{
    asm_expr::laws::no_other_refs();
}

/// An expression whose names are replaced has the value that its lines give it, level by level, at all addresses that step by each known size,
/// as those of every choice of jumps do. There is no other.
pub fn level_by_level()
    ensures value { (names : Names) (lines : List Taken) (circle : ℕ → Bool) (layout : Layout) (places : ℕ → ℕ) → Step layout.statements places →
        (at : ℕ) (e : Expression Operand) (whole : Expression Atom) → replaced (table_at layout (name_meanings names lines circle layout) at) e ≡ known whole →
        HasValue names lines layout places at e (value places whole) }
    ensures one { (names : Names) (lines : List Taken) (layout : Layout) (places : ℕ → ℕ) (at : ℕ) (e : Expression Operand) (m n : ℕ) →
        HasValue names lines layout places at e m → HasValue names lines layout places at e n → m ≡ n }
{}
