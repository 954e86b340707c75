//! Laws about the layout: the statements have the sizes that were laid out before names had addresses. A law is a function that does
//! nothing and whose clause is a theorem.

ghost use Rattle.std.specs.Prelude.{◌≡◌, ℕ, Bool, true, false, List, None, Some, map};
ghost use Rattle.std.specs.List.{list_any};
ghost use Rattle.asm_expr.specs.Distances.{is_unsized};
ghost use Rattle.asm_expr.specs.Names.{Table, found};
ghost use Rattle.asm_expr.specs.Origins.{is_number_name, is_valued_name};
ghost use Rattle.asm_expr.specs.Settling.{is_constant_name};
ghost use Rattle.asm_expr.specs.declared.meaning.Meaning.{Meaning};
ghost use Rattle.asm_names.specs.Lines.{Taken};
ghost use Rattle.asm_names.specs.Names.{Names, kind_of_name};
ghost use Rattle.asm_names.specs.Layout.{Layout};
ghost use Rattle.asm_stmt.specs.Sized.{IsLike};
ghost use Rattle.asm_module.specs.Layouts.Laid.{statements};
ghost use Rattle.asm_module.specs.Module.Stated.{first_statement_fault, numbered_statements};
ghost use Rattle.asm_module.specs.Layouts.Sizes.{sizes};
ghost use Rattle.asm_names.specs.Meanings.{name_meanings, table_at};

/// Names have the same kinds, whatever the layout is and wherever the statements are.
pub fn kinds_anywhere()
    ensures { (names : Names) (lines : List Taken) (circle : ℕ → Bool) (layout other : Layout) (at there : ℕ) →
        IsLike (table_at layout (name_meanings names lines circle layout) at) (table_at other (name_meanings names lines circle other) there) }
{
    asm_expr::laws::by_names();
    asm_expr::laws::constant_anywhere();
}

/// If no line has an error and each constant is a number, the size of each statement is known, by any table that gives each name the same
/// kind.
pub(super) fn all_sized()
    ensures { (grow : Bool) (names : Names) (t u : Table) (layout : Layout) (lines : List Taken) → IsLike t u →
        ((name : List ℕ) → found t name ≡ None → kind_of_name names name ≡ None) →
        ((name : List ℕ) (what : Meaning) → found t name ≡ Some what → is_constant_name (Some what) ≡ true → is_number_name (Some what) ≡ true) →
        first_statement_fault names t layout lines ≡ None → list_any is_unsized (statements grow u lines) ≡ false }
{
    asm_expr::laws::number_of_numbers();
    asm_stmt::laws::sizes();
}

/// If no line has an error and each name has a value, the statements that lines make have the sizes that were laid out, by any table that
/// gives each name the same kind.
pub(super) fn stated_as_laid()
    ensures { (grow : Bool) (names : Names) (t u : Table) (layout : Layout) (lines : List Taken) → IsLike t u →
        ((name : List ℕ) → found t name ≡ None → kind_of_name names name ≡ None) →
        ((name : List ℕ) (what : Meaning) → found t name ≡ Some what → is_valued_name (Some what) ≡ true) →
        list_any is_unsized t.statements ≡ false →
        first_statement_fault names t layout lines ≡ None → statements grow u lines ≡ sizes (map (λ n. n.1) (numbered_statements grow t layout lines)) }
{
    asm_expr::laws::valued();
    asm_expr::laws::number_of_numbers();
    asm_stmt::laws::sizes();
}
