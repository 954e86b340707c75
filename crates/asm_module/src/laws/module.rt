//! Laws about the lines of a module: what they make depends on what names stand for, and each name that is defined stands for something. A
//! law is a function that does nothing and whose clause is a theorem.

ghost use Rattle.std.specs.Prelude.{◌≡◌, ℕ, Bool, List, None};
ghost use Rattle.asm_expr.specs.Names.{Table, found};
ghost use Rattle.asm_names.specs.Lines.{Taken};
ghost use Rattle.asm_names.specs.Names.{Names, kind_of_name};
ghost use Rattle.asm_names.specs.declared.settling.SettledNames.{SettledNames};
ghost use Rattle.asm_names.specs.Layout.{Layout};
ghost use Rattle.asm_names.specs.Settles.{Settles};
ghost use Rattle.asm_module.specs.Module.Stated.{first_statement_fault, numbered_statements};

/// The first error of lines and their statements depend only on what names stand for and on the sizes of the statements.
pub(super) fn stated_by_names()
    ensures fault { (t u : Table) → ((name : List ℕ) → found t name ≡ found u name) → t.statements ≡ u.statements →
        (names : Names) (layout : Layout) (lines : List Taken) → first_statement_fault names t layout lines ≡ first_statement_fault names u layout lines }
    ensures statements { (t u : Table) → ((name : List ℕ) → found t name ≡ found u name) → t.statements ≡ u.statements →
        (grow : Bool) (layout : Layout) (lines : List Taken) → numbered_statements grow t layout lines ≡ numbered_statements grow u layout lines }
{
    asm_stmt::laws::by_names();
}

/// Settled names have a meaning for each name that is defined, as [`state_lines`](crate::state_lines) requires.
pub fn all_found()
    ensures { (names : Names) (lines : List Taken) (circle : ℕ → Bool) (layout : Layout) (s : SettledNames) → Settles names lines circle layout s →
        (name : List ℕ) → found s.names name ≡ None → kind_of_name names name ≡ None }
{}
