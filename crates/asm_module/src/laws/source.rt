//! Laws about whole sources: what their outlines and their statements keep. A law is a function that does nothing and whose clause is a
//! theorem.

ghost use Rattle.std.specs.Prelude.{◌≡◌, ◌≤◌, ℕ, All, Bool, List, None, Result, count_by, length};
ghost use Rattle.common.specs.declared.limits.TheConstants.{MOST_STATEMENTS};
ghost use Rattle.asm_expr.specs.Names.{AreCounted, Table};
ghost use Rattle.asm_names.specs.Circles.{TellsCircles, lines_named};
ghost use Rattle.asm_names.specs.Faults.{first_name_fault};
ghost use Rattle.asm_names.specs.Layout.{Layout, layout_of};
ghost use Rattle.asm_names.specs.Lines.{Taken, has_statement};
ghost use Rattle.asm_names.specs.Meanings.{externals};
ghost use Rattle.asm_names.specs.Names.{Names, names};
ghost use Rattle.asm_names.specs.Orders.Order.{IsOrder};
ghost use Rattle.asm_names.specs.Settles.{Settles, is_marked_circular};
ghost use Rattle.asm_names.specs.declared.settling.SettledNames.{SettledNames};
ghost use Rattle.asm_names.specs.declared.walk.Turn.{Turn};
ghost use Rattle.asm_module.specs.declared.statements.fault.StateFault.{StateFault};
ghost use Rattle.asm_module.specs.declared.statements.outlining.Outline.{Outline};
ghost use Rattle.asm_module.specs.declared.statements.stating.Stated.{Stated};
ghost use Rattle.asm_module.specs.Layouts.Laid.{HasFew, laid, statements};
ghost use Rattle.asm_module.specs.Layouts.Sizes.{sizes};
ghost use Rattle.asm_module.specs.Module.Stated.{AreStated};
ghost use Rattle.asm_module.specs.Outlines as source;
ghost use Rattle.asm_module.specs.Outlines.{IsOutline, no_layout, outline_table};
ghost use Rattle.asm_module.specs.Private.Sound.{AreSound, made_by};
ghost use Rattle.asm_module.specs.Program.Lines.{AreAt, program_of_lines};
ghost use Rattle.asm_module.specs.Program.Spelled.{IsLineOfText};
ghost use Rattle.asm_module.specs.Rules.Fitting.{FitsWord};
ghost use Rattle.asm_module.specs.Rules.Object.{AreObjectNames, AreObjectStatements};

use crate::laws::layout::{all_sized, kinds_anywhere, stated_as_laid};
use crate::laws::module::stated_by_names;
use crate::laws::program::statements_at_places;
use crate::laws::rules::statements_keep_rules;

/// If no line may not define its name, an object file may hold the names of the lines, and the lines have no more statements than a module
/// may have. Names that are settled before the statements have addresses give the layout of the source.
pub(crate) fn outlined()
    ensures few { (lines : List Taken) → first_name_fault lines ≡ None → count_by (λ l. has_statement l.line) lines ≤ MOST_STATEMENTS }
    ensures sized { (grow : Bool) (t : Table) (lines : List Taken) → first_name_fault lines ≡ None → length (statements grow t lines) ≤ MOST_STATEMENTS }
    ensures data { (lines : List Taken) → All (λ l. IsLineOfText l.line) lines → All HasFew lines }
    ensures names { (lines : List Taken) → first_name_fault lines ≡ None → All (λ l. IsLineOfText l.line) lines → AreObjectNames (names lines) }
    ensures tells { (lines : List Taken) (turns : List Turn) → IsOrder (length lines) (lines_named (names lines) lines) turns →
        TellsCircles (names lines) lines (is_marked_circular turns) }
    ensures layout { (grow : Bool) (lines : List Taken) (circle : ℕ → Bool) (layout : Layout) (unplaced : SettledNames) →
        Settles (names lines) lines circle no_layout unplaced → layout ≡ laid grow unplaced.names lines → layout ≡ source.layout grow lines circle }
{
    asm_names::laws::few();
    asm_names::laws::distinct();
    asm_names::laws::told();
    asm_spell::laws::few();
    asm_spell::laws::names();
    asm_stmt::laws::sizes();
}

/// What the outline of lines makes of them depends only on the lines. If they have no error, their statements have the sizes of the layout
/// and keep the rules of an object file, and at all addresses they are the program that the lines describe.
pub(crate) fn emitted()
    ensures answer { (grow : Bool) (lines : List Taken) (o : Outline) (given : Names) (r : Result Stated (ℕ × StateFault)) → IsOutline grow lines o →
        AreStated grow given o.settled.names (layout_of o.layout) lines r → AreStated grow given (outline_table lines o) (layout_of o.layout) lines r }
    ensures laid { (grow : Bool) (lines : List Taken) (o : Outline) → AreSound grow lines o → o.layout.statements.items ≡ sizes (made_by grow lines o) }
    ensures rules { (grow : Bool) (lines : List Taken) (o : Outline) → AreSound grow lines o → AreCounted o.settled.names → All FitsWord (made_by grow lines o) →
        AreObjectStatements grow (length (externals (names lines))) (made_by grow lines o) }
    ensures program { (grow : Bool) (lines : List Taken) (o : Outline) → AreSound grow lines o →
        AreAt (made_by grow lines o) (program_of_lines grow (outline_table lines o) (layout_of o.layout) lines) }
{
    asm_names::laws::few();
    asm_names::laws::refs();
    asm_names::laws::valued();
    asm_spell::laws::few();
    all_sized();
    kinds_anywhere();
    stated_as_laid();
    stated_by_names();
    statements_at_places();
    statements_keep_rules();
}
