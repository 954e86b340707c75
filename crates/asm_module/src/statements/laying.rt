//! Finds which statements lines have, and how many come before each line.

ghost use Rattle.std.specs.Prelude.{◌≡◌, ◌≤◌, ◌++◌, [], All, IfOk, OnOk, count_by, is_some};
ghost use Rattle.std.specs.List.{cons_option};
ghost use Rattle.common.specs.declared.limits.TheConstants.{MOST_STATEMENTS};
ghost use Rattle.asm_expr.specs.Names.{found};
ghost use Rattle.asm_spell.specs.Line.{body_of, line_of};
ghost use Rattle.asm_stmt.specs.Made.{ref_of};
ghost use Rattle.asm_names.specs.Lines.{has_statement, lines_of};
ghost use Rattle.asm_names.specs.Layout.{layout_of};
ghost use Rattle.asm_module.specs.Layouts.Laid.{HasFew, IsFewIn, laid, line_sized, may_grow};

use asm_expr::{Meaning, Names, Statement};
use asm_names::{Layout, SourceLine};
use asm_spell::{Body, Branch, Line};
use asm_stmt::size_of;
use std::alloc::{AllocError, Global};

/// Whether a name stands for a label or an external.
fn is_place(names: &Names, name: &[u8]) -> bool
    ensures { result ≡ is_some (ref_of (found names.now name.now)) }
{
    matches!(
        names.meaning(name),
        Some(Meaning::Label(_) | Meaning::External(_))
    )
}

/// If `grow` is true, answers that a `JR` to a label or an external is a relaxable jump.
fn may_grow(grow: bool, body: &Body, names: &Names, statement: Statement) -> Statement
    ensures { result ≡ may_grow grow names.now (body_of body.now) statement }
{
    match body {
        Body::Short {
            branch: Branch::Relative(_),
            target,
        } if grow && is_place(names, target) => Statement::Relaxable,
        _ => statement,
    }
}

/// Answers the size of a line's statement, if the line has one.
fn line_sized(
    alloc: Global,
    line: &Line,
    names: &Names,
    grow: bool,
) -> Result<Option<Statement>, AllocError>
    requires { IsFewIn (line_of line.now) }
    ensures { IfOk result (λ sized. sized ≡ line_sized grow names.now (line_of line.now)) }
{
    let Line::Statement {
        label: _,
        body: Some(body),
    } = line
    else {
        return Ok(None);
    };
    match size_of(alloc, body, names)? {
        Some(statement) => Ok(Some(may_grow(grow, body, names, statement))),
        None => Ok(None),
    }
}

/// Appends a statement, if there is one.
fn put(statements: &mut Vec<Statement>, one: Option<Statement>) -> Result<(), AllocError>
    ensures { OnOk result (statements.new.items ≡ statements.old.items ++ cons_option one []) }
{
    if let Some(statement) = one {
        statements.push(statement)?;
    }
    Ok(())
}

/// Answers the sizes of the statements of all lines, as far as they are known, and for each line the number of the next statement. The
/// answer depends on what names stand for, but not on the addresses of labels and externals. If `grow` is true, a written `JR` counts as
/// relaxable.
pub(crate) fn lay(
    alloc: Global,
    lines: &[SourceLine],
    names: &Names,
    grow: bool,
) -> Result<Layout, AllocError>
    requires few { count_by (λ l. has_statement l.line) (lines_of lines.now) ≤ MOST_STATEMENTS }
    requires data { All HasFew (lines_of lines.now) }
    ensures { IfOk result (λ layout. layout_of layout ≡ laid grow names.now (lines_of lines.now)) }
{
    let mut next = Vec::with_capacity(alloc, lines.len())?;
    let mut statements = Vec::with_capacity(alloc, lines.len())?;
    for line in lines {
        next.push(statements.len() as u16)?;
        let one = line_sized(alloc, &line.line, names, grow)?;
        put(&mut statements, one)?;
    }
    Ok(Layout { next, statements })
}
