//! Judges one line.

ghost use Rattle.std.specs.Prelude.{◌≡◌, ℕ, List, None, Ok};
ghost use Rattle.std.specs.Option.{option_map};
ghost use Rattle.asm_expr.specs.Names.{found};
ghost use Rattle.asm_names.specs.Names.{kind_of_name};
ghost use Rattle.asm_stmt.specs.Made as pieces;
ghost use Rattle.asm_stmt.specs.Made.{made_of, piece_of};
ghost use Rattle.asm_spell.specs.Line.{body_of, line_of};
ghost use Rattle.zmo_object.specs.Modules.{statement_of};
ghost use Rattle.asm_module.specs.Module.Statements.{of_made, statement_by};
ghost use Rattle.asm_module.specs.Module.Judged.{JudgesLine};
ghost use Rattle.asm_module.specs.Private.Statements.{JudgesBody, of_values};

use crate::statements::fault::StateFault;
use crate::statements::missing::{is_undefined, lacks_label};
use asm_expr::Names;
use asm_names::NameTable;
use asm_spell::{Body, Line, StmtFault};
use asm_stmt::{Made, Piece, settle};
use std::alloc::Global;
use z80_instr::Branch;
use zmo_object::Statement;

/// Converts an error of values to one of a line.
fn of_values(why: StmtFault) -> StateFault
    ensures { result ≡ of_values why }
{
    match why {
        StmtFault::NoMemory => StateFault::NoMemory,
        why => StateFault::Stmt(why),
    }
}

/// Answers the jump that a JR or DJNZ is. If `grow` is true, a JR is a relaxable jump, marked as written as JR.
fn branch_statement(branch: Branch, target: u16, grow: bool) -> Statement
    ensures { statement_of result ≡ statement_by grow (pieces.Short branch target) }
{
    match branch {
        Branch::Relative(condition) if grow => Statement::Jump {
            marked: true,
            condition,
            target,
        },
        branch => Statement::Short { branch, target },
    }
}

/// Answers a piece as a statement of a module.
fn statement(piece: Piece, grow: bool) -> Statement
    ensures { statement_of result ≡ statement_by grow (piece_of piece) }
{
    match piece {
        Piece::Bytes { bytes, holes } => Statement::Bytes { bytes, holes },
        Piece::Jump { condition, target } => Statement::Jump {
            marked: false,
            condition,
            target,
        },
        Piece::Short { branch, target } => branch_statement(branch, target, grow),
        Piece::Space { size, fill } => Statement::Space { size, fill },
    }
}

/// Answers the statement of what a line makes, if it makes a piece.
fn stated(made: Made, grow: bool) -> Option<Statement>
    ensures { option_map statement_of result ≡ of_made grow (Ok (made_of made)) }
{
    match made {
        Made::Piece(piece) => Some(statement(piece, grow)),
        Made::Nothing | Made::Unknown => None,
    }
}

/// Judges a statement and its operands, given what names stand for. Answers the statement of the module, if there is one.
fn judge_body(
    alloc: Global,
    body: &Body,
    table: &NameTable,
    names: &Names,
    grow: bool,
) -> Result<Option<Statement>, StateFault>
    requires { (name : List ℕ) → found names.now name ≡ None → kind_of_name table.now name ≡ None }
    ensures { JudgesBody grow table.now names.now (body_of body.now) result }
{
    if is_undefined(table, body) {
        return Err(StateFault::Undefined);
    }
    match settle(alloc, body, names) {
        Err(why) => Err(of_values(why)),
        Ok(_) if lacks_label(table, body) => Err(StateFault::PublicNotLabel),
        Ok(made) => Ok(stated(made, grow)),
    }
}

/// Judges a line by itself, given what names stand for, and what `$` is there. Answers the statement of the module, if the line makes one.
/// An EQU makes none.
///
/// # Errors
///
/// The first error of a line other than an EQU: a name that is defined nowhere; then the errors of its values, from left to right; then a
/// name in PUBLIC or END that is not a label.
pub fn judge(
    alloc: Global,
    line: &Line,
    table: &NameTable,
    names: &Names,
    grow: bool,
) -> Result<Option<Statement>, StateFault>
    requires { (name : List ℕ) → found names.now name ≡ None → kind_of_name table.now name ≡ None }
    ensures { JudgesLine grow table.now names.now (line_of line.now) result }
{
    match line {
        Line::Statement {
            body: Some(body),
            ..
        } => judge_body(alloc, body, table, names, grow),
        _ => Ok(None),
    }
}
