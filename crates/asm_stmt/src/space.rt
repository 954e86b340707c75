//! What DS and ORG make.

ghost use Rattle.std.specs.Prelude.{◌≡◌, option_copied};
ghost use Rattle.std.specs.Option.{IfSome};
ghost use Rattle.asm_spell.specs.Faults.{Gives};
ghost use Rattle.asm_stmt.specs.Made.{IsDefined, is_origin, made_of, number_in, origin, space_of_size, space_made, space_fill, space_size};
ghost use Rattle.asm_stmt.specs.Private.Views.{same};

use crate::cell::Filling;
use crate::field::{fixed, number, settle_expr};
use crate::piece::{Made, Piece};
use asm_expr::{Names, Settled, Tree, Unknown, is_constant};
use asm_spell::StmtFault;
use common::FIRST_PLACE;
use std::alloc::Global;
use z80_form::Field;

/// Answers the number if the expression has a value and this is just one number.
pub(crate) fn number_in(settled: &Settled) -> Option<u16>
    ensures { result ≡ number_in settled.now }
{
    match settled {
        Settled::Known(expr) => number(expr),
        Settled::Unknown(_) => None,
    }
}

/// Answers the number of a DS.
pub(crate) fn space_size(alloc: Global, size: &Tree, names: &Names) -> Result<Settled, StmtFault>
    requires { IsDefined names.now size.now }
    ensures { Gives same result (space_size names.now size.now) }
{
    let settled = settle_expr(alloc, size, names)?;
    if is_constant(size, names) {
        Ok(settled)
    } else {
        Err(StmtFault::SizeNamesLabel)
    }
}

/// Answers the fill byte of a DS.
fn space_fill(alloc: Global, fill: Option<&Tree>, names: &Names) -> Result<Filling, StmtFault>
    requires { IfSome (option_copied fill) (IsDefined names.now) }
    ensures { Gives same result (space_fill names.now (option_copied fill.entry)) }
{
    match fill {
        Some(tree) => fixed(Field::Byte, settle_expr(alloc, tree, names)?),
        None => Ok(Filling::Number(0)),
    }
}

/// Answers the space if its size is known. Size 0 makes nothing.
fn sized(size: Option<u16>, fill: Filling) -> Made
    ensures { made_of result ≡ space_of_size size fill }
{
    match (size, fill) {
        (Some(0), _) => Made::Nothing,
        (Some(size), Filling::Number(fill)) => Made::Piece(Piece::Space {
            size,
            fill: (fill % 256) as u8,
        }),
        _ => Made::Unknown,
    }
}

/// Answers what DS makes.
pub(crate) fn space(
    alloc: Global,
    size: &Tree,
    fill: Option<&Tree>,
    names: &Names,
) -> Result<Made, StmtFault>
    requires size { IsDefined names.now size.now }
    requires fill { IfSome (option_copied fill) (IsDefined names.now) }
    ensures { Gives made_of result (space_made names.now size.now (option_copied fill.entry)) }
{
    let settled = space_size(alloc, size, names)?;
    let fill = space_fill(alloc, fill, names)?;
    Ok(sized(number_in(&settled), fill))
}

/// Whether an expression is 0100H, or may be because its value is not known.
fn is_origin(settled: &Settled) -> bool
    ensures { result ≡ is_origin settled.now }
{
    match settled {
        Settled::Known(expr) => number(expr).is_some_and(|place| u32::from(place) == FIRST_PLACE),
        Settled::Unknown(what) => matches!(what, Unknown::Anything | Unknown::Number),
    }
}

/// Answers what ORG makes.
pub(crate) fn origin(alloc: Global, tree: &Tree, names: &Names) -> Result<Made, StmtFault>
    requires { IsDefined names.now tree.now }
    ensures { Gives made_of result (origin names.now tree.now) }
{
    let settled = settle_expr(alloc, tree, names)?;
    if names.here() == 0 && is_origin(&settled) {
        Ok(Made::Nothing)
    } else {
        Err(StmtFault::BadOrg)
    }
}
