//! Makes calls that take an expression.

use crate::table::table;
use asm_expr::{Names, Room, Settled, Tree, constant, is_defined, items, parse, settle};
use asm_line::tokens;
use std::alloc::Global;
use std::io::Write;

/// The tree of an expression; None after it has written why there is none.
fn tree_of<W: Write>(
    alloc: Global,
    out: &mut W,
    text: &[u8],
) -> Result<Option<Tree>, anyhow::Error> {
    match tokens(alloc, text) {
        Ok(tokens) => match parse(alloc, &tokens) {
            Ok(tree) => return Ok(Some(tree)),
            Err(fault) => write!(out, "{fault:?}")?,
        },
        Err(fault) => write!(out, "{fault:?}")?,
    }
    Ok(None)
}

/// Writes the number of items in an expression, or its error.
pub(crate) fn answer_parse<W: Write>(
    alloc: Global,
    out: &mut W,
    text: &[u8],
) -> Result<(), anyhow::Error> {
    if let Some(tree) = tree_of(alloc, out, text)? {
        write!(out, "{} items", tree.items().len())?;
    }
    Ok(())
}

/// Writes the value of an expression, or the number of its items, or its error.
fn show_settled<W: Write>(
    alloc: Global,
    out: &mut W,
    tree: &Tree,
    names: &Names,
) -> Result<(), anyhow::Error> {
    if !is_defined(tree, names) {
        return Ok(write!(out, "Undefined")?);
    }
    match settle(alloc, tree, names) {
        Ok(Settled::Known(expr)) => match constant(&expr) {
            Some(number) => write!(out, "{number}")?,
            None => write!(out, "{} items", items(&expr, &mut Room::new()).len())?,
        },
        Ok(Settled::Unknown(_)) => write!(out, "unknown")?,
        Err(fault) => write!(out, "{fault:?}")?,
    }
    Ok(())
}

/// Writes an expression after its names are replaced.
pub(crate) fn answer_settle<W: Write>(
    alloc: Global,
    out: &mut W,
    text: &[u8],
) -> Result<(), anyhow::Error> {
    let Ok(names) = table(alloc) else {
        return Ok(write!(out, "NoMemory")?);
    };
    match tree_of(alloc, out, text)? {
        Some(tree) => show_settled(alloc, out, &tree, &names),
        None => Ok(()),
    }
}
