//! Reads and writes fix-ups.

ghost use Rattle.std.specs.Prelude.{◌≡◌, ◌≤◌, ◌+◌, ◌++◌, OnOk, IfOk, All};
ghost use Rattle.std.specs.List.{flat_map, list_all};
ghost use Rattle.asm_parse.specs.Values.Items.{is_within};
ghost use Rattle.zmo_object.specs.Holes.{width_size};
ghost use Rattle.zmo_object.specs.Fields.Field.{FieldGives, many};
ghost use Rattle.zmo_object.specs.Texts.{hole_text};
ghost use Rattle.zmo_object.specs.Reading.{fits_width, fitting, hole_at, are_zeros, is_place, value_at, hole_expression};

use crate::code::{width, width_code};
use crate::field::{counted, word};
use crate::field_fault::FieldFault;
use crate::postfix::expr_of;
use crate::put::{put_byte, put_expr, put_word};
use crate::room::room;
use crate::{Expr, Hole, Width, ends_in_byte};
use asm_parse::has_places;
use std::alloc::{AllocError, Global};

fn size_of(width: Width) -> usize
    ensures { result ≡ width_size width }
{
    match width {
        Width::Byte => 1,
        Width::Word => 2,
    }
}

/// Appends a fix-up.
fn put_hole(text: &mut Vec<u8>, hole: &Hole) -> Result<(), AllocError>
    requires { hole.now.offset ≤ 65_535 }
    ensures { OnOk result (text.new.items ≡ text.old.items ++ hole_text hole.now) }
{
    put_word(text, hole.offset as u16)?;
    put_byte(text, width_code(hole.width))?;
    put_expr(text, &hole.value)?;
    Ok(())
}

/// Appends fix-ups.
pub(crate) fn put_holes(text: &mut Vec<u8>, holes: &[Hole]) -> Result<(), AllocError>
    requires { All (λ h. h.offset ≤ 65_535) holes.now }
    ensures { OnOk result (text.new.items ≡ text.old.items ++ flat_map hole_text holes.now) }
{
    for hole in holes {
        put_hole(text, hole)?;
    }
    Ok(())
}

fn is_blank(bytes: &[u8]) -> bool
    ensures { result ≡ are_zeros bytes.now }
{
    bytes.iter().all(|b| *b == 0)
}

/// Whether a fix-up of this offset and size begins at `from` or later, lies in the content, and its bytes are 0.
fn is_place(content: &[u8], from: usize, offset: usize, size: usize) -> bool
    ensures { result ≡ is_place content.now from offset size }
{
    if offset < from || size > content.len() || offset > content.len() - size {
        return false;
    }
    is_blank(&content[offset..][..size])
}

fn fits_width(width: Width, value: &Expr) -> bool
    ensures { result ≡ fits_width width value.now }
{
    match width {
        Width::Byte => ends_in_byte(value),
        Width::Word => true,
    }
}

fn is_within(refs: usize, value: &Expr) -> bool
    ensures { result ≡ list_all (is_within refs) value.now }
{
    has_places(value, refs)
}

/// Answers the expression if it fits the width and all its refs are below `refs`.
fn fitting(refs: usize, width: Width, value: Expr) -> Option<Expr>
    ensures { result ≡ fitting refs width value }
{
    if fits_width(width, &value) && is_within(refs, &value) {
        Some(value)
    } else {
        None
    }
}

/// Answers the expression that the bytes are, if it fits the width and all its refs are below `refs`.
fn value_of(
    alloc: Global,
    refs: usize,
    width: Width,
    text: &[u8],
) -> Result<Option<Expr>, AllocError>
    ensures { IfOk result (λ found. found ≡ hole_expression refs width text.now) }
{
    match expr_of(alloc, text)? {
        Some(value) => Ok(fitting(refs, width, value)),
        None => Ok(None),
    }
}

/// Reads the expression of a fix-up.
fn value(
    alloc: Global,
    refs: usize,
    width: Width,
    bytes: &[u8],
) -> Result<(Expr, &[u8]), FieldFault>
    ensures { FieldGives (λ x. (x.0, x.1.now)) result (value_at refs width bytes.now) }
{
    let (text, rest) = counted(bytes)?;
    match value_of(alloc, refs, width, text)? {
        Some(value) => Ok((value, rest)),
        None => Err(FieldFault::BadField(text.len() + rest.len())),
    }
}

/// Reads a fix-up, which may not begin before offset `from` of the content.
fn hole<'a>(
    alloc: Global,
    refs: usize,
    content: &[u8],
    from: usize,
    bytes: &'a [u8],
) -> Result<(Hole, &'a [u8]), FieldFault>
    ensures { FieldGives (λ x. (x.0, x.1.now)) result (hole_at refs content.now from bytes.now) }
{
    let (offset, rest) = word(bytes)?;
    let (width, rest) = width(rest)?;
    if !is_place(content, from, usize::from(offset), size_of(width)) {
        return Err(FieldFault::BadField(bytes.len()));
    }
    let (value, rest) = value(alloc, refs, width, rest)?;
    Ok((
        Hole {
            offset: usize::from(offset),
            width,
            value,
        },
        rest,
    ))
}

/// The fewest bytes that a fix-up takes: an offset, a width, and an expression of one leaf with its length.
const LEAST_HOLE: usize = 7;

/// Reads `count` fix-ups of a statement whose bytes are `content`.
pub(crate) fn holes<'a>(
    alloc: Global,
    refs: usize,
    content: &[u8],
    count: u16,
    bytes: &'a [u8],
) -> Result<(Vec<Hole>, &'a [u8]), FieldFault>
    ensures { FieldGives (λ x. (x.0.items, x.1.now)) result (many (hole_at refs content.now) (λ _ h. h.offset + width_size h.width) 0 count bytes.now) }
{
    let mut holes = Vec::with_capacity(alloc, room(count, LEAST_HOLE, bytes))?;
    let mut rest = bytes;
    let mut from = 0;
    for _ in 0..count {
        let (next, after) = hole(alloc, refs, content, from, rest)?;
        from = next.offset + size_of(next.width);
        holes.push(next)?;
        rest = after;
    }
    Ok((holes, rest))
}
