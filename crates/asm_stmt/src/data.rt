//! What DB and DW make: fields, one after the other.

ghost use Rattle.std.specs.Prelude.{◌≡◌, ◌&&◌, ◌++◌, All, List, OnOk, map};
ghost use Rattle.asm_spell.specs.Faults.{Gives};
ghost use Rattle.asm_spell.specs.Line.{value_of};
ghost use Rattle.asm_stmt.specs.declared.cell.Cell.{Cell};
ghost use Rattle.asm_stmt.specs.Cells.{hole, is_filled, number_or_0, written};
ghost use Rattle.asm_stmt.specs.Made.{IsDefined, ValueDefined, bytes_made, cells, made_of, value_cells, words_made};
ghost use Rattle.asm_stmt.specs.Private.Laying.{Lays, Puts};

use crate::cell::{Cell, Filling};
use crate::field::fill;
use crate::piece::{Made, Piece};
use asm_expr::{Names, Tree};
use asm_spell::{StmtFault, Value};
use std::alloc::{AllocError, Global};
use z80_form::Field;
use zmo_object::{Hole, Width};

/// Answers the number that a field has in the object file: 0 if its value depends on addresses.
pub(crate) fn number_or_0(filling: &Filling) -> u16
    ensures { result ≡ number_or_0 filling.now }
{
    match filling {
        Filling::Number(n) => *n,
        _ => 0,
    }
}

pub(crate) fn is_filled(filling: &Filling) -> bool
    ensures { result ≡ is_filled filling.now }
{
    !matches!(filling, Filling::Unknown)
}

/// Whether this value is known, and all values before it.
pub(crate) fn still_told(before: bool, filling: &Filling) -> bool
    ensures { result ≡ (before && is_filled filling.now) }
{
    before && is_filled(filling)
}

/// Appends a number as one or two bytes.
fn put_number(bytes: &mut Vec<u8>, width: Width, number: u16) -> Result<(), AllocError>
    ensures { OnOk result (bytes.new.items ≡ bytes.old.items ++ written width number) }
{
    match width {
        Width::Byte => {
            bytes.push((number % 256) as u8)?;
            Ok(())
        }
        Width::Word => {
            bytes.push((number % 256) as u8)?;
            bytes.push((number / 256) as u8)?;
            Ok(())
        }
    }
}

/// Appends the fix-up of a field, if the field has one.
pub(crate) fn put_hole(
    holes: &mut Vec<Hole>,
    offset: usize,
    width: Width,
    filling: Filling,
) -> Result<(), AllocError>
    ensures { OnOk result (holes.new.items ≡ holes.old.items ++ hole offset width filling) }
{
    match filling {
        Filling::Varying(value) => {
            holes.push(Hole {
                offset,
                width,
                value,
            })?;
            Ok(())
        }
        _ => Ok(()),
    }
}

/// Fields that were put one after the other.
#[derive(Drop)]
struct Laid {
    bytes: Vec<u8>,
    holes: Vec<Hole>,
    /// Whether the value of each field is known, or a fix-up stands for it.
    told: bool,
}

impl Laid {
    ghost use Rattle.std.specs.Prelude.{◌≡◌, ◌++◌, ◌∷◌, [], List, OnOk, map};
    ghost use Rattle.asm_stmt.specs.declared.cell.Cell.{Cell};
    ghost use Rattle.asm_stmt.specs.Made.{cells_made, made_of, text_cell};
    ghost use Rattle.asm_stmt.specs.Private.Laying.{Lays};

    fn new(alloc: Global) -> Laid
        ensures { Lays [] result }
    {
        Laid {
            bytes: Vec::new(alloc),
            holes: Vec::new(alloc),
            told: true,
        }
    }

    /// Appends a field.
    fn put(&mut self, cell: Cell) -> Result<(), AllocError>
        ensures { (cells : List Cell) → Lays cells self.old → OnOk result (Lays (cells ++ cell ∷ []) self.new) }
    {
        let Cell { width, filling } = cell;
        let offset = self.bytes.len();
        self.told = still_told(self.told, &filling);
        put_number(&mut self.bytes, width, number_or_0(&filling))?;
        put_hole(&mut self.holes, offset, width, filling)?;
        Ok(())
    }

    /// Appends the bytes of a string.
    fn put_text(&mut self, text: &[u8]) -> Result<(), AllocError>
        ensures { (cells : List Cell) → Lays cells self.old → OnOk result (Lays (cells ++ map text_cell text.now) self.new) }
    {
        self.bytes.extend_from_slice(text)?;
        Ok(())
    }

    /// Answers what the fields make.
    fn made(self) -> Made
        ensures { (cells : List Cell) → Lays cells self → made_of result ≡ cells_made cells }
    {
        if self.told {
            Made::Piece(Piece::Bytes {
                bytes: self.bytes,
                holes: self.holes,
            })
        } else {
            Made::Unknown
        }
    }
}

/// Appends the field of an expression.
fn put_cell(
    alloc: Global,
    laid: &mut Laid,
    width: Width,
    field: Field,
    tree: &Tree,
    names: &Names,
) -> Result<(), StmtFault>
    requires { IsDefined names.now tree.now }
    ensures { (before : List Cell) → Lays before laid.old → Puts before (cells names.now width field tree.now) result laid.new }
{
    let filling = fill(alloc, field, tree, names)?;
    laid.put(Cell { width, filling })?;
    Ok(())
}

/// Appends the fields of an item of DB.
fn put_value(alloc: Global, laid: &mut Laid, value: &Value, names: &Names) -> Result<(), StmtFault>
    requires { ValueDefined names.now (value_of value.now) }
    ensures { (before : List Cell) → Lays before laid.old → Puts before (value_cells names.now (value_of value.now)) result laid.new }
{
    match value {
        Value::Text(text) => {
            laid.put_text(text)?;
            Ok(())
        }
        Value::Byte(tree) => put_cell(alloc, laid, Width::Byte, Field::Byte, tree, names),
    }
}

/// Answers what the items of DB make.
pub(crate) fn bytes(alloc: Global, values: &[Value], names: &Names) -> Result<Made, StmtFault>
    requires { All (λ v. ValueDefined names.now (value_of v)) values.now }
    ensures { Gives made_of result (bytes_made names.now (map value_of values.entry.now)) }
{
    let mut laid = Laid::new(alloc);
    for value in values {
        put_value(alloc, &mut laid, value, names)?;
    }
    Ok(laid.made())
}

/// Answers what the items of DW make.
pub(crate) fn words(alloc: Global, fields: &[Tree], names: &Names) -> Result<Made, StmtFault>
    requires { All (IsDefined names.now) fields.now }
    ensures { Gives made_of result (words_made names.now fields.entry.now) }
{
    let mut laid = Laid::new(alloc);
    for tree in fields {
        put_cell(alloc, &mut laid, Width::Word, Field::Word, tree, names)?;
    }
    Ok(laid.made())
}
