//! Fills fields with values, and checks that each value is in the field's range.

ghost use Rattle.std.specs.Prelude.{◌≡◌, ◌∷◌, [], IfOk, true};
ghost use Rattle.std.specs.List.{AllPass};
ghost use Rattle.asm_expr.specs.Below.{source_tree, Atom};
ghost use Rattle.asm_expr.specs.Settling.{is_known};
ghost use Rattle.asm_spell.specs.Faults.{Gives};
ghost use Rattle.asm_parse.specs.declared.item.Item.{Item};
ghost use Rattle.asm_expr.specs.declared.answer.Settled.{Settled};
ghost use Rattle.asm_stmt.specs.Fields.{IsAllowed, byte, distance_filling, field_filling, fixed, is_number_unknown, number, settled_in, word_filling};
ghost use Rattle.asm_stmt.specs.Private.Filled.{filled_by};
ghost use Rattle.asm_stmt.specs.Private.Views.{same};

use crate::cell::Filling;
use asm_expr::{
    Atom, Expr, Item, Names, Offset, Room, Settled, Tree, Unknown, items, number_alone,
    offset_from_here,
};
use asm_spell::StmtFault;
use std::alloc::Global;
use z80_form::Field;
use zmo_object::ends_in_byte;

/// Answers the number if the items are just one number.
fn number_of(items: &[Item<Atom>]) -> Option<u16>
    ensures { result ≡ number items.now }
{
    match items {
        [Item::Leaf(Atom::Number(n))] => Some(*n),
        _ => None,
    }
}

/// Answers the same for an expression whose items are not one slice in memory. Such expressions are rare, and clearing the room for their
/// items takes time, so this is a function of its own, which is not inlined.
#[inline(never)]
fn number_gathered(expr: &Expr) -> Option<u16>
    ensures { result ≡ number expr.now }
{
    number_of(items(expr, &mut Room::new()))
}

/// Answers the number if the expression is just one number, or None if its value depends on addresses.
pub(crate) fn number(expr: &Expr) -> Option<u16>
    ensures { result ≡ number expr.now }
{
    match expr.side_by_side() {
        Some(list) => number_of(list),
        None => number_gathered(expr),
    }
}

/// Whether an expression without a value may turn out to be one number.
fn is_number(what: Unknown) -> bool
    ensures { result ≡ is_number_unknown what }
{
    matches!(what, Unknown::Anything | Unknown::Number)
}

/// Fills a byte: with a number in range, or with HIGH or LOW of something that depends on addresses.
fn byte(settled: Settled) -> Result<Filling, StmtFault>
    ensures { result ≡ byte settled }
{
    match settled {
        Settled::Known(expr) => match number(&expr) {
            Some(n) if Field::Byte.allows(n) => Ok(Filling::Number(n)),
            Some(_) => Err(StmtFault::ByteRange),
            None if ends_in_byte(&expr) => Ok(Filling::Varying(expr)),
            None => Err(StmtFault::NeedsLowOrHigh),
        },
        Settled::Unknown(Unknown::Varies) => Err(StmtFault::NeedsLowOrHigh),
        Settled::Unknown(_) => Ok(Filling::Unknown),
    }
}

/// Fills a word: with any value.
fn word(settled: Settled) -> Filling
    ensures { result ≡ word_filling settled }
{
    match settled {
        Settled::Known(expr) => match number(&expr) {
            Some(n) => Filling::Number(n),
            None => Filling::Varying(expr),
        },
        Settled::Unknown(_) => Filling::Unknown,
    }
}

/// Fills a field that takes only a number in its range.
pub(crate) fn fixed(field: Field, settled: Settled) -> Result<Filling, StmtFault>
    ensures { result ≡ fixed field settled }
{
    match settled {
        Settled::Known(expr) => match number(&expr) {
            Some(n) if field.allows(n) => Ok(Filling::Number(n)),
            Some(_) => Err(StmtFault::ByteRange),
            None => Err(StmtFault::NeedsNumber),
        },
        Settled::Unknown(what) => {
            if is_number(what) {
                Ok(Filling::Unknown)
            } else {
                Err(StmtFault::NeedsNumber)
            }
        }
    }
}

/// Fills the distance of a JR or DJNZ whose operand is not a name: the distance from the end of the instruction.
fn distance(offset: Offset) -> Result<Filling, StmtFault>
    ensures { result ≡ distance_filling offset }
{
    match offset {
        Offset::Number(n) => {
            let from_end = n.wrapping_sub(2);
            if Field::Distance.allows(from_end) {
                Ok(Filling::Number(from_end))
            } else {
                Err(StmtFault::ByteRange)
            }
        }
        Offset::Unknown => Ok(Filling::Unknown),
        Offset::NotConstant | Offset::Other => Err(StmtFault::ShortNeedsLabel),
    }
}

/// Fills a field other than a distance, given the value of its expression.
fn of_settled(field: Field, settled: Settled) -> Result<Filling, StmtFault>
    ensures { result ≡ filled_by field settled }
{
    match field {
        Field::Byte => byte(settled),
        Field::Word => Ok(word(settled)),
        _ => fixed(field, settled),
    }
}

/// Does the same if the value is a number.
fn of_number(field: Field, n: u16) -> Result<Filling, StmtFault>
    ensures { result ≡ filled_by field (Settled.Known (Item.Leaf (Atom.Number n) ∷ [])) }
{
    match field {
        Field::Word => Ok(Filling::Number(n)),
        _ if field.allows(n) => Ok(Filling::Number(n)),
        _ => Err(StmtFault::ByteRange),
    }
}

/// Replaces the names in an expression by what they stand for.
pub(crate) fn settle_expr(alloc: Global, tree: &Tree, names: &Names) -> Result<Settled, StmtFault>
    requires { AllPass (is_known names.now) tree.now }
    ensures { Gives same result (settled_in names.now tree.now) }
{
    Ok(asm_expr::settle(alloc, tree, names)?)
}

/// Fills a field of an instruction, or a byte or word of data.
pub(crate) fn fill(
    alloc: Global,
    field: Field,
    tree: &Tree,
    names: &Names,
) -> Result<Filling, StmtFault>
    requires { AllPass (is_known names.now) tree.now }
    ensures filled { Gives same result (field_filling names.now field tree.now) }
    ensures allowed { IfOk result (IsAllowed field) }
{
    if let Field::Distance = field {
        return distance(offset_from_here(alloc, tree, names)?);
    }
    // Most fields are just one number, which needs no list of items.
    match number_alone(tree, names) {
        Some(n) => of_number(field, n),
        None => of_settled(field, settle_expr(alloc, tree, names)?),
    }
}
