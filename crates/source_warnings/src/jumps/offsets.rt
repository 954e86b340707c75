//! Finds the addresses in an expression to which numbers are added.

ghost use Rattle.std.specs.Prelude.{◌≡◌};
ghost use Rattle.source_warnings.specs.Jumps.Offsets.{added, offset_at, term};

use asm_parse::{Atom, Binary, Item};

/// An address in an expression, and the sum of the numbers that are added to it and subtracted from it.
#[derive(Clone, Copy, Debug, PartialEq, Eq)]
pub struct Offset {
    /// The ref that stands for the address.
    pub reference: usize,
    /// The sum, modulo 65,536: from 32,768 on, the byte is before the address.
    pub bytes: u16,
}

/// Answers what a number and the operator after it add to what comes before them.
fn term(number: Item<Atom>, operator: Item<Atom>) -> Option<u16>
    ensures { result ≡ term number operator }
{
    match (number, operator) {
        (Item::Leaf(Atom::Number(n)), Item::Binary(Binary::Add)) => Some(n),
        (Item::Leaf(Atom::Number(n)), Item::Binary(Binary::Subtract)) => Some(0u16.wrapping_sub(n)),
        _ => None,
    }
}

/// Answers what the numbers at the front of some items add to what comes before them.
fn added(items: &[Item<Atom>]) -> u16
    ensures { result ≡ added items.now }
{
    let mut sum = 0u16;
    let mut rest = items;
    while let [number, operator, more @ ..] = rest {
        match term(*number, *operator) {
            Some(n) => sum = sum.wrapping_add(n),
            None => return sum,
        }
        rest = more;
    }
    sum
}

/// Answers the offset with which some items begin, if they begin with one.
pub(crate) fn offset_at(items: &[Item<Atom>]) -> Option<Offset>
    ensures { result ≡ offset_at items.now }
{
    match items {
        [Item::Leaf(Atom::Ref(reference)), rest @ ..] => Some(Offset {
            reference: usize::from(*reference),
            bytes: added(rest),
        }),
        [
            Item::Leaf(Atom::Number(n)),
            Item::Leaf(Atom::Ref(reference)),
            Item::Binary(Binary::Add),
            rest @ ..,
        ] => Some(Offset {
            reference: usize::from(*reference),
            bytes: added(rest).wrapping_add(*n),
        }),
        _ => None,
    }
}
