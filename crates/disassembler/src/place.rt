//! Addresses, and offsets in the program.

ghost use Rattle.std.specs.Prelude.{◌≤◌, ◌-◌};
ghost use Rattle.std.specs.Option.{SomeIff};

use common::FIRST_PLACE;

/// Answers how many bytes of the program come before an address, if it is not before the program.
pub(crate) fn offset_of(address: u16) -> Option<usize>
    ensures { SomeIff result (FIRST_PLACE ≤ address) (address - FIRST_PLACE) }
{
    (address as usize).checked_sub(FIRST_PLACE as usize)
}

/// Answers the address of an offset. No offset in a program has an address above FD00H.
pub(crate) fn address_of(offset: usize) -> u16 {
    offset.saturating_add(FIRST_PLACE as usize).min(0xFFFF) as u16
}
