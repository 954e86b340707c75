//! An address, and the value that a register is to have there.

use crate::registers::RegisterName;

/// A value that a register is to have.
#[derive(Clone, Copy, Debug, PartialEq, Eq)]
pub struct Condition {
    pub register: RegisterName,
    pub value: u16,
}

/// An address, and what is to hold when PC is there.
#[derive(Clone, Copy, Debug, PartialEq, Eq)]
pub struct Breakpoint {
    pub address: u16,
    pub condition: Option<Condition>,
}
