//! The number of a logical record, as a type that no other number is taken for.

use std::marker::Model;

/// The number of a logical record of a disk, counted from 0. The records of a file are counted for each file. In a contract it is the
/// number.
#[derive(Clone, Copy, Debug, PartialEq, Eq)]
pub struct LogicalRecord {
    number: u32,
}

impl Model for LogicalRecord {
    ghost use Rattle.std.specs.Prelude.{ℕ};

    ghost Value = { ℕ };

    ghost view = { λ r. r.number };

    ghost inverse = { λ n. record { number = n } };
}

impl LogicalRecord {
    ghost use Rattle.std.specs.Prelude.{◌≡◌};

    /// The logical record with this number.
    pub fn new(number: u32) -> LogicalRecord
        ensures { result ≡ number }
    {
        LogicalRecord { number }
    }

    pub fn number(self) -> u32
        ensures { result ≡ self }
    {
        self.number
    }
}
