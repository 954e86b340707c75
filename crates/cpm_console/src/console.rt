//! Consoles.

ghost use Rattle.std.specs.Prelude.{◌≢◌, [], ◌↔◌, IsTrue};
ghost use Rattle.cpm_console.specs.Dialog.{Dialog};
ghost use Rattle.cpm_console.specs.Calls.{Gets, PutsByte};

use crate::error::ConsoleError;

/// A console: bytes that were typed and are still to be taken, and bytes that were put, one after the other.
///
/// It counts its faults: a call that succeeds leaves the number as it was, and one that fails adds one. At 2 ^ 64 - 1 the number stays.
pub trait Console {
    /// The input that is left, the output so far if it is known, and the number of the console's faults.
    ghost dialog: { Self → Dialog };

    /// Whether input is left.
    fn ready(&self) -> bool
        ensures { IsTrue result ↔ ((dialog self.now).input ≢ []) };

    /// Takes the next byte of the input.
    ///
    /// # Errors
    ///
    /// [`ConsoleError::EndOfInput`] if no input is left, [`ConsoleError::ConsoleFault`] if the console failed. Then nothing is taken.
    fn get(&mut self) -> Result<u8, ConsoleError>
        ensures { Gets (dialog self.old) (dialog self.new) result };

    /// Adds a byte to the output.
    ///
    /// # Errors
    ///
    /// [`ConsoleError::ConsoleFault`] if the console failed. Then the output is as it was, or has the byte all the same.
    fn put(&mut self, byte: u8) -> Result<(), ConsoleError>
        ensures { PutsByte (dialog self.old) (dialog self.new) byte result };
}
