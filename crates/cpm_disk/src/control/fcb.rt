//! File control blocks.

ghost use Rattle.std.specs.Prelude.{◌≡◌};
ghost use Rattle.cpm_disk.specs.Control.Fcbs.{has_question, name_judged};

use crate::control::bytes::bytes_at;
use crate::control::stop::Stop;
use cpm_image::{EX_OFFSET, NAME_OFFSET, S2_OFFSET};
use std::marker::Model;
use z80_cpu::Memory;

/// The number of bytes in a file control block. The first 32 have the fields of a directory entry, with the drive as the user.
pub const FCB_BYTES: usize = 36;

/// The offset in a file control block of the second name of a rename.
pub const NEW_NAME_OFFSET: usize = 17;

/// The offset in a file control block of CR.
pub const CR_OFFSET: usize = 32;

/// The offset in a file control block of R0.
pub const R0_OFFSET: usize = 33;

/// The offset in a file control block of R1.
pub const R1_OFFSET: usize = 34;

/// The offset in a file control block of R2.
pub const R2_OFFSET: usize = 35;

/// `?` as a byte of a name, as a drive or as EX matches any.
pub const QUESTION: u8 = 0x3F;

/// The number of the last drive, P; A is 1.
const LAST_DRIVE: u8 = 16;

/// A file control block: drive, eleven bytes of name, EX, S1, S2, RC, sixteen bytes of blocks, CR, and R0 to R2. In a contract it is the
/// list of the 36 bytes.
#[derive(Clone, Copy, Debug, PartialEq, Eq)]
pub struct Fcb {
    bytes: [u8; FCB_BYTES],
}

impl Model for Fcb {
    ghost use Rattle.std.specs.Prelude.{List, ℕ};

    ghost Value = { List ℕ };

    ghost view = { λ f. f.bytes };

    ghost inverse = { λ bs. record { bytes = bs } };
}

impl Fcb {
    ghost use Rattle.std.specs.Prelude.{◌≡◌};
    ghost use Rattle.cpm_disk.specs.Control.Fcbs.{current_of, drive_judged, drive_of, extent_of, fcb_at, file_judged, name_of, names_judged, new_name_of, random_of, overflow_of, s2_of};

    /// The file control block at an address.
    pub fn at(memory: &Memory, address: u16) -> Fcb
        ensures { result ≡ fcb_at address memory.now }
    {
        Fcb {
            bytes: bytes_at(memory, address),
        }
    }

    /// The drive: 0 for the current one, 1 and up for A and the next; `?` in a search for every entry.
    pub fn drive(&self) -> u8
        ensures { result ≡ drive_of self.now }
    {
        self.bytes[0]
    }

    pub fn name(&self) -> [u8; 11]
        ensures { result ≡ name_of self.now }
    {
        let mut name = [0; 11];
        name.copy_from_slice(&self.bytes[NAME_OFFSET..EX_OFFSET]);
        name
    }

    /// The second name of a rename, which the file gets.
    pub fn new_name(&self) -> [u8; 11]
        ensures { result ≡ new_name_of self.now }
    {
        let mut name = [0; 11];
        name.copy_from_slice(&self.bytes[NEW_NAME_OFFSET..NEW_NAME_OFFSET + 11]);
        name
    }

    /// EX.
    pub fn extent(&self) -> u8
        ensures { result ≡ extent_of self.now }
    {
        self.bytes[EX_OFFSET]
    }

    pub fn s2(&self) -> u8
        ensures { result ≡ s2_of self.now }
    {
        self.bytes[S2_OFFSET]
    }

    /// CR.
    pub fn current(&self) -> u8
        ensures { result ≡ current_of self.now }
    {
        self.bytes[CR_OFFSET]
    }

    /// R0 and R1.
    pub fn random(&self) -> u16
        ensures { result ≡ random_of self.now }
    {
        u16::from_le_bytes([self.bytes[R0_OFFSET], self.bytes[R1_OFFSET]])
    }

    /// R2.
    pub fn overflow(&self) -> u8
        ensures { result ≡ overflow_of self.now }
    {
        self.bytes[R2_OFFSET]
    }

    /// Tests the drive.
    ///
    /// # Errors
    ///
    /// [`Stop::UnknownDrive`] for drives 2 to 16, [`Stop::BadFcb`] for any other number that is not a drive.
    pub fn judge_drive(&self) -> Result<(), Stop>
        ensures { result ≡ drive_judged self.now }
    {
        match self.drive() {
            0 | 1 => Ok(()),
            2..=LAST_DRIVE => Err(Stop::UnknownDrive),
            _ => Err(Stop::BadFcb),
        }
    }

    /// Tests the drive, and then the name of a file.
    ///
    /// # Errors
    ///
    /// Those of `judge_drive`, then [`Stop::BadFcb`] for a `?` in the name.
    pub fn judge_file(&self) -> Result<(), Stop>
        ensures { result ≡ file_judged self.now }
    {
        self.judge_drive()?;
        judge_name(&self.name())
    }

    /// Tests the drive, the name of a file, and the name that it is to get.
    ///
    /// # Errors
    ///
    /// Those of `judge_file`, then [`Stop::BadFcb`] for a `?` in the second name.
    pub fn judge_names(&self) -> Result<(), Stop>
        ensures { result ≡ names_judged self.now }
    {
        self.judge_file()?;
        judge_name(&self.new_name())
    }
}

/// Tests a name, in which no `?` is allowed.
fn judge_name(name: &[u8; 11]) -> Result<(), Stop>
    ensures { result ≡ name_judged name.now }
{
    if has_question(name) {
        Err(Stop::BadFcb)
    } else {
        Ok(())
    }
}

fn has_question(name: &[u8; 11]) -> bool
    ensures { result ≡ has_question name.now }
{
    name.iter().any(|byte| *byte == QUESTION)
}
