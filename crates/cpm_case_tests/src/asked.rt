//! The file control block of a call.

use crate::model::ANY;
use cpm_bdos::Stop;
use z80dev_cases::Draw;

/// A file control block.
#[derive(Clone, Copy, Debug)]
pub(crate) struct Asked {
    pub(crate) drive: u8,
    pub(crate) name: [u8; 11],
    pub(crate) other: [u8; 11],
    /// EX, S2 and CR.
    pub(crate) place: [u8; 3],
    /// R0 to R2.
    pub(crate) random: u32,
}

const NAMES: [[u8; 11]; 5] = [
    *b"A       TXT",
    *b"B       TXT",
    *b"AB      COM",
    *b"LONGNAMEDAT",
    *b"A          ",
];

const PATTERNS: [[u8; 11]; 4] = [
    *b"???????????",
    *b"A?      TXT",
    *b"????????TXT",
    *b"?B      COM",
];

pub(crate) fn some_name(draw: &mut Draw) -> [u8; 11] {
    match NAMES.get(draw.index(NAMES.len())) {
        Some(name) => *name,
        None => *b"A       TXT",
    }
}

/// A name, or sometimes a pattern.
fn some_pattern(draw: &mut Draw, often: bool) -> [u8; 11] {
    if draw.one_in(if often { 2 } else { 12 }) {
        match PATTERNS.get(draw.index(PATTERNS.len())) {
            Some(pattern) => *pattern,
            None => *b"???????????",
        }
    } else {
        some_name(draw)
    }
}

/// EX, S2 and CR, mostly of the first three extents.
fn some_place(draw: &mut Draw) -> [u8; 3] {
    let extent = match draw.below(12) {
        0 => 31,
        1 => 32,
        _ => draw.byte() % 3,
    };
    let s2 = match draw.below(12) {
        0 => 1,
        1 => 15,
        2 => 16,
        3 => 0x41,
        _ => 0,
    };
    let current = match draw.below(8) {
        0 => 128,
        1 => 129,
        2 => 127,
        _ => draw.byte() % 20,
    };
    [extent, s2, current]
}

fn some_record(draw: &mut Draw) -> u32 {
    match draw.below(10) {
        0 => u32::from(draw.word()),
        1 => 0x1_0000 + draw.below(3),
        2 => 4090 + draw.below(12),
        3 | 4 => draw.below(600),
        _ => draw.below(30),
    }
}

/// A random file control block. Its name is a pattern more often if the call takes patterns.
pub(crate) fn some_asked(draw: &mut Draw, takes_patterns: bool) -> Asked {
    let drive = match draw.below(40) {
        0 => 2,
        1 => 16,
        2 => 17,
        _ => draw.byte() % 2,
    };
    let name = some_pattern(draw, takes_patterns);
    Asked {
        drive,
        name,
        other: some_pattern(draw, false),
        place: some_place(draw),
        random: some_record(draw),
    }
}

impl Asked {
    /// Tests the drive: 0 and 1 are drive A, and drives B to P do not exist.
    pub(crate) fn judge_drive(&self) -> Result<(), Stop> {
        match self.drive {
            0 | 1 => Ok(()),
            2..=16 => Err(Stop::UnknownDrive),
            _ => Err(Stop::BadFcb),
        }
    }

    /// Tests the drive and the name, in which no `?` is allowed.
    pub(crate) fn judge_file(&self) -> Result<(), Stop> {
        self.judge_drive()?;
        if self.name.contains(&ANY) {
            Err(Stop::BadFcb)
        } else {
            Ok(())
        }
    }

    /// Tests the drive and both names of a rename.
    pub(crate) fn judge_names(&self) -> Result<(), Stop> {
        self.judge_file()?;
        if self.other.contains(&ANY) {
            Err(Stop::BadFcb)
        } else {
            Ok(())
        }
    }
}
