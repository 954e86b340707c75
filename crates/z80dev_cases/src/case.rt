//! Programs, and the statements that they have to be.

use z80_instr::{Branch, Instr, ShortCond};

/// What a statement has to be. Labels are numbered. An addend is added to the address of a label modulo 65,536.
#[derive(Clone, Copy, Debug)]
pub enum Kind {
    /// An instruction with its numbers.
    Code(Instr),
    /// An instruction whose word is the address of a label plus an addend.
    Labelled(Instr, usize, u16),
    /// A `JP` that may become a `JR`.
    Jump(Option<ShortCond>, usize),
    /// A `JR` or `DJNZ` to a label.
    Short(Branch, usize),
    /// Bytes of the case's data, by the number of the first and how many they are.
    Data(usize, usize),
    /// A word that is the address of a label plus an addend.
    Place(usize, u16),
    /// The upper byte of the address of a label plus an addend, or the lower one.
    Half(bool, usize, u16),
    /// A number of equal bytes.
    Space(u16, u8),
}

/// A statement, and the line that it comes from.
#[derive(Clone, Copy, Debug)]
pub struct Stated {
    pub source: usize,
    /// From 1 on. A statement of a macro call or a REPT has the line of the call or the REPT.
    pub line: u32,
    pub kind: Kind,
}

/// What is wrong with a line.
#[derive(Clone, Copy, Debug)]
pub enum Spoil {
    UnknownWord,
    Undefined,
    ByteRange,
    OpenString,
    DivideByZero,
    BadOperands,
    BadNumber,
    NeedsLowOrHigh,
    ReservedName,
    BadOrg,
    SizeNamesLabel,
    ConditionNamesLabel,
    Stray,
    EquCircle,
    Duplicate,
}

/// The wrong line of a case.
#[derive(Clone, Copy, Debug)]
pub struct Spoiled {
    pub source: usize,
    pub line: u32,
    pub why: Spoil,
}

/// A program as its sources, and what its statements have to be.
#[derive(Debug, Drop)]
pub struct Case {
    pub texts: Vec<Vec<u8>>,
    pub statements: Vec<Stated>,
    /// For each label the number of its statement; for one at the end, the number of all statements.
    pub labels: Vec<usize>,
    pub data: Vec<u8>,
    /// The one wrong line, if there is one.
    pub spoiled: Option<Spoiled>,
}
