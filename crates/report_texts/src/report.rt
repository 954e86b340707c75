//! Reports of errors and warnings.

use crate::{Front, SourceFile};
use message_texts::{Note, Place};

/// How grave a report is.
#[derive(Clone, Copy, Debug, PartialEq, Eq)]
pub enum Severity {
    /// There is no program because of it.
    Error,
    /// There is a program, which may not do what its writer meant.
    Warning,
    /// It says something about the program that is no fault.
    Note,
}

/// What comes before each source, and the sources: the files that reports name.
#[derive(Clone, Copy, Debug)]
pub struct Files<'s, 'f> {
    pub front: Front<'f>,
    pub sources: &'s [SourceFile<'f>],
}

/// A part of a line of a source after the front. Lines are counted from the first line of the front.
#[derive(Debug, Drop)]
pub struct Where {
    /// The number of the source, from 0.
    pub source: usize,
    /// The line by which building reports this. In a macro it is that of the outermost call.
    pub reported: u32,
    /// The line in which it is written, and which is printed as its own file counts it. In a macro it is a line of the body.
    pub written: u32,
    /// The byte of that line where the part begins, from 1.
    pub column: usize,
    /// The line as it is assembled, with the arguments of a call in place of its parameters.
    pub text: Vec<u8>,
    /// Which part of it.
    pub place: Place,
}

/// What is wrong, and where.
#[derive(Debug, Drop)]
pub struct Report {
    pub severity: Severity,
    /// None if it is about the program as a whole.
    pub at: Option<Where>,
    /// What is wrong. Empty in an error that is only counted: the texts of those after the hundredth are not made, unless all are printed or the
    /// error is written in the front.
    pub text: String,
    /// The name of the error, as a refusal prints it. Empty for a warning.
    pub name: String,
    /// What to write instead, and what else belongs to the error.
    pub notes: Vec<Note>,
}
