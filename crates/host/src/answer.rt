//! What a command answers.

ghost use Rattle.std.specs.Prelude.{◌≡◌};
ghost use Rattle.host.specs.Answers.{ending};

use std::alloc::Global;

/// What a file holds, which says how its path ends.
#[derive(Clone, Copy, Debug, PartialEq, Eq)]
pub enum Kind {
    /// An object.
    Object,
    /// A sizes text.
    Sizes,
    /// A certificate.
    Certificate,
    /// A program, which is loaded at 0100H.
    Com,
    /// A listing.
    Listing,
    /// The labels and their places.
    Symbols,
    /// The labels as commands for the simulator ucsim.
    Ucsim,
    /// A map.
    Map,
    /// A file whose whole path was given.
    Given,
}

impl Kind {
    /// What is added to the path that the user gave: a point and the file's ending, or nothing.
    pub fn ending(self) -> &'static str
        ensures { result.now ≡ ending self }
    {
        match self {
            Kind::Object => ".zmo",
            Kind::Sizes => ".siz",
            Kind::Certificate => ".crt",
            Kind::Com => ".com",
            Kind::Listing => ".lst",
            Kind::Symbols => ".sym",
            Kind::Ucsim => ".ucsim",
            Kind::Map => ".map",
            Kind::Given => "",
        }
    }
}

/// A file that is to be written.
#[derive(Debug, Drop, PartialEq, Eq)]
pub struct NewFile {
    pub kind: Kind,
    pub bytes: Vec<u8>,
}

/// What is to be done once all is read.
#[derive(Debug, Drop, PartialEq, Eq)]
pub struct Answer<R> {
    /// The files to be written, in this order.
    pub files: Vec<NewFile>,
    /// What is printed on standard output once they are written.
    pub printed: Vec<u8>,
    /// The text that follows `error: ` on standard error.
    pub refusal: Option<R>,
}

impl<R> Answer<R> {
    ghost use Rattle.std.specs.Prelude.{[], None, Some};

    /// Nothing is made.
    pub fn refused(alloc: Global, refusal: R) -> Answer<R>
        ensures files { result.files.items ≡ [] }
        ensures printed { result.printed.items ≡ [] }
        ensures refusal { result.refusal ≡ Some refusal }
    {
        Answer {
            files: Vec::new(alloc),
            printed: Vec::new(alloc),
            refusal: Some(refusal),
        }
    }

    /// All is done.
    pub fn done(files: Vec<NewFile>, printed: Vec<u8>) -> Answer<R>
        ensures files { result.files ≡ files }
        ensures printed { result.printed ≡ printed }
        ensures refusal { result.refusal ≡ None }
    {
        Answer {
            files,
            printed,
            refusal: None,
        }
    }
}
