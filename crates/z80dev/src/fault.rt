//! Why nothing is printed.

ghost use Rattle.std.specs.Prelude.{◌≡◌, Ok, Err};
ghost use Rattle.z80dev.specs.Pipe.{status_of};
ghost use Rattle.z80dev.specs.declared.fault.Fault.TheVariants as fault;
ghost use Rattle.zlink.specs.declared.fault.LinkFault.TheVariants as link;
ghost use Rattle.zlink.specs.declared.fault.BuildFault.TheVariants as build;

use host::{FILE_FAULT, REFUSED};
use std::alloc::AllocError;
use std::fmt;
use z80dev_make::{Refusal, Told};
use zlink::{BuildFault, LinkFault};

/// The name of the one source.
pub const SOURCE_NAME: &str = "MAIN";

/// Why the file of a source is not printed.
#[derive(Debug, Drop)]
pub enum Fault {
    /// The source cannot be read or is too long, or the output cannot be written.
    File,
    /// No file can be built from the source, or memory ran out.
    Build(BuildFault),
}

impl From<BuildFault> for Fault {
    ghost from_gives = { λ refusal e. e ≡ fault.Build refusal };

    fn from(refusal: BuildFault) -> Fault {
        Fault::Build(refusal)
    }
}

impl From<AllocError> for Fault {
    ghost from_gives = { λ _ e. e ≡ fault.Build (build.Link link.NoMemory) };

    fn from(_: AllocError) -> Fault {
        Fault::Build(BuildFault::Link(LinkFault::NoMemory))
    }
}

impl Fault {
    /// Answers the exit status: 3 for a file, 1 for a source that is refused.
    pub fn status(&self) -> u8
        ensures { result ≡ status_of self.now }
    {
        match self {
            Fault::File => FILE_FAULT,
            Fault::Build(_) => REFUSED,
        }
    }
}

/// What is printed after `error: `: an error of the source as `MAIN(LINE): NAME`, any other by its name. A name is that
/// of the innermost variant, with its numbers in parentheses.
impl fmt::Display for Fault {
    ghost use Rattle.std.specs.Prelude.{Some};
    ghost use Rattle.z80dev.specs.FaultTexts.{fault_text};

    ghost output = { λ fault. Some (fault_text fault) };

    fn fmt<W: fmt::Write>(&self, f: &mut fmt::Formatter<W>) -> fmt::Result {
        match self {
            Fault::File => f.write_str("file MAIN"),
            Fault::Build(fault) => {
                let told = Told {
                    path: SOURCE_NAME,
                    refusal: Refusal::of_build(fault),
                };
                write!(f, "{told}")
            }
        }
    }
}
