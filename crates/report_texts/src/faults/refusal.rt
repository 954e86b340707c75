//! Why there is no file, and how it is printed.

ghost use Rattle.std.specs.Prelude.{◌≡◌};
ghost use Rattle.report_texts.specs.Faults.Refusals.{of_build, of_link, of_source};

use crate::faults::names::why_name;
use std::fmt;
use zlink::{AsmFault, BuildFault, JoinFault, LinkFault, Misfit, Why};
use zmo_object::ObjectFault;

/// Why sources or object files make no file.
#[derive(Clone, Copy, Debug, PartialEq, Eq)]
pub enum Refusal {
    /// A source has this first error.
    Source(AsmFault),
    /// A shared file has something in this line that only a source may have.
    NotShared(u32),
    /// The line of a definition from the command line has this error.
    Define(Why),
    /// An object file cannot be read.
    Object(ObjectFault),
    /// The modules cannot be joined to a program.
    Modules(JoinFault),
    /// No choice of short and long jumps fits.
    NoFit(Misfit),
    /// Memory ran out.
    NoMemory,
}

impl Refusal {
    /// Answers the refusal of a source.
    pub fn of_source(fault: AsmFault) -> Refusal
        ensures { result ≡ of_source fault }
    {
        match fault.why {
            Why::NoMemory => Refusal::NoMemory,
            _ => Refusal::Source(fault),
        }
    }

    /// Answers the refusal of modules.
    pub fn of_link(fault: &LinkFault) -> Refusal
        ensures { result ≡ of_link fault.now }
    {
        match fault {
            LinkFault::TooManyStatements => Refusal::Modules(JoinFault::TooManyStatements),
            LinkFault::BeginsNotFirst(module) => {
                Refusal::Modules(JoinFault::BeginsNotFirst(*module))
            }
            LinkFault::DefinedTwice(module, label) => {
                Refusal::Modules(JoinFault::DefinedTwice(*module, *label))
            }
            LinkFault::Unresolved(module, external) => {
                Refusal::Modules(JoinFault::Unresolved(*module, *external))
            }
            LinkFault::EntryNotFirst(module) => Refusal::Modules(JoinFault::EntryNotFirst(*module)),
            LinkFault::NoFit { why, .. } => Refusal::NoFit(*why),
            LinkFault::NoMemory => Refusal::NoMemory,
        }
    }

    /// Answers the refusal of sources.
    pub fn of_build(fault: &BuildFault) -> Refusal
        ensures { result ≡ of_build fault.now }
    {
        match fault {
            BuildFault::Asm { fault, .. } => Refusal::of_source(*fault),
            BuildFault::Link(fault) => Refusal::of_link(fault),
        }
    }
}

/// A refusal as it is printed after `error: `: an error of a source or a shared file as `PATH(LINE): NAME`, one of a definition as
/// `--define WORD: NAME`, any other by its name. A name is that of the innermost variant, with its numbers in parentheses.
#[derive(Clone, Copy, Debug, PartialEq, Eq)]
pub struct Told<'a> {
    /// The path of the file that has the error, or the word of the definition; it has no meaning for another error.
    pub path: &'a str,
    pub refusal: Refusal,
}

impl fmt::Display for Told<'_> {
    ghost use Rattle.std.specs.Prelude.{Some};
    ghost use Rattle.report_texts.specs.Faults.Refusals.{program_refusal_text};

    ghost output = { λ told. Some (program_refusal_text told.path.now told.refusal) };

    fn fmt<W: fmt::Write>(&self, f: &mut fmt::Formatter<W>) -> fmt::Result {
        match self.refusal {
            Refusal::Source(fault) => {
                let path = self.path;
                let line = fault.line;
                let name = why_name(fault.why);
                write!(f, "{path}({line}): {name}")
            }
            Refusal::NotShared(line) => {
                let path = self.path;
                write!(f, "{path}({line}): NotShared")
            }
            Refusal::Define(why) => {
                let word = self.path;
                let name = why_name(why);
                write!(f, "--define {word}: {name}")
            }
            Refusal::Object(fault) => match fault {
                ObjectFault::Magic => f.write_str("Magic"),
                ObjectFault::Truncated => f.write_str("Truncated"),
                ObjectFault::BadField(offset) => write!(f, "BadField({offset})"),
                ObjectFault::Trailing => f.write_str("Trailing"),
                ObjectFault::NoMemory => f.write_str("NoMemory"),
            },
            Refusal::Modules(fault) => match fault {
                JoinFault::TooManyStatements => f.write_str("TooManyStatements"),
                JoinFault::BeginsNotFirst(module) => write!(f, "BeginsNotFirst({module})"),
                JoinFault::DefinedTwice(module, label) => {
                    write!(f, "DefinedTwice({module},{label})")
                }
                JoinFault::Unresolved(module, external) => {
                    write!(f, "Unresolved({module},{external})")
                }
                JoinFault::EntryNotFirst(module) => write!(f, "EntryNotFirst({module})"),
                JoinFault::NoMemory => f.write_str("NoMemory"),
            },
            Refusal::NoFit(Misfit::Range(statement)) => write!(f, "Range({statement})"),
            Refusal::NoFit(Misfit::TooLarge(total)) => write!(f, "Size({total})"),
            Refusal::NoMemory => f.write_str("NoMemory"),
        }
    }
}
