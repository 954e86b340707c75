//! A warning about a source.

ghost use Rattle.std.specs.Prelude.{◌≡◌, IfOk, string_bytes};
ghost use Rattle.source_warnings.specs.Texts.{help_text, message_text, plural, printed_name};

use std::alloc::{AllocError, Global};

/// What looks like a mistake.
#[derive(Clone, Copy, Debug, PartialEq, Eq)]
pub enum Kind {
    /// The source mentions this label nowhere else.
    UnusedLabel,
    /// The source mentions this external in no other line.
    UnusedExternal,
    /// An earlier PUBLIC has the name already, in the line with this number.
    PublicAgain(u32),
    /// An earlier EXTRN has the name already, in the line with this number.
    ExternalAgain(u32),
    /// The macro has this many parameters, and the call this many arguments.
    Arguments(usize, usize),
}

/// A warning about a source.
#[derive(Debug, Drop)]
pub struct SourceWarning {
    /// The number of the line.
    pub number: u32,
    /// The line as it is written.
    pub text: Vec<u8>,
    pub kind: Kind,
    /// The name that the warning is about, in upper case.
    pub name: Vec<u8>,
}

/// Answers the ending of a word for this many.
fn plural(count: usize) -> &'static str
    ensures { result.now ≡ plural count }
{
    if count == 1 { "" } else { "s" }
}

/// Answers a name as it is printed.
fn printed_name(name: &[u8]) -> &str
    ensures { result.now ≡ printed_name name.now }
{
    str::from_utf8(name).unwrap_or("?")
}

impl SourceWarning {
    /// What looks like a mistake, in one line.
    pub fn message(&self, alloc: Global) -> Result<String, AllocError>
        ensures { IfOk result (λ text. string_bytes text ≡ message_text self.now.kind (printed_name self.now.name.items)) }
    {
        let name = printed_name(&self.name);
        match self.kind {
            Kind::UnusedLabel | Kind::UnusedExternal => {
                format!(in alloc; "`{name}` is never used")
            }
            Kind::PublicAgain(_) => format!(in alloc; "`{name}` is in PUBLIC twice"),
            Kind::ExternalAgain(_) => format!(in alloc; "`{name}` is in EXTRN twice"),
            Kind::Arguments(parameters, arguments) => {
                let one = plural(parameters);
                let other = plural(arguments);
                format!(in alloc;
                    "`{name}` has {parameters} parameter{one}, and this call has {arguments} argument{other}"
                )
            }
        }
    }

    /// What to do about it, in one line.
    pub fn help(&self, alloc: Global) -> Result<String, AllocError>
        ensures { IfOk result (λ text. string_bytes text ≡ help_text self.now.kind) }
    {
        match self.kind {
            Kind::UnusedLabel => String::from_str(
                alloc,
                "a label that no line uses may be left out",
            ),
            Kind::UnusedExternal => String::from_str(alloc, "leave out its EXTRN"),
            Kind::PublicAgain(first) | Kind::ExternalAgain(first) => {
                format!(in alloc; "line {first} has it already: leave out one of the two")
            }
            Kind::Arguments(parameters, arguments) => String::from_str(
                alloc,
                if parameters < arguments {
                    "the arguments after those are ignored"
                } else {
                    "the parameters without an argument are empty"
                },
            ),
        }
    }
}
