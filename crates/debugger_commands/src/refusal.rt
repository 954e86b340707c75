//! Why a line is refused.

ghost use Rattle.std.specs.Prelude.{◌≡◌, ◌++◌, IfOk};
ghost use Rattle.debugger_commands.specs.Typed.{refusal_line, shown_word, usage_line};

use crate::verb::Verb;
use state_text::put_characters;
use std::alloc::{AllocError, Global};

/// Why a line is refused.
#[derive(Clone, Copy, Debug, PartialEq, Eq)]
pub enum Refusal {
    /// The first word is not a command.
    Command,
    /// The command has another form.
    Usage(Verb),
    /// The word is not a label or an address.
    Address,
    /// The word is not a number of turns.
    Turns,
    /// The word is not a number of bytes or instructions.
    Number,
    /// The word is 0, and a watch is of at least one byte.
    NoBytes,
    /// No register is before the `=` of a condition.
    Register,
    /// No value is after the `=` of a condition.
    Value,
    /// The register of a condition has one byte, and the value is above 255.
    OneByte,
}

/// The word that is wrong, and why.
pub type Refused<'a> = (&'a [u8], Refusal);

fn named(alloc: Global, word: &[u8], reason: &[u8]) -> Result<Vec<u8>, AllocError>
    ensures { IfOk result (λ text. text.items ≡ shown_word word.now ++ reason.now) }
{
    let mut text = Vec::new(alloc);
    put_characters(word, &mut text)?;
    text.extend_from_slice(reason)?;
    Ok(text)
}

fn usage(alloc: Global, verb: Verb) -> Result<Vec<u8>, AllocError>
    ensures { IfOk result (λ text. text.items ≡ usage_line verb) }
{
    let mut text = Vec::new(alloc);
    text.extend_from_slice(b"usage: ")?;
    text.extend_from_slice(verb.name())?;
    text.extend_from_slice(verb.arguments())?;
    text.extend_from_slice(b"\n")?;
    Ok(text)
}

/// The line that is printed for a line that is refused.
pub fn refusal_line(alloc: Global, refused: Refused<'_>) -> Result<Vec<u8>, AllocError>
    ensures { IfOk result (λ text. text.items ≡ refusal_line (refused.entry.0.now, refused.entry.1)) }
{
    let (word, why) = refused;
    match why {
        Refusal::Usage(verb) => usage(alloc, verb),
        Refusal::Command => named(alloc, word, b": not a command; try help\n"),
        Refusal::Address => named(
            alloc,
            word,
            b": not a label or an address, such as START+5, HL, 0125 or 125H\n",
        ),
        Refusal::Turns => named(
            alloc,
            word,
            b": not a decimal number up to 18446744073709551615\n",
        ),
        Refusal::Number => named(alloc, word, b": not a number up to 65535\n"),
        Refusal::NoBytes => named(alloc, word, b": watch needs at least one byte\n"),
        Refusal::Register => named(alloc, word, b": no register before =\n"),
        Refusal::Value => named(
            alloc,
            word,
            b": after = a number up to 65535 is needed, such as 5BH, 005B or 91, or a label\n",
        ),
        Refusal::OneByte => named(
            alloc,
            word,
            b": a register of one byte, so the value is at most 255\n",
        ),
    }
}
