//! Shows bytes of a source in one line of printable ASCII.

ghost use Rattle.std.specs.Prelude.{◌≡◌, ◌≤◌, ◌<◌, IfOk, OnOk, string_bytes};
ghost use Rattle.message_texts.specs.Texts.{IsOneLine};

use asm_line::{Kind, Mark, Token};
use std::alloc::{AllocError, Global};

/// The hexadecimal digit of a number below 16.
fn digit(number: u8) -> u8
    requires { number < 16 }
    ensures { 32 ≤ result × result < 127 }
{
    if number < 10 {
        b'0' + number
    } else {
        b'A' + (number - 10)
    }
}

/// Appends a printable byte.
fn put_plain(text: &mut String, byte: u8) -> Result<(), AllocError>
    requires low { 32 ≤ byte }
    requires high { byte < 127 }
    requires line { IsOneLine (string_bytes text.old) }
    ensures { OnOk result (IsOneLine (string_bytes text.new)) }
{
    text.push(char::from(byte))
}

/// Appends a byte as it is shown: itself, or `[E9H]` if it is not printable.
fn put_shown(text: &mut String, byte: u8) -> Result<(), AllocError>
    requires { IsOneLine (string_bytes text.old) }
    ensures { OnOk result (IsOneLine (string_bytes text.new)) }
{
    if byte >= b' ' && byte < 127 {
        return put_plain(text, byte);
    }
    put_plain(text, b'[')?;
    put_plain(text, digit(byte / 16))?;
    put_plain(text, digit(byte % 16))?;
    put_plain(text, b'H')?;
    put_plain(text, b']')
}

/// Shows bytes in one line. A byte that is not printable ASCII is shown in hexadecimal: `[E9H]`.
pub fn shown(alloc: Global, bytes: &[u8]) -> Result<String, AllocError>
    ensures { IfOk result (λ text. IsOneLine (string_bytes text)) }
{
    let mut text = String::new(alloc);
    for byte in bytes {
        put_shown(&mut text, *byte)?;
    }
    Ok(text)
}

/// Whether a blank is written between two tokens, one after the other.
fn are_apart(before: &Token<'_>, after: &Token<'_>) -> bool {
    is_word(before) && is_word(after)
}

/// Whether a token is a name or a number, so that another one cannot follow without a blank.
fn is_word(token: &Token<'_>) -> bool {
    !matches!(token.kind, Kind::Mark(_))
}

/// Shows tokens, with a blank between two words and after a colon.
///
/// # Errors
///
/// `AllocError` if memory ran out.
pub fn joined(alloc: Global, tokens: &[Token<'_>]) -> Result<String, AllocError> {
    let mut bytes = Vec::new(alloc);
    let mut before: Option<Token<'_>> = None;
    for token in tokens {
        if let Some(last) = before {
            if are_apart(&last, token) || matches!(last.kind, Kind::Mark(Mark::Colon)) {
                bytes.push(b' ')?;
            }
        }
        bytes.extend_from_slice(token.text)?;
        before = Some(*token);
    }
    shown(alloc, &bytes)
}
