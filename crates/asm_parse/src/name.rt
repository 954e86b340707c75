//! Names that a program can define.

ghost use Rattle.std.specs.Prelude.{◌≡◌, ◌↔◌, ◌&&◌, not, IsTrue};
ghost use Rattle.std.specs.List.{list_all};
ghost use Rattle.asm_line.specs.Classes.{continues_name};
ghost use Rattle.common.specs.Words.{is_reserved};
ghost use Rattle.asm_parse.specs.Names.{IsDefinable};
ghost use Rattle.asm_parse.specs.Private.Named.{is_one_name, is_upper};

use asm_line::{begins_name, continues_name};
use common::is_reserved;

/// Whether all bytes can come after the first byte of a name.
fn continues(bytes: &[u8]) -> bool
    ensures { result ≡ list_all continues_name bytes.now }
{
    bytes.iter().all(|b| continues_name(*b))
}

/// Whether the whole text is one name.
fn is_one_name(text: &[u8]) -> bool
    ensures { result ≡ is_one_name text.now }
{
    match text {
        [first, rest @ ..] => begins_name(*first) && continues(rest),
        [] => false,
    }
}

fn is_upper(text: &[u8]) -> bool
    ensures { result ≡ is_upper text.now }
{
    text.iter().all(|b| b.to_ascii_uppercase() == *b)
}

/// Whether the text passes each of the three tests.
fn passes(text: &[u8]) -> bool
    ensures { result ≡ (is_one_name text.now && is_upper text.now && not (is_reserved text.now)) }
{
    is_one_name(text) && is_upper(text) && !is_reserved(text)
}

/// Whether a program can define this name: the whole text is one name in upper case, and it is not reserved.
pub fn is_name(text: &[u8]) -> bool
    ensures { IsTrue result ↔ IsDefinable text.now }
{
    passes(text)
}
