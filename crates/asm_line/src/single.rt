//! Tests of single tokens.

ghost use Rattle.std.specs.Prelude.{◌≡◌};
ghost use Rattle.asm_line.specs.Tokens.{lexeme};
ghost use Rattle.asm_line.specs.Single.{is_colon, is_comma, is_name, is_word};

use crate::{Kind, Mark, Token};

/// Whether a token is a name.
pub fn is_name(token: &Token<'_>) -> bool
    ensures { result ≡ is_name (lexeme token.now) }
{
    matches!(token.kind, Kind::Name)
}

/// Whether a token is this word, in upper or lower case.
pub fn is_word(word: &[u8], token: &Token<'_>) -> bool
    ensures { result ≡ is_word word.now (lexeme token.now) }
{
    is_name(token) && token.text.eq_ignore_ascii_case(word)
}

pub(crate) fn is_colon(token: &Token<'_>) -> bool
    ensures { result ≡ is_colon (lexeme token.now) }
{
    matches!(token.kind, Kind::Mark(Mark::Colon))
}

/// Whether a token is a comma.
pub fn is_comma(token: &Token<'_>) -> bool
    ensures { result ≡ is_comma (lexeme token.now) }
{
    matches!(token.kind, Kind::Mark(Mark::Comma))
}
