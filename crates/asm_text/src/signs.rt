//! Signs: words, and a byte, without which a line has no role.

ghost use Rattle.std.specs.Prelude.{◌≡◌};
ghost use Rattle.std.specs.List.{list_any};
ghost use Rattle.asm_text.specs.Private.Pairs.{has_pair, is_pair};
ghost use Rattle.asm_text.specs.Signs.{has_sign, is_sign, words};

use asm_line::continues_name;

/// What a line is searched for, in upper or lower case.
#[derive(Clone, Copy, Debug)]
pub(crate) enum Sign {
    /// A whole block word: IF, ENDIF, ELSE, MACRO, REPT or ENDM.
    Word,
    /// What the second token has to be if a line has a role and its first token is no block word: the word MACRO, or a colon.
    Second,
}

/// Whether a word is a sign of this kind.
fn is_sign(sign: Sign, word: &[u8]) -> bool
    ensures { result ≡ is_sign sign word.now }
{
    match sign {
        Sign::Word => {
            word.eq_ignore_ascii_case(b"IF")
                || word.eq_ignore_ascii_case(b"ENDIF")
                || word.eq_ignore_ascii_case(b"ELSE")
                || word.eq_ignore_ascii_case(b"MACRO")
                || word.eq_ignore_ascii_case(b"REPT")
                || word.eq_ignore_ascii_case(b"ENDM")
        }
        Sign::Second => word.eq_ignore_ascii_case(b"MACRO"),
    }
}

/// Whether two lower-case letters are one of the pairs IF, LS, CR, PT and DM. Each block word contains one of them: IF and ENDIF
/// contain IF, ELSE contains LS, MACRO contains CR, REPT contains PT, and ENDM contains DM.
fn is_pair(a: u8, b: u8) -> bool
    ensures { result ≡ is_pair a b }
{
    // Matches the second letter first, since most bytes are none of these five.
    match b {
        b'f' => a == b'i',
        b's' => a == b'l',
        b'r' => a == b'c',
        b't' => a == b'p',
        b'm' => a == b'd',
        _ => false,
    }
}

/// Whether a line contains one of these pairs of letters, in upper or lower case. If it contains none, it contains no block word.
fn has_pair(text: &[u8]) -> bool
    ensures { result ≡ has_pair text.now }
{
    let mut before = 0;
    for byte in text {
        let small = byte.to_ascii_lowercase();
        if is_pair(before, small) {
            return true;
        }
        before = small;
    }
    false
}

/// Whether a word of a line is a sign of this kind. Most lines have none of the pairs of letters, and searching for these takes
/// half as long as cutting the line into words.
fn has_word(sign: Sign, text: &[u8]) -> bool
    ensures { result ≡ list_any (is_sign sign) (words text.now) }
{
    if !has_pair(text) {
        return false;
    }
    text.split(|byte| !continues_name(*byte))
        .any(|word| is_sign(sign, word))
}

/// Whether a line or argument contains a sign of this kind. Most lines without a role contain none, and searching for one costs
/// much less than cutting the line into tokens.
pub(crate) fn has_sign(sign: Sign, text: &[u8]) -> bool
    ensures { result ≡ has_sign sign text.now }
{
    match sign {
        Sign::Word => has_word(sign, text),
        Sign::Second => has_word(sign, text) || text.contains(&b':'),
    }
}
