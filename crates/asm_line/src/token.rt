//! Tokens and their kinds.

ghost use Rattle.std.specs.Prelude.{◌≡◌};

/// A token that is always the same single byte.
#[derive(Clone, Copy, Debug, PartialEq, Eq)]
pub enum Mark {
    /// `,`
    Comma,
    /// `(`
    Open,
    /// `)`
    Close,
    /// `:`
    Colon,
    /// `+`
    Plus,
    /// `-`
    Minus,
    /// `*`
    Star,
    /// `/`
    Slash,
    /// `$`
    Dollar,
}

impl Mark {
    ghost use Rattle.asm_line.specs.Private.Reading.{mark_of};

    /// The mark that is this byte, if there is one.
    pub(crate) fn from_byte(byte: u8) -> Option<Mark>
        ensures { result ≡ mark_of byte }
    {
        match byte {
            b',' => Some(Mark::Comma),
            b'(' => Some(Mark::Open),
            b')' => Some(Mark::Close),
            b':' => Some(Mark::Colon),
            b'+' => Some(Mark::Plus),
            b'-' => Some(Mark::Minus),
            b'*' => Some(Mark::Star),
            b'/' => Some(Mark::Slash),
            b'$' => Some(Mark::Dollar),
            _ => None,
        }
    }
}

/// The kind of a token.
#[derive(Clone, Copy, Debug, PartialEq, Eq)]
pub enum Kind {
    /// A name: a letter, `_`, `?`, `@` or `.`, and then more of these and digits. Case does not matter.
    Name,
    /// `AF'`, in upper or lower case.
    OtherAf,
    /// A number in any base, with its value.
    Number(u16),
    /// A string in `'` or `"`. The token's text includes these quotes, and has each quote within the string doubled.
    Quoted,
    Mark(Mark),
}

/// A token: its kind, and its slice of the line.
#[derive(Clone, Copy, Debug, PartialEq, Eq)]
pub struct Token<'a> {
    pub kind: Kind,
    pub text: &'a [u8],
}
