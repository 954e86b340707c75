//! Tokens that helps put into a line.

use asm_line::{Kind, Mark, Token};

/// The token `+`.
pub const PLUS: Token<'static> = Token {
    kind: Kind::Mark(Mark::Plus),
    text: b"+",
};

/// The token `(`.
pub const OPEN: Token<'static> = Token {
    kind: Kind::Mark(Mark::Open),
    text: b"(",
};

/// The token `)`.
pub const CLOSE: Token<'static> = Token {
    kind: Kind::Mark(Mark::Close),
    text: b")",
};

/// The token `,`.
pub const COMMA: Token<'static> = Token {
    kind: Kind::Mark(Mark::Comma),
    text: b",",
};

/// The token `$`.
pub const HERE: Token<'static> = Token {
    kind: Kind::Mark(Mark::Dollar),
    text: b"$",
};
