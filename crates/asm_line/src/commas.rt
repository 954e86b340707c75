//! Parentheses: a comma within them separates no operands and no arguments.

ghost use Rattle.std.specs.Prelude.{◌≡◌, ◌<◌};
ghost use Rattle.asm_line.specs.Commas.{open_behind};

use crate::{Kind, Mark, Token};

/// How many parentheses are open after a token, if `depth` are open before it. A `)` that closes none does not count.
pub fn open_behind(depth: usize, token: &Token<'_>) -> usize
    requires { depth < usize.MAX }
    ensures { result ≡ open_behind depth token.now.kind }
{
    match token.kind {
        Kind::Mark(Mark::Open) => depth + 1,
        Kind::Mark(Mark::Close) => depth.saturating_sub(1),
        _ => depth,
    }
}
