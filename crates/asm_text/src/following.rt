//! What follows the body of a call or block, and where expansion continues.

use crate::span::Span;
use crate::stretch::{Block, Choice};

/// What follows some lines once they have been expanded, in the lines around them.
#[derive(Debug, Drop)]
pub enum Following {
    /// After the body of a call: the lines after the call.
    Rest(Span),
    /// After the first branch of an IF: the rest of that IF, and the lines after it.
    BehindFirst(Choice),
    /// After the second branch of an IF.
    BehindSecond(Choice),
    /// After one repetition of a REPT: how many are left, the number that its lines bear, and the block.
    Turns(u16, u32, Block),
}

/// Where expansion continues when a block opens, or when some lines have been expanded.
#[derive(Debug, Drop)]
pub enum Onward {
    /// Nowhere: the line with this number is misplaced.
    Stray(u32),
    /// With these lines, instead of the current ones.
    On(Span),
    /// With the lines of a body or branch, and then with what follows them.
    Into(Span, Following),
}
