//! Expands a source: calls its macros, repeats its REPTs and chooses the branches of its IFs. No line that it gives defines or calls a
//! macro, or opens, divides or closes a block.
//!
//! [`Expander`] gives one line after the other, [`expand`] all at once. The current lines are those that are expanded right now: the source,
//! the body of a call or of a REPT, or a branch of an IF. They are nested: after them, expansion continues in the lines around them.
#![tactic(auto)]

mod blocks;
mod constants;
mod expander;
mod expansion;
mod fault;
mod going;
pub mod laws;
mod moves;
mod source;
mod take;
mod whole;

pub use expander::{Expander, Line};
pub use expansion::MOST_LINES;
pub use fault::MacroFault;
pub use source::source_part;
pub use take::MOST_NESTED;
pub use whole::{Expanded, ExpandedLine, expand};
