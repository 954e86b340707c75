//! Says what is wrong with a line that cannot be cut into tokens, or with an operand that is not an expression, and what to write instead.
#![tactic(auto)]

mod apart;
mod registers;
mod scanning;
mod syntax;

pub use apart::goes;
pub use registers::current_address;
pub use scanning::{hexadecimal, too_long, unscanned};
pub use syntax::no_expression;
