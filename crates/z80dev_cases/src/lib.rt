//! Makes random cases for tests: programs in the whole language, each with what its statements have to be, and random numbers. The same
//! seed gives the same case.
#![tactic(auto)]

mod case;
mod code;
mod draw;
mod expression;
mod lines;
mod macros;
mod maker;
mod program;

pub use case::{Case, Kind, Spoil, Spoiled, Stated};
pub use draw::Draw;
pub use program::random_program;
