//! Says what is wrong with a word that is not known, or with operands that a word does not take, and what to write instead.
#![tactic(auto)]

mod exchange;
mod instead;
mod meant;
mod misfit;
mod near;
mod pattern;
mod split;
mod words;

pub use misfit::wrong_operands;
pub use near::is_near;
pub use split::with_underscore;
pub use words::unknown;
