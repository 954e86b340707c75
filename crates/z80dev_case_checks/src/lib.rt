//! Builds random programs of the whole language, and compares each answer with what plain code computes.
#![tactic(auto)]

mod answers;
mod choices;
mod layout;
mod listings;
mod missed;
mod reading;
mod walks;

pub use answers::{Tally, try_program};
pub use missed::Missed;
