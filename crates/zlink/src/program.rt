//! Joins modules to one program: finds the statement that each name stands for, or the first error of the modules together.

mod checks;
mod fault;
mod joining;
mod publics;

pub use fault::JoinFault;
pub use joining::{Links, join};
