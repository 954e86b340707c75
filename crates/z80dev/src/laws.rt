//! Laws of programs, as functions that do nothing. A caller calls one to use its clauses.

mod checking;
mod running;
mod sources;

pub use checking::checked;
pub use running::{code_step, held, jump_step, walk};
pub use sources::{grown_are_needed, some_answer, some_expansion, some_sources};
