//! Names the errors of sources, object files and modules as the command prints them.

mod names;
mod refusal;

pub use names::why_name;
pub use refusal::{Refusal, Told};
