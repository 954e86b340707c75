//! Laws about maps, and about the reasons of long jumps. A law is a function that does nothing and whose clause is a theorem: whoever
//! calls it may use the clause.

mod reasons;
mod sums;

pub use reasons::{one_reason, suffices};
pub use sums::adds_up;
