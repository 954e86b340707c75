//! Laws about sources and their statements. A law is a function that does nothing and whose clause is a theorem: whoever calls it may use
//! the clause.

mod answer;
mod layout;
mod module;
mod program;
mod rules;
mod source;

pub use answer::one_answer;
pub use layout::kinds_anywhere;
pub use module::all_found;
pub use program::{level_by_level, pieces_at_places};
pub use rules::pieces_keep_rules;
pub(crate) use source::{emitted, outlined};
