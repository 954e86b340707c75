//! Laws about lines, as functions that do nothing. A caller calls one to use its clauses.

mod forms;
mod replacing;
mod tokens;

pub use forms::rest_is_last;
pub use replacing::{by_names, front_stays, unreplaced};
pub use tokens::{one_answer, scanned, some_answer, spans};
