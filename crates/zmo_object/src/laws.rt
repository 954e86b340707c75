//! Laws of the definitions. A law is a function that does nothing and whose clause is a theorem: whoever calls it may use the clause.

mod fields;
mod objects;

pub use fields::one_spelling;
pub use objects::{one_module, one_text};
