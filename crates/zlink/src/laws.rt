//! Laws of the definitions. A law is a function that does nothing and whose clause is a theorem: whoever calls it may use the clause.

mod answers;
mod file;
mod program;

pub use answers::{exact, one_link, shapes_agree};
pub use file::one_file;
pub use program::{laid_out, within};
