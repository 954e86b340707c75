//! The listing of a built program, which has the lines of its sources with their bytes, and the list of its labels.

mod cells;
mod labels;
mod lines;
mod rows;

pub use labels::symbols;
pub use lines::listing;
