//! The functions that read and write records of files, and those that give the size of a file and the number of a record.

mod entries;
mod numbers;
mod place;
mod random;
mod sequential;

pub use numbers::{set_random, size};
pub use place::Place;
pub use random::{read_at, write_at};
pub use sequential::{read_next, write_next};
