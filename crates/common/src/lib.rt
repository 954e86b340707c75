//! What several layers share: the limits of programs and files, the names that no program defines, and keys for tables of names.
#![tactic(auto)]

mod limits;
mod name_key;
mod reserved;

pub use limits::{
    FIRST_PLACE, LONGEST_PROGRAM, LONGEST_TEXT, MOST_BYTES, MOST_NAMES, MOST_STATEMENTS,
};
pub use name_key::{KeyMixer, NameKey};
pub use reserved::is_reserved;
