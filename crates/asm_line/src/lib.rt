//! A line of Z80 assembler source: its tokens, how it begins, and names replaced in it.
//!
//! [`tokens`] cuts a line into tokens. [`form_of`] tells how it begins: its label, a definition by EQU or MACRO, a block word or any other
//! word, and the tokens after that. [`replace`] replaces the names in the lines of a macro's body, and [`arguments`] finds the arguments of
//! a call.
#![tactic(auto)]

mod classes;
mod commas;
mod fault;
mod forms;
pub mod laws;
mod lists;
mod number;
mod quoted;
mod replacing;
mod scan;
mod single;
mod token;

pub use classes::{begins_name, blank_len, continues_name};
pub use commas::open_behind;
pub use fault::ScanFault;
pub use forms::{BlockWord, Form, Head, form_of};
pub use lists::names;
pub use replacing::{Names, Replacements, after, arguments, replace};
pub use scan::{LONGEST_LINE, tokens};
pub use single::{is_comma, is_name, is_word};
pub use token::{Kind, Mark, Token};
