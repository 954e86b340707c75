//! What a line that is typed to the debugger means.
//!
//! [`command_of`] reads a line as a [`Command`], or says why it is refused. [`refusal_line`] is what is printed then. [`HELP`] is the list
//! of the commands.
#![tactic(auto)]

mod command;
mod help;
mod refusal;
mod verb;
mod words;

pub use command::{Command, Reading, command_of};
pub use help::{HELP, put_help};
pub use refusal::{Refusal, Refused, refusal_line};
pub use verb::Verb;
