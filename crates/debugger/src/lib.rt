//! A debugger for programs of CP/M 2.2 that goes forwards and backwards.
//!
//! [`debug`] debugs a program: it reads commands and prints the answers. [`History`] shows the state of a run after any number of turns. [`Session`] answers commands, a line each.
#![tactic(auto)]

mod conversation;
mod debugging;
pub mod laws;
mod session;
mod setting;
mod text;

pub use conversation::{Broken, MOST_READS, converse};
pub use cpm_run::{Arrival, StartFault, Why};
pub use debugger_commands::{Command, Refusal, Verb};
pub use debugging::{DebugFault, Program, debug};
pub use machine_history::{
    Change, Goal, History, Hit, Outcome, Point, ReturnPlace, Snapshot, Stops, Watch,
};
pub use session::{MOST_TURNS, Session};
pub use state_text::{
    Breakpoint, Condition, Labels, RegisterName, Symbol, put_blanks, put_column, put_label,
    put_memory, put_number, put_registers, put_word,
};
