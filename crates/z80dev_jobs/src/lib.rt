//! The command `z80dev` over any host: which files it reads, what it makes of them, what it writes, prints and reports, and its exit status.
//!
//! [`command`] does all that the words ask for. A [`Host`] is what it works on: files by their paths, and the three standard streams.
//! [`MemoryFiles`] keeps files in memory, and [`FailingFiles`] lets some calls of files fail.
#![tactic(auto)]

mod dispatch;
mod explaining;
mod runs;
mod tips;
mod values;
mod words;

pub use dispatch::command;
pub use host::{Ended, FailingFiles, Failure, Host, MemoryFiles, Written};
pub use runs::{debug_job, play_job, run_job};
pub use words::{WordsFault, texts_of};
