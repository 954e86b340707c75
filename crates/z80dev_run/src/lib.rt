//! What the command `run` does with the bytes of its files and of standard input.
#![tactic(auto)]

mod coverage;
mod debugging;
mod desk;
mod ending;
mod input;
mod labels;
pub mod laws;
mod lines;
mod playing;
mod preparing;
mod profile;
mod registers;
mod reports;
mod rhythm;
mod running;
mod stopped;

pub use coverage::coverage_file;
pub use cpm_run::{Arrival, Left, PlayEnd, Record, Station, Stop, TraceStep, Why, Wish};
pub use debugger::{Broken, DebugFault, StartFault, Symbol};
pub use desk::{Desk, Keys};
pub use ending::conclude;
pub use labels::Labels;
pub use lines::trace_lines;
pub use machine_history::{Recorded, read_record, record_file};
pub use playing::PlayedRan;
pub use preparing::ready;
pub use profile::profile_file;
pub use registers::{is_lost, machine_text};
pub use reports::{TRACE_STEPS, last_lines, trace_file};
pub use running::{Ran, Ready, TracedRan};
pub use stopped::stopped_line;
pub use z80dev_disk::Refusal;
