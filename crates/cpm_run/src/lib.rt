//! Runs a program of CP/M 2.2 on the machine, with a disk and a console.
//!
//! [`start`] makes the state in which a program begins: page zero, the command tail, the program at 0100H, and the entries of the BIOS.
//! [`run`] begins in that state and runs the program to its end. [`run_traced`] does the same step by step, and keeps the steps.
#![tactic(auto)]

mod arriving;
mod asking;
mod ending;
mod fault;
pub mod laws;
mod places;
mod playing;
mod recording;
mod replaying;
mod running;
mod starting;
mod tracing;
mod turning;

pub use arriving::{Arrival, PlayEnd};
pub use cpm_bdos::Stop;
pub use cpm_console::{Came, Patience, Station, StationFault};
pub use ending::{RunEnd, Why};
pub use fault::StartFault;
pub use places::{BDOS, BIOS, bios_entry, is_finished};
pub use playing::{Played, play};
pub use recording::{ADDRESSES, Record, TraceStep, Wish};
pub use replaying::replay;
pub use running::run;
pub use starting::start;
pub use tracing::{Left, Traced, run_traced};
pub use turning::turn;
