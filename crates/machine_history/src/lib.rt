//! The states of a debugged run, forwards and backwards.
//!
//! [`History`] shows the state of a run after any number of turns. [`Stops`] says at which turns a run is to stop. [`record_file`] is the
//! file of the bytes that came in a session, and [`read_record`] reads it.
#![tactic(auto)]

mod calls;
mod coming;
mod history;
mod kept;
pub mod laws;
mod point;
mod recorded;
mod snapshot;
mod stops;

pub use calls::{ReturnPlace, call_place};
pub use history::{History, Outcome};
pub use point::Point;
pub use recorded::{Recorded, read_record, record_file};
pub use snapshot::Snapshot;
pub use stops::{Change, Goal, Hit, Stops, Watch};
