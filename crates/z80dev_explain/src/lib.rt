//! What the command `explain` says of sources: every error with its place, why, and what to write instead; or if there is none, the warnings
//! about jumps.
//!
//! [`explain`] answers the reports, [`print_reports`] makes the text of them, and [`explain_sources`] does both.
#![tactic(auto)]

mod adapting;
mod errors;
mod explaining;
mod front;
mod gathering;
mod shared;
mod summing;

pub use explaining::{Asked, Explained, explain};
pub use report_texts::{Files, Form, MOST_REPORTS, Report, Severity, Where, print_reports};
pub use summing::{Explanation, explain_sources};
