//! Finds the file and the line of an error, also after definitions and shared files, and prints errors and reports.
//!
//! A [`Front`] is what comes before each source: definitions and shared files. A [`Told`] is an error with the path of its file, and prints
//! it. A [`Report`] is what `explain` says of an error, a warning or a long jump: [`without_repeats`] leaves out errors of shared files that an
//! earlier source has too, and [`print_reports`] makes the text of reports, with or without colours, or JSON.
#![tactic(auto)]

mod behind;
mod defining;
mod faults;
mod front;
mod json;
pub mod laws;
mod locating;
mod printing;
mod repeats;
mod report;
mod sharing;

pub use behind::{number_lines, sources_behind, sources_of, texts_behind, with_own_lines};
pub use defining::bad_define;
pub use faults::{Refusal, Told, why_name};
pub use front::{
    Front, SharedFile, SourceFile, front_lines, front_text, path_at, shared_files, text_behind,
};
pub use locating::{Located, in_its_line, locate, told_behind};
pub use printing::{Form, MOST_REPORTS, print_reports};
pub use repeats::{Seen, without_repeats};
pub use report::{Files, Report, Severity, Where};
pub use sharing::{fault_of_front, is_shared};
