//! What the commands `asm`, `link` and `build` make from the files that they read.
//!
//! [`asm`], [`link`] and [`build`] take the content of files. They answer which files are to be written and what is to be printed, and if
//! there is no file, why. [`Told`] prints why.
#![tactic(auto)]

mod answer;
mod assembling;
mod building;
mod jumps;
pub mod laws;
mod linking;
mod products;
mod warned;
mod warning;

pub use assembling::{Object, asm};
pub use building::{Made, Wanted, build};
pub use host::{Answer, Kind, NewFile};
pub use jumps::Jumps;
pub use linking::link;
pub use products::{Products, program_kinds};
pub use program_map::SymbolForm;
pub use report_texts::{
    Front, Located, Refusal, SharedFile, SourceFile, Told, bad_define, fault_of_front, front_lines,
    front_text, is_shared, locate, shared_files, sources_behind, texts_behind, why_name,
};
pub use warning::{JumpWarning, jump_warnings};
