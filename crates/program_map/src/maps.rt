//! The map of a program, for people: its modules with what they hold, their public names, its jumps, and how many bytes are free.

mod figures;
mod kind;
mod kinds;
mod map;
mod mapping;
mod programs;
mod text;

pub use figures::Figures;
pub use kind::Kind;
pub use kinds::kinds_of;
pub use map::{ModuleMap, ProgramMap};
pub use mapping::program_map;
pub use programs::{map_of_built, map_of_linked};
pub use text::map_text;
