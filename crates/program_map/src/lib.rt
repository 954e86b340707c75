//! What is written about a linked program for people and for debuggers: its listing, its labels, its map, and why its long jumps are long.
//!
//! [`listing`] and [`symbols`] print a program that was built of sources. [`map_of_built`] makes the map of such a program, [`map_of_linked`] that
//! of a program that was linked of modules, and [`map_text`] prints it. [`symbol_file`] prints the labels of a program in a [`SymbolForm`].
//! [`find_long_jumps`] says of each long jump how far it is from being short, and which other long jumps are the reason.
#![tactic(auto)]

pub mod laws;
mod listings;
mod maps;
mod naming;
mod printing;
mod reasons;
mod symbol_files;

pub use listings::{listing, symbols};
pub use maps::{
    Figures, Kind, ModuleMap, ProgramMap, kinds_of, map_of_built, map_of_linked, map_text,
    program_map,
};
pub use naming::PlacedName;
pub use reasons::{LongJump, LongJumps, find_long_jumps, long_jumps_of};
pub use source_warnings::Site;
pub use symbol_files::{SymbolForm, symbol_file};
pub use zlink::JoinFault;
