//! Builds a .COM file from sources or modules, with each jump as short as it can be.
//!
//! [`build`] and [`build_with`] take sources, [`link`] takes modules. The answer comes with a sizes file and a certificate, from which
//! anyone can check that no choice of short and long jumps that fits takes fewer bytes.
//!
//! The steps of [`link`] can be called too: [`join`] makes one program of modules, and [`shape_of`], [`places_of`], [`emit`] and [`grown`]
//! make its file under a choice of short and long jumps.
#![tactic(auto)]

mod assembling;
mod building;
mod certify;
mod fault;
mod file;
pub mod laws;
mod linking;
mod origins;
mod program;
mod source;
mod symbol;

pub use asm_module::{AsmFault, MacroFault, Module, StmtFault, Why};
pub use building::{Built, build, build_with};
pub use fault::{BuildFault, LinkFault, Misfit};
pub use file::{emit, grown, places_of, shape_of};
pub use linking::{Linked, link};
pub use origins::Origin;
pub use program::{JoinFault, Links, join};
pub use source::Source;
pub use symbol::Symbol;
