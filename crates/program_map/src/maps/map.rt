//! What a map holds.

use crate::maps::figures::Figures;
use crate::naming::PlacedName;

/// A module in a map.
#[derive(Debug, Drop, PartialEq, Eq)]
pub struct ModuleMap {
    pub name: Vec<u8>,
    /// The address of its first byte.
    pub first: u32,
    /// The address after its last byte.
    pub end: u32,
    pub figures: Figures,
    /// The names that other modules may use, by address. Those of one address are in the order of the module.
    pub publics: Vec<PlacedName>,
}

/// The map of a program.
#[derive(Debug, Drop, PartialEq, Eq)]
pub struct ProgramMap {
    /// Whether data and code are counted apart. If they are not, the bytes of both count as code.
    pub tells_data: bool,
    pub modules: Vec<ModuleMap>,
    /// The bytes and the jumps of all modules.
    pub total: Figures,
    /// The address after the last byte of the program.
    pub end: u32,
}
