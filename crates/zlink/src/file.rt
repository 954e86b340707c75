//! Writes the bytes of a whole program under a choice of its short and long jumps.

mod emitting;
mod layout;
mod piece;
mod refs;

pub use emitting::emit;
pub use layout::{grown, places_of, shape_of};
