//! Of each long jump of a program: how far it is from being short, and which other long jumps are the reason.

mod gathering;
mod long_jumps;
mod places;
mod program;

pub use long_jumps::{LongJump, long_jumps_of};
pub use program::{LongJumps, find_long_jumps};
