//! Makes the statements of a module from the lines of its source, and proves that they are right: they have the sizes that were laid out,
//! keep the rules of an object file, and are at all addresses the program that the lines describe.

mod emitting;
mod fault;
mod fitting;
mod judging;
mod laying;
mod missing;
mod outlining;
mod stating;

pub use emitting::emit;
pub use fault::StateFault;
pub use judging::judge;
pub use outlining::{Outline, outline_of};
pub use stating::{Stated, state_lines};
