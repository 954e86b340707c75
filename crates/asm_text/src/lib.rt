//! The lines of a Z80 assembler source as a macro call shows them, the blocks that begin in them, and where expansion continues
//! after each block.
#![tactic(auto)]

mod blocks;
mod book;
mod call;
mod ends;
mod following;
mod lines;
mod links;
mod matching;
mod onward;
mod open;
mod plain;
mod prepared;
mod reading;
mod signs;
mod span;
mod stretch;
mod varying;

pub use blocks::{body_of, branches_of};
pub use book::Book;
pub use call::{Call, Macro, macro_of};
pub use following::{Following, Onward};
pub use lines::Lines;
pub use links::{Branches, Links, links_of};
pub use matching::Role;
pub use onward::{behind, branch, stray};
pub use prepared::{Prepared, label_before, prepare};
pub use reading::{is_alone, put_shown, role_shown};
pub use span::Span;
pub use stretch::{Block, Choice, Place, Stretch};
pub use varying::all_stand;
