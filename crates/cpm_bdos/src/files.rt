//! The functions that search, open, close, make, erase and rename files.

mod changes;
mod opening;
mod search;
mod searching;

pub use changes::{erase, make, rename};
pub use opening::{close, open};
pub use search::{Search, Sought};
pub use searching::{search_first, search_next};
