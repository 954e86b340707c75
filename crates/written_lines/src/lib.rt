//! Finds where the lines of an expansion are written: the file, the line, and the calls that lead there.
#![tactic(auto)]

mod body_names;
mod cutting;
mod grouping;
mod marking;
mod placing;
mod sources;
mod statements;
mod written;

pub use body_names::BodyNames;
pub use cutting::{macro_in, tokens_of};
pub use grouping::{Again, Group, MOST_OTHERS, grouped};
pub use placing::Site;
pub use sources::{LineEnds, Sources, lines_of, mentioned};
pub use statements::Expansions;
pub use written::{Trace, Traces, traced};
