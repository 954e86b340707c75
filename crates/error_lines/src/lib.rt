//! Finds what belongs to an error in its source: its line in tokens, the lines that define or open what it names, and whether the line assembles
//! if it is written otherwise.
#![tactic(auto)]

mod calls;
mod case;
mod cut;
mod equ;
mod hidden;
mod lines;
mod marks;
mod remark;
mod source;
mod trial;
mod worth;

pub use calls::{divided, empty_parameter, local_parameter, replaced};
pub use case::Case;
pub use cut::operands;
pub use equ::nameless_equ;
pub use hidden::{HiddenLine, Why};
pub use lines::{
    Closers, Divided, Wanted, closers_after, first_line, is_in_repetition, open_condition,
    opener_of, other_opener, word_in,
};
pub use marks::{CLOSE, COMMA, HERE, OPEN, PLUS};
pub use remark::{begin_new, is_remark};
pub use source::{Before, SourceLines};
pub use trial::{builds, do_build, may_build, mended, statement_text};
pub use worth::{Worth, distance_of, is_expression, judge, worth_of};
