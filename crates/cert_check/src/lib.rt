//! The certificate of a choice of short and long jumps: two files, and the check that the choice is best.
//!
//! The sizes file says what the size of a Z80 program depends on, a [`Shape`]: which statements have a fixed size, and
//! where the jumps go. The certificate names the jumps that must be long, in an order in which each is seen to be
//! forced by those before it, and then the [`Verdict`]: the fewest bytes, a jump that never reaches its target, or too
//! many bytes. Each value has one file; a file that has no value is refused with its first bad line.
//!
//! [`check`] reads both files and answers what they prove: the fewest bytes of the program, or that no choice fits,
//! because of a jump or of the size. It trusts nobody: whoever made the files, a verdict that it answers holds of every
//! choice of short and long jumps. It uses nothing of the linker, which prints its certificates by [`print_sizes`] and
//! [`print_cert`].
#![tactic(auto)]

mod cert;
mod checker;
mod fault;
mod forced;
pub mod laws;
mod layout;
mod limits;
mod lines;
mod shape;
mod sizes;
mod text_fault;
mod verdict;

pub use cert::{Cert, Verdict, print_cert, read_cert};
pub use checker::check;
pub use fault::CheckFault;
pub use limits::{FIRST_PLACE, LONGEST_PROGRAM, MOST_BYTES, MOST_STATEMENTS};
pub use shape::{Shape, Statement};
pub use sizes::{print_sizes, read_sizes};
pub use text_fault::TextFault;
