//! Expressions whose names are replaced: lists of postfix items, and their values at given addresses; and statements in order,
//! with the distances between them.

mod arithmetic;
mod atom;
mod expr;
mod kept;
mod layout;
mod statement;
mod worth;

pub use arithmetic::{apply_binary, apply_unary};
pub use atom::Atom;
pub use expr::{Expr, MOST_ITEMS, constant, has_places, items, value, values_left};
pub use kept::{Kept, Piece, Room};
pub use layout::Layout;
pub use statement::Statement;
pub use worth::Worth;
