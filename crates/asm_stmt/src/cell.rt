//! Fields, and what fills them. Only definitions use these types; no call answers them.

use asm_expr::Expr;
use zmo_object::Width;

/// What fills a field.
#[derive(Drop)]
pub enum Filling {
    Number(u16),
    /// An expression whose value depends on addresses.
    Varying(Expr),
    /// The value is not known, because another line has an error.
    Unknown,
}

/// A field of one or two bytes.
#[derive(Drop)]
pub struct Cell {
    pub width: Width,
    pub filling: Filling,
}
