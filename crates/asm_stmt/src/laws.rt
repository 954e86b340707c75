//! Laws about what statements make. A law is a function that does nothing and whose clause is a theorem.

ghost use Rattle.std.specs.Prelude.{◌≡◌, ℕ, List, None, Ok, Some};
ghost use Rattle.asm_expr.specs.Names.{Table, found};
ghost use Rattle.asm_spell.specs.Few.{IsFew};
ghost use Rattle.asm_spell.specs.Line.{Body};
ghost use Rattle.asm_stmt.specs.Made.{Nothing, Piece, Some_piece, made};
ghost use Rattle.asm_stmt.specs.Sized.{IsLike, TakesFew, piece_sized, sized};

/// The size of a statement is the size of the piece that it makes, and if it makes nothing it has no size. Any two tables that give each
/// name the same kind give the statement the same size, whatever the addresses, and wherever the statement is.
pub fn sizes()
    ensures piece { (t : Table) (b : Body) (p : Piece) → made t b ≡ Ok (Some_piece p) → sized t b ≡ Some (piece_sized p) }
    ensures nothing { (t : Table) (b : Body) → made t b ≡ Ok Nothing → sized t b ≡ None }
    ensures like { (t u : Table) (b : Body) → IsLike t u → sized t b ≡ sized u b }
{
    z80_form::laws::kept();
    asm_expr::laws::by_names();
    asm_expr::laws::constant_anywhere();
}

/// A piece of bytes has 1 to 65,535 of them if the line has as many, which every line has. Space has one byte at least.
pub fn few()
    ensures { (t : Table) (b : Body) (p : Piece) → IsFew b → made t b ≡ Ok (Some_piece p) → TakesFew p }
{
    z80_form::laws::kept();
    z80_instr::laws::length();
}

/// What a statement makes depends only on what its names stand for, on `$` and on the statements of the module.
pub fn by_names()
    ensures { (t u : Table) (b : Body) → ((name : List ℕ) → found t name ≡ found u name) → t.here ≡ u.here → t.statements ≡ u.statements → made t b ≡ made u b }
{
    asm_expr::laws::by_names();
}
