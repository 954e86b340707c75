//! Laws about the rules of object files, which the statements keep. A law is a function that does nothing and whose clause is a theorem.

ghost use Rattle.std.specs.Prelude.{◌≡◌, ◌<◌, ℕ, All, Bool, List, Some, Ok, map};
ghost use Rattle.asm_expr.specs.Names.{AreCounted, Table, found};
ghost use Rattle.asm_expr.specs.Origins.{AllBring, Brings};
ghost use Rattle.asm_expr.specs.declared.meaning.Meaning.{Meaning};
ghost use Rattle.asm_spell.specs.Line.{Body};
ghost use Rattle.asm_names.specs.Lines.{Taken};
ghost use Rattle.asm_names.specs.Layout.{Layout, next_at};
ghost use Rattle.asm_stmt.specs.Made.{Piece, Some_piece, made};
ghost use Rattle.zmo_object.specs.Rules.{IsModuleStatement};
ghost use Rattle.asm_module.specs.Module.Stated.{numbered_statements};
ghost use Rattle.asm_module.specs.Program.Spelled.{IsSpelled};
ghost use Rattle.asm_module.specs.Rules.Fitting.{FitsWord, IsReadLine};
ghost use Rattle.asm_module.specs.Rules.Piece.{KeepsPieceRules};

/// The piece of a parsed line keeps the rules of an object file, given its number of refs, if `$` and the names bring only refs below that.
pub fn pieces_keep_rules()
    ensures { (t : Table) (b : Body) (p : Piece) (refs : ℕ) → AreCounted t → AllBring (λ r. r < refs) t → IsSpelled b → made t b ≡ Ok (Some_piece p) →
        KeepsPieceRules refs p }
{
    asm_expr::laws::worth_of_settled();
    asm_expr::laws::no_other_refs();
    asm_spell::laws::numbered();
    z80_form::laws::fields();
    z80_form::laws::kept();
    z80_form::laws::places();
}

/// The statements of parsed lines keep the rules of an object file, given its number of refs, if `$` and the names bring only refs below
/// that and the size of space fits a word.
pub(super) fn statements_keep_rules()
    ensures { (grow : Bool) (t : Table) (layout : Layout) (lines : List Taken) (refs : ℕ) → AreCounted t → ((at : ℕ) → next_at layout at < refs) →
        ((name : List ℕ) (what : Meaning) → found t name ≡ Some what → Brings (λ r. r < refs) what) → All (λ l. IsReadLine l.line) lines →
        All FitsWord (map (λ n. n.1) (numbered_statements grow t layout lines)) → All (IsModuleStatement grow refs) (map (λ n. n.1) (numbered_statements grow t layout lines)) }
{
    pieces_keep_rules();
    asm_stmt::laws::few();
}
