//! Laws about the linked bytes: at any addresses, those of the statements are what the lines describe. A law is a function that does
//! nothing and whose clause is a theorem.

ghost use Rattle.std.specs.Prelude.{◌≡◌, ◌<◌, ℕ, All, Bool, true, false, List, Some, None, Ok, length, map};
ghost use Rattle.std.specs.List.{list_all, list_any};
ghost use Rattle.asm_parse.specs.Expression.{postfix};
ghost use Rattle.asm_expr.specs.Below.{source_tree, value};
ghost use Rattle.asm_expr.specs.Distances.{Step, is_unsized};
ghost use Rattle.asm_expr.specs.Names.{Table, found};
ghost use Rattle.asm_expr.specs.Origins.{is_valued_item, is_valued_name};
ghost use Rattle.asm_expr.specs.declared.meaning.Meaning.{Meaning};
ghost use Rattle.asm_spell.specs.Line.{Body, ExpressionItems};
ghost use Rattle.asm_names.specs.Lines.{Taken};
ghost use Rattle.asm_names.specs.Names.{Names, kind_of_name};
ghost use Rattle.asm_names.specs.Layout.{Layout};
ghost use Rattle.asm_names.specs.Levels.{HasValue};
ghost use Rattle.asm_names.specs.Meanings.{name_meanings, table_at};
ghost use Rattle.asm_stmt.specs.Made.{Nothing, Piece, Some_piece, made};
ghost use Rattle.asm_module.specs.Layouts.Sizes.{sizes};
ghost use Rattle.asm_module.specs.Module.Stated.{first_statement_fault, numbered_statements};
ghost use Rattle.asm_module.specs.Module.Statements.{statement_by};
ghost use Rattle.asm_module.specs.Program.Lines.{AreAt, program_of_lines};
ghost use Rattle.asm_module.specs.Program.Linked.{IsSizedLike, IsLinkedPiece};
ghost use Rattle.asm_module.specs.Program.Pieces.{IsPiece, statement_size, takes};
ghost use Rattle.asm_module.specs.Program.Spelled.{IsSpelled};
ghost use Rattle.asm_module.specs.Program.Statement.{Statement, replaced_expression, stated};
ghost use Rattle.asm_module.specs.Rules.Fitting.{IsReadLine};

/// What a parsed line makes is the statement that it describes: a jump goes to the same ref, and at all addresses that grow by the known
/// sizes, the bytes linked from the module's statement are those of the described statement, and as many as it takes. With `grow`, a
/// written `JR` may be long in both. A line that makes nothing describes no statement.
pub fn pieces_at_places()
    ensures piece { (grow : Bool) (t : Table) (b : Body) (p : Piece) → IsSpelled b → made t b ≡ Ok (Some_piece p) →
        (s : Statement) × (stated grow t b ≡ Some s) × IsSizedLike (statement_by grow p) s ×
        ((places : ℕ → ℕ) → Step t.statements places → (at : ℕ) (long : Bool) (bytes : List ℕ) → All (λ b. b < 256) bytes →
        IsLinkedPiece at long places (statement_by grow p) bytes → IsPiece at long places s bytes × (length bytes ≡ takes long (statement_size s))) }
    ensures nothing { (grow : Bool) (t : Table) (b : Body) → made t b ≡ Ok Nothing → stated grow t b ≡ None }
{
    asm_spell::laws::numbered();
    z80_form::laws::fields();
    z80_form::laws::kept();
    z80_form::laws::places();
}

/// If no line has an error, each name has a value and the sizes of the statements are known, the statements of the module are those of the
/// program that the lines describe, at all addresses that grow by the sizes.
pub(super) fn statements_at_places()
    ensures { (grow : Bool) (names : Names) (t : Table) (layout : Layout) (lines : List Taken) → ((name : List ℕ) → found t name ≡ None → kind_of_name names name ≡ None) →
        ((name : List ℕ) (what : Meaning) → found t name ≡ Some what → is_valued_name (Some what) ≡ true) → list_any is_unsized t.statements ≡ false →
        All (λ l. IsReadLine l.line) lines → first_statement_fault names t layout lines ≡ None → t.statements ≡ sizes (map (λ n. n.1) (numbered_statements grow t layout lines)) →
        AreAt (map (λ n. n.1) (numbered_statements grow t layout lines)) (program_of_lines grow t layout lines) }
{
    asm_expr::laws::number_of_numbers();
    asm_expr::laws::valued();
    pieces_at_places();
}

/// An expression of a program has the value that the lines of its source give it, level by level: an EQU name that of the expression in its own
/// line. In a source without an error each name that is used has a value (`asm_names::laws::valued`).
pub fn level_by_level()
    ensures { (names : Names) (lines : List Taken) (circle : ℕ → Bool) (layout : Layout) (places : ℕ → ℕ) → Step layout.statements places →
        (at : ℕ) (e : ExpressionItems) → list_all (is_valued_item (table_at layout (name_meanings names lines circle layout) at)) (postfix (source_tree e)) ≡ true →
        HasValue names lines layout places at (source_tree e) (value places (replaced_expression (table_at layout (name_meanings names lines circle layout) at) e)) }
{
    asm_names::laws::level_by_level();
}
