//! Laws about statements, as functions that do nothing. A caller calls one to use its clauses.

ghost use Rattle.std.specs.Prelude.{◌≡◌, ◌≤◌, ◌↔◌, length, true, ◌∷◌, ◌++◌, [], ℕ, List, Option, Some, Ok, All};
ghost use Rattle.asm_line.specs.declared.scan.TheConstants.{LONGEST_LINE};
ghost use Rattle.asm_line.specs.Tokens.{Lexeme, doubled};
ghost use Rattle.asm_line.specs.Scanned.{scanned};
ghost use Rattle.asm_line.specs.Forms.{form};
ghost use Rattle.z80_instr.specs.declared.Instr.{Instr};
ghost use Rattle.z80_form.specs.declared.field.Field.{Field};
ghost use Rattle.asm_spell.specs.Cuts.{AreCut, IsClosed};
ghost use Rattle.asm_spell.specs.Directives.{content};
ghost use Rattle.asm_spell.specs.Few.{IsFew};
ghost use Rattle.asm_spell.specs.Line.{Body, Code, ExpressionItems, Line, Statement};
ghost use Rattle.asm_parse.specs.Names.{IsDefinable};
ghost use Rattle.asm_spell.specs.Names.{line_names, line_targets};
ghost use Rattle.asm_spell.specs.Operands.{closed_by_last, pieces};
ghost use Rattle.asm_spell.specs.Numbered.{FillFields, IsNumbered};
ghost use Rattle.asm_spell.specs.Spelling.{spelled};

/// The content of a string is what is between its quotes. A quote within it is doubled.
pub fn content()
    ensures { (quote : ℕ) (bytes : List ℕ) → content (quote ∷ doubled quote bytes ++ quote ∷ []) ≡ bytes }
{}

/// An instruction of a line has zeros in place of its numbers, and an expression for each of its fields. Only the displacement of
/// `(IX)` or `(IY)` may have none.
pub fn numbered()
    ensures operands { (tokens : List Lexeme) (label : Option (List ℕ)) (instr : Instr) (numbers : List (Field × ExpressionItems)) →
        spelled tokens ≡ Ok (Statement label (Some (Code instr numbers))) → IsNumbered (form tokens).rest instr numbers }
    ensures fields { (tokens : List Lexeme) (label : Option (List ℕ)) (instr : Instr) (numbers : List (Field × ExpressionItems)) →
        spelled tokens ≡ Ok (Statement label (Some (Code instr numbers))) → FillFields instr numbers }
{
    z80_form::laws::spelled();
    z80_form::laws::fields();
}

/// A program can define each name that a line defines or passes on, and each name that is the target of its jump.
pub fn names()
    ensures defined { (line : List ℕ) (tokens : List Lexeme) (found : Line) → scanned line ≡ Ok tokens → spelled tokens ≡ Ok found →
        All IsDefinable (line_names found) }
    ensures targets { (line : List ℕ) (tokens : List Lexeme) (found : Line) → scanned line ≡ Ok tokens → spelled tokens ≡ Ok found →
        All IsDefinable (line_targets found) }
{
    asm_line::laws::scanned();
    asm_parse::laws::parsed();
}

/// The names of a line have 255 bytes at most, as the line itself does. Its DB or DW takes from 1 to 65,535 bytes.
pub fn few()
    ensures names { (line : List ℕ) (tokens : List Lexeme) (found : Line) → scanned line ≡ Ok tokens → spelled tokens ≡ Ok found →
        All (λ name. length name ≤ LONGEST_LINE) (line_names found) }
    ensures targets { (line : List ℕ) (tokens : List Lexeme) (found : Line) → scanned line ≡ Ok tokens → spelled tokens ≡ Ok found →
        All (λ name. length name ≤ LONGEST_LINE) (line_targets found) }
    ensures data { (line : List ℕ) (tokens : List Lexeme) (label : Option (List ℕ)) (body : Body) → scanned line ≡ Ok tokens →
        spelled tokens ≡ Ok (Statement label (Some body)) → IsFew body }
{
    asm_line::laws::scanned();
    asm_parse::laws::parsed();
}

/// Operands are the pieces that commas outside of parentheses separate, and no others.
pub fn cut()
    ensures is { (depth : ℕ) (tokens : List Lexeme) → AreCut depth tokens (pieces depth tokens) }
    ensures only { (depth : ℕ) (tokens : List Lexeme) (cut : List (List Lexeme)) → AreCut depth tokens cut → cut ≡ pieces depth tokens }
{}

/// The partner of a parenthesis is the token that closes what is open.
pub fn enclosed()
    ensures { (depth : ℕ) (tokens : List Lexeme) → (closed_by_last depth tokens ≡ true) ↔ IsClosed depth tokens }
{}
