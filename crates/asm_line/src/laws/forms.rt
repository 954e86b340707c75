//! A law about how a line begins, as a function that does nothing. A caller calls it to use its clause.

ghost use Rattle.std.specs.Prelude.{◌≡◌, ◌++◌, List};
ghost use Rattle.asm_line.specs.Tokens.{Lexeme};
ghost use Rattle.asm_line.specs.Forms.{form};

/// The tokens after the head are the last tokens of the line.
pub fn rest_is_last()
    ensures { (tokens : List Lexeme) → (before : List Lexeme) × (tokens ≡ before ++ (form tokens).rest) }
{}
