//! Laws about cutting a line, as functions that do nothing. A caller calls one to use its clauses.

ghost use Rattle.std.specs.Prelude.{◌≡◌, ℕ, List, Result};
ghost use Rattle.asm_line.specs.Types.{ScanFault};
ghost use Rattle.asm_line.specs.Tokens.{Lexeme};
ghost use Rattle.asm_line.specs.Lines.{AreSpans, Cut, Scans};
ghost use Rattle.asm_line.specs.Scanned.{scanned};

/// A line has at most one answer: one list of tokens, or one error.
pub fn one_answer()
    ensures { (line : List ℕ) (a b : Result (List Lexeme) ScanFault) → Scans line a → Scans line b → a ≡ b }
{}

/// Every line has an answer.
pub fn some_answer()
    ensures { (line : List ℕ) → (answer : Result (List Lexeme) ScanFault) × Scans line answer }
{}

/// The function `scanned` gives the answer of a line.
pub fn scanned()
    ensures { (line : List ℕ) → Scans line (scanned line) }
{}

/// The tokens of a line are slices of it, from left to right, and none overlap.
pub fn spans()
    ensures { (line : List ℕ) (tokens : List Lexeme) → Cut line tokens → AreSpans line 0 tokens }
{}
