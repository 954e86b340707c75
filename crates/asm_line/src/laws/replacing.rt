//! Laws about lines with whole names replaced. A law is a function that does nothing and whose clause is a theorem.

ghost use Rattle.std.specs.Prelude.{◌≡◌, ◌++◌, ℕ, All, List, None, true};
ghost use Rattle.std.specs.Map.{lookup};
ghost use Rattle.std.specs.Str.{bytes_eq};
ghost use Rattle.common.specs.Words.{upper};
ghost use Rattle.asm_line.specs.Lines.{Cut};
ghost use Rattle.asm_line.specs.Scanned.{scanned};
ghost use Rattle.asm_line.specs.Tokens.{Lexeme};
ghost use Rattle.asm_line.specs.Single.{is_name};
ghost use Rattle.asm_line.specs.Replacing.Fronts.{AreLeft, Begins};
ghost use Rattle.asm_line.specs.Replacing.Replaced.{SaySame, ReplacementTable, replaced_tokens};

/// If no name of a line is in the table, the line stays as it is.
pub fn unreplaced()
    ensures { (table : ReplacementTable) (line : List ℕ) (tokens : List Lexeme) → Cut line tokens →
        All (λ token. is_name token ≡ true → lookup (bytes_eq (upper token.text)) table ≡ None) tokens → replaced_tokens table line tokens ≡ line }
{}

/// If the first tokens of a line are not replaced, the replaced line begins with them, if it can be tokenized.
pub fn front_stays()
    ensures { (table : ReplacementTable) (line : List ℕ) (front more : List Lexeme) → Cut line (front ++ more) → AreLeft table front more →
        Begins front (scanned (replaced_tokens table line (front ++ more))) }
{}

/// Two tables that replace each name by the same replace a line alike.
pub fn by_names()
    ensures { (t u : ReplacementTable) → SaySame t u → (line : List ℕ) (tokens : List Lexeme) →
        replaced_tokens t line tokens ≡ replaced_tokens u line tokens }
{}
