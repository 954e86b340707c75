//! Laws about the words, as functions that do nothing. A caller calls one to use its clauses.

ghost use Rattle.std.specs.Prelude.{◌≡◌, ◌↔◌, ℕ, List, Some};
ghost use Rattle.z80_form.specs.Types.{Mnemonic, Name};
ghost use Rattle.z80_form.specs.Words.{upper_letters, mnemonic_word, operand_word};
ghost use Rattle.z80_form.specs.Named.{mnemonic_named, name_named};

/// A look-up of a word finds exactly what has that word.
pub fn named()
    ensures mnemonic { (text : List ℕ) (m : Mnemonic) → (mnemonic_named text ≡ Some m) ↔ (upper_letters text ≡ mnemonic_word m) }
    ensures name { (text : List ℕ) (n : Name) → (name_named text ≡ Some n) ↔ (upper_letters text ≡ operand_word n) }
{}
