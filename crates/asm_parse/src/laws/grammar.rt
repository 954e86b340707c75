//! Laws about the grammar, as functions that do nothing. A caller calls one to use its clauses.

ghost use Rattle.std.specs.Prelude.{◌≡◌, ◌⊎◌, List, Result, Err};
ghost use Rattle.asm_parse.specs.declared.fault.ExprFault.{ExprFault};
ghost use Rattle.asm_parse.specs.declared.item.Item.{Item};
ghost use Rattle.asm_parse.specs.Source.{Operand};
ghost use Rattle.asm_parse.specs.Grammar.{IsParsed, Phrase, SpellsPhrase, GrammarSymbol};
ghost use Rattle.asm_parse.specs.Parsed.{parsed_symbols};

/// Symbols are at most one phrase, and so an expression has one tree and one depth.
pub fn one_phrase()
    ensures { (symbols : List GrammarSymbol) (a b : Phrase) → SpellsPhrase symbols a → SpellsPhrase symbols b → a ≡ b }
{}

/// `parsed_symbols` is the only answer that `IsParsed` allows, except that memory may run out.
pub fn parsed()
    ensures is { (symbols : List GrammarSymbol) → IsParsed symbols (parsed_symbols symbols) }
    ensures only { (symbols : List GrammarSymbol) (answer : Result (List (Item Operand)) ExprFault) → IsParsed symbols answer →
        (answer ≡ parsed_symbols symbols) ⊎ (answer ≡ Err ExprFault.NoMemory) }
{}
