//! Keeps the names that EQU gave a value during expansion.

ghost use Rattle.std.specs.Prelude.{◌≡◌, ◌⊎◌, ◌∷◌, [], Err, List, Ok, OnOk, ℕ};
ghost use Rattle.asm_parse.specs.declared.item.Item.{Item};
ghost use Rattle.asm_expr.specs.Below.{Atom};
ghost use Rattle.asm_expr.specs.declared.answer.Settled.{Settled};
ghost use Rattle.common.specs.Words.{upper};
ghost use Rattle.asm_line.specs.Tokens.{lexemes};
ghost use Rattle.asm_macro.specs.declared.fault.MacroFault.{MacroFault};
ghost use Rattle.asm_macro.specs.Values.{value_of_tokens};
ghost use Rattle.asm_macro.specs.Private.Heads.{constants_with};
ghost use Rattle.std.specs.Map.{lookup};
ghost use Rattle.std.specs.Str.{bytes_eq};
ghost use Rattle.asm_macro.specs.Private.Constants.{constants_in, table_of};

use crate::fault::MacroFault;
use asm_expr::{Meaning, Names, Settled, constant, is_constant, is_defined, parse, settle};
use asm_line::Token;
use common::NameKey;
use std::alloc::{AllocError, Global};
use std::marker::Model;

/// The names that EQU gave a value that is known during expansion. Clauses see each with its value.
#[derive(Debug, Drop)]
pub(crate) struct Constants {
    names: Names,
}

impl Model for Constants {
    ghost use Rattle.std.specs.Prelude.{◌≡◌, ℕ, List};
    ghost use Rattle.asm_macro.specs.Private.Constants.{constants_in, table_of};

    ghost Value = { List (List ℕ × ℕ) };

    ghost view = { λ c. constants_in c.names.entries };

    ghost invariant = { λ c. c.names ≡ table_of (constants_in c.names.entries) };
}

/// Answers the number of an expression whose names are all constants.
fn number_in(settled: &Settled) -> Result<u16, MacroFault>
    ensures { (n : ℕ) → settled.now ≡ Settled.Known (Item.Leaf (Atom.Number n) ∷ []) → result ≡ Ok n }
{
    match settled {
        Settled::Known(expr) => match constant(expr) {
            Some(value) => Ok(value),
            None => Err(MacroFault::ConditionNamesLabel),
        },
        Settled::Unknown(_) => Err(MacroFault::ConditionNamesLabel),
    }
}

/// Answers the value of an expression, whose names have to be constants.
fn value_of(alloc: Global, names: &Names, tokens: &[Token<'_>]) -> Result<u16, MacroFault>
    ensures { (constants : List (List ℕ × ℕ)) → names.now ≡ table_of constants →
        (result ≡ value_of_tokens (table_of constants) (lexemes tokens.entry.now)) ⊎ (result ≡ Err MacroFault.NoMemory) }
{
    let tree = parse(alloc, tokens)?;
    if !is_constant(&tree, names) {
        return Err(MacroFault::ConditionNamesLabel);
    }
    if !is_defined(&tree, names) {
        return Err(MacroFault::ConditionNamesLabel);
    }
    let settled = settle(alloc, &tree, names)?;
    number_in(&settled)
}

impl Constants {
    pub(crate) fn new(alloc: Global, key: NameKey) -> Constants
        ensures { result ≡ [] }
    {
        Constants {
            names: Names::keyed(alloc, key),
        }
    }

    /// Answers the value of an expression.
    pub(crate) fn value_of(&self, alloc: Global, tokens: &[Token<'_>]) -> Result<u16, MacroFault>
        ensures { (result ≡ value_of_tokens (table_of self.now) (lexemes tokens.entry.now)) ⊎ (result ≡ Err MacroFault.NoMemory) }
    {
        value_of(alloc, &self.names, tokens)
    }

    /// Keeps the name that an EQU line defines, if it has a value and no earlier EQU line gave the name one.
    pub(crate) fn learn(
        &mut self,
        alloc: Global,
        name: &[u8],
        tokens: &[Token<'_>],
    ) -> Result<(), AllocError>
        ensures { OnOk result (self.new ≡ constants_with self.old (upper name.now) (value_of_tokens (table_of self.old) (lexemes tokens.entry.now))) }
    {
        let key = name.to_ascii_uppercase(alloc)?;
        if self.names.meaning(&key).is_some() {
            return Ok(());
        }
        match value_of(alloc, &self.names, tokens) {
            Ok(value) => {
                self.names.define(key, Meaning::Constant(value))?;
                Ok(())
            }
            Err(MacroFault::NoMemory) => Err(AllocError),
            Err(_) => Ok(()),
        }
    }
}
