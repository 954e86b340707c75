//! Cuts the tokens after a word into operands, which commas outside of parentheses separate.

ghost use Rattle.std.specs.Prelude.{◌≡◌, ◌≤◌, ◌<◌, ◌∷◌, List, Result, Some, IfSome, length, map};
ghost use Rattle.asm_line.specs.Tokens.{Lexeme, lexemes};
ghost use Rattle.asm_spell.specs.declared.fault.StmtFault.{StmtFault};
ghost use Rattle.asm_spell.specs.Faults.{Gives, each};
ghost use Rattle.asm_spell.specs.Operands.{closed_by_last, is_memory, operands, pieces};
ghost use Rattle.asm_spell.specs.Private.Cutting.{first_len, left};

use crate::fault::StmtFault;
use asm_line::{Token, is_comma, open_behind};
use std::alloc::Global;

/// A type that can be read from the tokens of one operand.
pub(crate) trait Operand: Sized {
    ghost Seen: { Type 0 };

    /// The value as plain data, without where it is in memory.
    ghost seen: { Self → Seen };

    /// What the tokens of an operand are read as, or the first error.
    ghost reads: { List Lexeme → Result Seen StmtFault };

    fn read(alloc: Global, tokens: &[Token<'_>]) -> Result<Self, StmtFault>
        ensures { Gives seen result (reads (lexemes tokens.entry.now)) };
}

/// How many tokens come before the first comma outside of parentheses.
fn first_len(tokens: &[Token<'_>]) -> usize
    ensures len { result ≡ first_len 0 (lexemes tokens.entry.now) }
    ensures within { result ≤ length tokens.entry.now }
{
    let mut depth = 0;
    for (at, token) in tokens.iter().enumerate() {
        if depth == 0 && is_comma(token) {
            return at;
        }
        depth = open_behind(depth, token);
    }
    tokens.len()
}

/// The first operand, and the tokens after its comma, if it has one.
pub(crate) fn first_operand<'t, 'a>(
    tokens: &'t [Token<'a>],
) -> (&'t [Token<'a>], Option<&'t [Token<'a>]>)
    ensures pieces { pieces 0 (lexemes tokens.entry.now) ≡ lexemes result.0.now ∷ left result.1 }
    ensures fewer { IfSome result.1 (λ rest. length rest.now < length tokens.entry.now) }
{
    let (operand, behind) = tokens.split_at(first_len(tokens));
    match behind {
        [_, rest @ ..] => (operand, Some(rest)),
        [] => (operand, None),
    }
}

/// Reads the remaining operands from left to right, or answers the first error.
pub(crate) fn each_left<T: Operand + Drop>(
    alloc: Global,
    tokens: Option<&[Token<'_>]>,
) -> Result<Vec<T>, StmtFault>
    ensures { Gives (λ all. map T.seen all.items) result (each T.reads (left tokens.entry)) }
{
    let mut all = Vec::new(alloc);
    let mut left = tokens;
    while let Some(rest) = left {
        let (operand, behind) = first_operand(rest);
        all.push(T::read(alloc, operand)?)?;
        left = behind;
    }
    Ok(all)
}

/// Reads all operands from left to right, or answers the first error. No tokens are no operands.
pub(crate) fn each<T: Operand + Drop>(
    alloc: Global,
    tokens: &[Token<'_>],
) -> Result<Vec<T>, StmtFault>
    ensures { Gives (λ all. map T.seen all.items) result (each T.reads (operands (lexemes tokens.entry.now))) }
{
    if tokens.is_empty() {
        return Ok(Vec::new(alloc));
    }
    each_left(alloc, Some(tokens))
}

/// Whether the last token closes the one parenthesis that is open, and no token before it does.
fn closed_by_last(tokens: &[Token<'_>]) -> bool
    requires { length tokens.now < usize.MAX }
    ensures { result ≡ closed_by_last 1 (lexemes tokens.entry.now) }
{
    let mut depth = 1;
    for (at, token) in tokens.iter().enumerate() {
        depth = open_behind(depth, token);
        if depth == 0 {
            return at + 1 == tokens.len();
        }
    }
    false
}

/// Whether the tokens begin with `(` and its matching `)` is the last of them.
pub(crate) fn is_memory(tokens: &[Token<'_>]) -> bool
    ensures { result ≡ is_memory (lexemes tokens.entry.now) }
{
    match tokens {
        [first, rest @ ..] => open_behind(0, first) == 1 && closed_by_last(rest),
        [] => false,
    }
}
