//! Parses the operands of instructions.

ghost use Rattle.std.specs.Prelude.{◌≡◌, ◌∷◌, None};
ghost use Rattle.asm_line.specs.Tokens.{lexeme, lexemes};
ghost use Rattle.asm_spell.specs.Faults.{Gives};
ghost use Rattle.asm_spell.specs.Operands.{alone, parsed_expression, indexed, index_named, is_one_name, is_sign_kind, memory_operand, name_alone, token_name, named_or, pointed, pointed_or, with_expression, written_operand};
ghost use Rattle.asm_spell.specs.Private.Cutting.{holds};

use crate::cut::{Operand, is_memory};
use crate::fault::StmtFault;
use asm_line::{Kind, Mark, Token};
use asm_parse::{Tree, parse};
use std::alloc::Global;
use z80_form::{Form, Name, Pointed, name_of};
use z80_instr::IndexRegister;

/// An operand: its form, its expression if it has one, and whether it is only one name that is no register and no condition.
#[derive(Debug, Drop)]
pub(crate) struct Written {
    pub(crate) form: Form,
    pub(crate) expression: Option<Tree>,
    pub(crate) is_name: bool,
}

/// Parses tokens as an expression.
pub(crate) fn expression(alloc: Global, tokens: &[Token<'_>]) -> Result<Tree, StmtFault>
    ensures { Gives (λ e. e) result (parsed_expression (lexemes tokens.entry.now)) }
{
    match parse(alloc, tokens) {
        Ok(tree) => Ok(tree),
        Err(why) => Err(StmtFault::from(why)),
    }
}

impl Operand for Tree {
    ghost use Rattle.std.specs.Prelude.{List};
    ghost use Rattle.asm_spell.specs.Line.{ExpressionItems};
    ghost use Rattle.asm_spell.specs.Operands.{parsed_expression};

    ghost Seen = { ExpressionItems };

    ghost seen = { λ e. e };

    ghost reads = { parsed_expression };

    fn read(alloc: Global, tokens: &[Token<'_>]) -> Result<Tree, StmtFault> {
        expression(alloc, tokens)
    }
}

/// An operand without an expression.
fn alone(form: Form) -> Written
    ensures { holds result ≡ alone form }
{
    Written {
        form,
        expression: None,
        is_name: false,
    }
}

fn with_expression(
    alloc: Global,
    form: Form,
    is_name: bool,
    tokens: &[Token<'_>],
) -> Result<Written, StmtFault>
    ensures { Gives holds result (with_expression form is_name (lexemes tokens.entry.now)) }
{
    let tree = expression(alloc, tokens)?;
    Ok(Written {
        form,
        expression: Some(tree),
        is_name,
    })
}

/// The register or condition that a token names, if it names one.
fn name_in(token: &Token<'_>) -> Option<Name>
    ensures { result ≡ token_name (lexeme token.now) }
{
    match token.kind {
        Kind::Name => name_of(token.text),
        Kind::OtherAf => Some(Name::OtherAf),
        _ => None,
    }
}

/// The register or condition that the only token names, if it names one; None for other tokens.
fn name_alone(tokens: &[Token<'_>]) -> Option<Name>
    ensures { result ≡ name_alone (lexemes tokens.entry.now) }
{
    match tokens {
        [token] => name_in(token),
        _ => None,
    }
}

/// Whether the tokens are one name.
pub(crate) fn is_one_name(tokens: &[Token<'_>]) -> bool
    ensures { result ≡ is_one_name (lexemes tokens.entry.now) }
{
    match tokens {
        [token] => asm_line::is_name(token),
        _ => false,
    }
}

fn index_named(name: Option<Name>) -> Option<IndexRegister>
    ensures { result ≡ index_named name }
{
    match name {
        Some(Name::Ix) => Some(IndexRegister::Ix),
        Some(Name::Iy) => Some(IndexRegister::Iy),
        _ => None,
    }
}

fn pointed(name: Option<Name>) -> Option<Pointed>
    ensures { result ≡ pointed name }
{
    match name {
        Some(Name::Hl) => Some(Pointed::Hl),
        Some(Name::Bc) => Some(Pointed::Bc),
        Some(Name::De) => Some(Pointed::De),
        Some(Name::Sp) => Some(Pointed::Sp),
        Some(Name::C) => Some(Pointed::C),
        _ => None,
    }
}

fn is_sign(token: &Token<'_>) -> bool
    ensures { result ≡ is_sign_kind token.now.kind }
{
    matches!(token.kind, Kind::Mark(Mark::Plus | Mark::Minus))
}

/// Parses a memory operand that begins with an index register. `inner` are the tokens between its parentheses, and `rest` those of
/// them after the register.
fn indexed(
    alloc: Global,
    x: IndexRegister,
    inner: &[Token<'_>],
    register: &Token<'_>,
    rest: &[Token<'_>],
) -> Result<Written, StmtFault>
    requires { lexemes inner.now ≡ lexeme register.now ∷ lexemes rest.now }
    ensures { Gives holds result (indexed x (lexeme register.now) (lexemes rest.entry.now)) }
{
    match rest {
        [] => Ok(alone(Form::AtIndex(x))),
        [sign, ..] => {
            if is_sign(sign) {
                with_expression(alloc, Form::Displaced(x), false, rest)
            } else {
                with_expression(alloc, Form::AtNumber, false, inner)
            }
        }
    }
}

/// Parses a memory operand that does not begin with an index register, given the tokens between its parentheses.
fn unindexed(alloc: Global, inner: &[Token<'_>]) -> Result<Written, StmtFault>
    ensures { Gives holds result (pointed_or (pointed (name_alone (lexemes inner.entry.now))) (lexemes inner.entry.now)) }
{
    match pointed(name_alone(inner)) {
        Some(register) => Ok(alone(Form::At(register))),
        None => with_expression(alloc, Form::AtNumber, false, inner),
    }
}

/// Parses a memory operand, given the tokens between its parentheses.
fn memory(alloc: Global, inner: &[Token<'_>]) -> Result<Written, StmtFault>
    ensures { Gives holds result (memory_operand (lexemes inner.entry.now)) }
{
    match inner {
        [] => with_expression(alloc, Form::AtNumber, false, inner),
        [first, rest @ ..] => match index_named(name_in(first)) {
            Some(x) => indexed(alloc, x, inner, first, rest),
            None => unindexed(alloc, inner),
        },
    }
}

/// Parses an operand that is no register and no condition.
fn unnamed(alloc: Global, tokens: &[Token<'_>]) -> Result<Written, StmtFault>
    ensures { Gives holds result (named_or None (lexemes tokens.entry.now)) }
{
    if is_memory(tokens) {
        memory(alloc, &tokens[1..tokens.len() - 1])
    } else {
        with_expression(alloc, Form::Number, is_one_name(tokens), tokens)
    }
}

impl Operand for Written {
    ghost use Rattle.asm_spell.specs.Operands as operands;
    ghost use Rattle.asm_spell.specs.Private.Cutting.{holds};

    ghost Seen = { operands.WrittenOperand };

    ghost seen = { holds };

    ghost reads = { operands.written_operand };

    fn read(alloc: Global, tokens: &[Token<'_>]) -> Result<Written, StmtFault> {
        match name_alone(tokens) {
            Some(name) => Ok(alone(Form::Name(name))),
            None => unnamed(alloc, tokens),
        }
    }
}
