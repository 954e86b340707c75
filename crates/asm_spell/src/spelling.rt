//! Parses the tokens of a line.

ghost use Rattle.std.specs.Prelude.{◌≡◌, IfErr, IfOk, None, Some};
ghost use Rattle.std.specs.Option.{option_map};
ghost use Rattle.asm_line.specs.Tokens.{lexemes};
ghost use Rattle.std.specs.List.{list_any};
ghost use Rattle.common.specs.Words.{upper, is_reserved};
ghost use Rattle.asm_spell.specs.Faults.{Gives, IsOfTokens};
ghost use Rattle.asm_spell.specs.Line.{body_of, line_of, listed_names};
ghost use Rattle.asm_spell.specs.Spelling.{body_names, equ_definition, has_reserved, labelled_line, operation, spelled};

use crate::directive::{directive_named, spell_directive};
use crate::fault::StmtFault;
use crate::instruction::instruction;
use crate::line::{Body, Line};
use crate::operand::expression;
use asm_line::{Form, Head, Token, form_of};
use asm_parse::KeptName;
use common::is_reserved;
use std::alloc::{AllocError, Global};
use z80_form::mnemonic_of;

/// Parses a statement, given its word and the tokens after it.
fn operation(alloc: Global, name: &[u8], tokens: &[Token<'_>]) -> Result<Body, StmtFault>
    ensures { Gives body_of result (operation name.now (lexemes tokens.entry.now)) }
{
    if let Some(mnemonic) = mnemonic_of(name) {
        return instruction(alloc, mnemonic, tokens);
    }
    match directive_named(name) {
        Some(found) => spell_directive(alloc, found, tokens),
        None => Err(StmtFault::UnknownWord),
    }
}

fn any_reserved(names: &[KeptName]) -> bool
    ensures { result ≡ list_any is_reserved (listed_names names.now) }
{
    for name in names {
        if is_reserved(name) {
            return true;
        }
    }
    false
}

/// Whether one of the names that a statement defines or passes on is reserved.
fn passes_reserved(body: &Body) -> bool
    ensures { result ≡ list_any is_reserved (body_names (body_of body.now)) }
{
    match body {
        Body::Public(names) | Body::External(names) => any_reserved(names),
        Body::End(Some(name)) => is_reserved(name),
        _ => false,
    }
}

/// Whether a line has a label that is a reserved name.
fn is_reserved_label(label: &Option<Vec<u8>>) -> bool
    ensures { result ≡ has_reserved (option_map (λ name. name.items) label.now) None }
{
    match label {
        Some(name) => is_reserved(name),
        None => false,
    }
}

/// The label in upper case, if there is one.
fn label_of(alloc: Global, name: Option<&[u8]>) -> Result<Option<Vec<u8>>, AllocError>
    ensures { IfOk result (λ label. option_map (λ name. name.items) label ≡ option_map (λ name. upper name.now) name.entry) }
{
    match name {
        Some(name) => Ok(Some(name.to_ascii_uppercase(alloc)?)),
        None => Ok(None),
    }
}

/// A line without a statement, and its label if it has one. Refuses a reserved label.
fn unstated(alloc: Global, name: Option<&[u8]>) -> Result<Line, StmtFault>
    ensures { Gives line_of result (labelled_line (option_map (λ name. upper name.now) name.entry) None) }
{
    let label = label_of(alloc, name)?;
    if is_reserved_label(&label) {
        return Err(StmtFault::ReservedName);
    }
    Ok(Line::Statement { label, body: None })
}

/// A line with a statement, and its label if it has one. Refuses reserved names.
fn labelled(alloc: Global, name: Option<&[u8]>, body: Body) -> Result<Line, StmtFault>
    ensures { Gives line_of result (labelled_line (option_map (λ name. upper name.now) name.entry) (Some (body_of body))) }
{
    let label = label_of(alloc, name)?;
    if is_reserved_label(&label) || passes_reserved(&body) {
        return Err(StmtFault::ReservedName);
    }
    Ok(Line::Statement {
        label,
        body: Some(body),
    })
}

/// Parses an EQU line, given its name and the tokens after EQU.
fn defined(alloc: Global, name: &[u8], tokens: &[Token<'_>]) -> Result<Line, StmtFault>
    ensures { Gives line_of result (equ_definition (upper name.now) (lexemes tokens.entry.now)) }
{
    let value = expression(alloc, tokens)?;
    let name = name.to_ascii_uppercase(alloc)?;
    if is_reserved(&name) {
        return Err(StmtFault::ReservedName);
    }
    Ok(Line::Equ { name, value })
}

/// Parses a line, given the label and head with which it begins.
fn read(alloc: Global, tokens: &[Token<'_>]) -> Result<Line, StmtFault>
    ensures { Gives line_of result (spelled (lexemes tokens.entry.now)) }
{
    let Form { label, head, rest } = form_of(tokens);
    match head {
        Head::Equ(name) => defined(alloc, name, rest),
        Head::Word(word) => labelled(alloc, label, operation(alloc, word, rest)?),
        Head::Nothing => match rest {
            [] => unstated(alloc, label),
            [_, ..] => Err(StmtFault::UnknownWord),
        },
        Head::Macro(_) | Head::Block(_) => Err(StmtFault::UnknownWord),
    }
}

/// Parses the tokens of a line.
///
/// # Errors
///
/// The first of these that applies: [`StmtFault::UnknownWord`] if the word is unknown; [`StmtFault::Expr`] of the first operand
/// that is not an expression; [`StmtFault::BadOperands`] if the word does not take these operands; [`StmtFault::ReservedName`].
/// Also [`StmtFault::NoMemory`] if memory runs out.
pub fn statement(alloc: Global, tokens: &[Token<'_>]) -> Result<Line, StmtFault>
    ensures spelled { Gives line_of result (spelled (lexemes tokens.entry.now)) }
    ensures faults { IfErr result IsOfTokens }
{
    match tokens {
        // A third of the lines of many sources are empty or only comments.
        [] => Ok(Line::Statement {
            label: None,
            body: None,
        }),
        _ => read(alloc, tokens),
    }
}
