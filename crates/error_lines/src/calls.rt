//! Finds parameters of a macro that are empty in a call.

use crate::case::Case;
use crate::source::SourceLines;
use asm_line::{BlockWord, Form, Head, Kind, Mark, Token, arguments, form_of, is_name};
use message_texts::{joined, name_in, shown, token_named, tokens_of};
use std::alloc::{AllocError, Global};

/// The arguments of a call.
fn arguments_of(alloc: Global, line: &[u8], form: &Form<'_>) -> Result<Vec<Vec<u8>>, AllocError> {
    arguments(alloc, line, form.rest)
}

/// The first parameter of a macro that has no argument in a call, and that is in a line of the body, as it is shown.
fn first_empty(
    alloc: Global,
    definition: &[u8],
    given: &[Vec<u8>],
    body: &[u8],
) -> Result<Option<String>, AllocError> {
    let found = tokens_of(alloc, definition)?;
    let used = tokens_of(alloc, body)?;
    let mut number = 0usize;
    for token in form_of(&found).rest {
        if is_name(token) {
            let is_empty = match given.get(number) {
                Some(argument) => argument.is_empty(),
                None => true,
            };
            if is_empty && token_named(&used, 0, token.text).is_some() {
                return Ok(Some(shown(alloc, token.text)?));
            }
            number = number.saturating_add(1);
        }
    }
    Ok(None)
}

/// Answers which parameter is empty in a line of a macro's body, given the line of the call; the first one, if there are several; None if
/// there is none, or if the line calls no macro.
///
/// # Errors
///
/// `AllocError` if memory ran out.
pub fn empty_parameter(
    alloc: Global,
    source: &SourceLines<'_>,
    call: u32,
    body: u32,
) -> Result<Option<String>, AllocError> {
    let line = source.line(call);
    let found = tokens_of(alloc, line)?;
    let form = form_of(&found);
    let Head::Word(word) = form.head else {
        return Ok(None);
    };
    let Some(definition) = source.macro_line(alloc, word)? else {
        return Ok(None);
    };
    let given = arguments_of(alloc, line, &form)?;
    first_empty(alloc, source.line(definition), &given, source.line(body))
}

/// The macro that a line calls, and the line that defines it; None if the line calls none.
fn called<'c>(
    alloc: Global,
    source: &SourceLines<'_>,
    form: &Form<'c>,
) -> Result<Option<(&'c [u8], u32)>, AllocError> {
    let Head::Word(word) = form.head else {
        return Ok(None);
    };
    match source.macro_line(alloc, word)? {
        Some(line) => Ok(Some((word, line))),
        None => Ok(None),
    }
}

/// Whether some tokens begin with others, and go on with a comma.
fn goes_on_after(all: &[Token<'_>], front: &[Token<'_>]) -> bool {
    for (at, token) in front.iter().enumerate() {
        match all.get(at) {
            Some(own) if own.text == token.text => (),
            _ => return false,
        }
    }
    match all.get(front.len()) {
        Some(token) => token.kind == Kind::Mark(Mark::Comma),
        None => false,
    }
}

/// What a call does with a statement among its arguments: a comma in it makes two arguments. None if the line is not the first of these.
///
/// # Errors
///
/// `AllocError` if memory ran out.
pub fn divided(case: &Case<'_>) -> Result<Option<String>, AllocError> {
    let alloc = case.alloc;
    let found = tokens_of(alloc, case.source.line(case.finding.number))?;
    let form = form_of(&found);
    let own = case.tokens_at(case.word_at(), case.tokens.len());
    let Some((word, _)) = called(alloc, case.source, &form)? else {
        return Ok(None);
    };
    if own.is_empty() || !goes_on_after(form.rest, own) {
        return Ok(None);
    }
    let (word, first) = (
        shown(alloc, word)?,
        joined(alloc, own.get(..1).unwrap_or(own))?,
    );
    let rest = joined(alloc, own.get(1..).unwrap_or(&[]))?;
    Ok(Some(format!(in alloc;
        "in the call of `{word}` the comma divides two arguments: the first is `{first} {rest}`"
    )?))
}

/// The first parameter in the definition of a macro that has the name of a register, and whose argument is this operand.
fn register_given(
    alloc: Global,
    definition: &[u8],
    given: &[Vec<u8>],
    operand: &[u8],
) -> Result<Option<String>, AllocError> {
    let found = tokens_of(alloc, definition)?;
    let mut number = 0usize;
    for token in form_of(&found).rest {
        if is_name(token) {
            let is_given = match given.get(number) {
                Some(argument) => argument.as_slice() == operand,
                None => false,
            };
            if is_given && name_in(token).is_some() {
                return Ok(Some(shown(alloc, token.text)?));
            }
            number = number.saturating_add(1);
        }
    }
    Ok(None)
}

/// Which parameter of the macro that is called has the name of a register, if its argument is this operand of the line.
///
/// # Errors
///
/// `AllocError` if memory ran out.
pub fn replaced(case: &Case<'_>, operand: &str) -> Result<Option<String>, AllocError> {
    let alloc = case.alloc;
    let line = case.source.line(case.finding.number);
    let found = tokens_of(alloc, line)?;
    let form = form_of(&found);
    let Some((word, definition)) = called(alloc, case.source, &form)? else {
        return Ok(None);
    };
    let given = arguments_of(alloc, line, &form)?;
    let definition = case.source.line(definition);
    match register_given(alloc, definition, &given, operand.as_bytes())? {
        Some(name) => {
            let word = shown(alloc, word)?;
            Ok(Some(format!(in alloc;
                "the parameter `{name}` of `{word}` replaces each `{name}` of the body, also the register"
            )?))
        }
        None => Ok(None),
    }
}

/// Whether a line lists a name after LOCAL; None if it is no LOCAL line.
fn local_lists(alloc: Global, line: &[u8], name: &[u8]) -> Result<Option<bool>, AllocError> {
    let found = tokens_of(alloc, line)?;
    let form = form_of(&found);
    match form.head {
        Head::Block(BlockWord::Local) => Ok(Some(token_named(form.rest, 0, name).is_some())),
        _ => Ok(None),
    }
}

/// Whether the LOCAL lines below the definition of a macro list a name.
fn is_local(
    alloc: Global,
    source: &SourceLines<'_>,
    definition: u32,
    name: &[u8],
) -> Result<bool, AllocError> {
    let mut number = definition;
    for _ in 0..source.len() {
        number = number.saturating_add(1);
        match local_lists(alloc, source.line(number), name)? {
            Some(true) => return Ok(true),
            Some(false) => (),
            None => return Ok(false),
        }
    }
    Ok(false)
}

/// Which parameter of the macro that is called is a LOCAL name of it too, so that its argument is in place of a label.
///
/// # Errors
///
/// `AllocError` if memory ran out.
pub fn local_parameter(case: &Case<'_>) -> Result<Option<String>, AllocError> {
    let alloc = case.alloc;
    let found = tokens_of(alloc, case.source.line(case.finding.number))?;
    let form = form_of(&found);
    let Some((word, definition)) = called(alloc, case.source, &form)? else {
        return Ok(None);
    };
    let header = tokens_of(alloc, case.source.line(definition))?;
    for token in form_of(&header).rest {
        if is_name(token) && is_local(alloc, case.source, definition, token.text)? {
            let (name, word) = (shown(alloc, token.text)?, shown(alloc, word)?);
            return Ok(Some(format!(in alloc;
                "`{name}` is a parameter of `{word}` and a LOCAL name too: rename one of the two"
            )?));
        }
    }
    Ok(None)
}
