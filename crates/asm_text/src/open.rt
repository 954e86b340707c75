//! Opening the body of a macro for its calls: its LOCAL names, and the lines after them.

ghost use Rattle.std.specs.Prelude.{◌≡◌, IfOk};
ghost use Rattle.std.specs.Option.{option_map};
ghost use Rattle.asm_line.specs.Tokens.{lexemes};
ghost use Rattle.asm_line.specs.FormViews.{head_seen};
ghost use Rattle.asm_line.specs.Replacing.Views.{texts};
ghost use Rattle.asm_text.specs.Calls.{arguments_in, label_as_written, opened};
ghost use Rattle.asm_text.specs.Kept.{opened_seen};
ghost use Rattle.asm_text.specs.Private.Openings.{IsLocal, is_local};
ghost use Rattle.asm_text.specs.Prepared.{body_texts};

use crate::lines::Lines;
use crate::reading::heard;
use crate::span::Span;
use asm_line::{BlockWord, Head, Token, after, arguments, blank_len, form_of, names};
use std::alloc::{AllocError, Global};

/// What the first line of a body is.
#[derive(Debug, Drop)]
pub(crate) enum Local {
    /// A LOCAL line with its names, in upper case.
    Names(Vec<Vec<u8>>),
    /// A malformed LOCAL line: it has a label, or something other than names after LOCAL.
    Bad,
    Other,
}

/// A body without its first LOCAL lines.
#[derive(Debug, Drop)]
pub(crate) struct Opened {
    pub locals: Vec<Vec<u8>>,
    /// The lines after the LOCAL lines.
    pub rest: Span,
}

/// Whether a line begins with LOCAL, by its head.
fn is_local(head: Head<'_>) -> bool
    ensures { result ≡ is_local (head_seen head.entry) }
{
    matches!(head, Head::Block(BlockWord::Local))
}

/// Answers whether a line is a LOCAL line, and with which names.
fn local_line(alloc: Global, line: &[u8]) -> Result<Local, AllocError>
    ensures { IfOk result (λ local. IsLocal line.now local) }
{
    let Some(found) = heard(alloc, line)? else {
        return Ok(Local::Other);
    };
    let form = form_of(&found);
    if !is_local(form.head) {
        return Ok(Local::Other);
    }
    if form.label.is_some() {
        return Ok(Local::Bad);
    }
    match names(alloc, form.rest)? {
        Some(found) => Ok(Local::Names(found)),
        None => Ok(Local::Bad),
    }
}

/// Opens a body: finds the names of the LOCAL lines with which it begins, and the lines after them. Answers None if one of these
/// LOCAL lines is malformed.
pub(crate) fn open(
    alloc: Global,
    lines: &Lines<'_>,
    body: Span,
) -> Result<Option<Opened>, AllocError>
    ensures { IfOk result (λ found. option_map (opened_seen lines.now) found ≡ opened (body_texts lines.now body)) }
{
    let mut locals = Vec::new(alloc);
    let mut at = body.at;
    while at < body.end && at < lines.len() {
        match local_line(alloc, lines.line(at))? {
            Local::Names(mut found) => locals.append(&mut found)?,
            Local::Bad => return Ok(None),
            Local::Other => {
                return Ok(Some(Opened {
                    locals,
                    rest: Span { at, ..body },
                }));
            }
        }
        at += 1;
    }
    Ok(Some(Opened {
        locals,
        rest: Span { at, ..body },
    }))
}

/// Cuts the arguments of a call, which follow the macro's name in `line`. `tokens` are all tokens of the line, and `rest` the last
/// of them, which follow the macro's name.
pub(crate) fn arguments_of(
    alloc: Global,
    line: &[u8],
    tokens: &[Token<'_>],
    rest: &[Token<'_>],
) -> Result<Vec<Vec<u8>>, AllocError>
    ensures { IfOk result (λ all. texts all.items ≡ arguments_in line.now (lexemes tokens.entry.now) (lexemes rest.entry.now)) }
{
    let count = tokens.len().saturating_sub(rest.len());
    let mut behind = line;
    let mut at = 0;
    while at < count {
        behind = after(behind, &tokens[at]);
        at += 1;
    }
    arguments(alloc, behind, rest)
}

/// A line's label as written, from its name to the colon.
pub(crate) fn label_of(
    alloc: Global,
    line: &[u8],
    tokens: &[Token<'_>],
) -> Result<Vec<u8>, AllocError>
    ensures { IfOk result (λ label. label.items ≡ label_as_written line.now (lexemes tokens.entry.now)) }
{
    let mut label = Vec::new(alloc);
    let [name, colon, ..] = tokens else {
        return Ok(label);
    };
    let behind = after(line, name);
    let (blanks, _) = behind.split_at(blank_len(behind));
    label.extend_from_slice(name.text)?;
    label.extend_from_slice(blanks)?;
    label.extend_from_slice(colon.text)?;
    Ok(label)
}
