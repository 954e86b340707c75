//! Makes texts of lines that have errors, as which these lines count.

ghost use Rattle.std.specs.Prelude.{◌≡◌, ◌++◌, ◌==◌, ◌||◌, ◌≤◌, IfOk, None, OnOk, Some, if◌then◌else◌, codes, is_ok, length, not};
ghost use Rattle.std.specs.List.{prefix_len};
ghost use Rattle.std.specs.Option.{option_map};
ghost use Rattle.asm_line.specs.Tokens.{lexeme, lexemes};
ghost use Rattle.asm_line.specs.FormViews.{form_seen};
ghost use Rattle.asm_module.specs.Reads.Read.{read_line};
ghost use Rattle.source_errors.specs.Counted.{after_colon, alone_by, defined_name_alone, extrn_of, free_name, is_extrn_word, meant_as, meant_by, with_colon};

use crate::reading::read_line;
use asm_line::{Form, Head, ScanFault, Token, form_of, is_name, tokens};
use common::is_reserved;
use std::alloc::{AllocError, Global};

/// Answers two parts as one text.
fn joined(alloc: Global, front: &[u8], back: &[u8]) -> Result<Vec<u8>, AllocError>
    ensures { IfOk result (λ text. text.items ≡ front.now ++ back.now) }
{
    let mut text = front.to_vec(alloc)?;
    text.extend_from_slice(back)?;
    Ok(text)
}

/// Answers an EQU line that defines a name as itself.
fn circle(alloc: Global, name: &[u8]) -> Result<Vec<u8>, AllocError>
    ensures { IfOk result (λ text. text.items ≡ name.now ++ codes " EQU " ++ name.now) }
{
    let mut text = joined(alloc, name, b" EQU ")?;
    text.extend_from_slice(name)?;
    Ok(text)
}

/// Appends the text of a token and a comma, if it is a name that is not reserved.
fn put_free_name(alloc: Global, token: &Token<'_>, line: &mut Vec<u8>) -> Result<(), AllocError>
    ensures { OnOk result (line.new.items ≡ line.old.items ++ free_name (lexeme token.now)) }
{
    if is_name(token) && !is_reserved(&token.text.to_ascii_uppercase(alloc)?) {
        line.extend_from_slice(token.text)?;
        line.push(b',')?;
    }
    Ok(())
}

/// Answers the line that declares those of the tokens that may be names of externals. It cannot be parsed if there are none.
fn extrn_of(alloc: Global, tokens: &[Token<'_>]) -> Result<Vec<u8>, AllocError>
    ensures { IfOk result (λ line. line.items ≡ extrn_of (lexemes tokens.entry.now)) }
{
    let mut line = b"EXTRN ".to_vec(alloc)?;
    for token in tokens {
        put_free_name(alloc, token, &mut line)?;
    }
    line.truncate(line.len() - 1);
    Ok(line)
}

/// Whether this is a word of the statement that declares externals.
fn is_extrn_word(word: &[u8]) -> bool
    ensures { result ≡ is_extrn_word word.now }
{
    word.eq_ignore_ascii_case(b"EXTRN") || word.eq_ignore_ascii_case(b"EXTERNAL")
}

/// Answers the line of only the names that a line of this form defines, or an empty one.
fn alone(alloc: Global, form: Form<'_>) -> Result<Vec<u8>, AllocError>
    ensures { IfOk result (λ text. text.items ≡ alone_by (form_seen form.entry).label (form_seen form.entry).head (form_seen form.entry).rest) }
{
    match (form.head, form.label) {
        (Head::Equ(name), _) => circle(alloc, name),
        (_, Some(name)) => joined(alloc, name, b":"),
        (Head::Word(word), None) if is_extrn_word(word) => extrn_of(alloc, form.rest),
        (_, None) => Ok(Vec::new(alloc)),
    }
}

/// Answers the line of only the names that a line defines, or an empty one.
pub(crate) fn defined_name_alone(alloc: Global, text: &[u8]) -> Result<Vec<u8>, AllocError>
    ensures { IfOk result (λ alone. alone.items ≡ defined_name_alone text.now) }
{
    match tokens(alloc, text) {
        Ok(found) => alone(alloc, form_of(&found)),
        Err(ScanFault::NoMemory) => Err(AllocError),
        Err(_) => Ok(Vec::new(alloc)),
    }
}

/// Answers how many blanks a line begins with.
fn indent(text: &[u8]) -> usize
    ensures value { result ≡ prefix_len (λ byte. (byte == 32) || (byte == 9)) text.now }
    ensures within { result ≤ length text.now }
{
    text.iter()
        .take_while(|byte| **byte == b' ' || **byte == b'\t')
        .count()
}

/// Answers a line with a colon after its first word.
fn with_colon(alloc: Global, word: &[u8], text: &[u8]) -> Result<Vec<u8>, AllocError>
    ensures { IfOk result (λ line. line.items ≡ with_colon word.now text.now) }
{
    let mut line = joined(alloc, word, b":")?;
    let at = indent(text) + word.len();
    line.extend_from_slice(text.get(at..).unwrap_or(&[]))?;
    Ok(line)
}

/// Answers a line with a colon after its first word, if that can be parsed.
fn labelled(alloc: Global, word: &[u8], text: &[u8]) -> Result<Option<Vec<u8>>, AllocError>
    ensures { IfOk result (λ line. option_map (λ l. l.items) line ≡ (if is_ok (read_line (with_colon word.now text.now)) then Some (with_colon word.now text.now) else None)) }
{
    let line = with_colon(alloc, word, text)?;
    match read_line(alloc, &line)? {
        Ok(_) => Ok(Some(line)),
        Err(_) => Ok(None),
    }
}

/// Answers what is meant by a line of this form that has an error.
fn meant_by(alloc: Global, text: &[u8], form: Form<'_>) -> Result<Vec<u8>, AllocError>
    ensures { IfOk result (λ meant. meant.items ≡ meant_by text.now (form_seen form.entry).label (form_seen form.entry).head (form_seen form.entry).rest) }
{
    match (form.label, form.head, form.rest) {
        (None, Head::Word(word), [_, ..]) => match labelled(alloc, word, text)? {
            Some(line) => Ok(line),
            None => alone(alloc, form),
        },
        _ => alone(alloc, form),
    }
}

/// Answers what is meant by a line that has an error: the line with a colon after its first word, or the line of only the names that it
/// defines, or an empty one.
pub(crate) fn meant_as(alloc: Global, text: &[u8]) -> Result<Vec<u8>, AllocError>
    ensures { IfOk result (λ meant. meant.items ≡ meant_as text.now) }
{
    match tokens(alloc, text) {
        Ok(found) => meant_by(alloc, text, form_of(&found)),
        Err(ScanFault::NoMemory) => Err(AllocError),
        Err(_) => Ok(Vec::new(alloc)),
    }
}

/// Answers how many bytes come before the first colon.
fn colon_at(text: &[u8]) -> usize
    ensures value { result ≡ prefix_len (λ byte. not (byte == 58)) text.now }
    ensures within { result ≤ length text.now }
{
    text.iter().take_while(|byte| **byte != b':').count()
}

/// Answers what comes after the first colon of a line.
pub(crate) fn after_colon(text: &[u8]) -> &[u8]
    ensures { result.now ≡ after_colon text.now }
{
    let at = colon_at(text);
    text.get(at + 1..).unwrap_or(&[])
}
