//! Making a call of a macro ready for expansion.

ghost use Rattle.std.specs.Prelude.{◌≡◌, IfOk, IfSome, List, ℕ};
ghost use Rattle.asm_line.specs.Tokens.{lexemes};
ghost use Rattle.asm_line.specs.FormViews.{form_seen};
ghost use Rattle.asm_text.specs.Calls.{label_lines};
ghost use Rattle.asm_text.specs.Prepared.{Prepares, label_line};
ghost use Rattle.asm_text.specs.Kept.{IsCall, IsKeptMacro};

use crate::call::{Call, Macro};
use crate::open::{arguments_of, label_of};
use crate::plain::plain_to;
use crate::span::Span;
use asm_line::{Form, Replacements, Token};
use std::alloc::{AllocError, Global};
use std::rc::Rc;

/// A call that is ready: what it replaces names by, the lines of the body, and the number of the next LOCAL name.
#[derive(Debug, Drop)]
pub struct Prepared {
    pub call: Call,
    pub body: Span,
    pub counter: u64,
}

/// Makes a call ready, or answers None if a LOCAL line of the macro's body is malformed.
///
/// `tokens` are those of the calling line, and `rest` those of them that follow the macro's name. `counter` is the number of the
/// first LOCAL name of the call.
pub fn prepare(
    alloc: Global,
    called: &Macro,
    line: &[u8],
    tokens: &[Token<'_>],
    rest: &[Token<'_>],
    counter: u64,
) -> Result<Option<Prepared>, AllocError>
    ensures prepares { (texts : List (List ℕ)) → IsKeptMacro texts called.now → IfOk result (λ found. Prepares texts called.now line.now (lexemes tokens.entry.now) (lexemes rest.entry.now) counter found) }
    ensures call { (texts : List (List ℕ)) → IsKeptMacro texts called.now → IfOk result (λ found. IfSome found (λ p. IsCall texts p.call)) }
{
    let Some(opened) = &called.opened else {
        return Ok(None);
    };
    let arguments = arguments_of(alloc, line, tokens, rest)?;
    let Some(next) = counter.checked_add(opened.locals.len() as u64) else {
        return Err(AllocError);
    };
    let plain = plain_to(&called.parameters, &arguments);
    let names = Replacements {
        names: Rc::clone(&called.names)?,
        arguments,
        counter,
    };
    let varying = Rc::clone(&called.varying)?;
    Ok(Some(Prepared {
        call: Call {
            names,
            varying,
            plain,
        },
        body: opened.rest,
        counter: next,
    }))
}

/// The label of a line as written, or None if it has none.
pub fn label_before(
    alloc: Global,
    line: &[u8],
    tokens: &[Token<'_>],
    form: Form<'_>,
) -> Result<Option<Vec<u8>>, AllocError>
    ensures { IfOk result (λ label. (number : ℕ) → label_line number label ≡ label_lines (form_seen form.entry).label (record { number = number; text = line.now }) (lexemes tokens.entry.now)) }
{
    match form.label {
        None => Ok(None),
        Some(_) => Ok(Some(label_of(alloc, line, tokens)?)),
    }
}
