//! The block that the line before a span opens: the body of a MACRO or REPT, or the branches of an IF.

ghost use Rattle.std.specs.Prelude.{◌≡◌, ◌<◌, ◌≤◌, ◌+◌, IfOk, IfSome, None, length};
ghost use Rattle.std.specs.Option.{option_map};
ghost use Rattle.common.specs.declared.limits.TheConstants.{LONGEST_TEXT};
ghost use Rattle.asm_text.specs.Sections.Blocks.{block_body, branches_of};
ghost use Rattle.asm_text.specs.Sections.Books.{IsBook};
ghost use Rattle.asm_text.specs.Kept.{IsCall};
ghost use Rattle.asm_text.specs.Prepared.{said};
ghost use Rattle.asm_text.specs.Roles.{roles};
ghost use Rattle.asm_text.specs.Spans.{text_of};
ghost use Rattle.asm_text.specs.Private.Chosen.{Has, opened};
ghost use Rattle.asm_text.specs.Sections.Sections.{behind_of, body_seen, branches_seen, front_of};

use crate::book::Book;
use crate::call::Call;
use crate::lines::Lines;
use crate::span::Span;
use crate::stretch::{Block, Choice, Place, Stretch};
use std::alloc::{AllocError, Global};

/// The first `len` lines of a span, and the line after them, which ends them.
fn front(span: Span, len: usize) -> Stretch
    requires { span.at + len < LONGEST_TEXT }
    ensures { result ≡ front_of span len }
{
    let end = span.at + len;
    let number = match span.number {
        Some(number) => number,
        None => end as u32 + 1,
    };
    Stretch {
        lines: Span { end, ..span },
        end: Place { at: end, number },
    }
}

/// The lines of a span after its first `len + 1` lines.
fn behind(span: Span, len: usize) -> Span
    requires { span.at + len < LONGEST_TEXT }
    ensures { result ≡ behind_of span len }
{
    Span {
        at: span.at + len + 1,
        ..span
    }
}

/// Finds the roles of the lines of a span and where their blocks end, unless a book has them already. Answers true if the book of
/// the source has them, because there is no call, or each line has the same role in the call as in the source. Answers false if the
/// call's own book has them.
fn open(
    alloc: Global,
    lines: &Lines<'_>,
    call: Option<&Call>,
    span: Span,
    source: &mut Book,
    book: &mut Book,
) -> Result<bool, AllocError>
    requires few { length lines.now ≤ LONGEST_TEXT }
    requires call { IfSome call (λ c. IsCall lines.now c.now) }
    requires source { IsBook lines.now None source.old }
    requires book { IsBook lines.now (option_map (λ c. said c.now) call) book.old }
    ensures source { IsBook lines.now None source.new }
    ensures book { IsBook lines.now (option_map (λ c. said c.now) call.entry) book.new }
    ensures has { IfOk result (λ plain. Has (roles (text_of lines.now (option_map (λ c. said c.now) call.entry) span)) span (opened plain source.new book.new)) }
{
    let Some(call) = call else {
        source.open(alloc, lines, None, span)?;
        return Ok(true);
    };
    if book.is_plain(alloc, lines, call, span)? {
        source.open(alloc, lines, None, span)?;
        return Ok(true);
    }
    book.open(alloc, lines, Some(call), span)?;
    Ok(false)
}

/// The book of the source if `plain` is true, or else the call's own book.
fn opened<'a>(plain: bool, source: &'a Book, book: &'a Book) -> &'a Book
    ensures { result.now ≡ opened plain source.now book.now }
{
    if plain { source } else { book }
}

/// The body of a MACRO or REPT whose first line is the first line of a span, or None if no ENDM of the span closes it.
///
/// `source` is a book of the source's lines as written, and `book` one of its lines as the call shows them. Each may be empty, and
/// the function fills the one that it needs.
pub fn body_of(
    alloc: Global,
    lines: &Lines<'_>,
    call: Option<&Call>,
    span: Span,
    source: &mut Book,
    book: &mut Book,
) -> Result<Option<Block>, AllocError>
    requires few { length lines.now ≤ LONGEST_TEXT }
    requires call { IfSome call (λ c. IsCall lines.now c.now) }
    requires source { IsBook lines.now None source.old }
    requires book { IsBook lines.now (option_map (λ c. said c.now) call) book.old }
    ensures source { IsBook lines.now None source.new }
    ensures book { IsBook lines.now (option_map (λ c. said c.now) call.entry) book.new }
    ensures body { IfOk result (λ found. option_map (body_seen lines.now (option_map (λ c. said c.now) call.entry)) found
        ≡ block_body (text_of lines.now (option_map (λ c. said c.now) call.entry) span)) }
{
    let plain = open(alloc, lines, call, span, source, book)?;
    let book = opened(plain, source, book);
    let from = span.at.saturating_sub(book.at);
    let to = span.end.saturating_sub(book.at);
    match book.links.body(from, to) {
        Some(len) => Ok(Some(Block {
            stretch: front(span, len),
            after: behind(span, len),
        })),
        None => Ok(None),
    }
}

/// The branches of an IF whose first line is the first line of a span, or None if no ENDIF of the span closes the IF.
///
/// `source` is a book of the source's lines as written, and `book` one of its lines as the call shows them. Each may be empty, and
/// the function fills the one that it needs.
pub fn branches_of(
    alloc: Global,
    lines: &Lines<'_>,
    call: Option<&Call>,
    span: Span,
    source: &mut Book,
    book: &mut Book,
) -> Result<Option<Choice>, AllocError>
    requires few { length lines.now ≤ LONGEST_TEXT }
    requires call { IfSome call (λ c. IsCall lines.now c.now) }
    requires source { IsBook lines.now None source.old }
    requires book { IsBook lines.now (option_map (λ c. said c.now) call) book.old }
    ensures source { IsBook lines.now None source.new }
    ensures book { IsBook lines.now (option_map (λ c. said c.now) call.entry) book.new }
    ensures branches { IfOk result (λ found. option_map (branches_seen lines.now (option_map (λ c. said c.now) call.entry)) found
        ≡ branches_of (text_of lines.now (option_map (λ c. said c.now) call.entry) span)) }
{
    let plain = open(alloc, lines, call, span, source, book)?;
    let book = opened(plain, source, book);
    let from = span.at.saturating_sub(book.at);
    let to = span.end.saturating_sub(book.at);
    let Some(found) = book.links.branches(alloc, from, to)? else {
        return Ok(None);
    };
    let first = front(span, found.first);
    let mut others = Vec::new(alloc);
    let mut rest = behind(span, found.first);
    let mut at = 0;
    while at < found.others.len() {
        let len = found.others[at];
        others.push(front(rest, len))?;
        rest = behind(rest, len);
        at += 1;
    }
    Ok(Some(Choice {
        first,
        others,
        after: rest,
    }))
}
