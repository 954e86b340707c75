//! Bytes that are addresses.

use crate::values::{first_address, on_part, part_text};
use asm_expr::parse;
use asm_line::{Head, Kind, Mark, Token, form_of, is_name, is_word};
use asm_names::{Kind as NameKind, SourceLine};
use asm_parse::{Binary, ExprFault, Item, TermView, Tree};
use asm_spell::{Body, Line};
use error_lines::{Case, operands, statement_text};
use message_texts::{Draft, Operand, form_written, joined, name_text, tokens_of};
use source_errors::Known;
use std::alloc::{AllocError, Global};
use z80_form::{Form, Mnemonic, Name, mnemonic_of};

/// The expression after LOW or HIGH, which bind tighter than other operators.
pub(crate) fn as_operand(alloc: Global, part: &Operand<'_>) -> Result<String, AllocError> {
    let written = joined(alloc, part.tokens)?;
    match part.tokens {
        [_] => Ok(written),
        _ => format!(in alloc; "({written})"),
    }
}

/// What to write if the byte at an address is meant, given the mnemonic, what comes before its last operand, and the address.
fn byte_there(
    alloc: Global,
    mnemonic: Mnemonic,
    before: &[Operand<'_>],
    address: &str,
) -> Result<Option<String>, AllocError> {
    match (mnemonic, before) {
        (Mnemonic::Ld, [to]) => match form_written(to) {
            Form::Name(Name::A) => Ok(Some(format!(in alloc;
                "`LD A,({address})` loads the byte that is there"
            )?)),
            Form::Name(name) => {
                let to = name_text(name);
                Ok(Some(format!(in alloc;
                    "`LD A,({address})` and `LD {to},A` load the byte that is there"
                )?))
            }
            Form::At(_) | Form::AtIndex(_) | Form::Displaced(_) => {
                let to = joined(alloc, to.tokens)?;
                Ok(Some(format!(in alloc;
                    "`LD A,({address})` and `LD {to},A` store the byte that is there"
                )?))
            }
            _ => Ok(None),
        },
        (Mnemonic::Alu(_), _) => Ok(Some(format!(in alloc;
            "after `LD HL,{address}` the byte that is there is `(HL)`"
        )?)),
        _ => Ok(None),
    }
}

/// What to write if the byte at an address is meant, or both bytes of the address; None if the line tells neither.
fn instead_of_byte(
    case: &Case<'_>,
    part: Option<Operand<'_>>,
    address: &str,
) -> Result<Option<String>, AllocError> {
    let alloc = case.alloc;
    let Head::Word(word) = case.form.head else {
        return Ok(None);
    };
    let found = operands(case)?;
    let [before @ .., last] = found.as_slice() else {
        return Ok(None);
    };
    match (mnemonic_of(word), part) {
        (Some(mnemonic), Some(part)) if part.at == last.at => {
            byte_there(alloc, mnemonic, before, address)
        }
        (None, _) if word.eq_ignore_ascii_case(b"DB") || word.eq_ignore_ascii_case(b"DEFB") => {
            Ok(Some(format!(in alloc; "`DW {address}` has both bytes")?))
        }
        _ => Ok(None),
    }
}

/// An expression that EQU gives to a name, and the number of its line among those that are known.
#[derive(Clone, Copy)]
struct Equ<'k> {
    at: usize,
    value: &'k Tree,
}

/// The EQU that defines a name, in upper case.
fn equ_of<'k>(known: &'k Known, name: &[u8]) -> Option<Equ<'k>> {
    let Some(NameKind::Equ(at)) = known.table.kind(name) else {
        return None;
    };
    match known.lines.get(at) {
        Some(
            SourceLine {
                line: Line::Equ { value, .. },
                ..
            },
        ) => Some(Equ { at, value }),
        _ => None,
    }
}

/// The most EQU lines that are followed from one name to the next.
const MOST_NAMES: usize = 100;

/// The EQU that defines a name, or the name that this stands for, and so on.
fn last_equ<'k>(known: &'k Known, name: &[u8]) -> Option<Equ<'k>> {
    let mut found = equ_of(known, name)?;
    for _ in 0..MOST_NAMES {
        let [item] = found.value.items() else {
            return Some(found);
        };
        let Item::Leaf(TermView::Name(next)) = item.view() else {
            return Some(found);
        };
        match equ_of(known, next) {
            Some(equ) => found = equ,
            None => return Some(found),
        }
    }
    Some(found)
}

/// The EQU that defines the one name that tokens are.
fn equ_named<'a>(case: &Case<'a>, tokens: &[Token<'_>]) -> Result<Option<Equ<'a>>, AllocError> {
    let (Some(known), [token]) = (case.known, tokens) else {
        return Ok(None);
    };
    if !is_name(token) {
        return Ok(None);
    }
    let upper = token.text.to_ascii_uppercase(case.alloc)?;
    Ok(last_equ(known, &upper))
}

/// Whether a parsed expression subtracts.
fn subtracts(value: &Tree) -> bool {
    for item in value.items() {
        if let Item::Binary(Binary::Subtract) = item.view() {
            return true;
        }
    }
    false
}

/// Whether an expression subtracts, so that it may be meant as a distance: the one that is written, or the one of the EQU that it names.
fn is_distance(case: &Case<'_>, part: Option<Operand<'_>>) -> Result<bool, AllocError> {
    let Some(part) = part else {
        return Ok(false);
    };
    if part
        .tokens
        .iter()
        .any(|t| t.kind == Kind::Mark(Mark::Minus))
    {
        return Ok(true);
    }
    match equ_named(case, part.tokens)? {
        Some(equ) => Ok(subtracts(equ.value)),
        None => Ok(false),
    }
}

/// Where the statement is to which a leaf leads: the number of its line among those that are known, given the line with the expression.
fn line_of(known: &Known, here: Option<usize>, leaf: TermView<'_>) -> Option<usize> {
    match leaf {
        TermView::Here => here,
        TermView::Number(_) => None,
        TermView::Name(name) => match known.table.kind(name) {
            Some(NameKind::Label(at)) => Some(at),
            _ => None,
        },
    }
}

/// The lines between which the distance is that a parsed expression is, among those that are known, given the line with the expression.
fn ends_of(known: &Known, here: Option<usize>, value: &Tree) -> Option<(usize, usize)> {
    let [left, right, operator] = value.items() else {
        return None;
    };
    match (left.view(), right.view(), operator.view()) {
        (Item::Leaf(left), Item::Leaf(right), Item::Binary(Binary::Subtract)) => {
            let left = line_of(known, here, left)?;
            let right = line_of(known, here, right)?;
            Some((left, right))
        }
        _ => None,
    }
}

/// The lines between which the distance is that an EQU gives to the name that an expression is; None if it is no such name.
fn named_ends(
    case: &Case<'_>,
    known: &Known,
    part: &Operand<'_>,
) -> Result<Option<(usize, usize)>, AllocError> {
    match equ_named(case, part.tokens)? {
        Some(equ) => Ok(ends_of(known, Some(equ.at), equ.value)),
        None => Ok(None),
    }
}

/// The lines between which the distance is that an expression is; None if it is no such distance.
fn ends(
    case: &Case<'_>,
    known: &Known,
    part: &Operand<'_>,
) -> Result<Option<(usize, usize)>, AllocError> {
    let parsed = match parse(case.alloc, part.tokens) {
        Ok(tree) => tree,
        Err(ExprFault::NoMemory) => return Err(AllocError),
        Err(_) => return Ok(None),
    };
    match ends_of(known, None, &parsed) {
        Some(found) => Ok(Some(found)),
        None => named_ends(case, known, part),
    }
}

/// Whether an expression is a name that stands for a distance.
fn names_distance(case: &Case<'_>, part: Option<Operand<'_>>) -> Result<bool, AllocError> {
    match (case.known, part) {
        (Some(known), Some(part)) => Ok(named_ends(case, known, &part)?.is_some()),
        _ => Ok(false),
    }
}

/// Whether a line is a jump that may become shorter.
fn may_shorten(line: &SourceLine) -> bool {
    matches!(
        &line.line,
        Line::Statement {
            body: Some(Body::Jump { .. }),
            ..
        }
    )
}

/// The most lines that a note lists.
const MOST_LINES: usize = 8;

/// The numbers of the source's first lines with jumps that may become shorter, from one of the known lines to another. Each is there once, and
/// there are no more than one above those that a note lists.
fn jump_lines(
    alloc: Global,
    known: &Known,
    from: usize,
    to: usize,
) -> Result<Vec<u32>, AllocError> {
    let mut found = Vec::new(alloc);
    for at in from..to {
        if found.len() > MOST_LINES {
            return Ok(found);
        }
        if let Some(line) = known.lines.get(at) {
            if may_shorten(line) && found.last() != Some(&line.number) {
                found.push(line.number)?;
            }
        }
    }
    Ok(found)
}

/// The lines with jumps between the two labels whose distance an expression is; none if it is no such distance.
fn jumps_between(case: &Case<'_>, part: Option<Operand<'_>>) -> Result<Vec<u32>, AllocError> {
    let (Some(known), Some(part)) = (case.known, part) else {
        return Ok(Vec::new(case.alloc));
    };
    match ends(case, known, &part)? {
        Some((left, right)) => jump_lines(case.alloc, known, left.min(right), left.max(right)),
        None => Ok(Vec::new(case.alloc)),
    }
}

/// A JP of a line as it has three bytes always: `JP Z,OUT+0`; None if the line has no such jump.
fn kept_long(case: &Case<'_>, line: &[u8]) -> Result<Option<String>, AllocError> {
    let found = tokens_of(case.alloc, line)?;
    let own = form_of(&found);
    let word_at = found.len().saturating_sub(own.rest.len()).saturating_sub(1);
    match (own.head, found.get(word_at), own.rest.last()) {
        (Head::Word(_), Some(word), Some(last)) if is_word(b"JP", word) && is_name(last) => {
            let text = statement_text(case.alloc, found.get(word_at..).unwrap_or(&[]))?;
            Ok(Some(format!(in case.alloc; "{text}+0")?))
        }
        _ => Ok(None),
    }
}

/// The note about the one line whose jump makes a distance no number.
fn one_jump_note(case: &Case<'_>, number: u32) -> Result<String, AllocError> {
    let alloc = case.alloc;
    let line = case.line_text(number)?;
    match kept_long(case, case.source.line(number))? {
        Some(jump) => format!(in alloc;
            "the jump in {line} may become shorter: write `{jump}` there, and the distance is a number"
        ),
        None => format!(in alloc;
            "a jump in {line} may become shorter, so the distance is no number"
        ),
    }
}

/// The note about a distance that is no number: which jumps make it so, if that is known.
fn distance_note(case: &Case<'_>, part: Option<Operand<'_>>) -> Result<String, AllocError> {
    let alloc = case.alloc;
    let lines = jumps_between(case, part)?;
    match lines.as_slice() {
        [] => String::from_str(
            alloc,
            "a distance is a number only as `Y-X`, with no jump between them that may become shorter",
        ),
        [number] => one_jump_note(case, *number),
        [first, ..] if lines.len() > MOST_LINES => {
            let (most, first) = (MOST_LINES, case.line_text(*first)?);
            format!(in alloc;
                "the jumps in more than {most} lines may become shorter, the first in {first}: write `+0` after the target of each, and the distance is a number"
            )
        }
        _ => {
            let text = case.lines_text(&lines)?;
            format!(in alloc;
                "the jumps in {text} may become shorter: write `+0` after the target of each, and the distance is a number"
            )
        }
    }
}

/// The message about a byte that is an address.
///
/// # Errors
///
/// `AllocError` if memory ran out.
pub fn needs_low_or_high(case: &Case<'_>) -> Result<Draft, AllocError> {
    let alloc = case.alloc;
    let part = first_address(case)?;
    let written = part_text(case, part)?;
    let operand = match &part {
        Some(part) => as_operand(alloc, part)?,
        None => String::new(alloc),
    };
    let text = if names_distance(case, part)? {
        format!(in alloc; "`{written}` is a distance that is not fixed")?
    } else {
        format!(in alloc; "an address does not fit in a byte: `{written}` depends on addresses")?
    };
    let draft = on_part(case, part, text).help(format!(in alloc;
        "`LOW {operand}` or `HIGH {operand}` is a byte of it"
    )?)?;
    if is_distance(case, part)? {
        return draft.note(distance_note(case, part)?);
    }
    draft.help_if(instead_of_byte(case, part, &written)?)
}
