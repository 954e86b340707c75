//! Registers, conditions and operators where an expression has to be.

use asm_line::{Head, Kind, Mark, Token, is_word};
use error_lines::{CLOSE, Case, HERE, OPEN, PLUS, mended, operands};
use message_texts::{
    Draft, Operand, form_written, is_jump, joined, name_in, name_text, reserved_text, shown,
};
use std::alloc::AllocError;
use z80_form::{Form, Mnemonic, Name, Pointed, mnemonic_of};

/// The mnemonic of the line; None if its word is none.
fn mnemonic_here(case: &Case<'_>) -> Option<Mnemonic> {
    match case.form.head {
        Head::Word(word) => mnemonic_of(word),
        _ => None,
    }
}

/// The operand that has a token.
pub(crate) fn operand_with<'a>(
    case: &Case<'a>,
    at: usize,
) -> Result<Option<Operand<'a>>, AllocError> {
    for operand in &operands(case)? {
        let end = operand.at.saturating_add(operand.tokens.len());
        if at >= operand.at && at < end {
            return Ok(Some(*operand));
        }
    }
    Ok(None)
}

/// The line with an operand in parentheses, if it builds so: `LD A,(IX+3)` in place of `LD A,IX+3`.
fn in_parentheses(case: &Case<'_>, operand: &Operand<'_>) -> Result<Option<String>, AllocError> {
    let mut tokens = Vec::new(case.alloc);
    tokens.push(OPEN)?;
    tokens.extend_from_slice(case.tokens_at(operand.at, operand.tokens.len()))?;
    tokens.push(CLOSE)?;
    mended(case, operand.at, operand.tokens.len(), &tokens)
}

/// Whether a token is IX or IY.
fn is_index(token: &Token<'_>) -> bool {
    matches!(name_in(token), Some(Name::Ix | Name::Iy))
}

/// IX or IY, the sign and the displacement in an operand that has them in another order, such as `(5+IX)`, `(IX)+5` or `5(IX)`.
fn displaced<'t>(tokens: &'t [Token<'t>]) -> Option<(Token<'t>, Token<'t>, &'t [Token<'t>])> {
    match tokens {
        [open, front @ .., plus, index, close]
            if is_mark(open, Mark::Open)
                && is_mark(plus, Mark::Plus)
                && is_index(index)
                && is_mark(close, Mark::Close) => Some((*index, PLUS, front)),
        [open, index, close, sign, rest @ ..]
            if is_mark(open, Mark::Open)
                && is_index(index)
                && is_mark(close, Mark::Close)
                && matches!(sign.kind, Kind::Mark(Mark::Plus | Mark::Minus)) => {
            Some((*index, *sign, rest))
        }
        [front @ .., open, index, close]
            if is_mark(open, Mark::Open) && is_index(index) && is_mark(close, Mark::Close) => {
            Some((*index, PLUS, front))
        }
        _ => None,
    }
}

/// Whether a token is this mark.
fn is_mark(token: &Token<'_>, mark: Mark) -> bool {
    token.kind == Kind::Mark(mark)
}

/// The line with the displacement of an operand after IX or IY, if it builds so: `LD A,(IX+5)` in place of `LD A,5(IX)`.
pub(crate) fn index_first(
    case: &Case<'_>,
    operand: &Operand<'_>,
) -> Result<Option<String>, AllocError> {
    let own = case.tokens_at(operand.at, operand.tokens.len());
    let Some((index, sign, distance)) = displaced(own) else {
        return Ok(None);
    };
    let mut tokens = Vec::from_slice(case.alloc, &[OPEN, index, sign])?;
    tokens.extend_from_slice(distance)?;
    tokens.push(CLOSE)?;
    mended(case, operand.at, operand.tokens.len(), &tokens)
}

/// The line with `$` in place of a token that is the current address in other assemblers, if it builds so.
///
/// # Errors
///
/// `AllocError` if memory ran out.
pub fn current_address(case: &Case<'_>, at: usize) -> Result<Option<String>, AllocError> {
    match mended(case, at, 1, &[HERE])? {
        Some(line) => Ok(Some(format!(in case.alloc; "the current address is `$`: {line}")?)),
        None => Ok(None),
    }
}

/// The register pair in parentheses before a sign, as in `(HL)+`, and the word that changes it so.
fn stepped(operand: &Operand<'_>) -> Option<(Name, &'static str)> {
    let count = operand.tokens.len().saturating_sub(1);
    let word = match operand.tokens.last()?.kind {
        Kind::Mark(Mark::Plus) => "INC",
        Kind::Mark(Mark::Minus) => "DEC",
        _ => return None,
    };
    match form_written(&operand.part(0, count)) {
        Form::At(Pointed::Hl) => Some((Name::Hl, word)),
        Form::At(Pointed::De) => Some((Name::De, word)),
        Form::At(Pointed::Bc) => Some((Name::Bc, word)),
        _ => None,
    }
}

/// What to write instead of an operand that is changed where it is used, as `(HL)+`.
fn step_instead(case: &Case<'_>, operand: &Operand<'_>) -> Result<Option<String>, AllocError> {
    let alloc = case.alloc;
    let Some((pair, word)) = stepped(operand) else {
        return Ok(None);
    };
    let sign = operand
        .at
        .saturating_add(operand.tokens.len())
        .saturating_sub(1);
    match mended(case, sign, 1, &[])? {
        Some(line) => {
            let pair = name_text(pair);
            Ok(Some(format!(in alloc; "{line} and `{word} {pair}`")?))
        }
        None => Ok(None),
    }
}

/// Whether a register may be meant as a label: in a directive, and as the target of a jump.
fn may_be_label(case: &Case<'_>, token: &Token<'_>) -> bool {
    let is_condition = matches!(
        name_in(token),
        Some(Name::Nz | Name::Z | Name::Nc | Name::Po | Name::Pe | Name::P | Name::M)
    );
    match mnemonic_here(case) {
        Some(mnemonic) => is_condition || is_jump(mnemonic),
        None => true,
    }
}

/// The message about a register or condition in an expression.
pub(crate) fn register_here(
    case: &Case<'_>,
    at: usize,
    token: &Token<'_>,
) -> Result<Draft, AllocError> {
    let alloc = case.alloc;
    let written = shown(alloc, token.text)?;
    let what = reserved_text(&token.text.to_ascii_uppercase(alloc)?);
    let text = format!(in alloc; "`{written}` is {what}, which no expression has")?;
    let draft = case.draft(at, 1, text);
    if may_be_label(case, token) {
        return draft.help(String::from_str(alloc, "rename the label, if one is meant")?);
    }
    if let Some(operand) = operand_with(case, at)? {
        if let Some(line) = in_parentheses(case, &operand)? {
            return draft.help(line);
        }
        if let Some(line) = index_first(case, &operand)? {
            return draft.help(line);
        }
        if let Some(help) = step_instead(case, &operand)? {
            return draft.help(help);
        }
    }
    draft.help(String::from_str(
        alloc,
        "an expression is calculated before the program runs: add to a register by ADD, INC or DEC",
    )?)
}

/// The conditions that stand for comparisons of other assemblers.
const CONDITIONS: [(&[u8], &[u8]); 2] = [(b"EQ", b"Z"), (b"NE", b"NZ")];

/// The line with a condition of the Z80 in place of this operator, if it builds so.
fn as_condition(
    case: &Case<'_>,
    at: usize,
    token: &Token<'_>,
) -> Result<Option<String>, AllocError> {
    let alloc = case.alloc;
    for (operator, condition) in &CONDITIONS {
        if token.text.eq_ignore_ascii_case(*operator) {
            let kind = Kind::Name;
            let other = Token {
                kind,
                text: *condition,
            };
            let name = shown(alloc, *condition)?;
            if let Some(line) = mended(case, at, 1, &[other])? {
                return Ok(Some(format!(in alloc; "the condition is {name}: {line}")?));
            }
        }
    }
    Ok(None)
}

/// What to write instead of an operator where an operand has to be.
fn operator_help(
    case: &Case<'_>,
    at: usize,
    token: &Token<'_>,
) -> Result<Option<String>, AllocError> {
    let alloc = case.alloc;
    if is_word(b"NOT", token) {
        return match case.tokens_at(at.saturating_add(1), 1) {
            [operand] if !is_mark(operand, Mark::Open) => {
                let text = joined(alloc, &[*token, *operand])?;
                Ok(Some(format!(in alloc; "NOT binds less tightly: write `({text})`")?))
            }
            _ => Ok(Some(String::from_str(
                alloc,
                "NOT binds less tightly: put it and its operand in parentheses",
            )?)),
        };
    }
    if is_word(b"HIGH", token) || is_word(b"LOW", token) {
        return Ok(None);
    }
    Ok(Some(String::from_str(alloc, "it needs an operand on each side")?))
}

/// The message about an operator where an operand has to be.
pub(crate) fn operator_here(
    case: &Case<'_>,
    at: usize,
    token: &Token<'_>,
) -> Result<Draft, AllocError> {
    let alloc = case.alloc;
    let written = joined(alloc, &[*token])?;
    let text = format!(in alloc; "`{written}` is an operator, which cannot be here")?;
    let draft = case.draft(at, 1, text);
    let is_first = at == case.rest_at();
    let conditions = match mnemonic_here(case) {
        Some(Mnemonic::Jp | Mnemonic::Call | Mnemonic::Ret) if is_first => {
            "the conditions are NZ, Z, NC, C, PO, PE, P and M"
        }
        Some(Mnemonic::Jr) if is_first => "the conditions of JR are NZ, Z, NC and C",
        _ => return draft.help_if(operator_help(case, at, token)?),
    };
    match as_condition(case, at, token)? {
        Some(help) => draft.help(help),
        None => draft.help(String::from_str(alloc, conditions)?),
    }
}
