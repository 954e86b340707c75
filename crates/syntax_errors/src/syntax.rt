//! Operands that are no expression.

use crate::apart::not_apart;
use crate::registers::{current_address, index_first, operand_with, operator_here, register_here};
use crate::scanning::{hexadecimal, without_letter};
use asm_line::{BlockWord, Head, Kind, Mark, Token};
use asm_spell::{Body, Line, StmtFault, statement};
use bstr::ByteSlice;
use common::is_reserved;
use error_lines::{
    CLOSE, COMMA, Case, PLUS, builds, is_expression, mended, nameless_equ, operands,
};
use message_texts::{
    Draft, ONE_STATEMENT, Operand, are_statements, expression_in, form_written, joined, left_open,
    name_in, shown,
};
use std::alloc::{AllocError, Global};
use z80_form::{Field, Form, Name, mnemonic_of};

/// Whether some tokens can begin an expression: whether they are one if their parentheses are closed, perhaps after one more number.
fn can_begin(case: &Case<'_>, front: &[Token<'_>]) -> Result<bool, AllocError> {
    let (open, _) = left_open(front);
    for with_number in [false, true] {
        let mut tokens = Vec::from_slice(case.alloc, front)?;
        if with_number {
            let kind = Kind::Number(1);
            tokens.push(Token { kind, text: b"1" })?;
        }
        for _ in 0..open {
            let kind = Kind::Mark(Mark::Close);
            tokens.push(Token { kind, text: b")" })?;
        }
        if is_expression(case, &tokens)? {
            return Ok(true);
        }
    }
    Ok(false)
}

/// The number of the first token after which tokens can no longer begin an expression; None if all of them can.
fn first_wrong(case: &Case<'_>, tokens: &[Token<'_>]) -> Result<Option<usize>, AllocError> {
    for at in 0..tokens.len() {
        let front = tokens.get(..at.saturating_add(1)).unwrap_or(tokens);
        if !can_begin(case, front)? {
            return Ok(Some(at));
        }
    }
    Ok(None)
}

/// Whether a token can begin an operand.
fn begins_operand(token: &Token<'_>) -> bool {
    matches!(
        token.kind,
        Kind::Name
            | Kind::OtherAf
            | Kind::Number(_)
            | Kind::Quoted
            | Kind::Mark(Mark::Open | Mark::Dollar)
    )
}

/// How many characters a string has, given its text with the quotes.
fn characters(text: &[u8]) -> usize {
    let quote = text.first().copied().unwrap_or(0);
    let inner = text.len().saturating_sub(2);
    let quotes = text
        .iter()
        .filter(|b| **b == quote)
        .count()
        .saturating_sub(2);
    inner.saturating_sub(quotes / 2)
}

/// Whether a statement has a byte in it, and no word.
fn has_byte(body: &Body) -> bool {
    match body {
        Body::Bytes(_) => true,
        Body::Code { numbers, .. } => {
            let fields = numbers.as_slice();
            fields.iter().any(|number| number.0 == Field::Byte)
        }
        _ => false,
    }
}

/// Whether the expression with this token is a byte of the statement, so that it has no room for two characters.
pub(crate) fn is_byte(case: &Case<'_>, at: usize) -> Result<bool, AllocError> {
    let mut tokens = Vec::with_capacity(case.alloc, case.tokens.len())?;
    for (number, token) in case.tokens.iter().enumerate() {
        if number == at {
            let kind = Kind::Number(1);
            tokens.push(Token { kind, text: b"1" })?;
        } else {
            tokens.push(*token)?;
        }
    }
    let line = match statement(case.alloc, &tokens) {
        Ok(line) => line,
        Err(StmtFault::NoMemory) => return Err(AllocError),
        Err(_) => return Ok(false),
    };
    match &line {
        Line::Statement {
            body: Some(body),
            ..
        } => Ok(has_byte(body)),
        _ => Ok(false),
    }
}

/// The characters that other languages write as a backslash and a letter, with their codes.
const ESCAPES: [(&[u8], &str); 8] = [
    (b"\\n", "10"),
    (b"\\r", "13"),
    (b"\\t", "9"),
    (b"\\0", "0"),
    (b"\\a", "7"),
    (b"\\b", "8"),
    (b"\\e", "27"),
    (b"\\\\", "'\\'"),
];

/// What to write instead of a string that is a backslash and a letter. None if it is another string.
fn escaped(alloc: Global, text: &[u8]) -> Result<Option<String>, AllocError> {
    let inside = text.get(1..text.len().saturating_sub(1)).unwrap_or(&[]);
    for (escape, code) in &ESCAPES {
        if *escape == inside {
            return Ok(Some(format!(in alloc; "strings have no escapes: write `{code}`")?));
        }
    }
    Ok(None)
}

/// The message about a word or a number after a string of a directive, which may be a quote in the string that is not doubled; None if there is
/// no such word.
fn after_string(case: &Case<'_>, at: usize, text: &[u8]) -> Result<Option<Draft>, AllocError> {
    let alloc = case.alloc;
    let is_instruction = match case.form.head {
        Head::Word(word) => mnemonic_of(word).is_some(),
        _ => true,
    };
    let next = at.saturating_add(1);
    let [token] = case.tokens_at(next, 1) else {
        return Ok(None);
    };
    if is_instruction || !begins_operand(token) || is_operator(case, token)? {
        return Ok(None);
    }
    let mut both = Vec::from_slice(alloc, text)?;
    both.extend_from_slice(token.text)?;
    if !case.finding.text.as_slice().contains_str(both.as_slice()) {
        return Ok(Some(not_apart(case, operands(case)?.len(), next)?));
    }
    let written = shown(alloc, token.text)?;
    let quote = shown(alloc, text.get(..1).unwrap_or(&[]))?;
    let draft = case.draft(next, 1, format!(in alloc; "unexpected `{written}`")?);
    Ok(Some(draft.help(format!(in alloc;
        "a quote in a string is written twice: `{quote}it{quote}{quote}s{quote}`"
    )?)?))
}

/// The message about a string in an expression that has not one character.
fn long_string(case: &Case<'_>, at: usize, text: &[u8]) -> Result<Draft, AllocError> {
    let alloc = case.alloc;
    if let Some(draft) = after_string(case, at, text)? {
        return Ok(draft);
    }
    let written = shown(alloc, text)?;
    let count = characters(text);
    let text = format!(in alloc;
        "a string in an expression has one character, and `{written}` has {count}"
    )?;
    if let Some(help) = escaped(alloc, written.as_bytes())? {
        return case.draft(at, 1, text).help(help);
    }
    let help = if is_byte(case, at)? {
        "a byte holds one character, as `'A'`; write a text with DB, as in `DB 'AB'`"
    } else {
        "write a text with DB, as in `DB 'AB'`; two characters in a word are `'A'*256+'B'`"
    };
    case.draft(at, 1, text).help(String::from_str(alloc, help)?)
}

/// Whether a token is a register pair in parentheses with a displacement after it, as in `(HL+1)`.
fn has_displacement(case: &Case<'_>, at: usize) -> bool {
    let (Some(before), Some(token), Some(after)) = (
        case.tokens.get(at.wrapping_sub(1)),
        case.tokens.get(at),
        case.tokens.get(at.saturating_add(1)),
    ) else {
        return false;
    };
    matches!(before.kind, Kind::Mark(Mark::Open))
        && matches!(
            name_in(token),
            Some(Name::Hl | Name::Bc | Name::De | Name::Sp)
        )
        && matches!(after.kind, Kind::Mark(Mark::Plus | Mark::Minus))
}

/// Whether a slash comes directly before a token, so that both begin a comment of another language.
fn is_after_slash(case: &Case<'_>, at: usize) -> bool {
    match case.tokens.get(at.wrapping_sub(1)) {
        Some(before) => before.kind == Kind::Mark(Mark::Slash),
        None => false,
    }
}

/// The number of the parenthesis that closes the one with this number.
fn closer(case: &Case<'_>, open: usize) -> Option<usize> {
    for count in 1..case.tokens.len() {
        let own = case.tokens_at(open, count.saturating_add(1));
        let (depth, _) = left_open(own);
        if depth == 0 && own.len() > count {
            return Some(open.saturating_add(count));
        }
    }
    None
}

/// What to write instead of `(SP+2)`, given the numbers of SP and of the parenthesis that closes; None if no number is there.
fn stack_help(case: &Case<'_>, at: usize, close: usize) -> Result<Option<String>, AllocError> {
    let alloc = case.alloc;
    let from = at.saturating_add(2);
    let distance = case.tokens_at(from, close.saturating_sub(from));
    let text = joined(alloc, distance)?;
    let is_less = case
        .tokens_at(at.saturating_add(1), 1)
        .iter()
        .any(|sign| sign.kind == Kind::Mark(Mark::Minus));
    let number = match (is_less, distance) {
        (false, _) => text,
        (true, [_]) => format!(in alloc; "-{text}")?,
        (true, _) => format!(in alloc; "-({text})")?,
    };
    let load = format!(in alloc; "LD HL,{number}")?;
    if builds(case, load.as_bytes())? {
        return Ok(Some(format!(in alloc; "`{load}` and `ADD HL,SP`, then use (HL)")?));
    }
    Ok(None)
}

/// What to write instead of a register pair with a displacement.
fn pair_help(case: &Case<'_>, at: usize, token: &Token<'_>) -> Result<Option<String>, AllocError> {
    let alloc = case.alloc;
    let Some(close) = closer(case, at.saturating_sub(1)) else {
        return Ok(None);
    };
    if name_in(token) == Some(Name::Sp) {
        return stack_help(case, at, close);
    }
    let from = at.saturating_add(1);
    if mended(case, from, close.saturating_sub(from), &[])?.is_none() {
        return Ok(None);
    }
    let pair = shown(alloc, &token.text.to_ascii_uppercase(alloc)?)?;
    Ok(Some(format!(in alloc; "change {pair} before, or use IX or IY")?))
}

/// The message about a register pair with a displacement.
fn displaced_pair(case: &Case<'_>, at: usize, token: &Token<'_>) -> Result<Draft, AllocError> {
    let alloc = case.alloc;
    let written = shown(alloc, token.text)?;
    let text = format!(in alloc;
        "`{written}` takes no displacement: only (IX+d) and (IY+d) have one"
    )?;
    case.draft(at, 1, text).help_if(pair_help(case, at, token)?)
}

/// What to write instead of a sign that no expression has there.
fn mark_help(case: &Case<'_>, at: usize, token: &Token<'_>) -> Result<Option<String>, AllocError> {
    match token.kind {
        Kind::Mark(Mark::Star) => current_address(case, at),
        Kind::Mark(Mark::Open) => match operand_with(case, at)? {
            Some(operand) => index_first(case, &operand),
            None => Ok(None),
        },
        _ => Ok(None),
    }
}

/// The message about a colon among the operands; None if there is none.
fn with_colon(case: &Case<'_>) -> Result<Option<Draft>, AllocError> {
    let alloc = case.alloc;
    let colon = Kind::Mark(Mark::Colon);
    let Some(number) = case.form.rest.iter().position(|token| token.kind == colon) else {
        return Ok(None);
    };
    let at = case.rest_at().saturating_add(number);
    let next = at.saturating_add(1);
    let behind = case.tokens_at(next, case.tokens.len());
    if !behind.is_empty() && !are_statements(alloc, behind)? {
        if let Some(line) = mended(case, at, 1, &[COMMA])? {
            let token = case.joined(next, 1)?;
            let text = format!(in alloc; "expected a comma before `{token}`")?;
            return Ok(Some(case.draft(next, 1, text).help(line)?));
        }
    }
    let help = if behind.is_empty() {
        "leave out the colon"
    } else {
        ONE_STATEMENT
    };
    let draft = case.draft(at, 1, String::from_str(alloc, "unexpected `:`")?);
    Ok(Some(draft.help(String::from_str(alloc, help)?)?))
}

/// The message about a token that no expression can have there.
fn foreign(case: &Case<'_>, at: usize, token: &Token<'_>) -> Result<Draft, AllocError> {
    let alloc = case.alloc;
    let written = shown(alloc, token.text)?;
    let upper = token.text.to_ascii_uppercase(alloc)?;
    match token.kind {
        Kind::Quoted => long_string(case, at, token.text),
        Kind::Mark(Mark::Slash | Mark::Star) if is_after_slash(case, at) => {
            let text = format!(in alloc; "unexpected `{written}`")?;
            case.draft(at, 1, text)
                .help(String::from_str(alloc, "a comment starts with `;`")?)
        }
        _ if has_displacement(case, at) => displaced_pair(case, at, token),
        _ if name_in(token).is_some() => register_here(case, at, token),
        Kind::Name if is_reserved(&upper) => operator_here(case, at, token),
        _ => {
            let text = format!(in alloc; "unexpected `{written}`")?;
            case.draft(at, 1, text).help_if(mark_help(case, at, token)?)
        }
    }
}

/// The message about a hexadecimal number after `$`. None if there is no such number.
fn after_dollar(
    case: &Case<'_>,
    at: usize,
    before: &Token<'_>,
    token: &Token<'_>,
) -> Result<Option<Draft>, AllocError> {
    let alloc = case.alloc;
    if before.kind != Kind::Mark(Mark::Dollar) {
        return Ok(None);
    }
    let Some(number) = hexadecimal(alloc, without_letter(token.text, b'h'))? else {
        return Ok(None);
    };
    let written = shown(alloc, token.text)?;
    let text = format!(in alloc; "unexpected `{written}` (`$` is the current address)")?;
    let help = format!(in alloc; "hexadecimal is written `{number}`, without `$`")?;
    Ok(Some(case.draft(at, 1, text).help(help)?))
}

/// The message about a wrong token, given the tokens of its operand and its number among these.
fn wrong(
    case: &Case<'_>,
    count: usize,
    part: &Operand<'_>,
    number: usize,
) -> Result<Draft, AllocError> {
    let at = part.at.saturating_add(number);
    let Some(token) = part.tokens.get(number) else {
        return incomplete(case, part);
    };
    let before = part.tokens.get(number.wrapping_sub(1));
    let after = part.tokens.get(number.saturating_add(1));
    if let Some(before) = before {
        if let Some(draft) = after_dollar(case, at, before, token)? {
            return Ok(draft);
        }
    }
    let ends_operand = match before {
        Some(before) => !is_operator(case, before)?,
        None => false,
    };
    if ends_operand && begins_operand(token) && !is_operator(case, token)? {
        return not_apart(case, count, at);
    }
    match after {
        Some(next)
            if number == 0
                && name_in(token).is_some()
                && begins_operand(next)
                && !is_operator(case, next)? => { not_apart(case, count, at.saturating_add(1)) }
        _ => foreign(case, at, token),
    }
}

/// Whether a token is an operator, a comma or an open parenthesis, after which an operand comes.
fn is_operator(case: &Case<'_>, token: &Token<'_>) -> Result<bool, AllocError> {
    match token.kind {
        Kind::Mark(Mark::Close | Mark::Dollar) => Ok(false),
        Kind::Mark(_) => Ok(true),
        Kind::Name => {
            let upper = token.text.to_ascii_uppercase(case.alloc)?;
            Ok(is_reserved(&upper) && name_in(token).is_none())
        }
        _ => Ok(false),
    }
}

/// The message about an operand that ends too early.
fn incomplete(case: &Case<'_>, part: &Operand<'_>) -> Result<Draft, AllocError> {
    let alloc = case.alloc;
    let Some(last) = part.tokens.last() else {
        let text = String::from_str(alloc, "expected an expression")?;
        return Ok(case.draft(part.at.saturating_sub(1), 1, text));
    };
    let written = shown(alloc, last.text)?;
    let at = part.at.saturating_add(part.tokens.len()).saturating_sub(1);
    let text = format!(in alloc; "expected an expression after `{written}`")?;
    Ok(case.draft(at, 1, text))
}

/// The line with the parenthesis that closes this one, at the last place where the line then builds.
fn closed(case: &Case<'_>, open: usize) -> Result<Option<String>, AllocError> {
    let behind = case.tokens.len().saturating_sub(open);
    for back in 0..behind {
        let at = case.tokens.len().saturating_sub(back);
        if let Some(line) = mended(case, at, 0, &[CLOSE])? {
            return Ok(Some(line));
        }
    }
    Ok(None)
}

/// The number of the first parenthesis that closes none.
fn unopened(tokens: &[Token<'_>]) -> Option<usize> {
    for (at, token) in tokens.iter().enumerate() {
        if let Kind::Mark(Mark::Close) = token.kind {
            let (open, _) = left_open(tokens.get(..at).unwrap_or(&[]));
            if open == 0 {
                return Some(at);
            }
        }
    }
    None
}

/// The message about the tokens of an expression, if they make none.
fn told(case: &Case<'_>, count: usize, part: &Operand<'_>) -> Result<Option<Draft>, AllocError> {
    let alloc = case.alloc;
    if is_expression(case, part.tokens)? {
        return Ok(None);
    }
    let (open, outermost) = left_open(part.tokens);
    if open > 0 {
        let text = String::from_str(alloc, "this parenthesis is not closed")?;
        let at = part.at.saturating_add(outermost);
        return Ok(Some(case.draft(at, 1, text).help_if(closed(case, at)?)?));
    }
    if let Some(number) = unopened(part.tokens) {
        let text = String::from_str(alloc, "this parenthesis closes none")?;
        return Ok(Some(case.draft(part.at.saturating_add(number), 1, text)));
    }
    match first_wrong(case, part.tokens)? {
        Some(number) => Ok(Some(wrong(case, count, part, number)?)),
        None => Ok(Some(incomplete(case, part)?)),
    }
}

/// Whether an operand may be a string of any length: whether it is one, in a line whose word is no instruction.
fn is_text(case: &Case<'_>, operand: &Operand<'_>) -> bool {
    let is_directive = match case.form.head {
        Head::Word(word) => mnemonic_of(word).is_none(),
        _ => false,
    };
    is_directive
        && matches!(
            operand.tokens,
            [Token {
                kind: Kind::Quoted,
                ..
            }]
        )
}

/// The part of an operand that has to be an expression.
fn expression_part<'a>(case: &Case<'a>, operand: &Operand<'a>) -> Option<Operand<'a>> {
    match case.form.head {
        Head::Word(word) if mnemonic_of(word).is_some() => expression_in(operand),
        _ => Some(*operand),
    }
}

/// The message about the first operand that is no expression; of the first string of more than one character, if `texts` are looked at too.
fn first_told(case: &Case<'_>, texts: bool) -> Result<Option<Draft>, AllocError> {
    let found = operands(case)?;
    for operand in &found {
        if texts || !is_text(case, operand) {
            if let Some(part) = expression_part(case, operand) {
                if let Some(draft) = told(case, found.len(), &part)? {
                    return Ok(Some(draft));
                }
            }
        }
    }
    Ok(None)
}

/// The message about a second expression in a line that takes one; None if the line is none, or has one.
fn second_expression(case: &Case<'_>) -> Result<Option<Draft>, AllocError> {
    let alloc = case.alloc;
    let takes_one = matches!(
        case.form.head,
        Head::Equ(_) | Head::Block(BlockWord::If | BlockWord::Rept)
    );
    let found = operands(case)?;
    match found.get(1) {
        Some(second) if takes_one => {
            let word = shown(alloc, &case.word().to_ascii_uppercase(alloc)?)?;
            let text = format!(in alloc; "unexpected `,`: {word} takes one expression")?;
            Ok(Some(case.draft(second.at.saturating_sub(1), 1, text)))
        }
        _ => Ok(None),
    }
}

/// The message about a displacement without its sign, as in `(IX 5)`; None if there is none.
fn without_sign(case: &Case<'_>) -> Result<Option<Draft>, AllocError> {
    let alloc = case.alloc;
    for operand in &operands(case)? {
        let distance = operand.inner().part(1, 1);
        let begins = distance.tokens.iter().any(|token| begins_operand(token));
        if begins && matches!(form_written(operand), Form::Displaced(_)) {
            if let Some(line) = mended(case, distance.at, 0, &[PLUS])? {
                let token = joined(alloc, distance.tokens)?;
                let text = format!(in alloc; "expected `+` or `-` before `{token}`")?;
                let draft = case.draft(distance.at, 1, text);
                return Ok(Some(draft.help(format!(in alloc;
                    "a displacement has a sign: {line}"
                )?)?));
            }
        }
    }
    Ok(None)
}

/// The message about a line with an operand that is no expression.
///
/// # Errors
///
/// `AllocError` if memory ran out.
pub fn no_expression(case: &Case<'_>) -> Result<Draft, AllocError> {
    if let Some(draft) = with_colon(case)? {
        return Ok(draft);
    }
    if let Head::Word(word) = case.form.head {
        if word.eq_ignore_ascii_case(b"EQU") {
            return nameless_equ(case);
        }
    }
    if let Some(draft) = first_told(case, false)? {
        return Ok(draft);
    }
    if let Some(draft) = first_told(case, true)? {
        return Ok(draft);
    }
    if let Some(draft) = second_expression(case)? {
        return Ok(draft);
    }
    if let Some(draft) = without_sign(case)? {
        return Ok(draft);
    }
    let text = String::from_str(case.alloc, "expected an expression")?;
    Ok(case.on_word(text))
}
