//! Words and numbers one after the other, with no comma or operator between them.

use asm_line::{Head, Kind, Mark, Token, is_word};
use bstr::ByteSlice;
use error_lines::{
    COMMA, Case, begin_new, builds, do_build, is_remark, mended, operands, statement_text,
};
use message_texts::{
    Counts, Draft, ONE_STATEMENT, Operand, are_statements, directive_instead, form_written,
    is_jump, joined, name_in, shown,
};
use std::alloc::{AllocError, Global};
use z80_form::{Form, Mnemonic, mnemonic_of};

/// Whether the line's word is one of these.
fn has_word(case: &Case<'_>, words: &[&str]) -> bool {
    let own = case.word();
    words
        .iter()
        .any(|word| own.eq_ignore_ascii_case(word.as_bytes()))
}

/// Whether the word of the line takes one operand more than it has.
fn takes_more(case: &Case<'_>, count: usize) -> Result<bool, AllocError> {
    let Head::Word(word) = case.form.head else {
        return Ok(false);
    };
    match mnemonic_of(word) {
        Some(mnemonic) => Ok(Counts::of(case.alloc, mnemonic)?.has(count.saturating_add(1))),
        None if has_word(case, &["ORG", "END", "EQU", ".Z80"]) => Ok(false),
        None if has_word(case, &["DS", "DEFS"]) => Ok(count < 2),
        None => Ok(true),
    }
}

/// The value of an operand, without parentheses around all of it.
fn unwrapped<'t>(operand: Operand<'t>) -> Operand<'t> {
    match form_written(&operand) {
        Form::AtNumber => operand.inner(),
        _ => operand,
    }
}

/// The DS that stands for `DB 5 DUP (0)` or `DS 5 DUP (0)`, given the number of the token DUP, if it builds.
fn as_space(case: &Case<'_>, at: usize) -> Result<Option<String>, AllocError> {
    let alloc = case.alloc;
    let found = operands(case)?;
    let [all] = found.as_slice() else {
        return Ok(None);
    };
    let before = at.saturating_sub(all.at);
    let count = all.part(0, before);
    let value = unwrapped(all.part(before.saturating_add(1), all.tokens.len()));
    let (count, value) = (joined(alloc, count.tokens)?, joined(alloc, value.tokens)?);
    let line = format!(in alloc; "DS {count},{value}")?;
    if builds(case, line.as_bytes())? {
        return Ok(Some(line));
    }
    Ok(None)
}

/// The message about a DUP after a count in the operands of DB or DS; None if the token is none.
fn repeated(case: &Case<'_>, at: usize) -> Result<Option<Draft>, AllocError> {
    let alloc = case.alloc;
    let is_dup = case.tokens_at(at, 1).iter().any(|t| is_word(b"DUP", t));
    if !is_dup || !has_word(case, &["DB", "DEFB", "DEFM", "DS", "DEFS", "DW", "DEFW"]) {
        return Ok(None);
    }
    let draft = case.draft(at, 1, String::from_str(alloc, "DUP is not supported")?);
    let is_bytes = !has_word(case, &["DW", "DEFW"]);
    if is_bytes {
        if let Some(line) = as_space(case, at)? {
            return Ok(Some(draft.help(format!(in alloc; "`{line}`")?)?));
        }
    }
    match directive_instead("DUP") {
        Some(better) => Ok(Some(draft.help(String::from_str(alloc, better)?)?)),
        None => Ok(Some(draft)),
    }
}

/// Digits without what is between them.
fn only_digits(alloc: Global, bytes: &[u8]) -> Result<Vec<u8>, AllocError> {
    let mut digits = Vec::new(alloc);
    for byte in bytes {
        if byte.is_ascii_digit() {
            digits.push(*byte)?;
        }
    }
    Ok(digits)
}

/// Whether bytes are digits, perhaps with `_` between them.
fn are_digits(bytes: &[u8]) -> bool {
    bytes.iter().all(|b| b.is_ascii_digit() || *b == b'_')
}

/// Two texts, one after the other.
fn one_text(alloc: Global, front: &[u8], rest: &[u8]) -> Result<Vec<u8>, AllocError> {
    let mut whole = Vec::from_slice(alloc, front)?;
    whole.extend_from_slice(rest)?;
    Ok(whole)
}

/// What to write in place of a number that has this word directly after its first digits; None if the word is none of a number.
fn number_help(alloc: Global, word: &[u8], whole: &[u8]) -> Result<Option<String>, AllocError> {
    let Some((first, rest)) = word.split_first() else {
        return Ok(None);
    };
    if !are_digits(rest) {
        return Ok(None);
    }
    match *first {
        b'.' => Ok(Some(String::from_str(alloc, "numbers are whole: no number has a `.`")?)),
        b'_' => {
            let digits = shown(alloc, &only_digits(alloc, whole)?)?;
            Ok(Some(format!(in alloc; "a number has only digits: `{digits}`")?))
        }
        _ => Ok(None),
    }
}

/// The message about a word that may not be there, with a help.
fn unexpected(case: &Case<'_>, at: usize, word: &[u8], help: String) -> Result<Draft, AllocError> {
    let alloc = case.alloc;
    let token = shown(alloc, word)?;
    let text = format!(in alloc; "unexpected `{token}`")?;
    case.draft(at, 1, text).help(help)
}

/// The message about a number with a point or with `_` in it, given the number of the token after its first digits. None if there is no such number.
fn in_number(case: &Case<'_>, at: usize) -> Result<Option<Draft>, AllocError> {
    let [front, mark] = case.tokens_at(at.saturating_sub(1), 2) else {
        return Ok(None);
    };
    if !matches!(front.kind, Kind::Number(_)) {
        return Ok(None);
    }
    let whole = one_text(case.alloc, front.text, mark.text)?;
    if !case.finding.text.as_slice().contains_str(whole.as_slice()) {
        return Ok(None);
    }
    match number_help(case.alloc, mark.text, &whole)? {
        Some(help) => Ok(Some(unexpected(case, at, mark.text, help)?)),
        None => Ok(None),
    }
}

/// What to write instead of `$` directly after a number or a name, which is a label of other assemblers; None if it is not that.
fn label_help(case: &Case<'_>, at: usize) -> Result<Option<&'static str>, AllocError> {
    let [front, mark] = case.tokens_at(at.saturating_sub(1), 2) else {
        return Ok(None);
    };
    let whole = one_text(case.alloc, front.text, mark.text)?;
    let is_adjacent = case.finding.text.as_slice().contains_str(whole.as_slice());
    if mark.kind != Kind::Mark(Mark::Dollar) || !is_adjacent {
        return Ok(None);
    }
    Ok(match front.kind {
        Kind::Number(_) if goes(case) => Some("a label begins with a letter, `_`, `?`, `@` or `.`"),
        Kind::Name => Some("a name has no `$`"),
        _ => None,
    })
}

/// Whether the line is a CALL.
fn is_call(case: &Case<'_>) -> bool {
    match case.form.head {
        Head::Word(word) => mnemonic_of(word) == Some(Mnemonic::Call),
        _ => false,
    }
}

/// Whether a token names a register, or is a number or a string: whether it may be what a routine is given.
fn is_argument(token: &Token<'_>) -> bool {
    match token.kind {
        Kind::Number(_) | Kind::Quoted => true,
        _ => name_in(token).is_some(),
    }
}

/// Whether the line of the call from which this line comes has these two tokens, one after the other.
fn are_in_call(case: &Case<'_>, at: usize) -> Result<bool, AllocError> {
    let [first, second] = case.tokens_at(at.saturating_sub(1), 2) else {
        return Ok(false);
    };
    let line = case.source.line(case.finding.number);
    let found = message_texts::tokens_of(case.alloc, line)?;
    let mut before: &[u8] = &[];
    for token in &found {
        if before == first.text && token.text == second.text {
            return Ok(case.is_expanded());
        }
        before = token.text;
    }
    Ok(false)
}

/// What to write instead of a line with a word too many: a comment.
fn as_comment(case: &Case<'_>, at: usize) -> Result<Option<String>, AllocError> {
    let alloc = case.alloc;
    let rest = case.tokens_at(at, case.tokens.len());
    if !is_remark(case, rest)? {
        return Ok(None);
    }
    let front = case.tokens_at(0, at);
    if !do_build(case, front)? {
        return Ok(Some(String::from_str(alloc, "a comment starts with `;`")?));
    }
    let statement = statement_text(alloc, front.get(case.statement_at()..).unwrap_or(&[]))?;
    let remark = joined(alloc, rest)?;
    Ok(Some(format!(in alloc; "a comment starts with `;`: `{statement} ; {remark}`")?))
}

/// What to write instead of a word or number directly after a complete operand, if no comma is missing before it.
fn apart_help(case: &Case<'_>, at: usize) -> Result<Option<&'static str>, AllocError> {
    if let Some(help) = label_help(case, at)? {
        return Ok(Some(help));
    }
    if is_call(case) && case.tokens_at(at, 1).iter().any(is_argument) {
        return Ok(Some(
            "CALL has no arguments: load the registers that the routine uses before it",
        ));
    }
    if are_in_call(case, at)? {
        return Ok(Some("the arguments of a macro are separated by commas"));
    }
    let rest = case.tokens_at(at, case.tokens.len());
    if begin_new(case, rest)? && are_statements(case.alloc, rest)? {
        return Ok(Some(ONE_STATEMENT));
    }
    Ok(None)
}

/// The message about a word or number directly after a complete operand.
pub(crate) fn not_apart(case: &Case<'_>, count: usize, at: usize) -> Result<Draft, AllocError> {
    let alloc = case.alloc;
    if let Some(draft) = in_number(case, at)? {
        return Ok(draft);
    }
    if let Some(draft) = repeated(case, at)? {
        return Ok(draft);
    }
    let token = case.joined(at, 1)?;
    let unexpected = case.draft(at, 1, format!(in alloc; "unexpected `{token}`")?);
    if let Some(help) = apart_help(case, at)? {
        return unexpected.help(String::from_str(alloc, help)?);
    }
    if !takes_more(case, count)? {
        return unexpected.help_if(as_comment(case, at)?);
    }
    let draft = case.draft(
        at,
        1,
        format!(in alloc; "expected a comma before `{token}`")?,
    );
    match mended(case, at, 0, &[COMMA])? {
        Some(line) => draft.help(line),
        None => draft.help_if(as_comment(case, at)?),
    }
}

/// Whether the line jumps or calls.
pub fn goes(case: &Case<'_>) -> bool {
    match case.form.head {
        Head::Word(word) => mnemonic_of(word).is_some_and(|mnemonic| is_jump(mnemonic)),
        _ => false,
    }
}
