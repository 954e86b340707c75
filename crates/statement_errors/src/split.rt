//! Words that are two, without the blank between them, and names that are one, with `-` in them.

use asm_line::{Kind, Mark, Token};
use bstr::ByteSlice;
use error_lines::{Case, do_build, statement_text};
use message_texts::{is_jump, joined, name_in, shown, tokens_of};
use std::alloc::AllocError;
use z80_form::mnemonic_of;

/// The fewest letters of a mnemonic, and the most.
const SHORTEST: usize = 2;

const LONGEST: usize = 4;

/// Whether a token is a number, a register or condition, or a name that the source defines.
fn is_known(case: &Case<'_>, token: &Token<'_>) -> Result<bool, AllocError> {
    if matches!(token.kind, Kind::Number(_)) || name_in(token).is_some() {
        return Ok(true);
    }
    match case.known {
        Some(known) => {
            let upper = token.text.to_ascii_uppercase(case.alloc)?;
            Ok(token.kind == Kind::Name && known.table.kind(&upper).is_some())
        }
        None => Ok(false),
    }
}

/// The statement with a blank after this number of letters of its word, and this byte after that word, if it builds, and if what then follows is
/// known.
fn with_blank(case: &Case<'_>, count: usize, behind: u8) -> Result<Option<String>, AllocError> {
    let alloc = case.alloc;
    let word = case.word();
    let (front, back) = word.split_at(count.min(word.len()));
    if mnemonic_of(front).is_none() {
        return Ok(None);
    }
    let mut line = Vec::from_slice(alloc, front)?;
    line.push(b' ')?;
    line.extend_from_slice(back)?;
    line.push(behind)?;
    line.extend_from_slice(joined(alloc, case.form.rest)?.as_bytes())?;
    let found = tokens_of(alloc, &line)?;
    match found.get(1) {
        Some(second) if is_known(case, second)? && do_build(case, &found)? => {
            Ok(Some(statement_text(alloc, &found)?))
        }
        _ => Ok(None),
    }
}

/// Whether this number of letters of the line's word is a jump, after which a condition may come.
fn is_jump_with(case: &Case<'_>, count: usize) -> bool {
    let front = case.word().get(..count).unwrap_or(&[]);
    mnemonic_of(front).is_some_and(|mnemonic| is_jump(mnemonic))
}

/// The statement that the line is with a blank in its word: `LD A,5` for `LDA,5`, `DJNZ LOOP` for `DJNZLOOP`, and `JR NZ,X` for `JRNZ X`.
pub(crate) fn with_space(case: &Case<'_>) -> Result<Option<String>, AllocError> {
    for count in SHORTEST..=LONGEST.min(case.word().len().saturating_sub(1)) {
        if let Some(line) = with_blank(case, count, b' ')? {
            return Ok(Some(line));
        }
        if is_jump_with(case, count) {
            if let Some(line) = with_blank(case, count, b',')? {
                return Ok(Some(line));
            }
        }
    }
    Ok(None)
}

/// Whether tokens follow each other in the line without blanks between them.
fn are_adjacent(case: &Case<'_>, tokens: &[Token<'_>]) -> Result<bool, AllocError> {
    let mut written = Vec::new(case.alloc);
    for token in tokens {
        written.extend_from_slice(token.text)?;
    }
    Ok(
        case.finding
            .text
            .as_slice()
            .contains_str(written.as_slice()),
    )
}

/// A name that is written with `-` or `$`, as it can be written, given the number of the token at its front: `PRINT_CHAR` for `PRINT-CHAR`.
///
/// # Errors
///
/// `AllocError` if memory ran out.
pub fn with_underscore(case: &Case<'_>, at: usize) -> Result<Option<String>, AllocError> {
    let alloc = case.alloc;
    let all = case.tokens_at(at, 3);
    let [front, sign, back] = all else {
        return Ok(None);
    };
    let is_sign = matches!(sign.kind, Kind::Mark(Mark::Minus | Mark::Dollar));
    if front.kind != Kind::Name || !is_sign || !are_adjacent(case, all)? {
        return Ok(None);
    }
    let rest = match back.kind {
        Kind::Name => shown(alloc, back.text)?,
        Kind::Mark(Mark::Colon) if sign.kind == Kind::Mark(Mark::Dollar) => String::new(alloc),
        _ => return Ok(None),
    };
    let (front, sign) = (shown(alloc, front.text)?, shown(alloc, sign.text)?);
    Ok(Some(format!(in alloc; "a name has no `{sign}`: `{front}_{rest}`")?))
}

/// A label that is written with a blank in it, as it can be written, if the line builds so: `MY_LABEL: NOP` for `MY LABEL: NOP`.
pub(crate) fn without_blank(case: &Case<'_>) -> Result<Option<String>, AllocError> {
    let alloc = case.alloc;
    let [back, colon, ..] = case.form.rest else {
        return Ok(None);
    };
    let is_label = back.kind == Kind::Name && colon.kind == Kind::Mark(Mark::Colon);
    if case.form.label.is_some() || !is_label {
        return Ok(None);
    }
    let mut line = Vec::from_slice(alloc, case.word())?;
    line.push(b'_')?;
    line.extend_from_slice(back.text)?;
    let rest = case.tokens_at(case.rest_at().saturating_add(1), case.tokens.len());
    line.extend_from_slice(joined(alloc, rest)?.as_bytes())?;
    let found = tokens_of(alloc, &line)?;
    if !do_build(case, &found)? {
        return Ok(None);
    }
    let text = joined(alloc, &found)?;
    Ok(Some(format!(in alloc; "a name has no blank: `{text}`")?))
}
