//! Names that have no value yet where IF and REPT are processed.

use asm_line::{Head, Kind, Mark, Token, form_of, is_name};
use bstr::ByteSlice;
use common::{NameKey, is_reserved};
use error_lines::{Case, Wanted, Why, first_line};
use indexmap::IndexMap;
use message_texts::{Draft, shown, tokens_of};
use std::alloc::AllocError;

/// Names in upper case that EQU lines define from numbers alone, and those lines.
type Numbers = IndexMap<Vec<u8>, u32, NameKey>;

/// The first name or `$` among tokens that is no number.
fn first_without<'t>(
    case: &Case<'_>,
    tokens: &[Token<'t>],
    numbers: &Numbers,
) -> Result<Option<(usize, Token<'t>)>, AllocError> {
    for (at, token) in tokens.iter().enumerate() {
        if token.kind == Kind::Mark(Mark::Dollar) {
            return Ok(Some((at, *token)));
        }
        if is_name(token) {
            let upper = token.text.to_ascii_uppercase(case.alloc)?;
            if !is_reserved(&upper) && numbers.get(upper.as_slice()).is_none() {
                return Ok(Some((at, *token)));
            }
        }
    }
    Ok(None)
}

/// Whether a line may be an EQU. Most lines need not be cut into tokens to tell that they are none.
fn may_define(line: &[u8]) -> bool {
    line.contains_str(b"EQU") || line.contains_str(b"equ")
}

/// Whether a line that defines a name is between IF and ENDIF, and so may not be assembled.
fn is_in_branch(case: &Case<'_>, name: &[u8], line: u32) -> Result<bool, AllocError> {
    let upper = name.to_ascii_uppercase(case.alloc)?;
    Ok(match case.source.hidden.get(upper.as_slice()) {
        Some(hidden) => hidden.number == line && matches!(hidden.why, Why::InBranch),
        None => false,
    })
}

/// Which EQU lines count.
#[derive(Clone, Copy, PartialEq, Eq)]
enum Counted {
    All,
    /// Only those that are surely assembled.
    OutsideBranches,
}

/// The names that EQU lines above a line define from numbers alone.
fn numbers_above(case: &Case<'_>, before: u32, counted: Counted) -> Result<Numbers, AllocError> {
    let alloc = case.alloc;
    let mut numbers = IndexMap::with_hasher(alloc, NameKey::of(&case.finding.text));
    let mut number = 0u32;
    for _ in 0..case.source.len() {
        number = number.saturating_add(1);
        if number >= before {
            break;
        }
        let line = case.source.line(number);
        if may_define(line) {
            let found = tokens_of(alloc, line)?;
            let form = form_of(&found);
            if let Head::Equ(name) = form.head {
                let counts = counted == Counted::All || !is_in_branch(case, name, number)?;
                if counts && first_without(case, form.rest, &numbers)?.is_none() {
                    numbers.insert(name.to_ascii_uppercase(alloc)?, number)?;
                }
            }
        }
    }
    Ok(numbers)
}

/// The note about a name that an EQU line above defines, given that line.
fn note_above(case: &Case<'_>, name: &str, line: u32) -> Result<Option<String>, AllocError> {
    let alloc = case.alloc;
    let at = case.at_line(line)?;
    let numbers = numbers_above(case, line, Counted::All)?;
    let found = tokens_of(alloc, case.source.line(line))?;
    if let Some((_, token)) = first_without(case, form_of(&found).rest, &numbers)? {
        let other = shown(alloc, token.text)?;
        return Ok(Some(format!(in alloc;
            "`{name}` is defined {at}, but not from numbers alone: `{other}` has no value there"
        )?));
    }
    if is_in_branch(case, name.as_bytes(), line)? {
        return Ok(Some(format!(in alloc;
            "`{name}` is defined {at}, in a branch that is not assembled"
        )?));
    }
    Ok(None)
}

/// The message about a name that an EQU line defines, given that line.
fn by_equ(case: &Case<'_>, draft: Draft, name: &str, line: u32) -> Result<Draft, AllocError> {
    let alloc = case.alloc;
    if line < case.finding.number {
        return match note_above(case, name, line)? {
            Some(note) => draft.note(note),
            None => Ok(draft),
        };
    }
    let line = case.line_text(line)?;
    draft.help(format!(in alloc; "move the EQU line up, which is {line}")?)
}

/// What a name or `$` is that stands for an address; None if it is not known to.
fn address_note(case: &Case<'_>, token: &Token<'_>) -> Result<Option<String>, AllocError> {
    let alloc = case.alloc;
    let name = shown(alloc, token.text)?;
    if token.kind == Kind::Mark(Mark::Dollar) {
        return Ok(Some(String::from_str(
            alloc,
            "`$` is an address, and addresses are not known yet",
        )?));
    }
    if let Some(line) = first_line(alloc, case.source, Wanted::Label(token.text))? {
        let line = case.line_text(line)?;
        return Ok(Some(format!(in alloc;
            "`{name}` is a label ({line}), and addresses are not known yet"
        )?));
    }
    if let Some(line) = first_line(alloc, case.source, Wanted::External(token.text))? {
        let line = case.line_text(line)?;
        return Ok(Some(format!(in alloc;
            "`{name}` is an external ({line}), and addresses are not known yet"
        )?));
    }
    Ok(None)
}

/// The number of the first name or `$` of a condition that has no value: among the tokens of the line.
fn first_unknown(case: &Case<'_>) -> Result<usize, AllocError> {
    for counted in [Counted::All, Counted::OutsideBranches] {
        let numbers = numbers_above(case, case.finding.number, counted)?;
        if let Some((at, _)) = first_without(case, case.form.rest, &numbers)? {
            return Ok(case.rest_at().saturating_add(at));
        }
    }
    Ok(case.rest_at())
}

/// The message about a condition or a count whose value is not known yet.
pub(crate) fn condition_names_label(case: &Case<'_>) -> Result<Draft, AllocError> {
    let alloc = case.alloc;
    let at = first_unknown(case)?;
    let word = shown(alloc, case.word())?;
    let name = case.joined(at, 1)?;
    let text = format!(in alloc;
        "`{name}` has no value yet: {word} takes names that an EQU line above defines from numbers"
    )?;
    let draft = case.draft(at, 1, text);
    let Some(token) = case.tokens.get(at) else {
        return Ok(draft);
    };
    if let Some(line) = first_line(alloc, case.source, Wanted::Equ(token.text))? {
        return by_equ(case, draft, &name, line);
    }
    if let Some(note) = address_note(case, token)? {
        return draft.note(note);
    }
    draft.help(format!(in alloc; "define it above, or with `--define {name}=1`")?)
}
