//! Names that are not defined.

use asm_line::is_name;
use common::is_reserved;
use error_lines::{Case, Why};
use message_texts::{Draft, is_undocumented_register, shown, token_named};
use source_errors::Known;
use statement_errors::{is_near, with_underscore};
use std::alloc::AllocError;
use syntax_errors::{current_address, goes, hexadecimal};
use value_errors::{Need, defined_at, is_made, kind_text, name_of, need_at};

/// The first defined name that is near to this one, and its index in the table.
fn nearest(known: &Known, name: &[u8]) -> Option<usize> {
    for at in 0..known.table.len() {
        if let Some((own, _)) = known.table.get(at) {
            if is_near(own, name) {
                return Some(at);
            }
        }
    }
    None
}

/// What to write instead of a name that is not defined, if there is a name that is near.
fn near_help(case: &Case<'_>, name: &[u8]) -> Result<Option<String>, AllocError> {
    let alloc = case.alloc;
    let Some(known) = case.known else {
        return Ok(None);
    };
    let Some(at) = nearest(known, name) else {
        return Ok(None);
    };
    let Some((own, kind)) = known.table.get(at) else {
        return Ok(None);
    };
    let what = kind_text(kind);
    let own_text = shown(alloc, own)?;
    match defined_at(known, own) {
        Some(line) => {
            let line = case.line_text(line)?;
            Ok(Some(format!(in alloc; "there is {what} `{own_text}` ({line})")?))
        }
        None => Ok(Some(format!(in alloc; "there is {what} `{own_text}`")?)),
    }
}

/// What a name is that looks like a number, such as `FFH` or `OFFH`; None if it does not.
fn as_number(case: &Case<'_>, name: &[u8]) -> Result<Option<String>, AllocError> {
    let alloc = case.alloc;
    let [digits @ .., b'H'] = name else {
        return Ok(None);
    };
    if let Some(number) = hexadecimal(alloc, digits)? {
        return Ok(Some(format!(in alloc; "a number starts with a digit: `{number}`")?));
    }
    let [b'O', digits @ ..] = digits else {
        return Ok(None);
    };
    match hexadecimal(alloc, digits)? {
        Some(_) => {
            let digits = shown(alloc, digits)?;
            Ok(Some(format!(in alloc; "it begins with the letter O: write `0{digits}H`")?))
        }
        None => Ok(None),
    }
}

/// The pair whose high or low half an undocumented register is, and the register that then has it.
fn half_of(register: &str) -> (&'static str, &'static str) {
    match register {
        "IXL" | "LX" | "XL" => ("IX", "L"),
        "IYH" | "HY" | "YH" | "IYU" => ("IY", "H"),
        "IYL" | "LY" | "YL" => ("IY", "L"),
        _ => ("IX", "H"),
    }
}

/// The message about a register that only undocumented instructions have.
fn undocumented(case: &Case<'_>, at: usize, register: &str) -> Result<Draft, AllocError> {
    let alloc = case.alloc;
    let text = format!(in alloc; "`{register}` is an undocumented register and not supported")?;
    let (pair, half) = half_of(register);
    case.draft(at, 1, text).help(format!(in alloc;
        "use B, C, D, E, H, L or A; after `PUSH {pair}` and `POP HL`, which change HL, it is in {half}"
    )?)
}

/// A line that defines the name and is not assembled.
fn hidden_help(case: &Case<'_>, name: &[u8]) -> Result<Option<String>, AllocError> {
    let alloc = case.alloc;
    let Some(hidden) = case.source.hidden.get(name).copied() else {
        return Ok(None);
    };
    let line = case.line_text(hidden.number)?;
    match hidden.why {
        Why::AfterEnd(end) => {
            let end = case.at_line(end)?;
            Ok(Some(format!(in alloc; "{line} defines it, after the END {end}")?))
        }
        Why::InBranch => Ok(Some(format!(in alloc;
            "{line} defines it, in a branch that is not assembled"
        )?)),
    }
}

/// The names of the line that the source does not define, with commas between them.
fn all_undefined(case: &Case<'_>) -> Result<String, AllocError> {
    let alloc = case.alloc;
    let mut names = String::new(alloc);
    for token in case.form.rest {
        let upper = token.text.to_ascii_uppercase(alloc)?;
        let is_defined = match case.known {
            Some(known) => known.table.kind(&upper).is_some(),
            None => true,
        };
        if is_name(token) && !is_reserved(&upper) && !is_defined {
            if !names.is_empty() {
                names.push_str(",")?;
            }
            names.push_str(&shown(alloc, token.text)?)?;
        }
    }
    Ok(names)
}

/// A name that is written with `-` as the target of a jump, as it can be written.
fn dashed(case: &Case<'_>, at: usize) -> Result<Option<String>, AllocError> {
    if !goes(case) {
        return Ok(None);
    }
    match with_underscore(case, at)? {
        Some(text) => Ok(Some(text)),
        None => with_underscore(case, at.saturating_sub(2)),
    }
}

/// Whether the line is one that only labels of its source can be in: PUBLIC or END.
fn takes_own_label(case: &Case<'_>) -> bool {
    let word = case.word();
    word.eq_ignore_ascii_case(b"PUBLIC")
        || word.eq_ignore_ascii_case(b"GLOBAL")
        || word.eq_ignore_ascii_case(b"END")
}

/// What to write where nothing is known of a name.
fn defining(case: &Case<'_>, at: usize) -> Result<String, AllocError> {
    let alloc = case.alloc;
    let written = case.joined(at, 1)?;
    if takes_own_label(case) {
        return format!(in alloc; "put the label `{written}:` at a line of this source");
    }
    match need_at(case, at)? {
        Need::Number => return format!(in alloc; "define it, as in `{written} EQU 5`"),
        Need::Byte => {
            return format!(in alloc;
                "define it, as in `{written} EQU 5`; if it is an address, write `LOW {written}` or `HIGH {written}`, since a byte has no room for all of it"
            );
        }
        Need::Address => (),
    }
    let names = all_undefined(case)?;
    let names = if names.is_empty() { &written } else { &names };
    if goes(case) {
        return format!(in alloc;
            "there is no label `{written}:` here; if another source has it, write `EXTRN {names}` here and PUBLIC there"
        );
    }
    format!(in alloc;
        "define it by a label or EQU; if it is a label of another source, write `EXTRN {names}` here and PUBLIC there"
    )
}

/// The line with `$` in place of a point, which is the current address in other assemblers, if it builds so.
fn as_here(case: &Case<'_>, at: usize, name: &[u8]) -> Result<Option<String>, AllocError> {
    if name != b".".as_slice() {
        return Ok(None);
    }
    current_address(case, at)
}

/// What to write instead of a name that is not defined, or where it is defined.
fn help(case: &Case<'_>, at: usize, name: &[u8]) -> Result<String, AllocError> {
    let alloc = case.alloc;
    if let Some(help) = as_number(case, name)? {
        return Ok(help);
    }
    if let Some(help) = as_here(case, at, name)? {
        return Ok(help);
    }
    if is_made(name) {
        let written = case.joined(at, 1)?;
        return format!(in alloc;
            "LOCAL has `{written}`, and no line of the macro's body is its label or its EQU"
        );
    }
    if let Some(help) = hidden_help(case, name)? {
        return Ok(help);
    }
    if let Some(line) = case.source.locals.get(name).copied() {
        let (written, word) = (case.joined(at, 1)?, case.source.macro_at(alloc, line)?);
        return format!(in alloc; "`{written}` is LOCAL in the macro `{word}`");
    }
    if let Some(help) = near_help(case, name)? {
        return Ok(help);
    }
    match dashed(case, at)? {
        Some(help) => Ok(help),
        None => defining(case, at),
    }
}

/// The message about a name that is not defined.
pub(crate) fn undefined(case: &Case<'_>) -> Result<Draft, AllocError> {
    let alloc = case.alloc;
    let name = name_of(case)?;
    let found = token_named(case.tokens, case.rest_at(), &name).or(token_named(
        case.tokens,
        0,
        &name,
    ));
    let at = found.unwrap_or(case.rest_at());
    let upper = shown(alloc, &name)?;
    if is_undocumented_register(&upper) {
        return undocumented(case, at, &upper);
    }
    let written = case.joined(at, 1)?;
    let draft = case.draft(at, 1, format!(in alloc; "`{written}` is not defined")?);
    draft.help(help(case, at, &name)?)
}
