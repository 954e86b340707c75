//! Values that do not fit.

use crate::bytes::as_operand;
use asm_line::{Head, Kind, Mark, Token, is_name};
use asm_parse::Tree;
use asm_spell::{Body, Line, StmtFault, Value, statement};
use common::is_reserved;
use error_lines::{
    CLOSE, Case, OPEN, PLUS, Worth, builds, distance_of, judge, mended, operands, worth_of,
};
use message_texts::{Draft, Operand, expression_in, form_written, has_name, joined, shown};
use std::alloc::{AllocError, Global};
use z80_form::{Field, Form, Mnemonic, Name, mnemonic_of};

/// What to write where a value must be the same wherever the program is.
pub(crate) const FIXED: &str =
    "write a number, or an EQU that is made from numbers; the difference of two labels will do if no JP between them may become JR";

/// A number that its field does not allow, the number of its expression in the line, and the field.
#[derive(Clone, Copy)]
struct Misfit {
    number: usize,
    field: Field,
    value: u16,
}

/// The value of an expression that fills a field; None if it is not known.
fn value_of(case: &Case<'_>, field: Field, tree: &Tree) -> Result<Option<u16>, AllocError> {
    if field == Field::Distance {
        return distance_of(case, tree);
    }
    match worth_of(case, tree)? {
        Worth::Number(value) => Ok(Some(value)),
        _ => Ok(None),
    }
}

/// What does not fit, if the value of this expression does not fit its field.
fn judged(
    case: &Case<'_>,
    number: usize,
    field: Field,
    tree: &Tree,
) -> Result<Option<Misfit>, AllocError> {
    match value_of(case, field, tree)? {
        Some(value) if !field.allows(value) => Ok(Some(Misfit {
            number,
            field,
            value,
        })),
        _ => Ok(None),
    }
}

/// The first number of an instruction that does not fit.
fn first_in_code(case: &Case<'_>, numbers: &[(Field, Tree)]) -> Result<Option<Misfit>, AllocError> {
    for (number, part) in numbers.iter().enumerate() {
        let (field, tree) = part;
        if let Some(found) = judged(case, number, *field, tree)? {
            return Ok(Some(found));
        }
    }
    Ok(None)
}

/// The first item of DB that does not fit.
fn first_in_bytes(case: &Case<'_>, values: &[Value]) -> Result<Option<Misfit>, AllocError> {
    for (number, value) in values.iter().enumerate() {
        if let Value::Byte(tree) = value {
            if let Some(found) = judged(case, number, Field::Byte, tree)? {
                return Ok(Some(found));
            }
        }
    }
    Ok(None)
}

/// The first number of a statement that does not fit.
fn first_in_body(case: &Case<'_>, body: &Body) -> Result<Option<Misfit>, AllocError> {
    match body {
        Body::Code { numbers, .. } => first_in_code(case, numbers.as_slice()),
        Body::Bytes(values) => first_in_bytes(case, values),
        Body::Space {
            fill: Some(fill),
            ..
        } => judged(case, 1, Field::Byte, fill),
        _ => Ok(None),
    }
}

/// The first number of the line that does not fit.
fn first_misfit(case: &Case<'_>) -> Result<Option<Misfit>, AllocError> {
    let line = match statement(case.alloc, case.tokens) {
        Ok(line) => line,
        Err(StmtFault::NoMemory) => return Err(AllocError),
        Err(_) => return Ok(None),
    };
    match &line {
        Line::Statement {
            body: Some(body),
            ..
        } => first_in_body(case, body),
        _ => Ok(None),
    }
}

/// The expressions of the line, in order.
pub(crate) fn expressions<'a>(case: &Case<'a>) -> Result<Vec<Operand<'a>>, AllocError> {
    let is_code = match case.form.head {
        Head::Word(word) => mnemonic_of(word).is_some(),
        _ => false,
    };
    let mut found = Vec::new(case.alloc);
    for operand in &operands(case)? {
        if !is_code {
            found.push(*operand)?;
        } else if let Some(part) = expression_in(operand) {
            found.push(part)?;
        }
    }
    Ok(found)
}

/// A value in words: with its negative, if it may be meant as one.
fn value_text(case: &Case<'_>, value: u16) -> Result<String, AllocError> {
    let alloc = case.alloc;
    if value < 0x8000 {
        return format!(in alloc; "{value}");
    }
    let negative = 65_536 - u32::from(value);
    format!(in alloc; "{value} (-{negative})")
}

/// The message about a value that its field does not allow.
fn range_text(case: &Case<'_>, misfit: Misfit) -> Result<String, AllocError> {
    let alloc = case.alloc;
    let value = value_text(case, misfit.value)?;
    match misfit.field {
        Field::Byte | Field::Word => format!(in alloc;
            "{value} does not fit in a byte (-128 to 255)"
        ),
        Field::Displacement => format!(in alloc; "{value} is not a displacement (-128 to 127)"),
        Field::Distance => format!(in alloc;
            "{value} is out of reach, counted from the end of the jump (-128 to 127)"
        ),
        Field::Bit => format!(in alloc; "bit {value} does not exist (0 to 7)"),
        Field::Mode => format!(in alloc; "IM takes 0, 1 or 2, not {value}"),
        Field::Restart => format!(in alloc;
            "RST takes 0, 8, 10H, 18H, 20H, 28H, 30H or 38H, not {value}"
        ),
    }
}

/// The pair that a register is a half of, or that is loaded in place of A.
fn wider(name: Name) -> Option<&'static str> {
    match name {
        Name::A | Name::H | Name::L => Some("HL"),
        Name::B | Name::C => Some("BC"),
        Name::D | Name::E => Some("DE"),
        _ => None,
    }
}

/// What to load instead of a number that no byte holds into a register.
fn load_help(alloc: Global, name: Name, written: &str) -> Result<Option<String>, AllocError> {
    let Some(pair) = wider(name) else {
        return Ok(None);
    };
    let help = format!(in alloc; "a pair holds a word: `LD {pair},{written}`")?;
    if name == Name::B && (written == "256" || written.eq_ignore_ascii_case("100H")) {
        return Ok(Some(format!(in alloc; "DJNZ counts 256 if B is 0: `LD B,0`; {help}")?));
    }
    Ok(Some(help))
}

/// What to write instead of a number that no byte holds, if it is written without names.
fn literal_help(case: &Case<'_>, written: &str) -> Result<Option<String>, AllocError> {
    let alloc = case.alloc;
    let Head::Word(word) = case.form.head else {
        return Ok(None);
    };
    let found = operands(case)?;
    if let (Some(Mnemonic::Ld), [to, _]) = (mnemonic_of(word), found.as_slice()) {
        if let Form::Name(name) = form_written(to) {
            return load_help(alloc, name, written);
        }
    }
    if mnemonic_of(word).is_none() && found.len() == 1 {
        return Ok(Some(format!(in alloc; "`DW {written}` has both bytes")?));
    }
    Ok(None)
}

/// What to write instead of a number that no byte holds.
fn byte_help(case: &Case<'_>, part: &Operand<'_>) -> Result<Option<String>, AllocError> {
    let alloc = case.alloc;
    let written = joined(alloc, part.tokens)?;
    if !has_name(alloc, part)? {
        return literal_help(case, &written);
    }
    let operand = as_operand(alloc, part)?;
    Ok(Some(format!(in alloc; "`LOW {operand}` or `HIGH {operand}` is a byte of it")?))
}

/// The operands of the line with 0 in place of the displacement of one, given the number of its first token, and whether DE is another.
fn without_displacement(
    alloc: Global,
    found: &[Operand<'_>],
    part: &Operand<'_>,
) -> Result<(String, bool), AllocError> {
    let mut text = String::new(alloc);
    let mut is_de_used = false;
    for (number, operand) in found.iter().enumerate() {
        if number > 0 {
            text.push_str(",")?;
        }
        let end = operand.at.saturating_add(operand.tokens.len());
        if part.at > operand.at && part.at < end {
            let index = joined(alloc, operand.inner().part(0, 1).tokens)?;
            text.push_str(&format!(in alloc; "({index}+0)")?)?;
        } else {
            is_de_used = is_de_used
                || matches!(form_written(operand), Form::Name(Name::D | Name::E));
            text.push_str(&joined(alloc, operand.tokens)?)?;
        }
    }
    Ok((text, is_de_used))
}

/// What to write instead of a displacement that is too far.
fn displacement_help(
    case: &Case<'_>,
    part: &Operand<'_>,
    value: u16,
) -> Result<Option<String>, AllocError> {
    let alloc = case.alloc;
    let found = operands(case)?;
    let (text, is_de_used) = without_displacement(alloc, &found, part)?;
    let index = case.joined(part.at.saturating_sub(1), 1)?;
    let pair = if is_de_used { "BC" } else { "DE" };
    let number = match value {
        0..=0x7FFF => format!(in alloc; "{value}")?,
        _ => format!(in alloc; "-{}", 65_536 - u32::from(value))?,
    };
    let word = shown(alloc, &case.word().to_ascii_uppercase(alloc)?)?;
    let last = format!(in alloc; "{word} {text}")?;
    if !builds(case, last.as_bytes())? {
        return Ok(None);
    }
    let help = format!(in alloc;
        "`LD {pair},{number}`, `ADD {index},{pair}` and `{last}`, which change {pair}, {index} and flags"
    )?;
    if value >= 256 {
        return Ok(Some(help));
    }
    let back = 256 - u32::from(value);
    Ok(Some(format!(in alloc; "{help}; or `({index}-{back})`, if that is meant")?))
}

/// Whether the line is a DJNZ, which has no long form.
fn is_djnz(case: &Case<'_>) -> bool {
    match case.form.head {
        Head::Word(word) => mnemonic_of(word) == Some(Mnemonic::Djnz),
        _ => false,
    }
}

/// What to write instead of a jump to `$+n` that is too far. JP has one byte more than JR, so that `$+n` would lead somewhere else.
fn far_help(case: &Case<'_>) -> &'static str {
    if is_djnz(case) {
        "write `DEC B` and `JP NZ,..` to a label; unlike DJNZ, DEC changes flags"
    } else {
        "put a label where it goes, and write JP to that"
    }
}

/// What to write instead of a value that its field does not allow, given its expression.
fn range_help(
    case: &Case<'_>,
    misfit: Misfit,
    part: Option<&Operand<'_>>,
) -> Result<Option<String>, AllocError> {
    let alloc = case.alloc;
    let value = misfit.value;
    match (misfit.field, part) {
        (Field::Restart, _) if value < 8 => {
            let address = u32::from(value) * 8;
            Ok(Some(format!(in alloc; "`RST {address:02X}H` is restart number {value}")?))
        }
        (Field::Byte, Some(part)) => byte_help(case, part),
        (Field::Displacement, Some(part)) => displacement_help(case, part, value),
        (Field::Distance, _) => Ok(Some(String::from_str(alloc, far_help(case))?)),
        _ => Ok(None),
    }
}

/// The message about a value that does not fit.
///
/// # Errors
///
/// `AllocError` if memory ran out.
pub fn out_of_range(case: &Case<'_>) -> Result<Draft, AllocError> {
    let alloc = case.alloc;
    let Some(misfit) = first_misfit(case)? else {
        let text = String::from_str(alloc, "a value does not fit")?;
        return Ok(case.draft(case.rest_at(), case.form.rest.len(), text));
    };
    let text = range_text(case, misfit)?;
    let found = expressions(case)?;
    let help = range_help(case, misfit, found.get(misfit.number))?;
    let draft = match found.get(misfit.number) {
        Some(part) => case.draft(part.at, part.tokens.len(), text),
        None => case.on_word(text),
    };
    draft.help_if(help)
}

/// The first expression of the line that depends on addresses; the last one if none is known to.
pub(crate) fn first_address<'a>(case: &Case<'a>) -> Result<Option<Operand<'a>>, AllocError> {
    let found = expressions(case)?;
    for part in &found {
        if judge(case, part.tokens)? == Worth::Address {
            return Ok(Some(*part));
        }
    }
    Ok(found.last().copied())
}

/// A message about an expression of the line; about the word if there is none.
pub(crate) fn on_part(case: &Case<'_>, part: Option<Operand<'_>>, text: String) -> Draft {
    match part {
        Some(part) => case.draft(part.at, part.tokens.len(), text),
        None => case.on_word(text),
    }
}

/// An expression as it is written.
pub(crate) fn part_text(case: &Case<'_>, part: Option<Operand<'_>>) -> Result<String, AllocError> {
    match part {
        Some(part) => joined(case.alloc, part.tokens),
        None => Ok(String::new(case.alloc)),
    }
}

/// The message about a short jump whose target is no label.
///
/// # Errors
///
/// `AllocError` if memory ran out.
pub fn short_needs_label(case: &Case<'_>) -> Result<Draft, AllocError> {
    let alloc = case.alloc;
    let word = shown(alloc, case.word())?;
    let part = expressions(case)?.last().copied();
    let written = part_text(case, part)?;
    let text = format!(in alloc;
        "{word} takes a label, an external, or `$` and a number, not `{written}`"
    )?;
    let draft = on_part(case, part, text);
    let Some(part) = part else {
        return Ok(draft);
    };
    if let Some(better) = grouped(case, &part)? {
        return draft.help(format!(in alloc; "write {better}, or put a label where it goes")?);
    }
    let counts_from_here = part
        .tokens
        .iter()
        .any(|t| t.kind == Kind::Mark(Mark::Dollar));
    draft.help(String::from_str(
        alloc,
        if is_djnz(case) || counts_from_here {
            "put a label where it goes"
        } else {
            "put a label where it goes, or write JP"
        },
    )?)
}

/// Whether tokens have an operator that is a word, and that binds less tightly than a sum.
fn has_operator(alloc: Global, tokens: &[Token<'_>]) -> Result<bool, AllocError> {
    for token in tokens {
        if token.kind == Kind::Name && is_reserved(&token.text.to_ascii_uppercase(alloc)?) {
            return Ok(true);
        }
    }
    Ok(false)
}

/// A target such as `$+2+1` as `$` and one number, between backquotes, if the line builds so: `$+(2+1)`.
fn grouped(case: &Case<'_>, part: &Operand<'_>) -> Result<Option<String>, AllocError> {
    let alloc = case.alloc;
    let [here, sign, rest @ ..] = part.tokens else {
        return Ok(None);
    };
    let is_sum = here.kind == Kind::Mark(Mark::Dollar)
        && matches!(sign.kind, Kind::Mark(Mark::Plus | Mark::Minus));
    if !is_sum || rest.is_empty() || has_operator(alloc, rest)? {
        return Ok(None);
    }
    let mut tokens = Vec::from_slice(alloc, &[*here, PLUS, OPEN])?;
    if sign.kind == Kind::Mark(Mark::Minus) {
        tokens.push(*sign)?;
    }
    tokens.extend_from_slice(rest)?;
    tokens.push(CLOSE)?;
    if mended(case, part.at, part.tokens.len(), &tokens)?.is_none() {
        return Ok(None);
    }
    let text = joined(alloc, &tokens)?;
    Ok(Some(format!(in alloc; "`{text}`")?))
}

/// The names and `$` in tokens that depend on addresses, as they are written: `$`, `X`.
fn addresses_text(case: &Case<'_>, tokens: &[Token<'_>]) -> Result<String, AllocError> {
    let alloc = case.alloc;
    let mut text = String::new(alloc);
    for token in tokens {
        let alone = [*token];
        let is_here = matches!(token.kind, Kind::Mark(Mark::Dollar));
        if is_here || is_name(token) && judge(case, &alone)? == Worth::Address {
            text.push_str(if text.is_empty() { "`" } else { ", `" })?;
            text.push_str(&shown(alloc, token.text)?)?;
            text.push_str("`")?;
        }
    }
    Ok(text)
}

/// The message about a size that depends on addresses.
///
/// # Errors
///
/// `AllocError` if memory ran out.
pub fn size_varies(case: &Case<'_>) -> Result<Draft, AllocError> {
    let alloc = case.alloc;
    let part = expressions(case)?.first().copied();
    let written = part_text(case, part)?;
    let names = match part {
        Some(part) => addresses_text(case, part.tokens)?,
        None => String::new(alloc),
    };
    // A difference of addresses depends on them too, though no name in it is an address: `LEN` after `LEN EQU $-X`.
    let which = if names.is_empty() {
        names
    } else {
        format!(in alloc; " ({names})")?
    };
    let text = format!(in alloc;
        "the size of DS must be a constant: `{written}` depends on addresses{which}"
    )?;
    on_part(case, part, text).help(String::from_str(
        alloc,
        "write the number of bytes, or an EQU that is made from numbers; to fill up to an address, count the bytes by hand",
    )?)
}

/// The message about an ORG.
///
/// # Errors
///
/// `AllocError` if memory ran out.
pub fn bad_origin(case: &Case<'_>) -> Result<Draft, AllocError> {
    let alloc = case.alloc;
    let part = expressions(case)?.first().copied();
    let value = match part {
        Some(part) => judge(case, part.tokens)?,
        None => Worth::Unknown,
    };
    if value == Worth::Number(0x100) {
        let text = String::from_str(alloc, "ORG must come before the first statement")?;
        return case
            .on_word(text)
            .help(String::from_str(alloc, "leave it out, or move it up")?);
    }
    let text = String::from_str(
        alloc,
        "a program starts at 0100H; no other ORG is supported",
    )?;
    let written = part_text(case, part)?;
    // A number that is 0100H but for its H.
    if written.as_str() == "100" || written.as_str() == "0100" {
        return on_part(case, part, text).help(format!(in alloc;
            "{written} is decimal: write `ORG {written}H`"
        )?);
    }
    let draft = on_part(case, part, text);
    if !matches!(value, Worth::Number(_)) {
        return draft.help(String::from_str(
            alloc,
            "leave it out, or write `ORG 0100H`; code cannot be made for another address (see PORTING.md)",
        )?);
    }
    draft.help(format!(in alloc;
        "leave it out, or write `ORG 0100H`; code cannot be made for another address, and room there is `BUF EQU {written}` (see PORTING.md)"
    )?)
}

/// The message about a number that has to be the same wherever the program is.
///
/// # Errors
///
/// `AllocError` if memory ran out.
pub fn needs_number(case: &Case<'_>) -> Result<Draft, AllocError> {
    let alloc = case.alloc;
    let part = first_address(case)?;
    let written = part_text(case, part)?;
    let word = shown(alloc, case.word())?;
    let text = format!(in alloc; "{word} needs a constant here: `{written}` depends on addresses")?;
    on_part(case, part, text).help(String::from_str(alloc, FIXED)?)
}

/// The message about an expression with too many parentheses.
///
/// # Errors
///
/// `AllocError` if memory ran out.
pub fn too_deep(case: &Case<'_>) -> Result<Draft, AllocError> {
    let alloc = case.alloc;
    let text = String::from_str(
        alloc,
        "more than 32 parentheses and prefix operators are open at one point",
    )?;
    case.draft(case.rest_at(), case.form.rest.len(), text)
        .help(String::from_str(alloc, "give a part a name by EQU")?)
}

/// The message about an expression with too many terms.
///
/// # Errors
///
/// `AllocError` if memory ran out.
pub fn too_large(case: &Case<'_>) -> Result<Draft, AllocError> {
    let alloc = case.alloc;
    let text = String::from_str(
        alloc,
        "an expression has at most 64 terms and operators, those of its EQU names included",
    )?;
    case.draft(case.rest_at(), case.form.rest.len(), text).help(String::from_str(
        alloc,
        "give a part that has no addresses a name by EQU",
    )?)
}
