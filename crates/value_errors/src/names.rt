//! Names that are not defined, defined twice, or not what they have to be.

ghost use Rattle.std.specs.Prelude.{◌≡◌, ℕ, Some, slice_get};
ghost use Rattle.std.specs.Option.{option_map};
ghost use Rattle.asm_names.specs.Names.{kind_of_name};

use asm_line::{Head, is_name};
use asm_names::{Kind, SourceLine};
use asm_spell::{Body, Line};
use common::is_reserved;
use error_lines::Case;
use message_texts::{Draft, reserved_text, shown, token_named, tokens_of};
use source_errors::Known;
use std::alloc::AllocError;

/// The name that an error is about, in upper case; the first name after the word, if that is not known.
///
/// # Errors
///
/// `AllocError` if memory ran out.
pub fn name_of(case: &Case<'_>) -> Result<Vec<u8>, AllocError> {
    if let Some(name) = &case.finding.name {
        return name.to_vec(case.alloc);
    }
    for token in case.form.rest {
        if is_name(token) {
            return token.text.to_ascii_uppercase(case.alloc);
        }
    }
    Ok(Vec::new(case.alloc))
}

/// Whether a line declares an external of this name.
fn declares(line: &Line, name: &[u8]) -> bool {
    let Line::Statement {
        body: Some(Body::External(names)),
        ..
    } = line
    else {
        return false;
    };
    for own in names {
        if own.as_slice() == name {
            return true;
        }
    }
    false
}

/// The number of the first line that declares an external of this name.
fn declared_at(lines: &[SourceLine], name: &[u8]) -> Option<u32> {
    for line in lines {
        if declares(&line.line, name) {
            return Some(line.number);
        }
    }
    None
}

/// The number of the line in which a name is first defined.
pub fn defined_at(known: &Known, name: &[u8]) -> Option<u32>
    ensures label { (at : ℕ) → kind_of_name known.now.table name.now ≡ Some (Kind.Label at) → result ≡ option_map (λ l. l.number) (slice_get known.now.lines.items at) }
    ensures equ { (at : ℕ) → kind_of_name known.now.table name.now ≡ Some (Kind.Equ at) → result ≡ option_map (λ l. l.number) (slice_get known.now.lines.items at) }
{
    match known.table.kind(name)? {
        Kind::Label(at) | Kind::Equ(at) => match known.lines.get(at) {
            Some(line) => Some(line.number),
            None => None,
        },
        Kind::External => declared_at(&known.lines, name),
    }
}

const EXTERNAL: &str = "an external";

const CONSTANT: &str = "a constant";

/// What kind of name a name is, in words.
pub fn kind_text(kind: Kind) -> &'static str {
    match kind {
        Kind::Label(_) => "a label",
        Kind::External => EXTERNAL,
        Kind::Equ(_) => CONSTANT,
    }
}

/// Whether a name is one that the assembler makes for LOCAL: `??` and five digits or more.
pub fn is_made(name: &[u8]) -> bool {
    match name {
        [b'?', b'?', digits @ ..] => digits.len() >= 5 && digits.iter().all(|b| b.is_ascii_digit()),
        _ => false,
    }
}

/// What a line defines whose token `at` is a name that is defined already.
fn kind_here(case: &Case<'_>, at: usize) -> &'static str {
    match case.form.head {
        Head::Equ(_) => CONSTANT,
        _ if at < case.rest_at() => "a label",
        _ => EXTERNAL,
    }
}

/// The message about a name that is an external and also something else.
fn external_too(
    case: &Case<'_>,
    at: usize,
    here: &str,
    there: &str,
    line: u32,
) -> Result<Draft, AllocError> {
    let alloc = case.alloc;
    let written = case.joined(at, 1)?;
    let line = case.at_line(line)?;
    let text = format!(in alloc; "`{written}` is {here} here, and {there} {line}")?;
    case.draft(at, 1, text).help(String::from_str(
        alloc,
        "leave out the EXTRN if this source defines the name, or rename one of the two",
    )?)
}

/// Whether a label is also an external of its own line, which is the one that defines it. In a macro other lines have the same number.
fn is_also_external(case: &Case<'_>, at: usize, name: &[u8], line: u32) -> bool {
    let word = case.word();
    let is_extrn = word.eq_ignore_ascii_case(b"EXTRN") || word.eq_ignore_ascii_case(b"EXTERNAL");
    is_extrn
        && line == case.finding.number
        && at < case.rest_at()
        && token_named(case.tokens, case.rest_at(), name).is_some()
}

/// The message with a note of the line that defines the name first.
fn with_first(case: &Case<'_>, draft: Draft, first: Option<u32>) -> Result<Draft, AllocError> {
    let alloc = case.alloc;
    match first {
        // Lines of one call have one number.
        Some(line) if case.is_expanded() && line == case.finding.number => {
            draft.note(String::from_str(alloc, "first in the same call or REPT")?)
        }
        Some(line) => {
            let at = case.at_line(line)?;
            draft.note(format!(in alloc; "first {at}")?)
        }
        None => Ok(draft),
    }
}

/// The message about a name that is defined twice.
///
/// # Errors
///
/// `AllocError` if memory ran out.
pub fn duplicate(case: &Case<'_>) -> Result<Draft, AllocError> {
    let alloc = case.alloc;
    let mut name = name_of(case)?;
    if case.finding.name.is_none() {
        if let Some(token) = case.tokens.first() {
            name = token.text.to_ascii_uppercase(alloc)?;
        }
    }
    let at = token_named(case.tokens, 0, &name).unwrap_or(0);
    let written = case.joined(at, 1)?;
    let draft = case.draft(at, 1, format!(in alloc; "`{written}` is defined twice")?);
    let first = match case.known {
        Some(known) => defined_at(known, &name),
        None => None,
    };
    let there = match case.known {
        Some(known) => known.table.kind(&name).map(kind_text),
        None => None,
    };
    let here = kind_here(case, at);
    let is_changed = here == CONSTANT && there == Some(CONSTANT);
    if let (Some(there), Some(line)) = (there, first) {
        let there = if is_also_external(case, at, &name, line) {
            EXTERNAL
        } else {
            there
        };
        if here != there && (here == EXTERNAL || there == EXTERNAL) {
            return external_too(case, at, here, there, line);
        }
    }
    let is_expanded = case.is_expanded();
    let draft = with_first(case, draft, first)?;
    if is_expanded && !is_made(&name) {
        return draft.help(format!(in alloc;
            "in a macro, `LOCAL {written}` makes it new in each call; in a REPT, repeat the call of such a macro"
        )?);
    }
    draft.help(rename_help(case, &written, is_changed, first)?)
}

/// What to write instead of a second definition of a name.
fn rename_help(
    case: &Case<'_>,
    written: &str,
    is_changed: bool,
    first: Option<u32>,
) -> Result<String, AllocError> {
    let alloc = case.alloc;
    let why = if is_other_case(case, written, first)? {
        "upper and lower case are the same: "
    } else if written.starts_with('.') {
        "a name with a point is not local: "
    } else if is_changed {
        "an EQU cannot be changed later: "
    } else {
        ""
    };
    format!(in alloc; "{why}rename one of the two")
}

/// Whether the line that defines a name first writes it in other letters, some of them in upper and some in lower case.
fn is_other_case(case: &Case<'_>, written: &str, first: Option<u32>) -> Result<bool, AllocError> {
    let Some(number) = first else {
        return Ok(false);
    };
    let found = tokens_of(case.alloc, case.source.line(number))?;
    match found.first() {
        Some(token) => Ok(
            token.text.eq_ignore_ascii_case(written.as_bytes()) && token.text != written.as_bytes(),
        ),
        None => Ok(false),
    }
}

/// What to write instead of a name of PUBLIC or END that is an external or a constant.
fn no_label_help(case: &Case<'_>, kind: Option<Kind>) -> &'static str {
    if case.word().eq_ignore_ascii_case(b"END") {
        return "put a label at the program's first statement, and name that";
    }
    match kind {
        Some(Kind::External) => "leave out PUBLIC here or EXTRN: one source defines it",
        _ => "write its EQU line in each source that needs it, or in a file for --with",
    }
}

/// The message about a name of PUBLIC or END that is no label.
///
/// # Errors
///
/// `AllocError` if memory ran out.
pub fn no_label(case: &Case<'_>) -> Result<Draft, AllocError> {
    let alloc = case.alloc;
    let name = name_of(case)?;
    let at = token_named(case.tokens, case.rest_at(), &name).unwrap_or(case.rest_at());
    let written = case.joined(at, 1)?;
    let word = shown(alloc, case.word())?;
    let kind = match case.known {
        Some(known) => known.table.kind(&name),
        None => None,
    };
    let help = String::from_str(alloc, no_label_help(case, kind))?;
    let text = match kind {
        Some(Kind::External) => format!(in alloc;
            "`{written}` is an external, and {word} takes a label of this source"
        )?,
        _ => format!(in alloc; "`{written}` is a constant, and {word} takes a label")?,
    };
    case.draft(at, 1, text).help(help)
}

/// The message about a reserved name where a name is defined or passed on.
///
/// # Errors
///
/// `AllocError` if memory ran out.
pub fn reserved_name(case: &Case<'_>) -> Result<Draft, AllocError> {
    let alloc = case.alloc;
    let mut found = 0;
    let mut upper = Vec::new(alloc);
    for (at, token) in case.tokens.iter().enumerate() {
        let own = token.text.to_ascii_uppercase(alloc)?;
        let is_definition = at == 0 || at >= case.rest_at();
        if upper.is_empty() && is_definition && is_reserved(&own) {
            found = at;
            upper = own;
        }
    }
    let what = reserved_text(&upper);
    let written = case.joined(found, 1)?;
    let used = if case.form.label.is_some() && found < case.rest_at() {
        "a label"
    } else {
        "a name"
    };
    let text = format!(in alloc; "`{written}` is {what} and cannot be {used}")?;
    case.draft(found, 1, text).help(String::from_str(
        alloc,
        "rename it: taken are the registers, the conditions NZ, Z, NC, C, PO, PE, P and M, and the operators NOT, HIGH, LOW, MOD, SHL, SHR, AND, OR, XOR, EQ, NE, LT, LE, GT and GE",
    )?)
}

/// The message about a statement too many.
///
/// # Errors
///
/// `AllocError` if memory ran out.
pub fn too_many_statements(case: &Case<'_>) -> Result<Draft, AllocError> {
    let alloc = case.alloc;
    let text = String::from_str(alloc, "a module has at most 20,000 statements")?;
    case.on_word(text).help(String::from_str(
        alloc,
        "divide it; write equal bytes as `DS n,byte`, and several values in one DB or DW line",
    )?)
}

/// The message about a name too many.
///
/// # Errors
///
/// `AllocError` if memory ran out.
pub fn too_many_names(case: &Case<'_>) -> Result<Draft, AllocError> {
    let alloc = case.alloc;
    let text = String::from_str(
        alloc,
        "a module has at most 40,000 labels, EQU names and externals",
    )?;
    case.draft(0, 1, text)
        .help(String::from_str(alloc, "divide it into modules")?)
}
