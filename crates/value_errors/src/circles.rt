//! Names that EQU defines by themselves.

use asm_names::{Kind, SourceLine};
use asm_parse::{Item, TermView, Tree};
use asm_spell::Line;
use error_lines::Case;
use message_texts::{Draft, shown, token_named};
use source_errors::Known;
use std::alloc::AllocError;

/// A step of a circle: a line that EQU defines, and the number in the list of steps of the one from which it was reached.
#[derive(Drop)]
struct Step {
    line: usize,
    from: usize,
}

/// The name and the expression that an EQU line defines.
fn equ_of(known: &Known, at: usize) -> Option<(&[u8], &Tree)> {
    match known.lines.get(at) {
        Some(
            SourceLine {
                line: Line::Equ { name, value },
                ..
            },
        ) => Some((name, value)),
        _ => None,
    }
}

/// Whether a line is among the steps.
fn is_among(steps: &[Step], line: usize) -> bool {
    for step in steps {
        if step.line == line {
            return true;
        }
    }
    false
}

/// Appends the EQU lines whose names an expression uses, if they are not among the steps. Answers whether one is the first step's line.
fn put_uses(
    known: &Known,
    value: &Tree,
    from: usize,
    start: usize,
    steps: &mut Vec<Step>,
) -> Result<bool, AllocError> {
    for item in value.items() {
        if let Item::Leaf(TermView::Name(name)) = item.view() {
            if let Some(Kind::Equ(line)) = known.table.kind(name) {
                if line == start {
                    return Ok(true);
                }
                if !is_among(steps, line) {
                    steps.push(Step { line, from })?;
                }
            }
        }
    }
    Ok(false)
}

/// The most lines among which a circle is looked for.
const MOST_STEPS: usize = 200;

/// The steps from an EQU line back to itself, and the number of the last of them; None if it does not lead back within some lines.
fn way_back(
    case: &Case<'_>,
    known: &Known,
    start: usize,
) -> Result<Option<(Vec<Step>, usize)>, AllocError> {
    let mut steps = Vec::new(case.alloc);
    steps.push(Step {
        line: start,
        from: 0,
    })?;
    for at in 0..MOST_STEPS {
        let Some(step) = steps.get(at) else {
            return Ok(None);
        };
        if let Some((_, value)) = equ_of(known, step.line) {
            if put_uses(known, value, at, start, &mut steps)? {
                return Ok(Some((steps, at)));
            }
        }
    }
    Ok(None)
}

/// The EQU lines of a circle, in the order in which each uses the next; none if no circle was found.
fn circle_of(case: &Case<'_>, known: &Known, start: usize) -> Result<Vec<usize>, AllocError> {
    let mut lines = Vec::new(case.alloc);
    let Some((steps, last)) = way_back(case, known, start)? else {
        return Ok(lines);
    };
    let mut at = last;
    for _ in 0..MOST_STEPS {
        if let Some(step) = steps.get(at) {
            lines.push(step.line)?;
            if at == 0 {
                lines.reverse();
                return Ok(lines);
            }
            at = step.from;
        }
    }
    Ok(lines)
}

/// A name that EQU defines in this line, with the line's number: `N (line 1)`.
fn equ_text(case: &Case<'_>, known: &Known, at: usize) -> Result<String, AllocError> {
    let alloc = case.alloc;
    match known.lines.get(at) {
        Some(
            SourceLine {
                number,
                line: Line::Equ { name, .. },
            },
        ) => {
            let name = shown(alloc, name)?;
            let line = case.line_text(*number)?;
            format!(in alloc; "{name} ({line})")
        }
        _ => Ok(String::new(alloc)),
    }
}

/// The name that EQU defines in this line.
fn equ_name(case: &Case<'_>, known: &Known, at: usize) -> Result<Vec<u8>, AllocError> {
    match equ_of(known, at) {
        Some((name, _)) => name.to_vec(case.alloc),
        None => Ok(Vec::new(case.alloc)),
    }
}

/// How the lines of a circle use each other: `N (line 1) uses K, K (line 2) uses N`.
fn circle_text(case: &Case<'_>, known: &Known, lines: &[usize]) -> Result<String, AllocError> {
    let alloc = case.alloc;
    let mut text = String::new(alloc);
    for (number, line) in lines.iter().enumerate() {
        let next = lines.get(number.saturating_add(1)).or(lines.first());
        let next_name = match next {
            Some(next) => equ_name(case, known, *next)?,
            None => Vec::new(alloc),
        };
        if number > 0 {
            text.push_str(", ")?;
        }
        text.push_str(&equ_text(case, known, *line)?)?;
        text.push_str(" uses ")?;
        text.push_str(&shown(alloc, &next_name)?)?;
    }
    Ok(text)
}

/// The message about an EQU line that leads back to itself.
///
/// # Errors
///
/// `AllocError` if memory ran out.
pub fn circle(case: &Case<'_>) -> Result<Draft, AllocError> {
    let alloc = case.alloc;
    let written = case.joined(0, 1)?;
    let text = format!(in alloc; "`{written}` is defined by itself")?;
    let help = String::from_str(alloc, "define one of these names without the others")?;
    let Some(known) = case.known else {
        return case.draft(0, 1, text).help(help);
    };
    let upper = match case.tokens.first() {
        Some(token) => token.text.to_ascii_uppercase(alloc)?,
        None => Vec::new(alloc),
    };
    let Some(Kind::Equ(start)) = known.table.kind(&upper) else {
        return case.draft(0, 1, text).help(help);
    };
    let lines = circle_of(case, known, start)?;
    let next = match lines.get(1).or(lines.first()) {
        Some(line) => equ_name(case, known, *line)?,
        None => upper,
    };
    let at = token_named(case.tokens, case.rest_at(), &next).unwrap_or(case.rest_at());
    let draft = case.draft(at, 1, text);
    if lines.is_empty() {
        return draft.help(help);
    }
    draft.note(circle_text(case, known, &lines)?)?.help(help)
}
