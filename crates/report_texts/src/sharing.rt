//! Says what is wrong with a front by itself.

ghost use Rattle.std.specs.Prelude.{◌≡◌, ℕ, IfOk, List, None, Result};
ghost use Rattle.std.specs.Option.{option_map};
ghost use Rattle.asm_macro.specs.declared.fault.MacroFault.{MacroFault};
ghost use Rattle.asm_names.specs.Lines.{lines_of};
ghost use Rattle.asm_spell.specs.Line.{line_of};
ghost use Rattle.asm_text.specs.Lines.{Numbered};
ghost use Rattle.report_texts.specs.Faults.Refusals.{told_text};
ghost use Rattle.report_texts.specs.Front.{front_text};
ghost use Rattle.report_texts.specs.Shared.{HasExpansion, IsFaultOfFront, IsOwnFault, first_unshared, is_shared, unshared_in};

use crate::faults::Told;
use crate::front::Front;
use crate::locating::{told_alone, unshared_at};
use asm_module::{MacroFault, SourceLine, Why, assemble_with, read_source};
use asm_spell::{Body, Line};
use std::alloc::{AllocError, Global};

/// Whether a shared file may have a line of its expansion: EQU, EXTRN without a label, or nothing.
pub fn is_shared(line: &Line) -> bool
    ensures { result ≡ is_shared (line_of line.now) }
{
    matches!(
        line,
        Line::Equ { .. }
            | Line::Statement {
                label: None,
                body: None | Some(Body::External(_)),
            }
    )
}

/// Answers the number of the first line after those of words that a shared file may not hold.
fn first_unshared(words: usize, lines: &[SourceLine]) -> Option<u32>
    ensures { result ≡ first_unshared words (lines_of lines.now) }
{
    for line in lines {
        if words < line.number as usize && !is_shared(&line.line) {
            return Some(line.number);
        }
    }
    None
}

/// Answers the number of the first such line of a front's expansion. If the expansion stops, there is none.
fn unshared(alloc: Global, front: Front<'_>, text: &[u8]) -> Result<Option<u32>, AllocError>
    ensures { IfOk result (λ line. (expanded : Result (List Numbered) (ℕ × MacroFault)) × HasExpansion text.now expanded × (line ≡ unshared_in front.entry expanded)) }
{
    match read_source(alloc, text) {
        Ok(source) => Ok(first_unshared(front.defines.len(), &source.lines)),
        Err((_, why)) => match why {
            MacroFault::NoMemory => Err(AllocError),
            _ => Ok(None),
        },
    }
}

/// Answers the first error of a front that is assembled by itself.
fn first_fault<'a>(
    alloc: Global,
    front: Front<'a>,
    text: &[u8],
) -> Result<Option<Told<'a>>, AllocError>
    requires { text.now ≡ front_text front }
    ensures { IfOk result (λ told. IsOwnFault front.entry None text.now (option_map told_text told)) }
{
    let fault = match assemble_with(alloc, b"", text, false) {
        Ok(_) => return Ok(None),
        Err(fault) => fault,
    };
    match fault.why {
        Why::NoMemory => Err(AllocError),
        _ => Ok(Some(told_alone(front, text, fault))),
    }
}

/// Answers what is wrong with a front by itself, given its text: its first line that a shared file may not have; otherwise its first error.
///
/// # Errors
///
/// [`AllocError`] if memory ran out.
pub fn fault_of_front<'a>(
    alloc: Global,
    front: Front<'a>,
    text: &[u8],
) -> Result<Option<Told<'a>>, AllocError>
    requires { text.now ≡ front_text front }
    ensures { IfOk result (λ told. IsFaultOfFront front.entry (option_map told_text told)) }
{
    if text.is_empty() {
        return Ok(None);
    }
    match unshared(alloc, front, text)? {
        Some(line) => Ok(Some(unshared_at(front, line))),
        None => {
            let told = first_fault(alloc, front, text)?;
            Ok(told)
        }
    }
}
