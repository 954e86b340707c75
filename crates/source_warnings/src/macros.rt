//! Finds the macros that a source defines.

ghost use Rattle.std.specs.Prelude.{◌≡◌, ◌<◌, ◌^◌, ◌++◌, IfOk, OnOk, length};
ghost use Rattle.std.specs.List.{flat_map};
ghost use Rattle.std.specs.Option.{option_map};
ghost use Rattle.asm_line.specs.FormViews.{head_seen};
ghost use Rattle.asm_macro.specs.Texts.{numbered};
ghost use Rattle.asm_text.specs.Lines.{form_of};
ghost use Rattle.source_warnings.specs.Macros.{called_macro, macro_defined, line_defines, line_defines_again};
ghost use Rattle.source_warnings.specs.Private.Known.{Agrees};

use crate::first_lines::FirstLines;
use crate::reading::heard;
use asm_line::{Head, form_of};
use asm_text::Lines;
use common::NameKey;
use std::alloc::{AllocError, Global};

/// Answers the name of the macro that a line defines, in upper case.
fn defined_by(alloc: Global, head: Head<'_>) -> Result<Option<Vec<u8>>, AllocError>
    ensures { IfOk result (λ found. option_map (λ name. name.items) found ≡ macro_defined (head_seen head.entry)) }
{
    match head {
        Head::Macro(name) => Ok(Some(name.to_ascii_uppercase(alloc)?)),
        Head::Equ(_) | Head::Word(_) | Head::Block(_) | Head::Nothing => Ok(None),
    }
}

/// Answers the name of the macro that a line may call, in upper case.
fn called_by(alloc: Global, head: Head<'_>) -> Result<Option<Vec<u8>>, AllocError>
    ensures { IfOk result (λ found. option_map (λ name. name.items) found ≡ called_macro (head_seen head.entry)) }
{
    match head {
        Head::Word(name) => Ok(Some(name.to_ascii_uppercase(alloc)?)),
        Head::Equ(_) | Head::Macro(_) | Head::Block(_) | Head::Nothing => Ok(None),
    }
}

/// Answers the name of the macro that a line defines, in upper case.
fn defined_in(alloc: Global, text: &[u8]) -> Result<Option<Vec<u8>>, AllocError>
    ensures { IfOk result (λ found. option_map (λ name. name.items) found ≡ macro_defined (form_of text.now).head) }
{
    match heard(alloc, text)? {
        Some(found) => defined_by(alloc, form_of(&found).head),
        None => Ok(None),
    }
}

/// Answers the name of the macro that a line may call, in upper case.
pub(crate) fn called_in(alloc: Global, text: &[u8]) -> Result<Option<Vec<u8>>, AllocError>
    ensures { IfOk result (λ found. option_map (λ name. name.items) found ≡ called_macro (form_of text.now).head) }
{
    match heard(alloc, text)? {
        Some(found) => called_by(alloc, form_of(&found).head),
        None => Ok(None),
    }
}

/// Notes the macro that a line defines.
fn note_definition(
    alloc: Global,
    macros: &mut FirstLines,
    text: &[u8],
    number: u32,
) -> Result<(), AllocError>
    ensures { OnOk result (Agrees macros.new (macros.old ++ line_defines (record { number = number; text = text.now }))) }
{
    match defined_in(alloc, text)? {
        Some(name) => macros.note(&name, number),
        None => Ok(()),
    }
}

/// Notes the macro that a line defines, if an earlier line defines it too.
fn note_later(
    alloc: Global,
    macros: &FirstLines,
    later: &mut FirstLines,
    text: &[u8],
    number: u32,
) -> Result<(), AllocError>
    ensures { OnOk result (Agrees later.new (later.old ++ line_defines_again macros.now (record { number = number; text = text.now }))) }
{
    match defined_in(alloc, text)? {
        Some(name) => match macros.first(&name) {
            Some(first) if first == number => Ok(()),
            _ => later.note(&name, number),
        },
        None => Ok(()),
    }
}

/// Answers the macros that the lines of a source define.
pub(crate) fn definitions_in(
    alloc: Global,
    lines: &Lines<'_>,
    key: NameKey,
) -> Result<FirstLines, AllocError>
    requires { length lines.now < 2 ^ 32 }
    ensures { IfOk result (λ found. Agrees found (flat_map line_defines (numbered 1 lines.now))) }
{
    let mut macros = FirstLines::new(alloc, key);
    for at in 0..lines.len() {
        note_definition(alloc, &mut macros, lines.line(at), at as u32 + 1)?;
    }
    Ok(macros)
}

/// Answers the macros that several lines define.
pub(crate) fn later_in(
    alloc: Global,
    lines: &Lines<'_>,
    key: NameKey,
    macros: &FirstLines,
) -> Result<FirstLines, AllocError>
    requires { length lines.now < 2 ^ 32 }
    ensures { IfOk result (λ found. Agrees found (flat_map (line_defines_again macros.now) (numbered 1 lines.now))) }
{
    let mut later = FirstLines::new(alloc, key);
    for at in 0..lines.len() {
        note_later(alloc, macros, &mut later, lines.line(at), at as u32 + 1)?;
    }
    Ok(later)
}
