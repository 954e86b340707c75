//! Finds calls of macros with too many or too few arguments.

ghost use Rattle.std.specs.Prelude.{◌≡◌, ◌++◌, IfOk, OnOk, map};
ghost use Rattle.asm_line.specs.Tokens.{lexemes};
ghost use Rattle.asm_text.specs.Lines.{form_of, heard};
ghost use Rattle.asm_macro.specs.Views.{lines_seen};
ghost use Rattle.source_warnings.specs.Calls.{AreCallWarnings, all_calls, call_says, call_warnings, calls_after, counts_say, expansion_warnings};
ghost use Rattle.source_warnings.specs.Macros.{argument_count, parameter_count};
ghost use Rattle.source_warnings.specs.Warnings.{warning_of};
ghost use Rattle.source_warnings.specs.Noted.{first_noted};
ghost use Rattle.source_warnings.specs.Private.Known.{line_seen};

use crate::first_lines::FirstLines;
use crate::found::{is_own, refused, stopped};
use crate::macros::{called_in, definitions_in, later_in};
use crate::reading::heard;
use crate::warning::{Kind, SourceWarning};
use asm_line::{Token, arguments, form_of, names};
use asm_macro::{ExpandedLine, expand, source_part};
use asm_module::assemble;
use asm_text::Lines;
use common::NameKey;
use std::alloc::{AllocError, Global};

/// Answers how many parameters a MACRO line lists; None if they are no names.
fn parameter_count(alloc: Global, rest: &[Token<'_>]) -> Result<Option<usize>, AllocError>
    ensures { IfOk result (λ count. count ≡ parameter_count (lexemes rest.entry.now)) }
{
    if rest.is_empty() {
        return Ok(Some(0));
    }
    match names(alloc, rest)? {
        Some(found) => Ok(Some(found.len())),
        None => Ok(None),
    }
}

/// Answers how many parameters the macro has that a line defines; None if they are no names.
fn parameters_of(alloc: Global, text: &[u8]) -> Result<Option<usize>, AllocError>
    ensures { IfOk result (λ count. count ≡ parameter_count (form_of text.now).rest) }
{
    match heard(alloc, text)? {
        Some(found) => parameter_count(alloc, form_of(&found).rest),
        None => Ok(Some(0)),
    }
}

/// Answers how many arguments a call with these tokens has.
fn arguments_among(alloc: Global, text: &[u8], tokens: &[Token<'_>]) -> Result<usize, AllocError>
    ensures { IfOk result (λ count. count ≡ argument_count text.now (Some (lexemes tokens.entry.now))) }
{
    let form = form_of(tokens);
    let all = arguments(alloc, text, form.rest)?;
    Ok(all.len())
}

/// Answers how many arguments a call has.
fn argument_count(alloc: Global, text: &[u8]) -> Result<usize, AllocError>
    ensures { IfOk result (λ count. count ≡ argument_count text.now (heard text.now)) }
{
    match heard(alloc, text)? {
        Some(found) => arguments_among(alloc, text, &found),
        None => Ok(0),
    }
}

/// Appends the warning about a call, if its arguments are not as many as the macro has parameters.
fn put_counts(
    alloc: Global,
    text: &[u8],
    number: u32,
    name: &[u8],
    parameters: Option<usize>,
    arguments: usize,
    found: &mut Vec<SourceWarning>,
) -> Result<(), AllocError>
    ensures { OnOk result (map warning_of found.new.items ≡ map warning_of found.old.items ++ counts_say (record { number = number; text = text.now }) name.now parameters arguments) }
{
    match parameters {
        Some(parameters) if parameters != arguments => {
            found.push(SourceWarning {
                number,
                text: text.to_vec(alloc)?,
                kind: Kind::Arguments(parameters, arguments),
                name: name.to_vec(alloc)?,
            })?;
            Ok(())
        }
        _ => Ok(()),
    }
}

/// What is known of a source: its lines, the macros that they define, and those that several define.
#[derive(Drop)]
struct Known<'a> {
    lines: Lines<'a>,
    macros: FirstLines,
    later: FirstLines,
}

/// Appends the warning about a call of a macro, if one line before the call defines it.
fn put_macro_call(
    alloc: Global,
    known: &Known<'_>,
    text: &[u8],
    number: u32,
    name: &[u8],
    found: &mut Vec<SourceWarning>,
) -> Result<(), AllocError>
    ensures { OnOk result (map warning_of found.new.items ≡ map warning_of found.old.items ++ call_says known.now.lines (record { number = number; text = text.now }) name.now (first_noted known.now.macros name.now) (first_noted known.now.later name.now)) }
{
    match (known.macros.first(name), known.later.first(name)) {
        (Some(first), None) if first < number => {
            let definition = known.lines.line((first as usize).saturating_sub(1));
            let parameters = parameters_of(alloc, definition)?;
            let arguments = argument_count(alloc, text)?;
            put_counts(alloc, text, number, name, parameters, arguments, found)
        }
        _ => Ok(()),
    }
}

/// Appends the warning about a line of the source as it is written, which may be a call.
fn put_call(
    alloc: Global,
    known: &Known<'_>,
    text: &[u8],
    number: u32,
    found: &mut Vec<SourceWarning>,
) -> Result<(), AllocError>
    ensures { OnOk result (map warning_of found.new.items ≡ map warning_of found.old.items ++ call_warnings known.now.lines known.now.macros known.now.later (record { number = number; text = text.now })) }
{
    match called_in(alloc, text)? {
        Some(name) => put_macro_call(alloc, known, text, number, &name, found),
        None => Ok(()),
    }
}

/// Appends the warning about the call that gives a line of the expansion, if it is the first line that it gives.
fn put_line(
    alloc: Global,
    known: &Known<'_>,
    line: &ExpandedLine,
    last: u32,
    found: &mut Vec<SourceWarning>,
) -> Result<(), AllocError>
    ensures { OnOk result (map warning_of found.new.items ≡ map warning_of found.old.items ++ expansion_warnings known.now.lines known.now.macros known.now.later last (line_seen line.now)) }
{
    if line.number == last || is_own(&known.lines, line) {
        return Ok(());
    }
    let text = known.lines.line((line.number as usize).saturating_sub(1));
    put_call(alloc, known, text, line.number, found)
}

/// Answers the warnings about the calls of a source, given the lines of its expansion.
fn put_lines(
    alloc: Global,
    known: &Known<'_>,
    expanded: &[ExpandedLine],
) -> Result<Vec<SourceWarning>, AllocError>
    ensures { IfOk result (λ found. map warning_of found.items ≡ calls_after known.now.lines known.now.macros known.now.later 0 (lines_seen expanded.now)) }
{
    let mut found = Vec::new(alloc);
    let mut last = 0;
    for line in expanded {
        put_line(alloc, known, line, last, &mut found)?;
        last = line.number;
    }
    Ok(found)
}

/// Answers the warnings about the calls of a source, given the lines of its expansion.
fn calls_in(
    alloc: Global,
    text: &[u8],
    expanded: &[ExpandedLine],
) -> Result<Vec<SourceWarning>, AllocError>
    ensures { IfOk result (λ found. map warning_of found.items ≡ all_calls text.now (lines_seen expanded.now)) }
{
    let lines = Lines::of(alloc, source_part(text))?;
    if lines.len() > u32::MAX as usize {
        return Err(AllocError);
    }
    let key = NameKey::of(text);
    let macros = definitions_in(alloc, &lines, key)?;
    let later = later_in(alloc, &lines, key, &macros)?;
    let known = Known {
        lines,
        macros,
        later,
    };
    put_lines(alloc, &known, expanded)
}

/// Answers the warnings about the calls of a source that have too many or too few arguments, in the order of its lines; none if the source
/// has an error. Only calls that are lines of the source themselves are looked at, and only of macros that one line defines.
///
/// # Errors
///
/// [`AllocError`] if memory ran out.
pub fn find_call_warnings(alloc: Global, text: &[u8]) -> Result<Vec<SourceWarning>, AllocError>
    ensures { IfOk result (λ found. AreCallWarnings text.now (map warning_of found.items)) }
{
    let expanded = match expand(alloc, text) {
        Ok(expanded) => expanded,
        Err((_, why)) => return stopped(alloc, why),
    };
    match assemble(alloc, b"", text) {
        Ok(module) => {
            drop(module);
            calls_in(alloc, text, &expanded.lines)
        }
        Err(fault) => refused(alloc, fault.why),
    }
}
