//! Finds lines that cannot be cut into tokens, and mends them, so that the others can be judged.

ghost use Rattle.std.specs.Prelude.{◌≡◌, ◌<◌, ◌++◌, ◌∷◌, ◌==◌, ◌||◌, ◌^◌, [], ℕ, List, IfOk, OnOk, false, length, map, slice_index_or};
ghost use Rattle.std.specs.List.{list_any};
ghost use Rattle.std.specs.Option.{option_to_list};
ghost use Rattle.asm_macro.specs.Texts.{source_lines};
ghost use Rattle.asm_macro.specs.Views.{lines_seen};
ghost use Rattle.asm_text.specs.Lines.{Numbered};
ghost use Rattle.source_errors.specs.Findings.{finding_of};
ghost use Rattle.source_errors.specs.Found.{front, is_made, is_made_circle, is_of_mended, mended, mended_text, scan_error, scan_errors, scan_fault, without_made};

use crate::finding::Finding;
use crate::mending::defined_name_alone;
use asm_line::{ScanFault, tokens};
use asm_macro::{ExpandedLine, MacroFault, source_part};
use asm_module::Why;
use asm_text::Lines;
use std::alloc::{AllocError, Global};

/// Answers why a line cannot be cut into tokens; None if it can.
fn fault_of(alloc: Global, line: &[u8]) -> Result<Option<ScanFault>, AllocError>
    ensures { IfOk result (λ fault. fault ≡ scan_fault line.now) }
{
    match tokens(alloc, line) {
        Ok(_) => Ok(None),
        Err(ScanFault::NoMemory) => Err(AllocError),
        Err(why) => Ok(Some(why)),
    }
}

/// Answers the longest front of a line that can be cut into tokens.
fn front(alloc: Global, line: &[u8]) -> Result<&[u8], AllocError>
    ensures { IfOk result (λ part. part.now ≡ front (length line.now) line.now) }
{
    let mut count = line.len();
    while count > 0 {
        let part = &line[..count];
        match fault_of(alloc, part)? {
            None => return Ok(part),
            Some(_) => count -= 1,
        }
    }
    Ok(&[])
}

/// Appends a line as it counts, and its end.
fn put_mended(alloc: Global, line: &[u8], text: &mut Vec<u8>) -> Result<(), AllocError>
    ensures { OnOk result (text.new.items ≡ text.old.items ++ mended line.now ++ 10 ∷ []) }
{
    if fault_of(alloc, line)?.is_none() {
        text.extend_from_slice(line)?;
    } else {
        text.extend_from_slice(&defined_name_alone(alloc, front(alloc, line)?)?)?;
    }
    text.push(b'\n')?;
    Ok(())
}

/// Answers a source in which each line that cannot be cut into tokens counts as the name that it defines, alone.
pub fn mended_text(alloc: Global, lines: &Lines<'_>) -> Result<Vec<u8>, AllocError>
    ensures { IfOk result (λ text. (whole : List ℕ) → lines.now ≡ source_lines whole → text.items ≡ mended_text whole) }
{
    let mut text = Vec::new(alloc);
    for at in 0..lines.len() {
        put_mended(alloc, lines.line(at), &mut text)?;
    }
    Ok(text)
}

/// Whether an error is the circle of a line `NAME EQU NAME` that the source does not have.
fn is_made_circle(alloc: Global, lines: &Lines<'_>, finding: &Finding) -> Result<bool, AllocError>
    ensures { IfOk result (λ is_made. (text : List ℕ) → lines.now ≡ source_lines text → is_made ≡ is_made_circle text (finding_of finding.now)) }
{
    if !matches!(finding.why, Why::EquCircle) {
        return Ok(false);
    }
    let alone = defined_name_alone(alloc, &finding.text)?;
    let at = (finding.number as usize).saturating_sub(1);
    Ok(finding.text == alone && finding.text.as_slice() != lines.line(at))
}

/// Whether an error is one of the text as which this line counts, since the line cannot be cut into tokens.
fn is_of_mended(alloc: Global, line: &[u8], finding: &Finding) -> Result<bool, AllocError>
    ensures { IfOk result (λ is. is ≡ is_of_mended line.now (finding_of finding.now)) }
{
    if fault_of(alloc, line)?.is_none() {
        return Ok(false);
    }
    let mended = defined_name_alone(alloc, front(alloc, line)?)?;
    Ok(finding.text == mended)
}

/// Whether an error is none of the source, but only of the texts as which its lines count.
fn is_made(alloc: Global, lines: &Lines<'_>, finding: &Finding) -> Result<bool, AllocError>
    ensures { IfOk result (λ made. (text : List ℕ) → lines.now ≡ source_lines text → made ≡ is_made text (finding_of finding.now)) }
{
    if is_made_circle(alloc, lines, finding)? {
        return Ok(true);
    }
    let at = (finding.number as usize).saturating_sub(1);
    is_of_mended(alloc, lines.line(at), finding)
}

/// Appends errors, but those of the texts as which lines count that cannot be cut into tokens: the source does not have them.
pub(crate) fn append_without_made(
    alloc: Global,
    lines: &Lines<'_>,
    others: Vec<Finding>,
    findings: &mut Vec<Finding>,
) -> Result<(), AllocError>
    ensures { OnOk result ((text : List ℕ) → lines.now ≡ source_lines text → map finding_of findings.new.items ≡ map finding_of findings.old.items ++ without_made text (map finding_of others.items)) }
{
    for finding in others {
        if !is_made(alloc, lines, &finding)? {
            findings.push(finding)?;
        }
    }
    Ok(())
}

/// Marks a number, if it is one of these.
fn mark(flags: &mut [bool], at: usize)
    ensures len { length flags.new ≡ length flags.old }
    ensures each { (k : ℕ) → k < length flags.old → slice_index_or flags.new k false ≡ (slice_index_or flags.old k false || (at == k)) }
{
    if at < flags.len() {
        flags[at] = true;
    }
}

/// Answers for each number below this one whether one of the lines of an expansion bears it.
fn numbers_read(
    alloc: Global,
    expanded: &[ExpandedLine],
    count: usize,
) -> Result<Vec<bool>, AllocError>
    ensures len { IfOk result (λ flags. length flags.items ≡ count) }
    ensures each { IfOk result (λ flags. (k : ℕ) → k < count → slice_index_or flags.items k false ≡ list_any (λ l. l.number == k) (lines_seen expanded.now)) }
{
    let mut flags = vec![in alloc; false; count]?;
    for line in expanded {
        mark(&mut flags, line.number as usize);
    }
    Ok(flags)
}

/// Whether a number is marked.
fn is_read(flags: &[bool], number: u32) -> bool
    ensures { result ≡ slice_index_or flags.now number false }
{
    match flags.get(number as usize) {
        Some(is_read) => *is_read,
        None => false,
    }
}

/// Appends the error of a line that cannot be cut into tokens, if it is not the line with the number `other`, and the expansion reads it.
/// `flags` says of each number whether a line of the expansion bears it.
fn put_scan_error(
    alloc: Global,
    other: u32,
    flags: &[bool],
    number: u32,
    line: &[u8],
    findings: &mut Vec<Finding>,
) -> Result<(), AllocError>
    ensures { OnOk result ((lines : List Numbered) → slice_index_or flags.now number false ≡ list_any (λ l. l.number == number) lines → map finding_of findings.new.items ≡ map finding_of findings.old.items
        ++ option_to_list (scan_error other lines (record { number = number; text = line.now }))) }
{
    let Some(why) = fault_of(alloc, line)? else {
        return Ok(());
    };
    if number == other || !is_read(flags, number) {
        return Ok(());
    }
    findings.push(Finding {
        number,
        text: line.to_vec(alloc)?,
        why: Why::from(MacroFault::from(why)),
        name: None,
    })?;
    Ok(())
}

/// Appends the errors of all lines that cannot be cut into tokens, but that of the line with the number `other`.
pub(crate) fn put_scan_errors(
    alloc: Global,
    other: u32,
    expanded: &[ExpandedLine],
    lines: &Lines<'_>,
    findings: &mut Vec<Finding>,
) -> Result<(), AllocError>
    requires { length lines.now < 2 ^ 32 }
    ensures { OnOk result ((text : List ℕ) → lines.now ≡ source_lines text → map finding_of findings.new.items ≡ map finding_of findings.old.items ++ scan_errors other (lines_seen expanded.now) text) }
{
    let flags = numbers_read(alloc, expanded, lines.len() + 1)?;
    for at in 0..lines.len() {
        let number = at as u32 + 1;
        put_scan_error(alloc, other, &flags, number, lines.line(at), findings)?;
    }
    Ok(())
}
