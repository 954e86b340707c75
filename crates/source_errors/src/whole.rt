//! Finds all errors of a source.

ghost use Rattle.std.specs.Prelude.{◌≡◌, ◌≢◌, ◌<◌, ◌^◌, ◌++◌, ◌-◌, ◌∷◌, [], ℕ, All, List, None, IfOk, OnOk, length, map, slice_index_or, Err, Ok};
ghost use Rattle.asm_text.specs.Lines.{Numbered};
ghost use Rattle.asm_names.specs.Lines.{lines_of};
ghost use Rattle.asm_module.specs.Program.Spelled.{IsLineOfText};
ghost use Rattle.asm_module.specs.Whys.{macro_why};
ghost use Rattle.source_errors.specs.Counted.{counted_after, early_after};
ghost use Rattle.asm_macro.specs.Expands.{IsExpanded};
ghost use Rattle.asm_macro.specs.Texts.{source_lines};
ghost use Rattle.asm_macro.specs.Views.{lines_seen};
ghost use Rattle.source_errors.specs.Findings.{Finding as Found, finding_of, name_told};
ghost use Rattle.source_errors.specs.Found.{AreErrors, AreFindings, AreOthers, is_of_tokens};
ghost use Rattle.source_errors.specs.Private.State.{IsCounting, counted_in, why_of};

use crate::counting::{Counting, count_lines};
use crate::finding::{Finding, Findings, Known};
use crate::judging::judge_lines;
use crate::scanning::{append_without_made, mended_text, put_scan_errors};
use asm_macro::{Expanded, MacroFault, expand, source_part};
use asm_module::{Why, outline_of};
use asm_names::{NameFault, names_of};
use asm_text::Lines;
use common::NameKey;
use std::alloc::{AllocError, Global};

/// Answers the error that a source has too many statements or names; None if memory ran out.
fn why_of(why: NameFault) -> Option<Why>
    ensures { result ≡ why_of why }
{
    match why {
        NameFault::Duplicate => Some(Why::Duplicate),
        NameFault::TooManyStatements => Some(Why::TooManyStatements),
        NameFault::TooManyNames => Some(Why::TooManyNames),
        NameFault::NoMemory => None,
    }
}

/// Appends an error of a whole source.
fn put_whole(
    alloc: Global,
    number: u32,
    why: Why,
    findings: &mut Vec<Finding>,
) -> Result<(), AllocError>
    ensures { OnOk result (map finding_of findings.new.items ≡ map finding_of findings.old.items ++ record { line = record { number = number; text = [] }; why = why; name = name_told why None } ∷ []) }
{
    findings.push(Finding {
        number,
        text: Vec::new(alloc),
        why,
        name: None,
    })?;
    Ok(())
}

/// Answers the errors of the lines that count, given those that each line has by itself.
fn judged(alloc: Global, counting: Counting, grow: bool) -> Result<Findings, AllocError>
    requires sound { IsCounting counting }
    requires few { length counting.lines.items < 2 ^ 32 }
    requires parsed { All (λ l. IsLineOfText l.line) (lines_of counting.lines.items) }
    ensures { (lines : List Numbered) → counted_in counting ≡ counted_after [] lines → map finding_of counting.findings.items ≡ early_after [] lines → IfOk result (λ f. AreErrors grow lines (map finding_of f.findings.items)) }
{
    let Counting {
        table: _,
        lines,
        origins,
        mut findings,
    } = counting;
    let (number, why) = match names_of(alloc, &lines) {
        Ok(table) => {
            let outline = outline_of(alloc, &lines, &table, grow)?;
            let values = judge_lines(alloc, &lines, &origins, &table, outline, &mut findings)?;
            let known = Some(Known {
                lines,
                table,
                values,
            });
            return Ok(Findings { findings, known });
        }
        Err(fault) => fault,
    };
    let Some(why) = why_of(why) else {
        return Err(AllocError);
    };
    put_whole(alloc, number, why, &mut findings)?;
    Ok(Findings {
        findings,
        known: None,
    })
}

/// Answers the errors of the lines of an expansion.
fn errors_in(
    alloc: Global,
    text: &[u8],
    expanded: Expanded,
    grow: bool,
) -> Result<Findings, AllocError>
    requires { (read : List ℕ) × IsExpanded read (Ok (lines_seen expanded.lines.items)) }
    ensures { IfOk result (λ f. AreErrors grow (lines_seen expanded.lines.items) (map finding_of f.findings.items)) }
{
    asm_macro::laws::few_lines();
    let counting = count_lines(alloc, NameKey::of(text), expanded)?;
    judged(alloc, counting, grow)
}

/// Whether an expansion stops since a line cannot be cut into tokens.
fn is_of_tokens(why: MacroFault) -> bool
    ensures { result ≡ is_of_tokens why }
{
    matches!(why, MacroFault::Scan(_) | MacroFault::LineTooLong)
}

/// The error at which an expansion stops.
fn stop_at(
    alloc: Global,
    lines: &Lines<'_>,
    number: u32,
    why: MacroFault,
) -> Result<Finding, AllocError>
    ensures { IfOk result (λ f. finding_of f ≡ record { line = record { number = number; text = slice_index_or lines.now (number - 1) [] }; why = macro_why why; name = name_told (macro_why why) None }) }
{
    let at = (number as usize).saturating_sub(1);
    Ok(Finding {
        number,
        text: lines.line(at).to_vec(alloc)?,
        why: Why::from(why),
        name: None,
    })
}

/// Answers `AllocError` if an expansion stops since memory ran out: that is no error of the source.
fn known_cause(why: MacroFault) -> Result<(), AllocError>
    ensures { IfOk result (λ done. why ≢ MacroFault.NoMemory) }
{
    match why {
        MacroFault::NoMemory => Err(AllocError),
        _ => Ok(()),
    }
}

/// Appends the errors of other lines to the one at which an expansion stops, if the mended source can be expanded. Answers what is known
/// of that source.
fn put_others(
    alloc: Global,
    lines: &Lines<'_>,
    number: u32,
    grow: bool,
    findings: &mut Vec<Finding>,
) -> Result<Option<Known>, AllocError>
    requires { length lines.now < 2 ^ 32 }
    ensures { OnOk result ((text : List ℕ) → lines.now ≡ source_lines text → (others : List Found) × AreOthers grow text number others × (map finding_of findings.new.items ≡ map finding_of findings.old.items ++ others)) }
{
    let mended = mended_text(alloc, lines)?;
    match expand(alloc, &mended) {
        Ok(expanded) => {
            put_scan_errors(alloc, number, &expanded.lines, lines, findings)?;
            let Findings {
                findings: others,
                known,
            } = errors_in(alloc, &mended, expanded, grow)?;
            append_without_made(alloc, lines, others, findings)?;
            Ok(known)
        }
        Err((_, why)) => {
            known_cause(why)?;
            Ok(None)
        }
    }
}

/// Answers the errors of a source whose expansion stops.
fn stopped(
    alloc: Global,
    text: &[u8],
    number: u32,
    why: MacroFault,
    grow: bool,
) -> Result<Findings, AllocError>
    requires stops { IsExpanded text.now (Err (number, why)) }
    requires caused { why ≢ MacroFault.NoMemory }
    ensures { IfOk result (λ f. AreFindings grow text.now (map finding_of f.findings.items)) }
{
    let lines = Lines::of(alloc, source_part(text))?;
    if lines.len() > u32::MAX as usize {
        return Err(AllocError);
    }
    let mut findings = Vec::new(alloc);
    findings.push(stop_at(alloc, &lines, number, why)?)?;
    if !is_of_tokens(why) {
        return Ok(Findings {
            findings,
            known: None,
        });
    }
    let known = put_others(alloc, &lines, number, grow, &mut findings)?;
    Ok(Findings { findings, known })
}

/// Answers all errors of a source: of each line by itself, then those of values and names. If its expansion stops, since a line cannot be
/// cut into tokens, each such line counts as the name that it defines alone, so that the errors of other lines are found too. If it stops
/// for another reason, that is the only error.
///
/// # Errors
///
/// [`AllocError`] if memory ran out.
pub fn find_errors(alloc: Global, text: &[u8], grow: bool) -> Result<Findings, AllocError>
    ensures { IfOk result (λ f. AreFindings grow text.now (map finding_of f.findings.items)) }
{
    match expand(alloc, text) {
        Ok(expanded) => errors_in(alloc, text, expanded, grow),
        Err((number, why)) => {
            known_cause(why)?;
            stopped(alloc, text, number, why, grow)
        }
    }
}
