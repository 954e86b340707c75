//! Finds the errors of lines once their names are known.

ghost use Rattle.std.specs.Prelude.{◌≡◌, ◌++◌, ◌∷◌, [], ℕ, Bool, List, Option, None, Some, IfOk, OnOk, filter, if◌then◌else◌, is_none, length, map, not, slice_get};
ghost use Rattle.std.specs.Option.{option_map};
ghost use Rattle.asm_expr.specs.Names.{found};
ghost use Rattle.asm_spell.specs.Line.{line_of};
ghost use Rattle.asm_names.specs.declared.equ_fault.EquFault.{EquFault};
ghost use Rattle.asm_names.specs.Faults.{first};
ghost use Rattle.asm_names.specs.Lines.{lines_of};
ghost use Rattle.asm_names.specs.Names.{kind_of_name, names};
ghost use Rattle.asm_module.specs.Module.Faults.{is_label};
ghost use Rattle.asm_module.specs.Module.Stated.{statement_fault};
ghost use Rattle.asm_module.specs.Outlines.{IsOutline};
ghost use Rattle.asm_module.specs.Whys.{equ_why, state_why};
ghost use Rattle.source_errors.specs.Findings.{finding_of, name_told};
ghost use Rattle.source_errors.specs.Judged.{about, equ_name, late_errors, late_in};
ghost use Rattle.source_errors.specs.Private.State.{counted_of};

use crate::counting::Origin;
use crate::finding::Finding;
use crate::using::{names_passed, names_used};
use asm_expr::Names;
use asm_module::{Outline, StateFault, Why, judge};
use asm_names::{EquFault, Kind, NameTable, SettledNames, SourceLine};
use asm_spell::Line;
use std::alloc::{AllocError, Global};

/// Appends a copy of a name, if it is to be.
fn put_copy(
    alloc: Global,
    name: &[u8],
    is_wanted: bool,
    all: &mut Vec<Option<Vec<u8>>>,
) -> Result<(), AllocError>
    ensures { OnOk result (map (option_map (λ name. name.items)) all.new.items ≡ map (option_map (λ name. name.items)) all.old.items ++ (if is_wanted then Some name.now ∷ [] else [])) }
{
    if is_wanted {
        all.push(Some(name.to_vec(alloc)?))?;
    }
    Ok(())
}

/// Answers copies of the names that are defined nowhere.
fn missing(
    alloc: Global,
    table: &NameTable,
    names: &[&[u8]],
) -> Result<Vec<Option<Vec<u8>>>, AllocError>
    ensures { IfOk result (λ all. map (option_map (λ name. name.items)) all.items ≡ map Some (filter (λ name. is_none (kind_of_name table.now name)) (map (λ name. name.now) names.now))) }
{
    let mut all = Vec::new(alloc);
    for name in names {
        let is_missing = table.kind(name).is_none();
        put_copy(alloc, name, is_missing, &mut all)?;
    }
    Ok(all)
}

/// Whether a name is no label.
fn is_no_label(table: &NameTable, name: &[u8]) -> bool
    ensures { result ≡ not (is_label (kind_of_name table.now name.now)) }
{
    !matches!(table.kind(name), Some(Kind::Label(_)))
}

/// Answers copies of the names that are not labels.
fn no_labels(
    alloc: Global,
    table: &NameTable,
    names: &[&[u8]],
) -> Result<Vec<Option<Vec<u8>>>, AllocError>
    ensures { IfOk result (λ all. map (option_map (λ name. name.items)) all.items ≡ map Some (filter (λ name. not (is_label (kind_of_name table.now name))) (map (λ name. name.now) names.now))) }
{
    let mut all = Vec::new(alloc);
    for name in names {
        put_copy(alloc, name, is_no_label(table, name), &mut all)?;
    }
    Ok(all)
}

/// Answers the name that an EQU line defines, and None for any other line.
fn own_name(alloc: Global, line: &Line) -> Result<Option<Vec<u8>>, AllocError>
    ensures { IfOk result (λ name. option_map (λ name. name.items) name ≡ equ_name (line_of line.now)) }
{
    match line {
        Line::Equ { name, .. } => Ok(Some(name.clone()?)),
        Line::Statement { .. } => Ok(None),
    }
}

/// Answers a list of one item.
fn only(alloc: Global, name: Option<Vec<u8>>) -> Result<Vec<Option<Vec<u8>>>, AllocError>
    ensures { IfOk result (λ all. all.items ≡ name ∷ []) }
{
    let mut all = Vec::new(alloc);
    all.push(name)?;
    Ok(all)
}

/// Answers the names that an error of a line is about.
fn names_about(
    alloc: Global,
    table: &NameTable,
    line: &Line,
    why: Why,
) -> Result<Vec<Option<Vec<u8>>>, AllocError>
    ensures { IfOk result (λ all. map (option_map (λ name. name.items)) all.items ≡ about table.now (line_of line.now) why) }
{
    match why {
        Why::Undefined => missing(alloc, table, &names_used(alloc, line)?),
        Why::PublicNotLabel => no_labels(alloc, table, &names_passed(alloc, line)?),
        Why::EquCircle => only(alloc, own_name(alloc, line)?),
        _ => only(alloc, None),
    }
}

/// Answers the error of a line, given that of an EQU line, and what names and `$` stand for there.
fn why_of(
    alloc: Global,
    line: &Line,
    fault: Option<EquFault>,
    table: &NameTable,
    names: &Names,
) -> Result<Option<Why>, AllocError>
    requires { (name : List ℕ) → found names.now name ≡ None → kind_of_name table.now name ≡ None }
    ensures { IfOk result (λ why. why ≡ first (option_map equ_why fault ∷ option_map state_why (statement_fault table.now names.now (line_of line.now)) ∷ [])) }
{
    if let Some(why) = fault {
        return Ok(Some(Why::from(why)));
    }
    match judge(alloc, line, table, names, false) {
        Ok(_) => Ok(None),
        Err(StateFault::NoMemory) => Err(AllocError),
        Err(why) => Ok(Some(Why::from(why))),
    }
}

/// Appends an error of a line for each of the names that it is about.
fn put_each(
    alloc: Global,
    findings: &mut Vec<Finding>,
    number: u32,
    text: &[u8],
    why: Why,
    names: Vec<Option<Vec<u8>>>,
) -> Result<(), AllocError>
    ensures { OnOk result (map finding_of findings.new.items ≡ map finding_of findings.old.items
        ++ map (λ name. record { line = record { number = number; text = text.now }; why = why; name = name_told why name }) (map (option_map (λ name. name.items)) names.items)) }
{
    for name in names {
        findings.push(Finding {
            number,
            text: text.to_vec(alloc)?,
            why,
            name,
        })?;
    }
    Ok(())
}

/// Appends the errors of a line, given that of an EQU line, and what names and `$` stand for there.
fn put_judged(
    alloc: Global,
    line: &SourceLine,
    text: &[u8],
    fault: Option<EquFault>,
    table: &NameTable,
    names: &Names,
    findings: &mut Vec<Finding>,
) -> Result<(), AllocError>
    requires { (name : List ℕ) → found names.now name ≡ None → kind_of_name table.now name ≡ None }
    ensures { OnOk result (map finding_of findings.new.items ≡ map finding_of findings.old.items
        ++ late_in table.now (record { number = line.now.number; text = text.now }) (line_of line.now.line)
        (first (option_map equ_why fault ∷ option_map state_why (statement_fault table.now names.now (line_of line.now.line)) ∷ []))) }
{
    match why_of(alloc, &line.line, fault, table, names)? {
        Some(why) => {
            let about = names_about(alloc, table, &line.line, why)?;
            put_each(alloc, findings, line.number, text, why, about)
        }
        None => Ok(()),
    }
}

/// Answers the error of the EQU in line `at`; None if it has none.
fn fault_at(faults: &[Option<EquFault>], at: usize) -> Option<EquFault>
    ensures { (fault : Option EquFault) → slice_get faults.now at ≡ Some fault → result ≡ fault }
{
    match faults.get(at) {
        Some(fault) => *fault,
        None => None,
    }
}

/// Appends the errors that lines have once their names are known, given their outline. Answers what the names stand for.
pub(crate) fn judge_lines(
    alloc: Global,
    lines: &[SourceLine],
    origins: &[Origin],
    table: &NameTable,
    outline: Outline,
    findings: &mut Vec<Finding>,
) -> Result<Names, AllocError>
    requires many { length origins.now ≡ length lines.now }
    requires names { table.now ≡ names (lines_of lines.now) }
    requires outlined { (grow : Bool) × IsOutline grow (lines_of lines.now) outline }
    ensures { OnOk result (map finding_of findings.new.items ≡ map finding_of findings.old.items ++ late_errors (counted_of origins.now lines.now) outline) }
{
    asm_module::laws::all_found();
    let Outline {
        turns: _,
        settled,
        layout,
    } = outline;
    let SettledNames { names, faults, .. } = settled;
    let mut names = names;
    for (at, line) in lines.iter().enumerate() {
        let origin = &origins[at];
        if origin.is_read {
            names.set_here(layout.next_at(at));
            let fault = fault_at(&faults, at);
            put_judged(alloc, line, &origin.text, fault, table, &names, findings)?;
        }
    }
    Ok(names)
}
