//! Reads the lines of an expansion one after the other: as which line each counts, and its error by itself.

ghost use Rattle.std.specs.Prelude.{◌≡◌, ◌++◌, ◌∷◌, [], ℕ, IfOk, IfSome, OnOk, Err, Ok, Some, map};
ghost use Rattle.std.specs.Option.{option_map};
ghost use Rattle.asm_spell.specs.Line.{line_of};
ghost use Rattle.asm_names.specs.Faults.{first};
ghost use Rattle.asm_names.specs.Lines.{lines_of, taken_of};
ghost use Rattle.asm_macro.specs.Views.{lines_seen};
ghost use Rattle.asm_module.specs.Reads.Read.{read_line};
ghost use Rattle.source_errors.specs.Counted.{after_colon, counted_after, counts_as, early_after, meant_as};
ghost use Rattle.source_errors.specs.Findings.{finding_of, name_told};
ghost use Rattle.source_errors.specs.Private.State.{Appends, IsCounting, Refuses, Takes, counted_in, numbered_of};

use crate::clashing::{clashes, repeated};
use crate::finding::Finding;
use crate::mending::{after_colon, meant_as};
use crate::reading::read_line;
use asm_macro::{Expanded, ExpandedLine};
use asm_module::{LineFault, Why};
use asm_names::{NameTable, SourceLine};
use asm_spell::Line;
use common::NameKey;
use std::alloc::{AllocError, Global};

/// Where a line that counts comes from.
#[derive(Debug, Drop)]
pub(crate) struct Origin {
    /// The line as it is assembled.
    pub(crate) text: Vec<u8>,
    /// Whether it can be parsed, so that it counts as more than the name that it defines.
    pub(crate) is_read: bool,
}

/// The lines so far as they count, and the errors that they have by themselves.
#[derive(Debug, Drop)]
pub(crate) struct Counting {
    pub(crate) table: NameTable,
    pub(crate) lines: Vec<SourceLine>,
    pub(crate) origins: Vec<Origin>,
    pub(crate) findings: Vec<Finding>,
}

/// Answers a copy of a name.
fn copied(alloc: Global, name: Option<&[u8]>) -> Result<Option<Vec<u8>>, AllocError>
    ensures { IfOk result (λ copy. option_map (λ name. name.items) copy ≡ option_map (λ name. name.now) name.entry) }
{
    match name {
        Some(name) => Ok(Some(name.to_vec(alloc)?)),
        None => Ok(None),
    }
}

impl Counting {
    fn new(alloc: Global, key: NameKey) -> Counting
        ensures sound { IsCounting result }
        ensures lines { counted_in result ≡ [] }
        ensures findings { result.findings.items ≡ [] }
    {
        Counting {
            table: NameTable::new(alloc, key),
            lines: Vec::new(alloc),
            origins: Vec::new(alloc),
            findings: Vec::new(alloc),
        }
    }

    /// The line as which a text counts, if it can be parsed and defines no name again.
    fn counts_as(
        &self,
        alloc: Global,
        number: u32,
        text: &[u8],
    ) -> Result<Option<SourceLine>, AllocError>
        requires { IsCounting self.now }
        ensures line { IfOk result (λ line. option_map taken_of line ≡ counts_as (lines_of self.now.lines.items) number text.now) }
        ensures number { IfOk result (λ line. IfSome line (λ l. l.number ≡ number)) }
    {
        match read_line(alloc, text)? {
            Ok(line) if !clashes(&self.table, &line) => Ok(Some(SourceLine { number, line })),
            _ => Ok(None),
        }
    }

    /// The line as which a line with an error counts.
    fn instead(
        &self,
        alloc: Global,
        number: u32,
        text: &[u8],
    ) -> Result<Option<SourceLine>, AllocError>
        requires { IsCounting self.now }
        ensures number { IfOk result (λ line. IfSome line (λ l. l.number ≡ number)) }
        ensures line { IfOk result (λ line. option_map taken_of line ≡ first (counts_as (lines_of self.now.lines.items) number (meant_as text.now) ∷ counts_as (lines_of self.now.lines.items) number (after_colon text.now) ∷ [])) }
    {
        let meant = meant_as(alloc, text)?;
        let found = self.counts_as(alloc, number, &meant)?;
        if found.is_some() {
            return Ok(found);
        }
        self.counts_as(alloc, number, after_colon(text))
    }

    /// Appends a line that counts, and the names that it defines.
    fn append(&mut self, line: SourceLine, text: Vec<u8>, is_read: bool) -> Result<(), AllocError>
        requires { IsCounting self.old }
        ensures { OnOk result (Appends (record { number = line.number; text = text.items }) is_read (Some (taken_of line)) self.old self.new) }
    {
        asm_names::laws::one_more();
        // No name of the line clashes, so the only error is that memory ran out.
        match self.table.define(self.lines.len(), &line.line) {
            Ok(()) => (),
            Err(_) => return Err(AllocError),
        }
        self.lines.push(line)?;
        self.origins.push(Origin { text, is_read })?;
        Ok(())
    }

    /// Appends a line that counts, if there is one.
    fn push(
        &mut self,
        line: Option<SourceLine>,
        text: Vec<u8>,
        is_read: bool,
    ) -> Result<(), AllocError>
        requires { IsCounting self.old }
        ensures { OnOk result ((number : ℕ) → IfSome line (λ l. l.number ≡ number) → Appends (record { number = number; text = text.items }) is_read (option_map taken_of line) self.old self.new) }
    {
        match line {
            Some(line) => self.append(line, text, is_read),
            None => Ok(()),
        }
    }

    /// Keeps an error of a line.
    fn report(
        &mut self,
        alloc: Global,
        line: &ExpandedLine,
        why: Why,
        name: Option<Vec<u8>>,
    ) -> Result<(), AllocError>
        ensures rest { (self.new.table ≡ self.old.table) × (self.new.lines ≡ self.old.lines) × (self.new.origins ≡ self.old.origins) }
        ensures findings { OnOk result (map finding_of self.new.findings.items ≡ map finding_of self.old.findings.items
            ++ record { line = numbered_of line.now; why = why; name = name_told why (option_map (λ name. name.items) name) } ∷ []) }
    {
        let text = line.text.to_vec(alloc)?;
        self.findings.push(Finding {
            number: line.number,
            text,
            why,
            name,
        })?;
        Ok(())
    }

    /// Takes a line with an error.
    fn refuse(
        &mut self,
        alloc: Global,
        line: ExpandedLine,
        why: Why,
        name: Option<Vec<u8>>,
        is_read: bool,
    ) -> Result<(), AllocError>
        requires { IsCounting self.old }
        ensures { OnOk result (Refuses (numbered_of line) why (name_told why (option_map (λ name. name.items) name)) is_read self.old self.new) }
    {
        self.report(alloc, &line, why, name)?;
        let instead = self.instead(alloc, line.number, &line.text)?;
        self.push(instead, line.text, is_read)
    }

    /// Takes a line that can be parsed.
    fn take_parsed(
        &mut self,
        alloc: Global,
        line: ExpandedLine,
        parsed: Line,
    ) -> Result<(), AllocError>
        requires sound { IsCounting self.old }
        requires read { read_line line.text.items ≡ Ok (line_of parsed) }
        ensures { OnOk result (Takes (numbered_of line) self.old self.new) }
    {
        if clashes(&self.table, &parsed) {
            let name = copied(alloc, repeated(&self.table, &parsed))?;
            return self.refuse(alloc, line, Why::Duplicate, name, true);
        }
        let number = line.number;
        let parsed = SourceLine {
            number,
            line: parsed,
        };
        self.append(parsed, line.text, true)
    }

    /// Takes a line that cannot be parsed.
    fn take_unread(
        &mut self,
        alloc: Global,
        line: ExpandedLine,
        why: LineFault,
    ) -> Result<(), AllocError>
        requires sound { IsCounting self.old }
        requires read { read_line line.text.items ≡ Err why }
        ensures { OnOk result (Takes (numbered_of line) self.old self.new) }
    {
        self.refuse(alloc, line, Why::from(why), None, false)
    }

    /// Takes the next line.
    fn take(&mut self, alloc: Global, line: ExpandedLine) -> Result<(), AllocError>
        requires { IsCounting self.old }
        ensures { OnOk result (Takes (numbered_of line) self.old self.new) }
    {
        match read_line(alloc, &line.text)? {
            Ok(parsed) => self.take_parsed(alloc, line, parsed),
            Err(why) => self.take_unread(alloc, line, why),
        }
    }
}

/// Takes all lines of an expansion.
pub(crate) fn count_lines(
    alloc: Global,
    key: NameKey,
    expanded: Expanded,
) -> Result<Counting, AllocError>
    ensures sound { IfOk result IsCounting }
    ensures lines { IfOk result (λ c. counted_in c ≡ counted_after [] (lines_seen expanded.lines.items)) }
    ensures findings { IfOk result (λ c. map finding_of c.findings.items ≡ early_after [] (lines_seen expanded.lines.items)) }
{
    let mut counting = Counting::new(alloc, key);
    for line in expanded.lines {
        counting.take(alloc, line)?;
    }
    Ok(counting)
}
