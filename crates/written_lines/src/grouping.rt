//! Finds errors that occur several times in one line of a macro or of a REPT.
//!
//! A REPT of a wrong line has the same error in each repetition, and a wrong line of a macro has it in each call. Such an error is reported
//! once, and the report says how often it occurs.

use crate::written::Trace;
use asm_macro::ExpandedLine;
use common::NameKey;
use indexmap::IndexMap;
use report_texts::why_name;
use source_errors::Finding;
use std::alloc::{AllocError, Global};

/// The most lines of further calls that a report names.
pub const MOST_OTHERS: usize = 4;

/// A further time that an error occurs.
#[derive(Clone, Copy, Drop)]
pub struct Again {
    /// The number of its finding.
    pub finding: usize,
    /// Which line of the expansion that is in, if it is not in a line as it is written.
    pub traced: Option<usize>,
}

/// An error as it is reported, once for all the times that it occurs.
#[derive(Drop)]
pub struct Group {
    /// The number of its first finding.
    pub finding: usize,
    /// The line by which building reports that.
    pub(crate) reported: u32,
    /// Which line of the expansion that is in, if it is not in a line as it is written.
    pub traced: Option<usize>,
    /// How often the error occurs.
    pub count: usize,
    /// The lines of the source in whose calls it occurs too.
    pub others: Vec<u32>,
    /// The times that its line is assembled otherwise than the first time, with other arguments: what is said of these may differ.
    pub differing: Vec<Again>,
}

/// Numbers by texts.
type Numbers = IndexMap<Vec<u8>, usize, NameKey>;

/// Answers one text for a number and two texts; no other ones have the same, if the first text has no byte 0.
fn key_of(alloc: Global, number: u32, first: &[u8], second: &[u8]) -> Result<Vec<u8>, AllocError> {
    let mut key = Vec::with_capacity(alloc, 8)?;
    let [a, b, c, d] = number.to_le_bytes();
    key.push(a)?;
    key.push(b)?;
    key.push(c)?;
    key.push(d)?;
    key.extend_from_slice(first)?;
    key.push(0)?;
    key.extend_from_slice(second)?;
    Ok(key)
}

/// What an error is called: its name, and the name that it is about. A name of LOCAL is another one in each call, and the same in the body.
fn called(alloc: Global, finding: &Finding, trace: Option<&Trace>) -> Result<Vec<u8>, AllocError> {
    let mut called = why_name(finding.why).as_bytes().to_vec(alloc)?;
    if let Some(name) = &finding.name {
        called.push(b' ')?;
        match trace {
            Some(trace) => called.extend_from_slice(&trace.names.renamed(alloc, name)?)?,
            None => called.extend_from_slice(name)?,
        }
    }
    Ok(called)
}

/// The lines of an expansion, by which equal ones with one number can be found one after the other.
#[derive(Drop)]
struct Equals {
    /// The first line of the expansion with this number and text.
    first: Numbers,
    /// For each line the next one that is equal; the line itself if there is none.
    next: Vec<usize>,
}

/// Finds equal lines of an expansion.
fn equals_of(alloc: Global, key: NameKey, lines: &[ExpandedLine]) -> Result<Equals, AllocError> {
    let mut first = IndexMap::with_hasher(alloc, key);
    let mut last: Numbers = IndexMap::with_hasher(alloc, key);
    let mut next = Vec::with_capacity(alloc, lines.len())?;
    for (at, line) in lines.iter().enumerate() {
        let own = key_of(alloc, line.number, &[], &line.text)?;
        next.push(at)?;
        match last.get(own.as_slice()).copied() {
            Some(before) => {
                if let Some(place) = next.get_mut(before) {
                    *place = at;
                }
            }
            None => {
                first.insert(own.clone()?, at)?;
            }
        }
        last.insert(own, at)?;
    }
    Ok(Equals { first, next })
}

/// The groups so far.
#[derive(Drop)]
struct Grouping<'t> {
    trace: Option<&'t Trace>,
    equals: Equals,
    /// By number, name and text of the errors so far, the line of the expansion in which each occurs that came last.
    reached: Numbers,
    /// By line and name, the number of the group.
    numbers: Numbers,
    groups: Vec<Group>,
}

impl<'t> Grouping<'t> {
    /// The line of the expansion in which an error occurs, if no line has it as it is written.
    fn occurs_in(
        &mut self,
        alloc: Global,
        finding: &Finding,
        called: &[u8],
    ) -> Result<Option<usize>, AllocError> {
        let own = key_of(alloc, finding.number, called, &finding.text)?;
        let at = match self.reached.get(own.as_slice()).copied() {
            Some(before) => self.equals.next.get(before).copied(),
            None => {
                let line = key_of(alloc, finding.number, &[], &finding.text)?;
                self.equals.first.get(line.as_slice()).copied()
            }
        };
        if let Some(at) = at {
            self.reached.insert(own, at)?;
        }
        Ok(at)
    }

    /// The key of a group: the line in which the error is written and its name; if that line is not known, the line by which building
    /// reports it, its name and its text.
    fn group_key(
        &self,
        alloc: Global,
        finding: &Finding,
        traced: Option<usize>,
        is_written: bool,
        called: &[u8],
    ) -> Result<Vec<u8>, AllocError> {
        let written = match (self.trace, traced) {
            (Some(trace), Some(at)) => trace.written.get(at),
            _ => None,
        };
        match written {
            Some(written) => key_of(alloc, written.line, called, &[]),
            None if is_written => key_of(alloc, finding.number, called, &[]),
            None => key_of(alloc, finding.number, called, &finding.text),
        }
    }

    /// Adds an error, which has this number among all.
    fn add(
        &mut self,
        alloc: Global,
        findings: &[Finding],
        number: usize,
        is_written: bool,
    ) -> Result<(), AllocError> {
        let Some(finding) = findings.get(number) else {
            return Ok(());
        };
        let called = called(alloc, finding, self.trace)?;
        let traced = if is_written {
            None
        } else {
            self.occurs_in(alloc, finding, &called)?
        };
        let own = self.group_key(alloc, finding, traced, is_written, &called)?;
        if let Some(group) = self.numbers.get(own.as_slice()).copied() {
            let again = Again {
                finding: number,
                traced,
            };
            return self.add_again(group, findings, again);
        }
        self.numbers.insert(own, self.groups.len())?;
        self.groups.push(Group {
            finding: number,
            reported: finding.number,
            traced,
            count: 1,
            others: Vec::new(alloc),
            differing: Vec::new(alloc),
        })?;
        Ok(())
    }

    /// Counts an error once more.
    fn add_again(
        &mut self,
        group: usize,
        findings: &[Finding],
        again: Again,
    ) -> Result<(), AllocError> {
        let Some(group) = self.groups.get_mut(group) else {
            return Ok(());
        };
        let (Some(first), Some(found)) = (findings.get(group.finding), findings.get(again.finding))
        else {
            return Ok(());
        };
        if found.text != first.text {
            group.differing.push(again)?;
        }
        let line = found.number;
        group.count = group.count.saturating_add(1);
        let last = group.others.last().copied().unwrap_or(group.reported);
        if line != last && group.others.len() <= MOST_OTHERS {
            group.others.push(line)?;
        }
        Ok(())
    }
}

/// Answers errors as they are reported, in the order of the lines by which building reports them. `is_written` says of each whether its line
/// is assembled as it is written.
///
/// # Errors
///
/// [`AllocError`] if memory ran out.
pub fn grouped(
    alloc: Global,
    key: NameKey,
    findings: &[Finding],
    is_written: &[bool],
    trace: Option<&Trace>,
) -> Result<Vec<Group>, AllocError> {
    let lines: &[ExpandedLine] = match trace {
        Some(trace) => &trace.lines,
        None => &[],
    };
    let mut grouping = Grouping {
        trace,
        equals: equals_of(alloc, key, lines)?,
        reached: IndexMap::with_hasher(alloc, key),
        numbers: IndexMap::with_hasher(alloc, key),
        groups: Vec::new(alloc),
    };
    for number in 0..findings.len() {
        let is_written = is_written.get(number).copied().unwrap_or(true);
        grouping.add(alloc, findings, number, is_written)?;
    }
    let mut groups = grouping.groups;
    groups.sort_by_key(|group| group.reported)?;
    Ok(groups)
}
