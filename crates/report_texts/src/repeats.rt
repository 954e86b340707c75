//! Leaves out errors that are found in each source, since they are written in the lines before it.

ghost use Rattle.std.specs.Prelude.{◌≡◌, ◌||◌, [], IfOk, Some, map, not, option_map};
ghost use Rattle.std.specs.List.{list_any};
ghost use Rattle.report_texts.specs.Private.Kept.{error_of};
ghost use Rattle.report_texts.specs.Repeats.{FrontError, HasNoRepeats, are_same, front_error, is_same, without_repeats};

use crate::report::{Report, Where};
use common::NameKey;
use indexmap::IndexSet;
use std::alloc::{AllocError, Global};
use std::marker::Model;

/// What tells an error of the front from others.
#[derive(PartialEq, Eq, Hash, Drop)]
struct Kept {
    /// The line in which it is written.
    line: u32,
    /// Its name.
    name: String,
    /// What is said of it, in upper case, since a name may be written either way.
    text: String,
}

/// Answers this of a report, if it is written in one of the first `before` lines.
fn kept_of(alloc: Global, before: usize, report: &Report) -> Result<Option<Kept>, AllocError>
    ensures { IfOk result (λ kept. option_map error_of kept ≡ front_error before report.now) }
{
    match &report.at {
        Some(at) if 0 < at.written && at.written as usize <= before => Ok(Some(Kept {
            line: at.written,
            name: String::from_str(alloc, &report.name)?,
            text: report.text.to_ascii_uppercase(alloc)?,
        })),
        _ => Ok(None),
    }
}

/// The errors so far that are written in the front.
#[derive(Drop)]
pub struct Seen {
    errors: IndexSet<Kept, NameKey>,
}

impl Model for Seen {
    ghost use Rattle.std.specs.Prelude.{List, map};
    ghost use Rattle.report_texts.specs.Private.Kept.{error_of};
    ghost use Rattle.report_texts.specs.Repeats.{FrontError};

    ghost Value = { List FrontError };

    ghost view = { λ seen. map error_of seen.errors.keys };
}

impl Seen {
    /// No errors. The key is one for a table of names.
    pub fn new(alloc: Global, key: NameKey) -> Seen
        ensures { result ≡ [] }
    {
        Seen {
            errors: IndexSet::with_hasher(alloc, key),
        }
    }

    /// Adds an error. Answers whether it was not there before.
    fn add(&mut self, error: Kept) -> Result<bool, AllocError>
        ensures new { IfOk result (λ is_new. is_new ≡ not (list_any (is_same (error_of error)) self.old)) }
        ensures added { IfOk result (λ is_new. (other : FrontError) → list_any (is_same other) self.new ≡ (list_any (is_same other) self.old || is_same other (error_of error))) }
    {
        Ok(self.errors.insert(error)?)
    }

    /// Adds an error, if it is written in one of the first `before` lines. Answers whether it is not the same as one that was added before.
    ///
    /// # Errors
    ///
    /// [`AllocError`] if memory ran out.
    pub fn is_new(
        &mut self,
        alloc: Global,
        before: usize,
        report: &Report,
    ) -> Result<bool, AllocError>
        ensures new { IfOk result (λ is_new. is_new ≡ not (list_any (λ e. are_same (front_error before report.now) (Some e)) self.old)) }
        ensures added { IfOk result (λ is_new. (other : FrontError) → list_any (is_same other) self.new ≡ (list_any (is_same other) self.old || are_same (Some other) (front_error before report.now))) }
    {
        match kept_of(alloc, before, report)? {
            Some(error) => self.add(error),
            None => Ok(true),
        }
    }
}

/// Answers reports without those that repeat an earlier one: an error that is written in one of the first `before` lines, which are before
/// each source, is reported once. The key is one for a table of names.
///
/// # Errors
///
/// [`AllocError`] if memory ran out.
pub fn without_repeats(
    alloc: Global,
    key: NameKey,
    before: usize,
    reports: Vec<Report>,
) -> Result<Vec<Report>, AllocError>
    ensures once { IfOk result (λ left. left.items ≡ without_repeats before [] reports.items) }
    ensures distinct { IfOk result (λ left. HasNoRepeats before left.items) }
{
    let mut seen = Seen::new(alloc, key);
    let mut left = Vec::new(alloc);
    for report in reports {
        if seen.is_new(alloc, before, &report)? {
            left.push(report)?;
        }
    }
    Ok(left)
}
