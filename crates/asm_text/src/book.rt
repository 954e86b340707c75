//! A `Book` keeps where the blocks in some lines end, so that these lines are looked through only once.

ghost use Rattle.std.specs.Prelude.{◌≡◌, ◌≤◌, ◌-◌, ◌<◌, ℕ, IfOk, List, OnOk, Option, Some, length, true};
ghost use Rattle.std.specs.Option.{option_map};
ghost use Rattle.common.specs.declared.limits.TheConstants.{LONGEST_TEXT};
ghost use Rattle.asm_text.specs.Nesting.Blocks.{between};
ghost use Rattle.asm_line.specs.Replacing.Replaced.{ReplacementTable};
ghost use Rattle.asm_text.specs.Kept.{IsCall};
ghost use Rattle.asm_text.specs.Prepared.{said};
ghost use Rattle.asm_text.specs.Roles.{roles};
ghost use Rattle.asm_text.specs.Spans.{text_of};
ghost use Rattle.asm_text.specs.Stands.{Stand};
ghost use Rattle.asm_text.specs.Sections.Books.{IsBook};

use crate::call::Call;
use crate::lines::Lines;
use crate::links::{Links, links_of};
use crate::matching::Role;
use crate::reading::role_shown;
use crate::span::Span;
use crate::varying::all_stand;
use std::alloc::{AllocError, Global};

/// Where the blocks end in some consecutive lines of a source, as a call shows them or as written.
#[derive(Debug, Drop)]
pub struct Book {
    /// The index of the first of these lines in the source.
    pub at: usize,
    pub links: Links,
    /// Each line from `from` to the one before `to` has the role in the call that it has as written.
    pub from: usize,
    pub to: usize,
}

/// Finds the role of each line of a span, as the call shows it.
fn roles_of(
    alloc: Global,
    lines: &Lines<'_>,
    call: Option<&Call>,
    span: Span,
) -> Result<Vec<Role>, AllocError>
    ensures { IfOk result (λ found. found.items ≡ roles (text_of lines.now (option_map (λ c. said c.now) call.entry) span)) }
{
    let mut found = Vec::new(alloc);
    let mut buffer = Vec::new(alloc);
    let mut at = span.at;
    while at < span.end && at < lines.len() {
        found.push(role_shown(alloc, call, lines.line(at), &mut buffer)?)?;
        at += 1;
    }
    Ok(found)
}

impl Book {
    /// A book of no lines. It takes no memory.
    pub fn new(alloc: Global) -> Book
        ensures { (texts : List (List ℕ)) (names : Option ReplacementTable) → IsBook texts names result }
    {
        Book {
            at: 0,
            links: Links::none(alloc),
            from: 0,
            to: 0,
        }
    }

    /// Whether the lines of a span are among those of this book.
    fn has(&self, span: Span) -> bool
        ensures { result ≡ true → (self.now.at ≤ span.at) × (span.end - self.now.at ≤ length self.now.links) }
    {
        self.at <= span.at && span.end.saturating_sub(self.at) <= self.links.len()
    }

    /// Answers true if each line of a span has the role in the call that it has as written, and keeps that answer, so that the same
    /// lines are not read again. If this book has the lines already, answers false without reading them, since the source's book is
    /// not needed then.
    pub(crate) fn is_plain(
        &mut self,
        alloc: Global,
        lines: &Lines<'_>,
        call: &Call,
        span: Span,
    ) -> Result<bool, AllocError>
        requires call { IsCall lines.now call.now }
        requires book { IsBook lines.now (Some (said call.now)) self.old }
        ensures book { IsBook lines.now (Some (said call.now)) self.new }
        ensures plain { IfOk result (λ plain. plain ≡ true → Stand lines.now (Some (said call.now)) span.at span.end) }
    {
        if self.has(span) {
            return Ok(false);
        }
        if self.from <= span.at && span.end <= self.to {
            return Ok(true);
        }
        if !all_stand(alloc, lines, call, span)? {
            return Ok(false);
        }
        self.from = span.at;
        self.to = span.end;
        Ok(true)
    }

    /// Makes this the book of a span's lines, unless they are in it already.
    pub(crate) fn open(
        &mut self,
        alloc: Global,
        lines: &Lines<'_>,
        call: Option<&Call>,
        span: Span,
    ) -> Result<(), AllocError>
        requires few { length lines.now ≤ LONGEST_TEXT }
        requires book { IsBook lines.now (option_map (λ c. said c.now) call) self.old }
        ensures book { IsBook lines.now (option_map (λ c. said c.now) call.entry) self.new }
        ensures has { OnOk result (between (span.at - self.new.at) (span.end - self.new.at) self.new.links
            ≡ roles (text_of lines.now (option_map (λ c. said c.now) call.entry) span)) }
    {
        if self.has(span) {
            return Ok(());
        }
        let roles = roles_of(alloc, lines, call, span)?;
        let links = links_of(alloc, roles)?;
        self.at = span.at;
        self.links = links;
        Ok(())
    }
}
