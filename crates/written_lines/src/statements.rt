//! Finds the lines in which the statements of a program are written, for messages about its jumps.

ghost use Rattle.std.specs.Prelude.{◌≡◌, IfSome};

use crate::cutting::tokens_of;
use crate::placing::Site;
use crate::sources::Sources;
use crate::written::{Trace, Traces, traced};
use asm_spell::{Body, Line, StmtFault, statement};
use std::alloc::{AllocError, Global};

/// The lines of the expansion of a source, and which of them its statements are.
#[derive(Drop)]
struct Statements {
    trace: Trace,
    /// For each statement the number of its line in the expansion.
    lines: Vec<usize>,
}

/// The lines of the statements of all sources.
#[derive(Drop)]
pub struct Expansions {
    each: Vec<Option<Statements>>,
}

/// Whether a line has a statement that takes room in the program, or may.
fn takes_room(line: &Line) -> bool {
    let Line::Statement {
        body: Some(body),
        ..
    } = line
    else {
        return false;
    };
    !matches!(
        body,
        Body::Public(_) | Body::External(_) | Body::Origin(_) | Body::End(_) | Body::Z80
    )
}

/// Whether the text of a line is such a statement.
fn is_statement(alloc: Global, text: &[u8]) -> Result<bool, AllocError> {
    let found = tokens_of(alloc, text)?;
    match statement(alloc, &found) {
        Ok(line) => Ok(takes_room(&line)),
        Err(StmtFault::NoMemory) => Err(AllocError),
        Err(_) => Ok(false),
    }
}

/// Finds the statements of a source; None if it is not known where its lines are written.
fn statements_of(alloc: Global, text: &[u8]) -> Result<Option<Statements>, AllocError> {
    let Traces { stop: _, whole } = traced(alloc, text)?;
    let Some(trace) = whole else {
        return Ok(None);
    };
    let mut lines = Vec::new(alloc);
    for (at, line) in trace.lines.iter().enumerate() {
        if is_statement(alloc, &line.text)? {
            lines.push(at)?;
        }
    }
    Ok(Some(Statements { trace, lines }))
}

impl Statements {
    /// Where a statement is written, if building reports it by this line.
    fn site(&self, statement: usize, reported: u32) -> Option<Site<'_>>
        ensures { IfSome result (λ site. site.reported ≡ reported) }
    {
        let at = *self.lines.get(statement)?;
        Site::traced(&self.trace, at, reported)
    }
}

impl Expansions {
    /// Finds the lines of the statements of all sources.
    ///
    /// # Errors
    ///
    /// [`AllocError`] if memory ran out.
    pub fn of(alloc: Global, sources: &Sources<'_, '_>) -> Result<Expansions, AllocError> {
        let mut each = Vec::with_capacity(alloc, sources.files.len())?;
        for number in 0..sources.files.len() {
            each.push(statements_of(alloc, sources.text(number))?)?;
        }
        Ok(Expansions { each })
    }

    /// Where a statement of a source is written that building reports by this line; that line, if nothing else is known.
    pub fn site<'e>(
        &'e self,
        sources: &Sources<'e, '_>,
        source: usize,
        statement: usize,
        reported: u32,
    ) -> Site<'e>
        ensures { result.reported ≡ reported }
    {
        let found = match self.each.get(source) {
            Some(Some(statements)) => statements.site(statement, reported),
            _ => None,
        };
        match found {
            Some(site) => site,
            None => Site::plain(reported, sources.line(source, reported)),
        }
    }
}
