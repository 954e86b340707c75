//! Finds the names of all lines of a source.

ghost use Rattle.std.specs.Prelude.{◌≡◌, List};
ghost use Rattle.asm_spell.specs.Line.{body_of, line_of};
ghost use Rattle.asm_names.specs.Faults.{IsNamed};
ghost use Rattle.asm_names.specs.Lines.{Taken, has_statement, is_statement, lines_of, taken_of};
ghost use Rattle.asm_names.specs.Private.Steps.{Counts, Goes, IsBehind};

use crate::fault::NameFault;
use crate::kind::SourceLine;
use crate::table::NameTable;
use asm_spell::{Body, Line};
use common::{KeyMixer, MOST_NAMES, MOST_STATEMENTS, NameKey};
use std::alloc::Global;

/// Whether a word makes a statement, as far as its own line tells. `DS 0` is one too.
fn is_statement(body: &Body) -> bool
    ensures { result ≡ is_statement (body_of body.now) }
{
    !matches!(
        body,
        Body::Public(_) | Body::External(_) | Body::Origin(_) | Body::End(_) | Body::Z80
    )
}

/// Whether a line has a statement.
fn has_statement(line: &Line) -> bool
    ensures { result ≡ has_statement (line_of line.now) }
{
    match line {
        Line::Statement {
            body: Some(body),
            ..
        } => is_statement(body),
        _ => false,
    }
}

/// The names that the lines so far define, and how many statements these lines have.
#[derive(Drop)]
pub(crate) struct Naming {
    table: NameTable,
    statements: usize,
}

impl Naming {
    /// Counts the statement of a line, if it has one. Refuses it if there are already as many as a module may have.
    fn count(&mut self, line: &Line) -> Result<(), NameFault>
        ensures { Counts self.old (line_of line.now) result self.new }
    {
        if has_statement(line) {
            if self.statements >= MOST_STATEMENTS {
                return Err(NameFault::TooManyStatements);
            }
            self.statements += 1;
        }
        Ok(())
    }

    /// Adds the names of line `at` and counts its statement, or answers its first error.
    fn take(&mut self, at: usize, line: &SourceLine) -> Result<(), NameFault>
        ensures { (before : List Taken) → IsBehind before at self.old → Goes before (taken_of line.now) result self.new }
    {
        self.table.define(at, &line.line)?;
        self.count(&line.line)?;
        if self.table.len() > MOST_NAMES {
            return Err(NameFault::TooManyNames);
        }
        Ok(())
    }
}

/// Mixes the names that a line defines into a key.
fn mix(mixer: &mut KeyMixer, line: &Line) {
    match line {
        Line::Equ { name, .. } => mixer.mix(name),
        Line::Statement { label, body } => {
            if let Some(name) = label {
                mixer.mix(name);
            }
            if let Some(Body::External(names)) = body {
                for name in names {
                    mixer.mix(name);
                }
            }
        }
    }
}

/// The key for a table of the names that these lines define.
fn key_of(lines: &[SourceLine]) -> NameKey {
    let mut mixer = KeyMixer::new();
    for line in lines {
        mix(&mut mixer, &line.line);
    }
    mixer.key()
}

/// Finds the names that the lines of a source define, and what each is.
///
/// # Errors
///
/// The number of the first line that has an error given the lines before it, and the first error of that line.
pub fn names_of(alloc: Global, lines: &[SourceLine]) -> Result<NameTable, (u32, NameFault)>
    ensures { IsNamed (lines_of lines.now) result }
{
    let mut naming = Naming {
        table: NameTable::new(alloc, key_of(lines)),
        statements: 0,
    };
    for (at, line) in lines.iter().enumerate() {
        if let Err(why) = naming.take(at, line) {
            return Err((line.number, why));
        }
    }
    Ok(naming.table)
}
