//! Finds lines of sources by the names that they define or declare.

use asm_module::{SourceLine, SourceText, read_source};
use asm_spell::{Body, Line, StmtFault, statement};
use common::NameKey;
use indexmap::IndexMap;
use report_texts::Where;
use std::alloc::{AllocError, Global};
use written_lines::{Site, Sources, Trace, Traces, tokens_of, traced};

/// Numbers of lines by names in upper case.
type Lines = IndexMap<Vec<u8>, u32, NameKey>;

/// The first lines of a source that have or declare each name.
#[derive(Drop)]
pub(crate) struct NameLines {
    labels: Lines,
    externals: Lines,
    /// The lines of the expansion that declare externals, counted from 0.
    declaring: Lines,
    /// The expansion, and where its lines are written; None if that is not known, or the source declares no externals.
    trace: Option<Trace>,
}

/// Keeps the line of a name, unless an earlier one has it.
fn keep(lines: &mut Lines, name: &[u8], number: u32, alloc: Global) -> Result<(), AllocError> {
    if lines.get(name).is_none() {
        lines.insert(name.to_vec(alloc)?, number)?;
    }
    Ok(())
}

/// Keeps a line of an expansion for each name that a statement declares as an external.
fn keep_names(
    lines: &mut Lines,
    alloc: Global,
    number: u32,
    line: &Line,
) -> Result<(), AllocError> {
    let Line::Statement {
        body: Some(Body::External(names)),
        ..
    } = line
    else {
        return Ok(());
    };
    for name in names {
        keep(lines, name, number, alloc)?;
    }
    Ok(())
}

/// Keeps a line of an expansion for each name that it declares as an external, if it is an EXTRN.
fn keep_declared(
    lines: &mut Lines,
    alloc: Global,
    number: u32,
    line: &[u8],
) -> Result<(), AllocError> {
    let found = tokens_of(alloc, line)?;
    match statement(alloc, &found) {
        Ok(line) => keep_names(lines, alloc, number, &line),
        Err(StmtFault::NoMemory) => Err(AllocError),
        Err(_) => Ok(()),
    }
}

/// Answers the lines of the expansion of a source that has no error.
fn read(alloc: Global, text: &[u8]) -> Result<Vec<SourceLine>, AllocError> {
    match read_source(alloc, text) {
        Ok(SourceText { lines, .. }) => Ok(lines),
        Err(_) => Err(AllocError),
    }
}

impl NameLines {
    /// Keeps the names of a line.
    fn add(&mut self, alloc: Global, line: &SourceLine) -> Result<(), AllocError> {
        let Line::Statement { label, body } = &line.line else {
            return Ok(());
        };
        if let Some(label) = label {
            keep(&mut self.labels, label, line.number, alloc)?;
        }
        if let Some(Body::External(names)) = body {
            for name in names {
                keep(&mut self.externals, name, line.number, alloc)?;
            }
        }
        Ok(())
    }

    /// Keeps the lines of an expansion that declare externals.
    fn add_declaring(&mut self, alloc: Global, trace: &Trace) -> Result<(), AllocError> {
        for (at, line) in trace.lines.iter().enumerate() {
            let at = u32::try_from(at).unwrap_or(u32::MAX);
            keep_declared(&mut self.declaring, alloc, at, &line.text)?;
        }
        Ok(())
    }

    /// Finds where the lines are written that declare externals.
    fn trace_externals(&mut self, alloc: Global, text: &[u8]) -> Result<(), AllocError> {
        let Traces { stop: _, whole } = traced(alloc, text)?;
        if let Some(trace) = &whole {
            self.add_declaring(alloc, trace)?;
        }
        self.trace = whole;
        Ok(())
    }

    /// Finds the lines of all names of a source that has no error.
    pub(crate) fn of(alloc: Global, text: &[u8]) -> Result<NameLines, AllocError> {
        let key = NameKey::of(text);
        let mut names = NameLines {
            labels: IndexMap::with_hasher(alloc, key),
            externals: IndexMap::with_hasher(alloc, key),
            declaring: IndexMap::with_hasher(alloc, key),
            trace: None,
        };
        for line in &read(alloc, text)? {
            names.add(alloc, line)?;
        }
        if !names.externals.is_empty() {
            names.trace_externals(alloc, text)?;
        }
        Ok(names)
    }

    /// The line that has this label; 1 if there is none.
    pub(crate) fn label(&self, name: &[u8]) -> u32 {
        self.labels.get(name).copied().unwrap_or(1)
    }

    /// The EXTRN that declares this name; 1 if there is none.
    fn external(&self, name: &[u8]) -> u32 {
        self.externals.get(name).copied().unwrap_or(1)
    }

    /// Where the EXTRN that declares a name is written, which in a macro is a line of its body; None if that is not known.
    fn written(&self, name: &[u8]) -> Option<Site<'_>> {
        let at = *self.declaring.get(name)?;
        Site::traced(self.trace.as_ref()?, at as usize, self.external(name))
    }

    /// The line of this source with the EXTRN that declares a name.
    pub(crate) fn site<'e>(
        &'e self,
        sources: &Sources<'e, '_>,
        source: usize,
        name: &[u8],
    ) -> Site<'e> {
        let line = self.external(name);
        match self.written(name) {
            Some(site) => site,
            None => Site::plain(line, sources.line(source, line)),
        }
    }
}

/// A directive that is looked for.
#[derive(Clone, Copy)]
pub(crate) enum Sought {
    Origin,
    End,
}

impl Sought {
    /// The word that is marked in the line.
    fn word(self) -> &'static [u8] {
        match self {
            Sought::Origin => b"ORG",
            Sought::End => b"END",
        }
    }

    /// Whether a line is the one that is looked for.
    fn is_in(self, line: &Line) -> bool {
        let Line::Statement {
            body: Some(body),
            ..
        } = line
        else {
            return false;
        };
        match (self, body) {
            (Sought::Origin, Body::Origin(_)) | (Sought::End, Body::End(_)) => true,
            _ => false,
        }
    }
}

/// Answers the number of the first line that is looked for; 1 if there is none.
fn number_of(lines: &[SourceLine], sought: Sought) -> u32 {
    for line in lines {
        if sought.is_in(&line.line) {
            return line.number;
        }
    }
    1
}

/// Answers where in a source the directive is that is looked for.
pub(crate) fn find(
    alloc: Global,
    sources: &Sources<'_, '_>,
    source: usize,
    sought: Sought,
) -> Result<Where, AllocError> {
    let line = number_of(&read(alloc, sources.text(source))?, sought);
    sources.named(alloc, source, line, sought.word())
}
