//! Finds the lines in which the lines of an expansion are written.
//!
//! The expander tells of each line only the outermost call. So the source is expanded once more, with comments that say where each line is
//! from, as `marking` adds them. The lines without these comments have to be those of the first expansion; if they are not, nothing is
//! answered. If the expansion stops, the line at which it stops counts as the last one.

use crate::body_names::BodyNames;
use crate::marking::{Mark, local_in, marked, without_mark};
use asm_macro::{ExpandedLine, Expander, MOST_LINES, MacroFault, source_part};
use asm_text::Lines;
use common::NameKey;
use source_errors::mended_text;
use std::alloc::{AllocError, Global};

/// Where a line of an expansion is written.
#[derive(Drop)]
pub(crate) struct Written {
    /// The number of its line in the source. In a macro it is a line of the body.
    pub(crate) line: u32,
    /// The lines of the calls and REPTs that lead to it, the outermost first.
    pub(crate) calls: Vec<u32>,
}

/// The lines of an expansion, and where each is written.
#[derive(Drop)]
pub struct Trace {
    pub lines: Vec<ExpandedLine>,
    pub(crate) written: Vec<Written>,
    /// Whether the expansion stops, at the last of the lines.
    pub(crate) stops: bool,
    /// The names of the LOCAL lines.
    pub(crate) names: BodyNames,
}

/// What is known of where the lines of a source are written.
#[derive(Drop)]
pub struct Traces {
    /// The lines up to the one at which the expansion stops, if it stops.
    pub stop: Option<Trace>,
    /// All lines; if the expansion stops, those of the source in which lines that cannot be cut into tokens are mended.
    pub whole: Option<Trace>,
}

impl Traces {
    /// Nothing is known.
    pub fn none() -> Traces {
        Traces {
            stop: None,
            whole: None,
        }
    }
}

/// The lines of an expansion. If it stops, the last one is the line at which it stops.
#[derive(Drop)]
struct Reached {
    lines: Vec<ExpandedLine>,
    stops: bool,
}

/// Goes on to the next line of an expansion and appends it. Answers None after the last one, and otherwise whether the expansion stops there.
fn put_next(
    alloc: Global,
    expander: &mut Expander<'_>,
    lines: &mut Vec<ExpandedLine>,
) -> Result<Option<bool>, AllocError> {
    let stop = match expander.advance() {
        Ok(true) => None,
        Ok(false) => return Ok(None),
        Err((_, MacroFault::NoMemory)) => return Err(AllocError),
        Err((number, _)) => Some(number),
    };
    // The expander has written the line at which it stops to the same place as those that it gives. What is found there counts only if the
    // expansion with comments has it too.
    let line = expander.line();
    lines.push(ExpandedLine {
        number: stop.unwrap_or(line.number),
        text: line.text.to_vec(alloc)?,
    })?;
    Ok(Some(stop.is_some()))
}

/// The lines of the expansion of a text.
fn reached_lines(alloc: Global, text: &[u8]) -> Result<Reached, AllocError> {
    let mut expander = Expander::new(alloc, text);
    let mut lines = Vec::new(alloc);
    for _ in 0..=MOST_LINES {
        match put_next(alloc, &mut expander, &mut lines)? {
            None => {
                return Ok(Reached {
                    lines,
                    stops: false,
                });
            }
            Some(true) => return Ok(Reached { lines, stops: true }),
            Some(false) => (),
        }
    }
    Ok(Reached {
        lines,
        stops: false,
    })
}

/// The calls that lead to a line. A line that was marked as a call and is a line of the expansion itself calls nothing.
fn calls_to(alloc: Global, open: &[u32], line: u32) -> Result<Vec<u32>, AllocError> {
    match open {
        [calls @ .., last] if *last == line => calls.to_vec(alloc),
        _ => open.to_vec(alloc),
    }
}

/// What was read of the lines of the expansion with comments.
#[derive(Drop)]
struct Reading {
    alloc: Global,
    /// The lines of the calls and REPTs that are open, the outermost first.
    open: Vec<u32>,
    written: Vec<Written>,
    names: BodyNames,
}

impl Reading {
    /// Forgets the call or the REPT in this line, and those that were opened after it.
    fn close(&mut self, line: u32) {
        if !self.open.contains(&line) {
            return;
        }
        for _ in 0..self.open.len() {
            if self.open.pop() == Some(line) {
                return;
            }
        }
    }

    /// Appends where the next line is written, if it is the next one of the plain expansion. Answers whether it is.
    fn put(&mut self, plain: &[ExpandedLine], text: &[u8], line: u32) -> Result<bool, AllocError> {
        let is_same = match plain.get(self.written.len()) {
            Some(same) => same.text.as_slice() == text,
            None => false,
        };
        if is_same {
            let calls = calls_to(self.alloc, &self.open, line)?;
            self.written.push(Written { line, calls })?;
        }
        Ok(is_same)
    }

    /// Reads a line without a comment: the label before a call, or a line that was added after LOCAL lines. Answers whether it is one of these.
    fn read_other(&mut self, plain: &[ExpandedLine], line: &[u8]) -> Result<bool, AllocError> {
        if let Some(local) = local_in(line) {
            self.names.add(self.alloc, local.made, local.own)?;
            return Ok(true);
        }
        match self.open.last().copied() {
            Some(call) => self.put(plain, line, call),
            None => Ok(false),
        }
    }

    /// Reads a line. Answers whether it is one that the plain expansion has, or an added one.
    fn read(&mut self, plain: &[ExpandedLine], line: &[u8]) -> Result<bool, AllocError> {
        let Some(marked) = without_mark(line) else {
            return self.read_other(plain, line);
        };
        match marked.mark {
            Mark::Opens(number) => self.open.push(number)?,
            Mark::Closes(number) => self.close(number),
            Mark::Line(number) => return self.put(plain, marked.text, number),
        }
        Ok(true)
    }
}

/// Reads the lines of the expansion with comments; None if they are not those of the plain one.
fn read_marks(
    alloc: Global,
    key: NameKey,
    with_marks: &[ExpandedLine],
    plain: &[ExpandedLine],
) -> Result<Option<Reading>, AllocError> {
    let mut reading = Reading {
        alloc,
        open: Vec::new(alloc),
        written: Vec::new(alloc),
        names: BodyNames::new(alloc, key),
    };
    for line in with_marks {
        if !reading.read(plain, &line.text)? {
            return Ok(None);
        }
    }
    if reading.written.len() == plain.len() {
        Ok(Some(reading))
    } else {
        Ok(None)
    }
}

/// Whether the last line has no comment, as the label has before a call at which the expansion stops. Such a line does not tell where it
/// stops.
fn ends_unmarked(lines: &[ExpandedLine]) -> bool {
    match lines.last() {
        Some(last) => without_mark(&last.text).is_none(),
        None => true,
    }
}

/// The lines of the expansion of a text, and where each is written; None if that is not known.
fn trace_of(alloc: Global, text: &[u8]) -> Result<Option<Trace>, AllocError> {
    let lines = Lines::of(alloc, source_part(text))?;
    let plain = reached_lines(alloc, text)?;
    let with_marks = reached_lines(alloc, &marked(alloc, &lines)?)?;
    if with_marks.stops != plain.stops || plain.stops && ends_unmarked(&with_marks.lines) {
        return Ok(None);
    }
    let key = NameKey::of(text);
    let Some(reading) = read_marks(alloc, key, &with_marks.lines, &plain.lines)? else {
        return Ok(None);
    };
    let Reading {
        alloc: _,
        open: _,
        written,
        names,
    } = reading;
    let Reached { lines, stops } = plain;
    Ok(Some(Trace {
        lines,
        written,
        stops,
        names,
    }))
}

/// Whether there is a trace, of an expansion that stops.
fn does_stop(trace: Option<&Trace>) -> bool {
    match trace {
        Some(trace) => trace.stops,
        None => false,
    }
}

/// Finds where the lines of a source are written.
///
/// # Errors
///
/// [`AllocError`] if memory ran out.
pub fn traced(alloc: Global, text: &[u8]) -> Result<Traces, AllocError> {
    let first = trace_of(alloc, text)?;
    if first.is_some() && !does_stop(first.as_ref()) {
        return Ok(Traces {
            stop: None,
            whole: first,
        });
    }
    let lines = Lines::of(alloc, source_part(text))?;
    let mended = trace_of(alloc, &mended_text(alloc, &lines)?)?;
    let whole = if does_stop(mended.as_ref()) {
        None
    } else {
        mended
    };
    Ok(Traces { stop: first, whole })
}
