//! Places of reports in lines of macros and REPTs: the line as it is written, and the calls that lead to it.

ghost use Rattle.std.specs.Prelude.{◌≡◌, IfOk, IfSome};

use crate::body_names::BodyNames;
use crate::cutting::tokens_of;
use crate::sources::Sources;
use crate::written::Trace;
use asm_line::{Head, form_of};
use message_texts::{Note, Place, place_of_name, shown};
use report_texts::Where;
use std::alloc::{AllocError, Global};

/// A line that is assembled, and where it is written.
#[derive(Clone, Copy)]
pub struct Site<'e> {
    /// The line by which building reports it.
    pub reported: u32,
    /// The line in which it is written.
    pub line: u32,
    /// The line as it is assembled, with the arguments of a call in place of its parameters.
    pub text: &'e [u8],
    /// The lines of the calls and REPTs that lead to it, the outermost first.
    pub calls: &'e [u32],
    /// The names of LOCAL lines in the bodies of macros, if they are known.
    pub names: Option<&'e BodyNames>,
}

impl<'e> Site<'e> {
    /// A line that is assembled as it is written.
    pub fn plain(line: u32, text: &'e [u8]) -> Site<'e>
        ensures reported { result.reported ≡ line }
        ensures written { result.line ≡ line }
    {
        Site {
            reported: line,
            line,
            text,
            calls: &[],
            names: None,
        }
    }

    /// This line of an expansion, counted from 0, if building reports it by this line.
    pub fn traced(trace: &'e Trace, at: usize, reported: u32) -> Option<Site<'e>>
        ensures { IfSome result (λ site. site.reported ≡ reported) }
    {
        let line = trace.lines.get(at)?;
        let written = trace.written.get(at)?;
        if line.number != reported {
            return None;
        }
        Some(Site {
            reported,
            line: written.line,
            text: &line.text,
            calls: &written.calls,
            names: Some(&trace.names),
        })
    }

    /// Bytes of the line, with the names of LOCAL lines as the bodies of macros have them.
    ///
    /// # Errors
    ///
    /// [`AllocError`] if memory ran out.
    pub fn own_bytes(&self, alloc: Global, bytes: &[u8]) -> Result<Vec<u8>, AllocError> {
        match self.names {
            Some(names) => names.renamed(alloc, bytes),
            None => bytes.to_vec(alloc),
        }
    }

    /// A text about the line, with the names of LOCAL lines as the bodies of macros have them.
    ///
    /// # Errors
    ///
    /// [`AllocError`] if memory ran out.
    pub fn own_text(&self, alloc: Global, text: &str) -> Result<String, AllocError> {
        let renamed = self.own_bytes(alloc, text.as_bytes())?;
        String::from_str(alloc, str::from_utf8(&renamed).unwrap_or(text))
    }

    /// Notes about the line, with the names of LOCAL lines as the bodies of macros have them.
    ///
    /// # Errors
    ///
    /// [`AllocError`] if memory ran out.
    pub fn own_notes(&self, alloc: Global, notes: &[Note]) -> Result<Vec<Note>, AllocError> {
        let mut own = Vec::with_capacity(alloc, notes.len())?;
        for note in notes {
            own.push(match note {
                Note::Help(text) => Note::Help(self.own_text(alloc, text)?),
                Note::Note(text) => Note::Note(self.own_text(alloc, text)?),
            })?;
        }
        Ok(own)
    }

    /// The line, with the names of LOCAL lines as the bodies of macros have them, and in it the part that is this part of the line.
    fn own_part(&self, alloc: Global, place: Place) -> Result<(Vec<u8>, Place), AllocError> {
        let (before, rest) = self.text.split_at(place.at.min(self.text.len()));
        let (part, after) = rest.split_at(place.len.min(rest.len()));
        let mut text = self.own_bytes(alloc, before)?;
        let at = text.len();
        text.extend_from_slice(&self.own_bytes(alloc, part)?)?;
        let len = text.len().saturating_sub(at);
        text.extend_from_slice(&self.own_bytes(alloc, after)?)?;
        Ok((text, Place { at, len }))
    }
}

/// The byte of a line as it is written, from 0, from which a byte of the line as it is assembled comes. What an argument puts in the place of
/// a parameter comes from the parameter.
fn written_at(written: &[u8], assembled: &[u8], at: usize) -> usize {
    let same = written
        .iter()
        .zip(assembled)
        .take_while(|pair| pair.0 == pair.1)
        .count();
    if at < same {
        return at;
    }
    let from_end = assembled.len().saturating_sub(at);
    let same_end = written
        .iter()
        .rev()
        .zip(assembled.iter().rev())
        .take_while(|pair| pair.0 == pair.1)
        .count();
    if from_end <= same_end {
        written.len().saturating_sub(from_end)
    } else {
        same
    }
}

impl<'s, 'f> Sources<'s, 'f> {
    /// A part of a line that is assembled, in the line as it is written.
    ///
    /// # Errors
    ///
    /// [`AllocError`] if memory ran out.
    pub fn place(
        &self,
        alloc: Global,
        source: usize,
        site: Site<'_>,
        place: Place,
    ) -> Result<Where, AllocError>
        ensures source { IfOk result (λ w. w.source ≡ source) }
        ensures reported { IfOk result (λ w. w.reported ≡ site.entry.reported) }
        ensures written { IfOk result (λ w. w.written ≡ site.entry.line) }
    {
        let (text, place) = site.own_part(alloc, place)?;
        let at = written_at(self.line(source, site.line), &text, place.at);
        Ok(Where {
            source,
            reported: site.reported,
            written: site.line,
            column: at.saturating_add(1),
            text,
            place,
        })
    }

    /// The first token of a line that is assembled that is this name or word; all tokens if none is.
    ///
    /// # Errors
    ///
    /// [`AllocError`] if memory ran out.
    pub fn mark(
        &self,
        alloc: Global,
        source: usize,
        site: Site<'_>,
        marked: &[u8],
    ) -> Result<Where, AllocError>
        ensures source { IfOk result (λ w. w.source ≡ source) }
        ensures reported { IfOk result (λ w. w.reported ≡ site.entry.reported) }
        ensures written { IfOk result (λ w. w.written ≡ site.entry.line) }
    {
        let place = place_of_name(alloc, site.text, marked)?;
        self.place(alloc, source, site, place)
    }

    /// Appends a note about the call or the REPT in a line, which leads to itself this number of times.
    fn put_call(
        &self,
        alloc: Global,
        source: usize,
        line: u32,
        times: usize,
        notes: &mut Vec<Note>,
    ) -> Result<(), AllocError> {
        let text = self.line(source, line);
        let found = tokens_of(alloc, text)?;
        let own = self.located(source, line);
        let (path, number) = (own.path, own.line);
        let note = match form_of(&found).head {
            Head::Word(word) => {
                let column = place_of_name(alloc, text, word)?.at.saturating_add(1);
                let name = shown(alloc, word)?;
                let calls = match times {
                    1 => String::from_str(alloc, "the call")?,
                    _ => format!(in alloc; "{times} nested calls")?,
                };
                format!(in alloc; "in {calls} of `{name}` at {path}:{number}:{column}")?
            }
            _ => {
                let column = place_of_name(alloc, text, b"REPT")?.at.saturating_add(1);
                format!(in alloc; "in the REPT at {path}:{number}:{column}")?
            }
        };
        notes.push(Note::Note(note))?;
        Ok(())
    }

    /// Appends notes about the calls and REPTs that lead to a line, the outermost first.
    ///
    /// # Errors
    ///
    /// [`AllocError`] if memory ran out.
    pub fn put_calls(
        &self,
        alloc: Global,
        source: usize,
        site: Site<'_>,
        notes: &mut Vec<Note>,
    ) -> Result<(), AllocError> {
        let mut times = 1usize;
        for (at, line) in site.calls.iter().enumerate() {
            if site.calls.get(at.saturating_add(1)) == Some(line) {
                times = times.saturating_add(1);
            } else {
                self.put_call(alloc, source, *line, times, notes)?;
                times = 1;
            }
        }
        Ok(())
    }
}
