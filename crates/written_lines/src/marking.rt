//! Adds comments to a source from which one can read where each line of its expansion is written.
//!
//! A line gets a comment with its number at its end. A comment line comes before and after each call, and before and after each REPT. The
//! expander keeps comments as they are. After the LOCAL lines of a macro a line for each of their names is added, in which the expander
//! replaces the name.

use crate::cutting::{macro_in, tokens_of};
use asm_line::{BlockWord, Head, Token, form_of, is_name};
use asm_text::Lines;
use common::{KeyMixer, NameKey};
use indexmap::IndexMap;
use std::alloc::{AllocError, Global};

/// The names of the macros of a source, in upper case.
type MacroNames = IndexMap<Vec<u8>, (), NameKey>;

/// A comment that was added to a source.
#[derive(Clone, Copy)]
pub(crate) enum Mark {
    /// At the end of the line with this number.
    Line(u32),
    /// Before the call or the REPT in this line.
    Opens(u32),
    /// After the call in this line, or after the end of the REPT that it opens.
    Closes(u32),
}

/// A line without the comment that was added, and the comment.
#[derive(Clone, Copy)]
pub(crate) struct MarkedLine<'l> {
    pub(crate) text: &'l [u8],
    pub(crate) mark: Mark,
}

/// A name that the assembler made for LOCAL, and the one in the macro's body.
#[derive(Clone, Copy)]
pub(crate) struct LocalLine<'l> {
    pub(crate) made: &'l [u8],
    pub(crate) own: &'l [u8],
}

/// The names of the macros that lines define.
fn macro_names(alloc: Global, lines: &Lines<'_>) -> Result<MacroNames, AllocError> {
    let mut mixer = KeyMixer::new();
    for at in 0..lines.len() {
        mixer.mix(lines.line(at));
    }
    let mut names = IndexMap::with_hasher(alloc, mixer.key());
    for at in 0..lines.len() {
        if let Some(name) = macro_in(alloc, lines.line(at))? {
            names.insert(name, ())?;
        }
    }
    Ok(names)
}

/// The source so far with its comments.
#[derive(Drop)]
struct Marking {
    alloc: Global,
    macros: MacroNames,
    text: Vec<u8>,
    /// The open blocks that an ENDM closes, the innermost last: the line of a REPT, or None for a macro.
    open: Vec<Option<u32>>,
    /// The names of the LOCAL lines directly before.
    locals: Vec<Vec<u8>>,
}

impl Marking {
    /// Appends a comment, with the end of its line.
    fn put(&mut self, mark: Mark) -> Result<(), AllocError> {
        let alloc = self.alloc;
        let comment = match mark {
            Mark::Line(number) => format!(in alloc; " ;={number}\n")?,
            Mark::Opens(number) => format!(in alloc; ";>{number}\n")?,
            Mark::Closes(number) => format!(in alloc; ";<{number}\n")?,
        };
        self.text.extend_from_slice(comment.as_bytes())
    }

    /// Appends a line with its number.
    fn put_line(&mut self, number: u32, line: &[u8]) -> Result<(), AllocError> {
        self.text.extend_from_slice(line)?;
        self.put(Mark::Line(number))
    }

    /// Keeps the names of a LOCAL line.
    fn keep_locals(&mut self, tokens: &[Token<'_>]) -> Result<(), AllocError> {
        for token in tokens {
            if is_name(token) {
                self.locals.push(token.text.to_vec(self.alloc)?)?;
            }
        }
        Ok(())
    }

    /// Appends a line for each name of the LOCAL lines directly before. No macro of a source has the name `??L`; if one has, the lines that
    /// are expanded are not those of the source.
    fn put_locals(&mut self) -> Result<(), AllocError> {
        for name in &self.locals {
            self.text.extend_from_slice(b" ??L ")?;
            self.text.extend_from_slice(name)?;
            self.text.extend_from_slice(b" ;?")?;
            self.text.extend_from_slice(name)?;
            self.text.push(b'\n')?;
        }
        self.locals.clear();
        Ok(())
    }

    /// Whether a line calls a macro or begins a REPT.
    fn leads_on(&self, head: Head<'_>) -> Result<bool, AllocError> {
        match head {
            Head::Block(BlockWord::Rept) => Ok(true),
            Head::Word(word) => {
                let name = word.to_ascii_uppercase(self.alloc)?;
                Ok(self.macros.get(name.as_slice()).is_some())
            }
            _ => Ok(false),
        }
    }

    /// Appends the comment after a line, if one comes there.
    fn put_end(&mut self, number: u32, head: Head<'_>, leads_on: bool) -> Result<(), AllocError> {
        match head {
            Head::Macro(_) => self.open.push(None)?,
            Head::Block(BlockWord::Rept) => self.open.push(Some(number))?,
            Head::Block(BlockWord::EndM) => {
                if let Some(Some(rept)) = self.open.pop() {
                    self.put(Mark::Closes(rept))?;
                }
            }
            Head::Word(_) if leads_on => self.put(Mark::Closes(number))?,
            _ => (),
        }
        Ok(())
    }

    /// Appends the next line of the source, with the comments that belong to it.
    fn add(&mut self, number: u32, line: &[u8]) -> Result<(), AllocError> {
        let found = tokens_of(self.alloc, line)?;
        let form = form_of(&found);
        if let Head::Block(BlockWord::Local) = form.head {
            self.keep_locals(form.rest)?;
            return self.put_line(number, line);
        }
        self.put_locals()?;
        let leads_on = self.leads_on(form.head)?;
        if leads_on {
            self.put(Mark::Opens(number))?;
        }
        self.put_line(number, line)?;
        self.put_end(number, form.head, leads_on)
    }
}

/// Answers the source with these comments.
pub(crate) fn marked(alloc: Global, lines: &Lines<'_>) -> Result<Vec<u8>, AllocError> {
    let mut marking = Marking {
        alloc,
        macros: macro_names(alloc, lines)?,
        text: Vec::new(alloc),
        open: Vec::new(alloc),
        locals: Vec::new(alloc),
    };
    let mut number = 0u32;
    for at in 0..lines.len() {
        number = number.saturating_add(1);
        marking.add(number, lines.line(at))?;
    }
    Ok(marking.text)
}

/// The number that decimal digits are.
fn number_of(digits: &[u8]) -> u32 {
    let mut number = 0u32;
    for digit in digits {
        let value = u32::from(digit.saturating_sub(b'0'));
        number = number.saturating_mul(10).saturating_add(value);
    }
    number
}

/// Cuts the comment that was added off a line.
pub(crate) fn without_mark(line: &[u8]) -> Option<MarkedLine<'_>> {
    let digits = line
        .iter()
        .rev()
        .take_while(|byte| byte.is_ascii_digit())
        .count();
    let (front, digits) = line.split_at(line.len().saturating_sub(digits));
    let number = number_of(digits);
    let (text, mark): (&[u8], Mark) = match front {
        [text @ .., b' ', b';', b'='] => (text, Mark::Line(number)),
        [b';', b'>'] => (&[], Mark::Opens(number)),
        [b';', b'<'] => (&[], Mark::Closes(number)),
        _ => return None,
    };
    Some(MarkedLine { text, mark })
}

/// The names in a line that was added after LOCAL lines.
pub(crate) fn local_in(line: &[u8]) -> Option<LocalLine<'_>> {
    let [b' ', b'?', b'?', b'L', b' ', rest @ ..] = line else {
        return None;
    };
    let at = rest.iter().take_while(|byte| **byte != b' ').count();
    let made = rest.get(..at)?;
    match rest.get(at..)? {
        [b' ', b';', b'?', own @ ..] => Some(LocalLine { made, own }),
        _ => None,
    }
}
