//! Finds definitions that may not be assembled: those after END, and those between IF and ENDIF.

use asm_line::{BlockWord, Form, Head, form_of};
use asm_text::Lines;
use common::NameKey;
use indexmap::IndexMap;
use message_texts::tokens_of;
use std::alloc::{AllocError, Global};

/// Why a line may not be assembled.
#[derive(Clone, Copy)]
pub enum Why {
    /// It is after the END of this line.
    AfterEnd(u32),
    /// It is between IF and ENDIF.
    InBranch,
}

/// A line that defines a name and that may not be assembled.
#[derive(Clone, Copy)]
pub struct HiddenLine {
    pub number: u32,
    pub why: Why,
}

/// Where in a source a line is.
#[derive(Clone, Copy)]
struct Reading {
    /// How many IFs are open.
    conditions: u32,
    /// How many MACROs and REPTs are open.
    repetitions: u32,
    /// The line of the END that ends the source, if it was read. An END in a block may not be assembled, and does not count.
    end: Option<u32>,
}

impl Reading {
    /// Goes on to the next line, given this one and its number.
    fn pass(&mut self, form: &Form<'_>, number: u32) {
        match form.head {
            Head::Block(BlockWord::If) => self.conditions = self.conditions.saturating_add(1),
            Head::Block(BlockWord::EndIf) => self.conditions = self.conditions.saturating_sub(1),
            Head::Block(BlockWord::Rept) | Head::Macro(_) => {
                self.repetitions = self.repetitions.saturating_add(1);
            }
            Head::Block(BlockWord::EndM) => self.repetitions = self.repetitions.saturating_sub(1),
            Head::Word(word) if word.eq_ignore_ascii_case(b"END") => {
                if self.end.is_none() && self.conditions == 0 && self.repetitions == 0 {
                    self.end = Some(number);
                }
            }
            _ => (),
        }
    }

    /// Why the next line may not be assembled; None if it is, or is in a macro or a REPT.
    fn why(&self) -> Option<Why> {
        match self.end {
            Some(end) => Some(Why::AfterEnd(end)),
            None if self.conditions > 0 && self.repetitions == 0 => Some(Why::InBranch),
            None => None,
        }
    }
}

/// The name that a line defines.
fn defined_in<'t>(form: &Form<'t>) -> Option<&'t [u8]> {
    match form.head {
        Head::Equ(name) => Some(name),
        _ => form.label,
    }
}

/// The first definition of each name that may not be assembled, by the name in upper case.
pub(crate) fn hidden_lines(
    alloc: Global,
    lines: &Lines<'_>,
    key: NameKey,
) -> Result<IndexMap<Vec<u8>, HiddenLine, NameKey>, AllocError> {
    let mut hidden = IndexMap::with_hasher(alloc, key);
    let mut reading = Reading {
        conditions: 0,
        repetitions: 0,
        end: None,
    };
    let mut number = 0u32;
    for at in 0..lines.len() {
        number = number.saturating_add(1);
        let found = tokens_of(alloc, lines.line(at))?;
        let form = form_of(&found);
        if let (Some(name), Some(why)) = (defined_in(&form), reading.why()) {
            let upper = name.to_ascii_uppercase(alloc)?;
            if hidden.get(upper.as_slice()).is_none() {
                hidden.insert(upper, HiddenLine { number, why })?;
            }
        }
        reading.pass(&form, number);
    }
    Ok(hidden)
}
