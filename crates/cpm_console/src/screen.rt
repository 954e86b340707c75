//! A screen that shows what a program puts.

ghost use Rattle.std.specs.Prelude.{◌≡◌, ◌++◌, OnOk, get_or};
ghost use Rattle.cpm_console.specs.Codes.{cursor, next, next_alone, next_for, screen_text, shown_after_escape, shown_alone, shown_for};
ghost use Rattle.cpm_console.specs.declared.codes.Pending.TheVariants.{Nothing};

use crate::codes::{
    Codes, ESCAPE, Pending, adm3a_control, adm3a_escape, is_attribute, next_after_escape,
    vt52_escape,
};
use itoa::Buffer;
use std::alloc::AllocError;

/// The lowest line and column in a cursor address.
const FIRST: u8 = 0x20;

/// The screen of a terminal: whose codes it knows, and what the bytes so far have begun.
#[derive(Clone, Copy, Debug, PartialEq, Eq)]
pub struct Screen {
    pub codes: Codes,
    pub pending: Pending,
}

impl Screen {
    /// A screen at the start.
    pub fn new(codes: Codes) -> Screen
        ensures { result ≡ record { codes = codes; pending = Nothing } }
    {
        Screen {
            codes,
            pending: Pending::Nothing,
        }
    }

    /// What a byte outside of a sequence begins.
    fn next_alone(self, byte: u8) -> Pending
        ensures { result ≡ next_alone self.codes byte }
    {
        if byte == ESCAPE && self.codes != Codes::Plain {
            Pending::Escape
        } else {
            Pending::Nothing
        }
    }

    /// What is begun after a byte.
    fn next_for(self, byte: u8) -> Pending
        ensures { result ≡ next_for self.codes self.pending byte }
    {
        match self.pending {
            Pending::Nothing => self.next_alone(byte),
            Pending::Attribute if !is_attribute(byte) => self.next_alone(byte),
            Pending::Escape => next_after_escape(self.codes, byte),
            Pending::Line => Pending::Column(byte),
            Pending::Attribute | Pending::Column(_) | Pending::Rest => Pending::Nothing,
        }
    }

    /// Adds what is shown for a byte to a text.
    fn add(self, byte: u8, text: &mut Vec<u8>) -> Result<(), AllocError>
        ensures { OnOk result (text.new.items ≡ text.old.items ++ shown_for self.codes self.pending byte) }
    {
        match self.pending {
            Pending::Nothing => text.extend_from_slice(alone(self.codes, &[byte])),
            Pending::Attribute if !is_attribute(byte) => {
                text.extend_from_slice(alone(self.codes, &[byte]))
            }
            Pending::Escape => text.extend_from_slice(after_escape(self.codes, byte)),
            Pending::Column(line) => add_cursor(line, byte, text),
            Pending::Attribute | Pending::Line | Pending::Rest => Ok(()),
        }
    }

    /// Adds what is shown for bytes to a text. If memory runs out, only the first of it is added.
    pub fn show(&mut self, bytes: &[u8], text: &mut Vec<u8>) -> Result<(), AllocError>
        ensures codes { self.new.codes ≡ self.old.codes }
        ensures text { OnOk result (text.new.items ≡ text.old.items ++ screen_text self.old.codes self.old.pending bytes.now) }
        ensures next { OnOk result (self.new.pending ≡ next self.old.codes self.old.pending bytes.now) }
    {
        for byte in bytes {
            self.add(*byte, text)?;
            self.pending = self.next_for(*byte);
        }
        Ok(())
    }
}

/// What is shown for a byte outside of a sequence. The byte is given as a list of one.
fn alone(codes: Codes, byte: &[u8; 1]) -> &[u8]
    ensures { result.now ≡ shown_alone codes (get_or byte.now 0 0) }
{
    match codes {
        Codes::Plain => byte,
        Codes::Adm3a => match byte[0] {
            ESCAPE => b"",
            other => adm3a_control(other).unwrap_or(byte),
        },
        Codes::Vt52 => match byte[0] {
            ESCAPE => b"",
            _ => byte,
        },
    }
}

/// What is shown for the second byte of an escape sequence.
fn after_escape(codes: Codes, byte: u8) -> &'static [u8]
    ensures { result.now ≡ shown_after_escape codes byte }
{
    match codes {
        Codes::Plain => b"",
        Codes::Adm3a => adm3a_escape(byte),
        Codes::Vt52 => vt52_escape(byte),
    }
}

/// Adds the sequence that puts the cursor to a line and a column.
fn add_cursor(line: u8, column: u8, text: &mut Vec<u8>) -> Result<(), AllocError>
    ensures { OnOk result (text.new.items ≡ text.old.items ++ cursor line column) }
{
    let mut number = Buffer::new();
    text.extend_from_slice(b"\x1b[")?;
    text.extend_from_slice(number.format(line.saturating_sub(FIRST) + 1).as_bytes())?;
    text.extend_from_slice(b";")?;
    text.extend_from_slice(number.format(column.saturating_sub(FIRST) + 1).as_bytes())?;
    text.extend_from_slice(b"H")
}
