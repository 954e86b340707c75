//! A row that a program answers: the columns that it has left, and the answer so far.

use crate::{show_runs, show_text, written_out};
use std::alloc::Global;
use std::fmt::Display;
use std::io::Write;

/// A row. A column that is missing or wrong leaves a mark, as does an answer for which there is no memory, and then the row is not printed
/// but ends the program. So the functions that answer rows need no error of their own.
#[derive(Drop)]
pub struct Row<'a> {
    alloc: Global,
    columns: &'a str,
    answer: Vec<u8>,
    is_wrong: bool,
}

impl<'a> Row<'a> {
    /// The row with these columns, without an answer.
    pub fn new(alloc: Global, columns: &'a str) -> Row<'a> {
        Row {
            alloc,
            columns,
            answer: Vec::new(alloc),
            is_wrong: false,
        }
    }

    /// The allocator of the answer.
    pub fn alloc(&self) -> Global {
        self.alloc
    }

    /// Says why the row cannot be answered. It is then printed with this reason, and ends the program.
    pub fn refuse(&mut self, why: &str) {
        if !self.is_wrong {
            write!(self, " refused: {why}");
        }
        self.is_wrong = true;
    }

    /// Whether the row cannot be answered.
    pub fn is_wrong(&self) -> bool {
        self.is_wrong
    }

    /// Adds to the answer. This is what `write!` calls.
    pub fn write_fmt<D: Display + Drop>(&mut self, text: D) {
        if self.answer.write_fmt(text).is_err() {
            self.is_wrong = true;
        }
    }

    /// Adds bytes to the answer as they are.
    pub fn write_bytes(&mut self, bytes: &[u8]) {
        if self.answer.extend_from_slice(bytes).is_err() {
            self.is_wrong = true;
        }
    }

    /// Adds bytes to the answer, in the form of `show_text`.
    pub fn write_text(&mut self, bytes: &[u8]) {
        if show_text(&mut self.answer, bytes).is_err() {
            self.is_wrong = true;
        }
    }

    /// Adds bytes in `<` and `>` to the answer, in the form of `show_runs`.
    pub fn write_runs(&mut self, bytes: &[u8]) {
        self.write_bytes(b" <");
        if show_runs(&mut self.answer, bytes).is_err() {
            self.is_wrong = true;
        }
        self.write_bytes(b">");
    }

    /// The answer so far.
    pub fn answer(&self) -> &[u8] {
        &self.answer
    }

    /// Takes the next column, which ends at a blank or at the end of the row. It is empty if no column is left.
    pub fn word(&mut self) -> &'a str {
        match self.columns.split_once(' ') {
            Some((word, rest)) => {
                self.columns = rest;
                word
            }
            None => self.rest(),
        }
    }

    /// Takes what is before the first such character, which is refused if it is not there.
    pub fn until(&mut self, mark: char) -> &'a str {
        match self.columns.split_once(mark) {
            Some((front, rest)) => {
                self.columns = rest;
                front
            }
            None => {
                self.refuse("a column is missing");
                self.rest()
            }
        }
    }

    /// Takes the columns that are left, as one.
    pub fn rest(&mut self) -> &'a str {
        let rest = self.columns;
        self.columns = "";
        rest
    }

    /// Takes the columns that are left, with everything in braces expanded.
    pub fn bytes(&mut self) -> Vec<u8> {
        let rest = self.rest();
        self.bytes_of(rest)
    }

    /// The bytes of a text, with everything in braces expanded.
    pub fn bytes_of(&mut self, text: &str) -> Vec<u8> {
        match written_out(self.alloc, text) {
            Ok(bytes) => bytes,
            Err(_) => {
                self.refuse("braces");
                Vec::new(self.alloc)
            }
        }
    }

    /// The bytes of a text, with everything in braces expanded, and a line feed in place of each `|`.
    pub fn lines_of(&mut self, text: &str) -> Vec<u8> {
        let mut bytes = self.bytes_of(text);
        for byte in bytes.iter_mut() {
            if *byte == b'|' {
                *byte = b'\n';
            }
        }
        bytes
    }

    /// Takes a number in decimal.
    pub fn decimal(&mut self) -> u32 {
        match u32::from_str_radix(self.word(), 10) {
            Ok(number) => number,
            Err(_) => {
                self.refuse("no number");
                0
            }
        }
    }

    /// Takes a number in decimal of 16 bits.
    pub fn short(&mut self) -> u16 {
        match u16::from_str_radix(self.word(), 10) {
            Ok(number) => number,
            Err(_) => {
                self.refuse("no number of 16 bits");
                0
            }
        }
    }

    /// Takes a number in decimal of 8 bits.
    pub fn byte(&mut self) -> u8 {
        match u8::from_str_radix(self.word(), 10) {
            Ok(number) => number,
            Err(_) => {
                self.refuse("no number of 8 bits");
                0
            }
        }
    }

    /// Takes a number of up to four digits in hexadecimal.
    pub fn hexadecimal(&mut self) -> u16 {
        match u16::from_str_radix(self.word(), 16) {
            Ok(number) => number,
            Err(_) => {
                self.refuse("no number in hexadecimal");
                0
            }
        }
    }

    /// Takes a number of up to two digits in hexadecimal.
    pub fn hexadecimal_byte(&mut self) -> u8 {
        match u8::from_str_radix(self.word(), 16) {
            Ok(number) => number,
            Err(_) => {
                self.refuse("no byte in hexadecimal");
                0
            }
        }
    }

    /// Prints the answer.
    ///
    /// # Errors
    ///
    /// If the row cannot be answered; what is printed of it ends with the reason.
    pub fn print<W: Write>(&self, out: &mut W) -> Result<(), anyhow::Error> {
        out.write_all(&self.answer)?;
        if self.is_wrong {
            return Err(anyhow::anyhow!("a row cannot be answered"));
        }
        Ok(())
    }
}
