//! Writes lines in columns: a label, a mnemonic, its operands, and a comment with the address.

use state_text::put_byte_number;
use std::alloc::{AllocError, Global};

/// The column of mnemonics.
const MNEMONIC: usize = 8;

/// The column of operands.
const OPERANDS: usize = 16;

/// The column of comments.
const COMMENT: usize = 32;

/// The lines of a text, and the line that is being written.
#[derive(Drop)]
pub(crate) struct Lines {
    alloc: Global,
    text: Vec<u8>,
    line: Vec<u8>,
}

impl Lines {
    /// No lines.
    pub(crate) fn new(alloc: Global) -> Lines {
        Lines {
            alloc,
            text: Vec::new(alloc),
            line: Vec::new(alloc),
        }
    }

    /// The text of all lines.
    pub(crate) fn into_text(self) -> Vec<u8> {
        let Lines { text, .. } = self;
        text
    }

    /// Goes to a column of the line, or one further if the line is that long already.
    fn go_to(&mut self, column: usize) -> Result<(), AllocError> {
        let len = column.max(self.line.len().saturating_add(1));
        self.line.resize(len, b' ')
    }

    /// Writes a comment that is a line of its own.
    pub(crate) fn put_remark(&mut self, remark: &str) -> Result<(), AllocError> {
        self.text.extend_from_slice(b"; ")?;
        self.text.extend_from_slice(remark.as_bytes())?;
        self.text.push(b'\n')?;
        Ok(())
    }

    /// Writes a label. A long one, and one that another one follows, has a line of its own.
    pub(crate) fn put_label(&mut self, name: &[u8], address: u16) -> Result<(), AllocError> {
        if !self.line.is_empty() {
            self.end_line(address, b"")?;
        }
        self.line.extend_from_slice(name)?;
        self.line.push(b':')?;
        if self.line.len() >= MNEMONIC {
            self.end_line(address, b"")?;
        }
        Ok(())
    }

    /// Writes a mnemonic.
    pub(crate) fn put_mnemonic(&mut self, mnemonic: &[u8]) -> Result<(), AllocError> {
        self.go_to(MNEMONIC)?;
        self.line.extend_from_slice(mnemonic)
    }

    /// Goes to where operands are.
    pub(crate) fn begin_operands(&mut self) -> Result<(), AllocError> {
        self.go_to(OPERANDS)
    }

    /// Writes a byte as a number.
    pub(crate) fn put_byte(&mut self, byte: u8) -> Result<(), AllocError> {
        put_byte_number(self.alloc, &mut self.line, byte)
    }

    /// Writes a part of the line as it is.
    pub(crate) fn put(&mut self, part: &[u8]) -> Result<(), AllocError> {
        self.line.extend_from_slice(part)
    }

    /// Ends the line with a comment: its address, and a remark if there is one.
    pub(crate) fn end_line(&mut self, address: u16, remark: &[u8]) -> Result<(), AllocError> {
        self.go_to(COMMENT)?;
        let comment = format!(in self.alloc; "; {address:04X}")?;
        self.line.extend_from_slice(comment.as_bytes())?;
        if !remark.is_empty() {
            self.line.push(b' ')?;
            self.line.extend_from_slice(remark)?;
        }
        self.line.push(b'\n')?;
        self.text.extend_from_slice(&self.line)?;
        self.line.clear();
        Ok(())
    }

    /// Ends a line that has only a label.
    pub(crate) fn end_label(&mut self, address: u16) -> Result<(), AllocError> {
        if self.line.is_empty() {
            return Ok(());
        }
        self.end_line(address, b"")
    }
}
