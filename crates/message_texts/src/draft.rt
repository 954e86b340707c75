//! Messages before their texts are made printable, and before their place is known as bytes.

use crate::parts::Note;
use std::alloc::{AllocError, Global};

/// What in its line an error is about.
#[derive(Clone, Copy)]
pub enum Spot {
    /// This number of tokens from this one on, counted from 0.
    Tokens(usize, usize),
    /// This number of bytes from this one on. Only for a line that cannot be cut into tokens.
    Bytes(usize, usize),
}

/// A message whose place is given by tokens, and whose texts may have any bytes.
#[derive(Drop)]
pub struct Draft {
    pub spot: Spot,
    pub text: String,
    pub notes: Vec<Note>,
}

impl Draft {
    /// A message without notes.
    pub fn new(alloc: Global, spot: Spot, text: String) -> Draft {
        Draft {
            spot,
            text,
            notes: Vec::new(alloc),
        }
    }

    /// The same message, which also says what to write instead.
    ///
    /// # Errors
    ///
    /// `AllocError` if memory ran out.
    pub fn help(mut self, text: String) -> Result<Draft, AllocError> {
        self.notes.push(Note::Help(text))?;
        Ok(self)
    }

    /// The same message with a note.
    ///
    /// # Errors
    ///
    /// `AllocError` if memory ran out.
    pub fn note(mut self, text: String) -> Result<Draft, AllocError> {
        self.notes.push(Note::Note(text))?;
        Ok(self)
    }

    /// The same message, which also says what to write instead, if that is known.
    ///
    /// # Errors
    ///
    /// `AllocError` if memory ran out.
    pub fn help_if(self, text: Option<String>) -> Result<Draft, AllocError> {
        match text {
            Some(text) => self.help(text),
            None => Ok(self),
        }
    }
}
