//! An error, and the line that it is in.

use crate::source::SourceLines;
use asm_line::{Form, Head, Token};
use bstr::ByteSlice;
use message_texts::{Draft, Spot};
use source_errors::{Finding, Known};
use std::alloc::{AllocError, Global};

/// An error, and the line that it is in, cut into tokens.
#[derive(Drop)]
pub struct Case<'a> {
    pub alloc: Global,
    pub source: &'a SourceLines<'a>,
    pub finding: &'a Finding,
    pub known: Option<&'a Known>,
    pub tokens: &'a [Token<'a>],
    pub form: Form<'a>,
}

impl<'a> Case<'a> {
    /// The number of the first token after the line's word.
    pub fn rest_at(&self) -> usize {
        self.tokens.len().saturating_sub(self.form.rest.len())
    }

    /// The number of the line's word; of the token after the label, if the line has no word.
    pub fn word_at(&self) -> usize {
        match self.form.head {
            Head::Nothing => self.rest_at(),
            _ => self.rest_at().saturating_sub(1),
        }
    }

    /// The number of the first token of the line's statement: of the name before EQU, and of the word of any other line.
    pub fn statement_at(&self) -> usize {
        match self.form.head {
            Head::Equ(_) => self.word_at().saturating_sub(1),
            _ => self.word_at(),
        }
    }

    /// The line's word as it is written; empty if there is none.
    pub fn word(&self) -> &'a [u8] {
        match self.tokens.get(self.word_at()) {
            Some(token) => token.text,
            None => &[],
        }
    }

    /// Whether the line is in a macro or a repetition, and not as the source has it.
    pub fn is_expanded(&self) -> bool {
        self.source.line(self.finding.number).trim() != self.finding.text.as_slice().trim()
    }

    /// Whether the line begins with its first token, without a blank before it.
    pub fn is_at_margin(&self) -> bool {
        match (self.finding.text.first(), self.tokens.first()) {
            (Some(byte), Some(token)) => token.text.first() == Some(byte),
            _ => false,
        }
    }

    /// A message about this number of tokens from this one on.
    pub fn draft(&self, at: usize, count: usize, text: String) -> Draft {
        Draft::new(self.alloc, Spot::Tokens(at, count), text)
    }

    /// A message about the line's word.
    pub fn on_word(&self, text: String) -> Draft {
        self.draft(self.word_at(), 1, text)
    }

    /// This number of tokens from this one on, as they are shown in one line.
    ///
    /// # Errors
    ///
    /// `AllocError` if memory ran out.
    pub fn joined(&self, at: usize, count: usize) -> Result<String, AllocError> {
        message_texts::joined(self.alloc, self.tokens_at(at, count))
    }

    /// A line as notes name it: `line 5`, by its number in the source itself, or `in a shared file`, or `by --define`.
    pub fn line_text(&self, number: u32) -> Result<String, AllocError> {
        let alloc = self.alloc;
        let before = self.source.before;
        if number <= before.defines {
            return String::from_str(alloc, "by --define");
        }
        if number <= before.lines {
            return String::from_str(alloc, "in a shared file");
        }
        let own = number - before.lines;
        format!(in alloc; "line {own}")
    }

    /// Where a line is, as notes say it: `at line 5`, `in a shared file` or `by --define`.
    ///
    /// # Errors
    ///
    /// `AllocError` if memory ran out.
    pub fn at_line(&self, number: u32) -> Result<String, AllocError> {
        let alloc = self.alloc;
        let text = self.line_text(number)?;
        let before = self.source.before;
        if number <= before.defines || number <= before.lines {
            return Ok(text);
        }
        format!(in alloc; "at {text}")
    }

    /// Lines of the source itself by their numbers: `lines 1, 2 and 5`.
    ///
    /// # Errors
    ///
    /// `AllocError` if memory ran out.
    pub fn lines_text(&self, numbers: &[u32]) -> Result<String, AllocError> {
        let alloc = self.alloc;
        let mut text = String::from_str(alloc, "lines ")?;
        for (at, number) in numbers.iter().enumerate() {
            if at > 0 {
                let is_last = at.saturating_add(1) == numbers.len();
                text.push_str(if is_last { " and " } else { ", " })?;
            }
            let own = number.saturating_sub(self.source.before.lines);
            text.push_str(&format!(in alloc; "{own}")?)?;
        }
        Ok(text)
    }

    /// This number of tokens from this one on, as far as there are any.
    pub fn tokens_at(&self, at: usize, count: usize) -> &'a [Token<'a>] {
        let from = self.tokens.get(at..).unwrap_or(&[]);
        from.get(..count).unwrap_or(from)
    }
}
