//! A source, read once for the messages about all its errors.

use crate::hidden::{HiddenLine, hidden_lines};
use asm_line::{BlockWord, Head, form_of, is_name};
use asm_macro::source_part;
use asm_text::Lines;
use bstr::ByteSlice;
use common::NameKey;
use indexmap::IndexMap;
use message_texts::{shown, tokens_of};
use std::alloc::{AllocError, Global};

/// How many lines come before those of a source itself.
#[derive(Clone, Copy)]
pub struct Before {
    /// Those of the words after `--define`, which come first.
    pub defines: u32,
    /// Those, and the lines of shared files.
    pub lines: u32,
}

/// The lines of a source, and the macros that they define.
#[derive(Drop)]
pub struct SourceLines<'a> {
    lines: Lines<'a>,
    pub(crate) before: Before,
    /// The first line that defines each macro, by the macro's name in upper case.
    macros: IndexMap<Vec<u8>, u32, NameKey>,
    /// The first line that defines a macro with this LOCAL name, in upper case.
    pub locals: IndexMap<Vec<u8>, u32, NameKey>,
    /// The first definition of each name that may not be assembled, by the name in upper case.
    pub hidden: IndexMap<Vec<u8>, HiddenLine, NameKey>,
}

/// Whether a line may define a macro. Most lines need not be cut into tokens to tell that they do not.
fn may_define(line: &[u8]) -> bool {
    line.contains_str(b"ACRO") || line.contains_str(b"acro")
}

/// The macro that a line defines, in upper case.
fn macro_in(alloc: Global, line: &[u8]) -> Result<Option<Vec<u8>>, AllocError> {
    if !may_define(line) {
        return Ok(None);
    }
    let found = tokens_of(alloc, line)?;
    match form_of(&found).head {
        Head::Macro(name) => Ok(Some(name.to_ascii_uppercase(alloc)?)),
        _ => Ok(None),
    }
}

/// Whether a line may be a LOCAL.
fn may_list(line: &[u8]) -> bool {
    line.contains_str(b"OCAL") || line.contains_str(b"ocal")
}

/// Notes the names of a LOCAL line, given the line that defines the macro.
fn put_locals(
    alloc: Global,
    locals: &mut IndexMap<Vec<u8>, u32, NameKey>,
    line: &[u8],
    definition: u32,
) -> Result<(), AllocError> {
    if !may_list(line) {
        return Ok(());
    }
    let found = tokens_of(alloc, line)?;
    let form = form_of(&found);
    if let Head::Block(BlockWord::Local) = form.head {
        for token in form.rest {
            let upper = token.text.to_ascii_uppercase(alloc)?;
            if is_name(token) && locals.get(upper.as_slice()).is_none() {
                locals.insert(upper, definition)?;
            }
        }
    }
    Ok(())
}

impl<'a> SourceLines<'a> {
    /// Reads a source, which begins with the lines that come before those of the source itself.
    ///
    /// # Errors
    ///
    /// `AllocError` if memory ran out.
    pub fn of(
        alloc: Global,
        text: &'a [u8],
        before: Before,
    ) -> Result<SourceLines<'a>, AllocError> {
        let lines = Lines::of(alloc, source_part(text))?;
        let mut macros = IndexMap::with_hasher(alloc, NameKey::of(text));
        let mut locals = IndexMap::with_hasher(alloc, NameKey::of(text));
        let mut number = 0u32;
        let mut definition = 0u32;
        for at in 0..lines.len() {
            number = number.saturating_add(1);
            if let Some(name) = macro_in(alloc, lines.line(at))? {
                definition = number;
                if macros.get(name.as_slice()).is_none() {
                    macros.insert(name, number)?;
                }
            }
            put_locals(alloc, &mut locals, lines.line(at), definition)?;
        }
        let hidden = hidden_lines(alloc, &lines, NameKey::of(text))?;
        Ok(SourceLines {
            lines,
            before,
            macros,
            locals,
            hidden,
        })
    }

    /// The name of the macro that a line defines; an empty one if it defines none.
    ///
    /// # Errors
    ///
    /// `AllocError` if memory ran out.
    pub fn macro_at(&self, alloc: Global, number: u32) -> Result<String, AllocError> {
        let found = tokens_of(alloc, self.line(number))?;
        match form_of(&found).head {
            Head::Macro(name) => shown(alloc, name),
            _ => Ok(String::new(alloc)),
        }
    }

    /// How many lines there are.
    pub fn len(&self) -> usize {
        self.lines.len()
    }

    /// The line with this number, counted from 1, without its line end; an empty one if there is none.
    pub fn line(&self, number: u32) -> &'a [u8] {
        self.lines.line((number as usize).saturating_sub(1))
    }

    /// The first line that defines the macro with this name, in upper or lower case.
    ///
    /// # Errors
    ///
    /// `AllocError` if memory ran out.
    pub fn macro_line(&self, alloc: Global, name: &[u8]) -> Result<Option<u32>, AllocError> {
        let upper = name.to_ascii_uppercase(alloc)?;
        Ok(self.macros.get(upper.as_slice()).copied())
    }
}
