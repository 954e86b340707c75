//! Statements that are made from the operands of an instruction.

use asm_line::{Kind, Mark};
use bstr::ByteSlice;
use error_lines::{Case, builds};
use message_texts::{Operand, form_written, halves, joined, shown};
use std::alloc::{AllocError, Global};
use z80_form::Form;

/// The operands of an instruction as they are written, to be put into a pattern.
///
/// A pattern has statements with `/` between them, perhaps two ways with `|` between them, and perhaps a remark after `: `. In the
/// statements, `w` stands for the mnemonic; `1` and `2` for the operands; `m` and `n` for what is between their parentheses; `h` and `l`
/// for the high and the low register of the pair that the first is, and `j` and `k` of the second; `s` and `t` for the operands with one
/// more after IX or IY.
#[derive(Drop)]
pub(crate) struct Written<'c, 'a> {
    pub(crate) case: &'c Case<'a>,
    /// The mnemonic in upper case.
    pub(crate) word: &'c str,
    pub(crate) left: Option<Operand<'a>>,
    pub(crate) right: Option<Operand<'a>>,
}

/// An operand as it is written.
fn whole(alloc: Global, operand: &Operand<'_>) -> Result<Option<String>, AllocError> {
    Ok(Some(joined(alloc, operand.tokens)?))
}

/// What is between the parentheses of an operand.
fn inner(alloc: Global, operand: &Operand<'_>) -> Result<Option<String>, AllocError> {
    Ok(Some(joined(alloc, operand.inner().tokens)?))
}

/// A register of the pair that an operand is.
fn half(alloc: Global, operand: &Operand<'_>, is_high: bool) -> Result<Option<String>, AllocError> {
    let Form::Name(name) = form_written(operand) else {
        return Ok(None);
    };
    match halves(name) {
        Some((high, low)) => Ok(Some(String::from_str(alloc, if is_high { high } else { low })?)),
        None => Ok(None),
    }
}

/// The byte after the one at IX or IY. A displacement is one number or name, so that nothing binds less tightly than the sum.
fn next(alloc: Global, operand: &Operand<'_>) -> Result<Option<String>, AllocError> {
    let inside = operand.inner();
    let written = joined(alloc, inside.tokens)?;
    match inside.tokens {
        [_] => Ok(Some(format!(in alloc; "({written}+1)")?)),
        [index, sign, distance] => match (sign.kind, distance.kind) {
            (Kind::Mark(Mark::Plus), Kind::Number(number)) => {
                let index = shown(alloc, index.text)?;
                let following = number.saturating_add(1);
                Ok(Some(format!(in alloc; "({index}+{following})")?))
            }
            _ => Ok(Some(format!(in alloc; "({written}+1)")?)),
        },
        _ => Ok(None),
    }
}

/// What a letter of a pattern stands for in an operand.
fn part_of(
    alloc: Global,
    letter: u8,
    operand: Option<&Operand<'_>>,
) -> Result<Option<String>, AllocError> {
    let Some(operand) = operand else {
        return Ok(None);
    };
    match letter {
        b'm' | b'n' => inner(alloc, operand),
        b'h' | b'j' => half(alloc, operand, true),
        b'l' | b'k' => half(alloc, operand, false),
        b's' | b't' => next(alloc, operand),
        _ => whole(alloc, operand),
    }
}

/// Statements as a help lists them.
fn listed(alloc: Global, statements: &[String]) -> Result<String, AllocError> {
    let mut text = String::new(alloc);
    for (at, statement) in statements.iter().enumerate() {
        if at > 0 {
            let is_last = at.saturating_add(1) == statements.len();
            text.push_str(if is_last { " and " } else { ", " })?;
        }
        text.push_str("`")?;
        text.push_str(statement)?;
        text.push_str("`")?;
    }
    Ok(text)
}

/// The bytes before a mark, and those after it; all bytes and none, if they have no such mark.
fn cut<'p>(bytes: &'p [u8], mark: &[u8]) -> (&'p [u8], &'p [u8]) {
    match bytes.split_once_str(mark) {
        Some(parts) => parts,
        None => (bytes, &[]),
    }
}

impl Written<'_, '_> {
    /// What a letter of a pattern stands for; None if there is no such thing.
    fn part(&self, letter: u8) -> Result<Option<String>, AllocError> {
        let alloc = self.case.alloc;
        match letter {
            b'w' => Ok(Some(String::from_str(alloc, self.word)?)),
            b'1' | b'm' | b'h' | b'l' | b's' => part_of(alloc, letter, self.left.as_ref()),
            b'2' | b'n' | b'j' | b'k' | b't' => part_of(alloc, letter, self.right.as_ref()),
            _ => Ok(Some(shown(alloc, &[letter])?)),
        }
    }

    /// A statement of a pattern; None if it has something that there is not.
    fn statement(&self, pattern: &[u8]) -> Result<Option<String>, AllocError> {
        let mut text = String::new(self.case.alloc);
        for letter in pattern {
            match self.part(*letter)? {
                Some(part) => text.push_str(&part)?,
                None => return Ok(None),
            }
        }
        Ok(Some(text))
    }

    /// One way of a pattern, as a help lists it; None if a statement of it does not build.
    fn way(&self, pattern: &[u8]) -> Result<Option<String>, AllocError> {
        let alloc = self.case.alloc;
        let mut statements = Vec::new(alloc);
        for part in pattern.split_str(b"/") {
            match self.statement(part)? {
                Some(text) if builds(self.case, text.as_bytes())? => statements.push(text)?,
                _ => return Ok(None),
            }
        }
        Ok(Some(listed(alloc, &statements)?))
    }

    /// What a pattern says of these operands; None if a statement of it does not build.
    pub(crate) fn filled(&self, pattern: &str) -> Result<Option<String>, AllocError> {
        let alloc = self.case.alloc;
        let (ways, remark) = cut(pattern.as_bytes(), b": ");
        let (first, other) = cut(ways, b"|");
        let Some(mut text) = self.way(first)? else {
            return Ok(None);
        };
        if !other.is_empty() {
            let Some(way) = self.way(other)? else {
                return Ok(None);
            };
            text.push_str(", or ")?;
            text.push_str(&way)?;
        }
        if !remark.is_empty() {
            text.push_str(" ")?;
            text.push_str(&shown(alloc, remark)?)?;
        }
        Ok(Some(text))
    }
}
