//! The word that is meant by one that is not known, or that does not take its operands.

use crate::near::differ_little;
use asm_line::{BlockWord, Head, Kind, Token, form_of, is_word};
use asm_spell::DIRECTIVES;
use error_lines::{Case, do_build, is_expression};
use message_texts::joined;
use std::alloc::{AllocError, Global};
use z80_form::MNEMONICS;

/// The most bytes of a word that is looked at. No word of the language is longer.
const LONGEST: usize = 8;

/// The fewest.
const SHORTEST: usize = 2;

/// The words of the language that are neither mnemonics nor directives.
const OTHER_WORDS: [&str; 8] = [
    "EQU", "MACRO", "LOCAL", "REPT", "IF", "ELSE", "ENDIF", "ENDM",
];

/// Words of other assemblers, and the words of the language that do the same. Other words of the language are nearer to them.
const SAME: [(&[u8], &str); 2] = [(b"SHL", "SLA"), (b"SHR", "SRL")];

/// The word of the language that does what a word of another assembler does, if the line is one of the language with it.
fn same_word(case: &Case<'_>, written: &[u8]) -> Result<Option<&'static str>, AllocError> {
    for (own, word) in &SAME {
        if *own == written && fits(case, word.as_bytes())? {
            return Ok(Some(*word));
        }
    }
    Ok(None)
}

/// Whether the line is `NOT A` or only NOT, which are CPL here.
fn is_complement(case: &Case<'_>, written: &[u8]) -> bool {
    let is_on_a = match case.form.rest {
        [] => true,
        [token] => is_word(b"A", token),
        _ => false,
    };
    is_on_a && written == b"NOT".as_slice()
}

/// How a word of the language differs from one that is written, by how likely that is.
#[derive(Clone, Copy, Debug, PartialEq, Eq)]
enum Difference {
    /// Two letters are exchanged.
    Exchanged,
    /// It has a letter more.
    More,
    /// It has a letter less.
    Less,
    /// One letter is another one.
    Other,
}

/// The differences, the likely ones first.
const DIFFERENCES: [Difference; 4] = [
    Difference::Exchanged,
    Difference::More,
    Difference::Less,
    Difference::Other,
];

/// The sum of the bytes of a word, which the order of its letters does not change.
fn sum(word: &[u8]) -> u32 {
    let mut sum = 0u32;
    for byte in word {
        sum = sum.saturating_add(u32::from(*byte));
    }
    sum
}

/// How a word of the language differs from one that is written and that differs from it little.
fn difference_between(written: &[u8], word: &[u8]) -> Difference {
    if word.len() > written.len() {
        Difference::More
    } else if word.len() < written.len() {
        Difference::Less
    } else if sum(word) == sum(written) {
        Difference::Exchanged
    } else {
        Difference::Other
    }
}

/// Whether the line is one of the language if its word is this one.
fn fits(case: &Case<'_>, word: &[u8]) -> Result<bool, AllocError> {
    let own = case.word_at();
    let mut tokens = Vec::with_capacity(case.alloc, case.tokens.len())?;
    for (at, token) in case.tokens.iter().enumerate() {
        if at == own {
            let kind = Kind::Name;
            tokens.push(Token { kind, text: word })?;
        } else {
            tokens.push(*token)?;
        }
    }
    let form = form_of(&tokens);
    match form.head {
        Head::Block(BlockWord::If | BlockWord::Rept) => is_expression(case, form.rest),
        Head::Block(BlockWord::Else | BlockWord::EndIf | BlockWord::EndM) => {
            Ok(form.rest.is_empty())
        }
        Head::Block(_) => Ok(false),
        _ => do_build(case, &tokens),
    }
}

/// The words of the language that differ little from one that is written. The parser tries each of them afterwards, since these lists do
/// not say what a word takes.
fn near_words(alloc: Global, written: &[u8]) -> Result<Vec<&'static str>, AllocError> {
    let mut near = Vec::new(alloc);
    for word in MNEMONICS
        .iter()
        .chain(DIRECTIVES.iter())
        .chain(OTHER_WORDS.iter())
    {
        let bytes = word.as_bytes();
        if bytes != written && differ_little(bytes, written) {
            near.push(*word)?;
        }
    }
    Ok(near)
}

/// The likeliest word with which the line is one of the language.
fn nearest(case: &Case<'_>, written: &[u8]) -> Result<Option<&'static str>, AllocError> {
    if let Some(word) = same_word(case, written)? {
        return Ok(Some(word));
    }
    let near = near_words(case.alloc, written)?;
    for wanted in &DIFFERENCES {
        for word in &near {
            let bytes = word.as_bytes();
            if difference_between(written, bytes) == *wanted && fits(case, bytes)? {
                return Ok(Some(*word));
            }
        }
    }
    Ok(None)
}

/// The statement that is meant by the line, if its word with one letter more, less or other, or with two exchanged, takes the operands that
/// are written.
pub(crate) fn meant(case: &Case<'_>) -> Result<Option<String>, AllocError> {
    let alloc = case.alloc;
    let upper = case.word().to_ascii_uppercase(alloc)?;
    if upper.len() < SHORTEST || upper.len() > LONGEST {
        return Ok(None);
    }
    if is_complement(case, &upper) {
        return Ok(Some(String::from_str(alloc, "CPL")?));
    }
    let Some(word) = nearest(case, &upper)? else {
        return Ok(None);
    };
    if case.form.rest.is_empty() {
        return Ok(Some(String::from_str(alloc, word)?));
    }
    let rest = joined(alloc, case.form.rest)?;
    Ok(Some(format!(in alloc; "{word} {rest}")?))
}
