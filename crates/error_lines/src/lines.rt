//! Finds lines of a source by what they define or open.

use crate::source::SourceLines;
use asm_line::{BlockWord, Form, Head, form_of};
use asm_macro::MacroFault;
use asm_module::Why;
use bstr::ByteSlice;
use message_texts::{Opening, closes, opens, token_named, tokens_of};
use source_errors::Finding;
use std::alloc::{AllocError, Global};

/// What a line is looked for by.
#[derive(Clone, Copy)]
pub enum Wanted<'a> {
    /// The EQU of this name.
    Equ(&'a [u8]),
    /// The label of this name.
    Label(&'a [u8]),
    /// An EXTRN with this name.
    External(&'a [u8]),
}

/// Whether a line that begins like this is wanted.
fn is_wanted(form: &Form<'_>, wanted: Wanted<'_>) -> bool {
    match (wanted, form.head) {
        (Wanted::Equ(name), Head::Equ(own)) => own.eq_ignore_ascii_case(name),
        (Wanted::Label(name), _) => match form.label {
            Some(own) => own.eq_ignore_ascii_case(name),
            None => false,
        },
        (Wanted::External(name), Head::Word(word)) => {
            let is_extrn = word.eq_ignore_ascii_case(b"EXTRN")
                || word.eq_ignore_ascii_case(b"EXTERNAL");
            is_extrn && token_named(form.rest, 0, name).is_some()
        }
        _ => false,
    }
}

/// Whether a line has a letter with which each wanted line can be told from most others, without being cut into tokens.
fn may_have(line: &[u8], wanted: Wanted<'_>) -> bool {
    match wanted {
        Wanted::Equ(_) => line.contains_str(b"EQU") || line.contains_str(b"equ"),
        Wanted::Label(_) => line.contains_str(b":"),
        Wanted::External(_) => line.contains_str(b"EXT") || line.contains_str(b"ext"),
    }
}

/// The number of the first line of a source that is wanted, counted from 1.
///
/// # Errors
///
/// `AllocError` if memory ran out.
pub fn first_line(
    alloc: Global,
    source: &SourceLines<'_>,
    wanted: Wanted<'_>,
) -> Result<Option<u32>, AllocError> {
    let mut number = 0u32;
    for _ in 0..source.len() {
        number = number.saturating_add(1);
        let line = source.line(number);
        if may_have(line, wanted) {
            let found = tokens_of(alloc, line)?;
            if is_wanted(&form_of(&found), wanted) {
                return Ok(Some(number));
            }
        }
    }
    Ok(None)
}

/// What a line does with blocks of one kind.
#[derive(Clone, Copy)]
enum Turn {
    Opens,
    /// It opens one by a word of another assembler.
    OpensOther,
    Closes,
    /// It closes one by a word of another assembler.
    ClosesOther,
    Neither,
}

/// What a block word of this assembler does with blocks of one kind.
fn own_turn(word: BlockWord, opening: Opening) -> Turn {
    match (opening, word) {
        (Opening::Condition, BlockWord::If) => Turn::Opens,
        (Opening::Condition, BlockWord::EndIf) => Turn::Closes,
        (Opening::Repetition, BlockWord::Rept) => Turn::Opens,
        (Opening::Repetition, BlockWord::EndM) => Turn::Closes,
        _ => Turn::Neither,
    }
}

/// What a word of another assembler does with blocks of one kind. A macro of the source may have its name.
fn other_turn(
    alloc: Global,
    source: &SourceLines<'_>,
    word: &[u8],
    opening: Opening,
) -> Result<Turn, AllocError> {
    let upper = word.to_ascii_uppercase(alloc)?;
    let text = message_texts::shown(alloc, &upper)?;
    let does_close = closes(opening, &text);
    if !does_close && !opens(opening, &text) || source.macro_line(alloc, &upper)?.is_some() {
        return Ok(Turn::Neither);
    }
    Ok(if does_close {
        Turn::ClosesOther
    } else {
        Turn::OpensOther
    })
}

/// What the line with this number does with blocks of one kind.
fn turn_of(
    alloc: Global,
    source: &SourceLines<'_>,
    number: u32,
    opening: Opening,
) -> Result<Turn, AllocError> {
    let found = tokens_of(alloc, source.line(number))?;
    match form_of(&found).head {
        Head::Block(word) => Ok(own_turn(word, opening)),
        Head::Macro(_) => Ok(match opening {
            Opening::Condition => Turn::Neither,
            Opening::Repetition => Turn::Opens,
        }),
        Head::Word(word) => other_turn(alloc, source, word, opening),
        _ => Ok(Turn::Neither),
    }
}

/// The line before this one that opens the block which this one closes or divides, as its writer meant it, if that is a word of another
/// assembler. An ENDIF may be that of an IF, and still there is one too much since an IFDEF opens none: then it is the last such line.
///
/// # Errors
///
/// `AllocError` if memory ran out.
pub fn other_opener(
    alloc: Global,
    source: &SourceLines<'_>,
    before: u32,
    opening: Opening,
) -> Result<Option<u32>, AllocError> {
    let mut open = Vec::new(alloc);
    let mut last = None;
    let mut number = 0u32;
    for _ in 0..source.len() {
        number = number.saturating_add(1);
        if number >= before {
            break;
        }
        match turn_of(alloc, source, number, opening)? {
            Turn::Opens => open.push(None)?,
            Turn::OpensOther => {
                open.push(Some(number))?;
                last = Some(number);
            }
            Turn::Closes | Turn::ClosesOther => drop(open.pop()),
            Turn::Neither => (),
        }
    }
    Ok(match open.pop() {
        Some(Some(line)) => Some(line),
        Some(None) => last,
        None => None,
    })
}

/// Whether a line is in a MACRO or a REPT, or calls a macro, as far as the words tell. That may be asked of a LOCAL.
///
/// # Errors
///
/// `AllocError` if memory ran out.
pub fn is_in_repetition(
    alloc: Global,
    source: &SourceLines<'_>,
    line: u32,
) -> Result<bool, AllocError> {
    let mut open = 0u32;
    let mut number = 0u32;
    for _ in 0..source.len() {
        number = number.saturating_add(1);
        if number >= line {
            break;
        }
        match turn_of(alloc, source, number, Opening::Repetition)? {
            Turn::Opens | Turn::OpensOther => open = open.saturating_add(1),
            Turn::Closes | Turn::ClosesOther => open = open.saturating_sub(1),
            Turn::Neither => (),
        }
    }
    let found = tokens_of(alloc, source.line(line))?;
    Ok(open > 0 || !matches!(form_of(&found).head, Head::Block(BlockWord::Local)))
}

/// An IF that is open at a line, and its ELSE.
#[derive(Clone, Copy)]
pub struct Divided {
    /// The line of the IF.
    pub opener: u32,
    /// The line of its ELSE.
    pub other: Option<u32>,
}

/// The innermost IF that is open before a line, as far as words of this language tell.
///
/// # Errors
///
/// `AllocError` if memory ran out.
pub fn open_condition(
    alloc: Global,
    source: &SourceLines<'_>,
    before: u32,
) -> Result<Option<Divided>, AllocError> {
    let mut open = Vec::new(alloc);
    let mut number = 0u32;
    for _ in 0..source.len() {
        number = number.saturating_add(1);
        if number >= before {
            break;
        }
        let found = tokens_of(alloc, source.line(number))?;
        match form_of(&found).head {
            Head::Block(BlockWord::If) => open.push(Divided {
                opener: number,
                other: None,
            })?,
            Head::Block(BlockWord::Else) => {
                if let Some(divided) = open.pop() {
                    open.push(Divided {
                        opener: divided.opener,
                        other: divided.other.or(Some(number)),
                    })?;
                }
            }
            Head::Block(BlockWord::EndIf) => drop(open.pop()),
            _ => (),
        }
    }
    Ok(open.pop())
}

/// What closes blocks below a line that opens one.
#[derive(Clone, Copy)]
pub struct Closers {
    /// The last line that closes a block, and the line that opens this.
    pub last: Option<(u32, u32)>,
    /// The first line that closes one by a word of another assembler.
    pub other: Option<u32>,
    /// Whether a line closes the first block, as far as the words tell.
    pub is_closed: bool,
}

/// What closes blocks of one kind from a line on that opens one.
///
/// # Errors
///
/// `AllocError` if memory ran out.
pub fn closers_after(
    alloc: Global,
    source: &SourceLines<'_>,
    opener: u32,
    opening: Opening,
) -> Result<Closers, AllocError> {
    let mut found = Closers {
        last: None,
        other: None,
        is_closed: false,
    };
    let mut open = Vec::new(alloc);
    open.push(opener)?;
    let mut number = 0u32;
    for _ in 0..source.len() {
        number = number.saturating_add(1);
        if number > opener && !found.is_closed {
            match turn_of(alloc, source, number, opening)? {
                Turn::Opens => open.push(number)?,
                Turn::Closes => {
                    if let Some(line) = open.pop() {
                        found.last = Some((number, line));
                    }
                    found.is_closed = open.is_empty();
                }
                Turn::ClosesOther => found.other = found.other.or(Some(number)),
                Turn::OpensOther | Turn::Neither => (),
            }
        }
    }
    Ok(found)
}

/// The line that opens a block by a word of another assembler, such as IFDEF, if the error is that a later line closes or divides that block;
/// None for any other error.
///
/// # Errors
///
/// `AllocError` if memory ran out.
pub fn opener_of(
    alloc: Global,
    source: &SourceLines<'_>,
    finding: &Finding,
) -> Result<Option<u32>, AllocError> {
    if finding.why != Why::Macro(MacroFault::Stray) {
        return Ok(None);
    }
    let found = tokens_of(alloc, &finding.text)?;
    let form = form_of(&found);
    if form.label.is_some() || !form.rest.is_empty() {
        return Ok(None);
    }
    match form.head {
        Head::Block(BlockWord::Else | BlockWord::EndIf) => {
            other_opener(alloc, source, finding.number, Opening::Condition)
        }
        Head::Block(BlockWord::EndM) => {
            other_opener(alloc, source, finding.number, Opening::Repetition)
        }
        _ => Ok(None),
    }
}

/// The word of a line in upper case, as it is shown; empty if the line has none.
///
/// # Errors
///
/// `AllocError` if memory ran out.
pub fn word_in(alloc: Global, line: &[u8]) -> Result<String, AllocError> {
    let found = tokens_of(alloc, line)?;
    match form_of(&found).head {
        Head::Word(word) => {
            let upper = word.to_ascii_uppercase(alloc)?;
            message_texts::shown(alloc, &upper)
        }
        _ => Ok(String::new(alloc)),
    }
}
