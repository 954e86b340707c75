//! Makes object files of any size, byte by byte.

use std::alloc::{AllocError, Global};

/// `LD DE,X`: three bytes with a fix-up for a word, the address of statement 0.
const HOLE: [u8; 15] = [1, 3, 0, 0x11, 0, 0, 1, 0, 1, 0, 2, 3, 2, 0, 0];

/// What follows the header of an object file.
#[derive(Clone, Copy, PartialEq, Eq)]
pub(crate) enum Kind {
    /// Statements with one fix-up each, and what else belongs there.
    Holes,
    /// Statements, three in eight with a fix-up, and what else belongs there.
    Mixed,
    /// Nothing: the header promises what is not there.
    Nothing,
}

/// What an object file is to have.
#[derive(Drop)]
pub(crate) struct Size {
    pub(crate) kind: Kind,
    pub(crate) statements: u16,
    /// One at least: the entry is the first label. All labels are public.
    pub(crate) labels: u16,
}

/// Answers the bytes of a statement of the mixed kind.
fn mixed(at: u16) -> &'static [u8] {
    match at % 8 {
        0 | 3 => &HOLE,
        // LD A,LOW X
        1 => &[1, 2, 0, 0x3E, 0, 1, 0, 1, 0, 1, 4, 2, 0, 0, 0x13],
        // JP NZ,X
        2 => &[2, 1, 0, 0],
        // DJNZ X
        4 => &[3, 5, 0, 0],
        // DS 128
        5 => &[4, 128, 0, 0],
        // LD C,9
        _ => &[1, 2, 0, 0x0E, 9, 0, 0],
    }
}

fn digit(number: u16) -> u8 {
    b"0123456789"[usize::from(number % 10)]
}

/// Answers the bytes of a label: the number of its statement, and a name of L and its own number.
fn label(at: u16, statement: u16) -> [u8; 9] {
    let [low, high] = statement.to_le_bytes();
    [
        low,
        high,
        6,
        b'L',
        digit(at / 10_000),
        digit(at / 1_000),
        digit(at / 100),
        digit(at / 10),
        digit(at),
    ]
}

/// Answers the header: the module says ORG 0100H, is named M, has an entry and one external.
fn head(size: &Size) -> [u8; 17] {
    let [s0, s1] = size.statements.to_le_bytes();
    let [l0, l1] = size.labels.to_le_bytes();
    [
        0x5A, 0x4D, 0x4F, 0x31, 1, b'M', 3, s0, s1, l0, l1, l0, l1, 1, 0, 0, 0,
    ]
}

fn put_statements(text: &mut Vec<u8>, size: &Size) -> Result<(), AllocError> {
    for at in 0..size.statements {
        text.extend_from_slice(if size.kind == Kind::Holes {
            &HOLE
        } else {
            mixed(at)
        })?;
    }
    Ok(())
}

fn put_labels(text: &mut Vec<u8>, size: &Size) -> Result<(), AllocError> {
    for at in 0..size.labels {
        text.extend_from_slice(&label(at, at.min(size.statements)))?;
    }
    Ok(())
}

fn put_publics(text: &mut Vec<u8>, size: &Size) -> Result<(), AllocError> {
    for at in 0..size.labels {
        text.extend_from_slice(&at.to_le_bytes())?;
    }
    Ok(())
}

/// Appends what follows the header.
fn put_fields(text: &mut Vec<u8>, size: &Size) -> Result<(), AllocError> {
    put_statements(text, size)?;
    put_labels(text, size)?;
    put_publics(text, size)?;
    text.extend_from_slice(b"\x01F")?;
    Ok(())
}

/// Answers the object file of this size.
pub(crate) fn object_of(alloc: Global, size: &Size) -> Result<Vec<u8>, AllocError> {
    let mut text = Vec::from_slice(alloc, &head(size))?;
    if size.kind != Kind::Nothing {
        put_fields(&mut text, size)?;
    }
    Ok(text)
}
