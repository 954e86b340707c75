//! Makes random instructions and their source text.

use crate::draw::Draw;
use crate::expression::{Scope, text_of};
use std::alloc::{AllocError, Global};
use z80_instr::Instr;
use z80_table::decode;

/// Four random bytes, which begin with a prefix in two of three cases.
fn random_bytes(draw: &mut Draw) -> [u8; 4] {
    let [a, b, c, d] = [draw.byte(), draw.byte(), draw.byte(), draw.byte()];
    match draw.below(12) {
        0 | 1 => [0xCB, b, c, d],
        2 | 3 | 4 => [0xED, 0x40 + b % 128, c, d],
        5 => [0xDD, b, c, d],
        6 => [0xFD, b, c, d],
        7 => [0xDD, 0xCB, c, d],
        8 => [0xFD, 0xCB, c, d],
        _ => [a, b, c, d],
    }
}

/// A random instruction of the table, with random numbers.
pub(crate) fn random_code(draw: &mut Draw) -> Instr {
    for _ in 0..30 {
        if let Ok((instr, _)) = decode(&random_bytes(draw)) {
            return instr;
        }
    }
    Instr::Nop
}

/// The text of an instruction, and whether it has a label as its word.
#[derive(Drop)]
pub(crate) struct Coded {
    pub(crate) text: String,
    pub(crate) has_label: bool,
}

/// The value of a number, hexadecimal with an H at the end or decimal, with a sign or without.
fn value_of(digits: &[u8]) -> u16 {
    let base = if digits.ends_with(b"H") { 16 } else { 10 };
    let mut value: u16 = 0;
    for digit in digits {
        let worth = match *digit {
            b'0'..=b'9' => *digit - b'0',
            b'A'..=b'F' => *digit - b'A' + 10,
            _ => continue,
        };
        value = value.wrapping_mul(base).wrapping_add(u16::from(worth));
    }
    if digits.starts_with(b"-") {
        0u16.wrapping_sub(value)
    } else {
        value
    }
}

/// What an instruction gets in place of its numbers.
#[derive(Clone, Copy)]
pub(crate) struct Numbers<'a> {
    pub(crate) scope: Scope<'a>,
    /// The text of a label, in place of a word.
    pub(crate) label: Option<&'a str>,
}

/// Adds another way to write a number. A word has at least four digits and an H.
fn put_number(
    alloc: Global,
    draw: &mut Draw,
    numbers: &Numbers<'_>,
    digits: &[u8],
    coded: &mut Coded,
) -> Result<(), AllocError> {
    if digits.is_empty() {
        return Ok(());
    }
    if digits.starts_with(b"+") || digits.starts_with(b"-") {
        coded.text.push_str("+")?;
    }
    match numbers.label {
        Some(label) if digits.len() >= 5 => {
            coded.has_label = true;
            coded.text.push_str(label)?;
        }
        _ => {
            let text = text_of(alloc, draw, numbers.scope, value_of(digits))?;
            coded.text.push_str(&text)?;
        }
    }
    Ok(())
}

/// The text of an instruction, with other ways to write its numbers. Distances of relative jumps stay as they are.
pub(crate) fn code_text(
    alloc: Global,
    draw: &mut Draw,
    instr: Instr,
    numbers: &Numbers<'_>,
) -> Result<Coded, AllocError> {
    let plain = format!(in alloc; "{instr}")?;
    let mut coded = Coded {
        text: String::new(alloc),
        has_label: false,
    };
    if plain.as_bytes().contains(&b'$') {
        coded.text.push_str(&plain)?;
        return Ok(coded);
    }
    let small = draw.one_in(4);
    let mut digits = Vec::new(alloc);
    for letter in plain.chars() {
        let goes_on = !digits.is_empty() && letter.is_ascii_alphanumeric();
        let byte = (u32::from(letter) % 128) as u8;
        if goes_on || matches!(letter, '0'..='9' | '+' | '-') {
            digits.push(byte)?;
            continue;
        }
        put_number(alloc, draw, numbers, &digits, &mut coded)?;
        digits.clear();
        coded.text.push(if small {
            letter.to_ascii_lowercase()
        } else {
            letter
        })?;
    }
    put_number(alloc, draw, numbers, &digits, &mut coded)?;
    Ok(coded)
}
