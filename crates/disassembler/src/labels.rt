//! Reads the labels file: a line `AAAA PATH NAME` for each label.

ghost use Rattle.std.specs.Prelude.{◌≡◌, is_some, map};
ghost use Rattle.std.specs.List.{after_last, list_all, list_any};
ghost use Rattle.asm_line.specs.Classes.{continues_name};
ghost use Rattle.std.specs.Option.{option_map};
ghost use Rattle.disassembler.specs.Labels.{digit_value, first_bad_label, first_bad_line, is_label_line, is_path_and_name, is_space, is_upper_digit, is_whole_name, label_address, label_name};
ghost use Rattle.disassembler.specs.Reading.{AreLabels};

use crate::fault::DisassemblyFault;
use asm_line::{begins_name, continues_name};
use asm_macro::source_part;
use bstr::ByteSlice;
use std::alloc::{AllocError, Global};

/// A label of a labels file.
#[derive(Clone, Copy)]
pub struct Label<'a> {
    pub address: u16,
    pub name: &'a [u8],
}

/// Whether a byte is a hexadecimal digit in upper case.
pub(crate) fn is_upper_digit(byte: u8) -> bool
    ensures { result ≡ is_upper_digit byte }
{
    byte.is_ascii_digit() || matches!(byte, b'A'..=b'F')
}

/// Whether all bytes can come after the first byte of a name.
fn continues(bytes: &[u8]) -> bool
    ensures { result ≡ list_all continues_name bytes.now }
{
    bytes.iter().all(|b| continues_name(*b))
}

/// Whether all bytes are one name.
fn is_one_name(bytes: &[u8]) -> bool
    ensures { result ≡ is_whole_name bytes.now }
{
    match bytes {
        [first, more @ ..] => begins_name(*first) && continues(more),
        [] => false,
    }
}

/// Whether one of the bytes is a space.
fn has_space(bytes: &[u8]) -> bool
    ensures { result ≡ list_any is_space bytes.now }
{
    bytes.contains(&b' ')
}

/// Answers what comes after the last space, or everything if there is no space.
fn after_last_space(bytes: &[u8]) -> &[u8]
    ensures { result.now ≡ after_last is_space bytes.now }
{
    let mut from = bytes.len();
    while from > 0 && bytes[from - 1] != b' ' {
        from -= 1;
    }
    &bytes[from..]
}

/// Answers the name of `PATH NAME`.
fn name_after_path(bytes: &[u8]) -> Option<&[u8]>
    ensures { is_some result ≡ is_path_and_name bytes.now }
{
    let [_, more @ ..] = bytes else {
        return None;
    };
    let name = after_last_space(more);
    if has_space(more) && is_one_name(name) {
        Some(name)
    } else {
        None
    }
}

/// Answers the name of a line `AAAA PATH NAME`, if it is one.
fn name_of_line(line: &[u8]) -> Option<&[u8]>
    ensures { is_some result ≡ is_label_line line.now }
{
    match line {
        [a, b, c, d, e, rest @ ..] => {
            let has_address = is_upper_digit(*a)
                && is_upper_digit(*b)
                && is_upper_digit(*c)
                && is_upper_digit(*d)
                && *e == b' ';
            if has_address {
                name_after_path(rest)
            } else {
                None
            }
        }
        _ => None,
    }
}

/// The value of a hexadecimal digit in upper case.
fn digit_value(byte: u8) -> u16
    ensures { result ≡ digit_value byte }
{
    let code = u16::from(byte);
    if code < 0x3A {
        code % 16
    } else {
        (code + 9) % 16
    }
}

/// Answers the number that a line `AAAA PATH NAME` begins with.
fn label_address(line: &[u8]) -> u16
    ensures { result ≡ label_address line.now }
{
    match line {
        [a, b, c, d, ..] => {
            4096 * digit_value(*a) + 256 * digit_value(*b) + 16 * digit_value(*c) + digit_value(*d)
        }
        _ => 0,
    }
}

/// Answers the name that a line `AAAA PATH NAME` ends with.
fn label_name(line: &[u8]) -> &[u8]
    ensures { result.now ≡ label_name line.now }
{
    after_last_space(line.get(6..).unwrap_or(&[]))
}

/// Answers the label of a line `AAAA PATH NAME`.
fn label_of(line: &[u8]) -> Label<'_>
    ensures address { result.address ≡ label_address line.now }
    ensures name { result.name.now ≡ label_name line.now }
{
    Label {
        address: label_address(line),
        name: label_name(line),
    }
}

/// Answers the first line that is not one of a label, counted from 1.
fn first_bad_line(text: &[u8]) -> Option<usize>
    ensures { result ≡ first_bad_line text.now }
{
    let mut number = 0;
    for line in source_part(text).lines() {
        number += 1;
        if name_of_line(line).is_none() {
            return Some(number);
        }
    }
    None
}

/// Answers the first line of the labels file, if there is one, that is not one of a label.
pub(crate) fn first_bad_label(text: Option<&[u8]>) -> Option<usize>
    ensures { result ≡ first_bad_label (option_map (λ text. text.now) text.entry) }
{
    first_bad_line(text?)
}

/// Answers the labels of a labels file without a bad line, at most `most` of them.
pub(crate) fn first_labels(
    alloc: Global,
    text: Option<&[u8]>,
    most: usize,
) -> Result<Vec<Label<'_>>, AllocError> {
    let mut labels = Vec::new(alloc);
    let Some(text) = text else {
        return Ok(labels);
    };
    for line in source_part(text).lines() {
        if labels.len() == most {
            return Ok(labels);
        }
        labels.push(label_of(line))?;
    }
    Ok(labels)
}

/// Answers the labels of a labels file, in the order of its lines.
///
/// # Errors
///
/// [`DisassemblyFault::BadLabels`] with the first line, counted from 1, that is not one of a label; [`DisassemblyFault::NoMemory`].
pub fn read_labels(alloc: Global, text: &[u8]) -> Result<Vec<Label<'_>>, DisassemblyFault<'_>>
    ensures { AreLabels text.now result }
{
    if let Some(line) = first_bad_line(text) {
        return Err(DisassemblyFault::BadLabels(line));
    }
    let mut labels = Vec::new(alloc);
    for line in source_part(text).lines() {
        labels.push(label_of(line))?;
    }
    Ok(labels)
}
