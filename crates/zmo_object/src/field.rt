//! Reads fields from the front of bytes: each function answers the field's value and the bytes after it.

ghost use Rattle.zmo_object.specs.Fields.Field.{FieldReturns, byte_field, word_field, number_at, bytes_field, counted_at};

use crate::field_fault::FieldFault;
use byteorder::{ByteOrder, LittleEndian};

/// Reads a byte.
pub fn byte(bytes: &[u8]) -> Result<(u8, &[u8]), FieldFault>
    ensures { FieldReturns (λ x. (x.0, x.1.now)) result (byte_field bytes.now) }
{
    match bytes {
        [first, rest @ ..] => Ok((*first, rest)),
        [] => Err(FieldFault::Truncated),
    }
}

/// Reads a number of two bytes, the low one first.
pub fn word(bytes: &[u8]) -> Result<(u16, &[u8]), FieldFault>
    ensures { FieldReturns (λ x. (x.0, x.1.now)) result (word_field bytes.now) }
{
    if bytes.len() < 2 {
        return Err(FieldFault::Truncated);
    }
    let (front, rest) = bytes.split_at(2);
    Ok((LittleEndian::read_u16(front), rest))
}

/// Reads a number of two bytes, which has to be at least `least` and below `limit`.
pub fn number(least: usize, limit: usize, bytes: &[u8]) -> Result<(u16, &[u8]), FieldFault>
    ensures { FieldReturns (λ x. (x.0, x.1.now)) result (number_at least limit bytes.now) }
{
    let (number, rest) = word(bytes)?;
    if usize::from(number) < least || usize::from(number) >= limit {
        return Err(FieldFault::BadField(bytes.len()));
    }
    Ok((number, rest))
}

/// Reads `len` bytes.
pub fn run(len: usize, bytes: &[u8]) -> Result<(&[u8], &[u8]), FieldFault>
    ensures { FieldReturns (λ x. (x.0.now, x.1.now)) result (bytes_field len bytes.now) }
{
    if bytes.len() < len {
        return Err(FieldFault::Truncated);
    }
    Ok(bytes.split_at(len))
}

/// Reads a length in one byte, and then this many bytes.
pub fn counted(bytes: &[u8]) -> Result<(&[u8], &[u8]), FieldFault>
    ensures { FieldReturns (λ x. (x.0.now, x.1.now)) result (counted_at bytes.now) }
{
    let (len, rest) = byte(bytes)?;
    run(usize::from(len), rest)
}
