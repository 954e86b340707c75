//! Reads the bytes of a listing, in its order.

use std::alloc::{AllocError, Global};

/// The value of a digit.
fn digit(byte: u8) -> Option<u32> {
    match byte {
        b'0'..=b'9' => Some(u32::from(byte - b'0')),
        b'A'..=b'F' => Some(u32::from(byte - b'A') + 10),
        _ => None,
    }
}

/// The bytes in hexadecimal digits, two for each byte, up to a blank.
fn bytes_of(alloc: Global, digits: &[u8]) -> Result<Vec<u8>, AllocError> {
    let mut bytes = Vec::new(alloc);
    for pair in digits.chunks(2) {
        if let [high, low] = pair
            && let Some(high) = digit(*high)
            && let Some(low) = digit(*low)
        {
            bytes.push(((16 * (high % 16) + low % 16) % 256) as u8)?;
        }
    }
    Ok(bytes)
}

/// The bytes in the rows of a listing, or None if the address of a row is not that of its first byte. A row has four digits, two blanks,
/// and eight characters for up to four bytes.
pub(crate) fn listed(alloc: Global, listing: &[u8]) -> Result<Option<Vec<u8>>, AllocError> {
    let mut all: Vec<u8> = Vec::new(alloc);
    for row in listing.split(|byte| *byte == b'\n') {
        let (Some(address), Some(digits)) = (row.get(..4), row.get(6..14)) else {
            continue;
        };
        if address.starts_with(b" ") {
            continue;
        }
        let place = all.len().saturating_add(0x100);
        let wanted = [(place / 256 % 256) as u8, (place % 256) as u8];
        if bytes_of(alloc, address)?.as_slice() != wanted.as_slice() {
            return Ok(None);
        }
        all.extend_from_slice(&bytes_of(alloc, digits)?)?;
    }
    Ok(Some(all))
}
