//! The rows of tests as text: expands what a row abbreviates in braces, and prints bytes in the form that a row can contain.
#![tactic(auto)]

mod row;

pub use row::Row;
use std::alloc::Global;
use std::io::Write;

/// Writes one copy of a text. In it, `|` ends a line, `#` is the number of this copy, from 0, and `^` is the next number.
fn put_copy(out: &mut Vec<u8>, text: &[u8], number: u32) -> Result<(), anyhow::Error> {
    for byte in text {
        match byte {
            b'|' => out.push(b'\n')?,
            b'#' => write!(out, "{number}")?,
            b'^' => write!(out, "{}", number.saturating_add(1))?,
            _ => out.push(*byte)?,
        }
    }
    Ok(())
}

/// Writes this many copies of a text.
fn put_copies(out: &mut Vec<u8>, count: &str, text: &[u8]) -> Result<(), anyhow::Error> {
    for number in 0..u32::from_str_radix(count, 10)? {
        put_copy(out, text, number)?;
    }
    Ok(())
}

/// Writes a byte, given in hexadecimal, this many times.
fn put_bytes(out: &mut Vec<u8>, count: &str, byte: &str) -> Result<(), anyhow::Error> {
    let byte = u8::from_str_radix(byte, 16)?;
    for _ in 0..u32::from_str_radix(count, 10)? {
        out.push(byte)?;
    }
    Ok(())
}

/// Writes what is in braces: `N*TEXT` is N copies of a text, `NxHH` is N times the byte HH in hexadecimal, and `HH` is that byte.
fn put_braced(out: &mut Vec<u8>, braced: &str) -> Result<(), anyhow::Error> {
    if let Some((count, text)) = braced.split_once('*') {
        return put_copies(out, count, text.as_bytes());
    }
    match braced.split_once('x') {
        Some((count, byte)) => put_bytes(out, count, byte),
        None => put_bytes(out, "1", braced),
    }
}

/// The bytes of a row, with everything in braces expanded.
pub fn written_out(alloc: Global, row: &str) -> Result<Vec<u8>, anyhow::Error> {
    let mut out = Vec::new(alloc);
    for part in row.split('{') {
        match part.split_once('}') {
            Some((braced, plain)) => {
                put_braced(&mut out, braced)?;
                out.extend_from_slice(plain.as_bytes())?;
            }
            None => out.extend_from_slice(part.as_bytes())?,
        }
    }
    Ok(out)
}

/// Prints a text. A brace, and each byte that is not printable ASCII, is printed in braces in hexadecimal.
pub fn show_text<W: Write>(out: &mut W, text: &[u8]) -> Result<(), anyhow::Error> {
    for byte in text {
        match byte {
            b' '..=b'z' | b'|' | b'~' => out.write_all(&[*byte])?,
            _ => write!(out, "{{{byte:02X}}}")?,
        }
    }
    Ok(())
}

/// A byte, and how often it is repeated.
#[derive(Clone, Copy)]
struct Run {
    byte: u8,
    count: usize,
}

/// Prints equal bytes. More than eight are printed in braces as their count and the byte.
fn show_run<W: Write>(out: &mut W, run: Run) -> Result<(), anyhow::Error> {
    if run.count > 8 {
        return Ok(write!(out, "{{{}x{:02X}}}", run.count, run.byte)?);
    }
    for _ in 0..run.count {
        show_text(out, &[run.byte])?;
    }
    Ok(())
}

/// Prints bytes as `show_text` does, except that more than eight equal ones are printed as `{9x41}`.
pub fn show_runs<W: Write>(out: &mut W, bytes: &[u8]) -> Result<(), anyhow::Error> {
    let mut run = Run { byte: 0, count: 0 };
    for byte in bytes {
        if *byte != run.byte {
            show_run(out, run)?;
            run = Run {
                byte: *byte,
                count: 0,
            };
        }
        run.count = run.count.saturating_add(1);
    }
    show_run(out, run)
}
