//! Prints bytes, lines and errors, as an answer shows them.

use cert_check::check;
use row_text::Row;
use zlink::{BuildFault, LinkFault};

/// Prints the same byte `count` times.
fn show_run(row: &mut Row, count: u32, byte: u8) {
    if count > 4 {
        return write!(row, "{{{count}x{byte:02X}}}");
    }
    for _ in 0..count {
        write!(row, "{byte:02X}");
    }
}

/// Prints bytes in hexadecimal. Five or more equal bytes are printed in braces, with their count.
pub(crate) fn show_bytes(row: &mut Row, bytes: &[u8]) {
    let mut count = 0u32;
    for (at, byte) in bytes.iter().enumerate() {
        count = count.saturating_add(1);
        if bytes.get(at.saturating_add(1)) != Some(byte) {
            show_run(row, count, *byte);
            count = 0;
        }
    }
}

/// Prints bytes in hexadecimal, however many are equal.
pub(crate) fn show_digits(row: &mut Row, bytes: &[u8]) {
    write!(row, " ");
    for byte in bytes {
        write!(row, "{byte:02X}");
    }
}

/// Prints lines, with `|` for the end of each.
pub(crate) fn show_lines(row: &mut Row, text: &[u8]) {
    write!(row, " ");
    for byte in text {
        if *byte == b'\n' {
            write!(row, "|");
        } else {
            row.write_text(&[*byte]);
        }
    }
}

/// Prints the checker's answer for a sizes file and a certificate.
pub(crate) fn show_checked(row: &mut Row, sizes: &[u8], cert: &[u8]) {
    match check(row.alloc(), sizes, cert) {
        Ok(verdict) => write!(row, " {verdict:?}"),
        Err(fault) => write!(row, " {fault:?}"),
    }
}

/// Prints why modules make no file.
fn show_link_fault(row: &mut Row, fault: &LinkFault) {
    match fault {
        LinkFault::NoFit { why, sizes, cert } => {
            write!(row, " {why:?}; check");
            show_checked(row, sizes, cert)
        }
        _ => write!(row, " {fault:?}"),
    }
}

/// Prints why no file is built.
pub(crate) fn show_fault(row: &mut Row, fault: &BuildFault) {
    match fault {
        BuildFault::Asm { source, fault } => {
            let (line, why) = (fault.line, fault.why);
            write!(row, " source {source}, line {line}: {why:?}")
        }
        BuildFault::Link(fault) => show_link_fault(row, fault),
    }
}
