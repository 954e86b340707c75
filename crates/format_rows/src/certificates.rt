//! Reads and writes sizes files and certificates.

use crate::parts::Parts;
use crate::texts::{lines, show_difference};
use cert_check::{
    Cert, CheckFault, Shape, TextFault, check, print_cert, print_sizes, read_cert, read_sizes,
};
use row_text::Row;

fn show_shape(row: &mut Row, shape: &Shape) {
    let mut parts = Parts::new(row.alloc());
    for statement in shape.statements() {
        let mut part = Row::new(row.alloc(), "");
        write!(part, "{statement:?}");
        parts.add(row, &part);
    }
    parts.show(row)
}

/// Prints the statements of a sizes file and whether they are written as another file, or its first bad line.
pub(crate) fn answer_sizes(row: &mut Row) {
    let text = lines(row);
    match read_sizes(row.alloc(), &text) {
        Ok(shape) => {
            let printed = print_sizes(row.alloc(), &shape);
            show_difference(row, printed, &text, "printed otherwise:");
            show_shape(row, &shape)
        }
        Err(fault) => write!(row, " {fault:?}"),
    }
}

fn show_cert(row: &mut Row, cert: &Cert) {
    for k in &cert.order {
        write!(row, " {k}");
    }
    write!(row, " {:?}", cert.verdict)
}

/// Prints the jumps and the verdict of a certificate and whether they are written as another file, or its first bad
/// line.
pub(crate) fn answer_certificate(row: &mut Row) {
    let text = lines(row);
    match read_cert(row.alloc(), &text) {
        Ok(cert) => {
            let printed = print_cert(row.alloc(), &cert);
            show_difference(row, printed, &text, "printed otherwise:");
            show_cert(row, &cert)
        }
        Err(fault) => write!(row, " {fault:?}"),
    }
}

/// Prints the checker's answer for two files.
pub(crate) fn answer_check(row: &mut Row) {
    let sizes = row.until('~');
    let sizes = row.lines_of(sizes);
    let cert = lines(row);
    match check(row.alloc(), &sizes, &cert) {
        Ok(verdict) => write!(row, " {verdict:?}"),
        Err(fault) => write!(row, " {fault:?}"),
    }
}

/// Prints the name of each error of a file, and its sentence.
fn show_text_faults(row: &mut Row) {
    for fault in [TextFault::BadLine(7), TextFault::NoMemory] {
        write!(row, " {fault:?}: {fault};");
    }
}

/// Prints the name of each error, and its sentence.
pub(crate) fn answer_faults(row: &mut Row) {
    show_text_faults(row);
    for fault in [
        CheckFault::BadSizes(2),
        CheckFault::BadCertificate(3),
        CheckFault::NotForced(4),
        CheckFault::NotAJump(5),
        CheckFault::Repeated(6),
        CheckFault::StillShort(7),
        CheckFault::WrongTotal,
        CheckFault::NotOutOfRange(8),
        CheckFault::NoMemory,
    ] {
        write!(row, " {fault:?}: {fault};");
    }
}
