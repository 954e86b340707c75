//! Rows that assemble a source.

use asm_module::{
    AsmFault, Lines, MacroFault, StmtFault, Why, assemble, assemble_listed, assemble_with,
};
use row_text::Row;
use std::alloc::Global;
use zmo_object::write;

/// Prints the number of each statement's line, and of the last line that is listed.
fn show_lines(row: &mut Row, lines: &Lines) {
    write!(row, "lines");
    for line in &lines.each {
        write!(row, " {line}");
    }
    writeln!(row, " of {}", lines.last)
}

/// Prints the first error of a source.
fn show_fault(row: &mut Row, fault: AsmFault) {
    write!(row, "line {}: ", fault.line);
    match fault.why {
        Why::Macro(MacroFault::Scan(why)) => writeln!(row, "{why:?}"),
        Why::Macro(MacroFault::Expr(why)) | Why::Stmt(StmtFault::Expr(why)) => {
            writeln!(row, "{why:?}")
        }
        Why::Macro(why) => writeln!(row, "{why:?}"),
        Why::Stmt(why) => writeln!(row, "{why:?}"),
        why => writeln!(row, "{why:?}"),
    }
}

/// The object file of a source in which no `JR` may grow, by the call without lines. None if it fails.
fn object_alone(alloc: Global, name: &[u8], text: &[u8]) -> Option<Vec<u8>> {
    let module = assemble(alloc, name, text).ok()?;
    write(alloc, &module).ok()
}

/// An object file, and the lines of its statements.
#[derive(Drop)]
struct Object {
    bytes: Vec<u8>,
    lines: Lines,
}

/// The object file of a source in which no `JR` may grow. None if this fails.
fn object_listed(alloc: Global, name: &[u8], text: &[u8]) -> Option<Object> {
    let (module, lines) = assemble_listed(alloc, name, text).ok()?;
    let bytes = write(alloc, &module).ok()?;
    Some(Object { bytes, lines })
}

/// Prints a line if the call without lines answers another module. A failure is refused.
fn compare_alone(row: &mut Row, name: &[u8], text: &[u8], object: &Object) {
    match object_alone(row.alloc(), name, text) {
        Some(bytes) => {
            if bytes != object.bytes {
                writeln!(row, "alone it is another module");
            }
        }
        None => row.refuse("alone it is no module"),
    }
}

/// Prints a line if the call that lets no `JR` grow answers another module, or other lines. A failure is refused.
fn compare_listed(row: &mut Row, name: &[u8], text: &[u8], object: &Object) {
    let Some(other) = object_listed(row.alloc(), name, text) else {
        return row.refuse("with its lines it is no module");
    };
    if other.bytes != object.bytes {
        writeln!(row, "with its lines it is another module");
    }
    if other.lines.each != object.lines.each || other.lines.last != object.lines.last {
        writeln!(row, "its statements come from other lines");
    }
}

/// Prints an object file, and whether the calls that let no `JR` grow answer the same if none may.
fn show_object(row: &mut Row, name: &[u8], text: &[u8], grow: bool, object: &Object) {
    match hex::encode(row.alloc(), &object.bytes) {
        Ok(digits) => writeln!(row, "{digits}"),
        Err(_) => row.refuse("no memory"),
    }
    if !grow {
        compare_alone(row, name, text, object);
        compare_listed(row, name, text, object);
    }
    show_lines(row, &object.lines)
}

/// Prints the object file of a source, or its first error.
pub(crate) fn answer_assembled(row: &mut Row, text: &[u8]) {
    let name = row.until(' ');
    let name = row.bytes_of(name);
    let grow = row.until(' ') == "grow";
    match assemble_with(row.alloc(), &name, text, grow) {
        Ok((module, lines)) => match write(row.alloc(), &module) {
            Ok(bytes) => show_object(row, &name, text, grow, &Object { bytes, lines }),
            Err(_) => row.refuse("no memory"),
        },
        Err(fault) => show_fault(row, fault),
    }
}

/// Prints how many statements the module of a source has, and the last line that is listed; or its first error.
pub(crate) fn answer_count(row: &mut Row, text: &[u8]) {
    let name = row.until(' ');
    let grow = row.until(' ') == "grow";
    match assemble_with(row.alloc(), name.as_bytes(), text, grow) {
        Ok((module, lines)) => {
            let count = module.statements.len();
            writeln!(row, "{count} of {}", lines.last)
        }
        Err(fault) => show_fault(row, fault),
    }
}
