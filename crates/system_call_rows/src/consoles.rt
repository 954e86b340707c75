//! Rows of terminals: bytes that are put, and lines that are read.

use crate::machine::{Keyboard, console_of, good_console};
use crate::memory::put;
use crate::writers::Scripted;
use cpm_console::{Console, ConsoleError, StreamConsole, Terminal};
use host::{MemorySink, WatchedSink};
use row_text::Row;
use z80_cpu::Memory;

/// A terminal with the cursor at a column.
fn terminal_at(column: u16, console: Keyboard) -> Terminal<Keyboard> {
    let mut terminal = Terminal::new(console);
    terminal.column = column;
    terminal
}

/// Prints all bytes that a terminal put.
fn show_put(row: &mut Row, terminal: Terminal<Keyboard>) {
    let Terminal { console, .. } = terminal;
    row.write_runs(console.into_console().output())
}

/// Puts bytes, and prints each fault.
fn put_text<C: Console>(row: &mut Row, terminal: &mut Terminal<C>, text: &[u8]) {
    for byte in text {
        if let Err(error) = terminal.put_char(*byte) {
            write!(row, " {error:?}");
        }
    }
}

/// Puts bytes at a column, and prints the column after them, how often that failed, and what was put.
pub(crate) fn answer_put(row: &mut Row) {
    let column = row.short();
    let fails = row.word();
    let text = row.bytes();
    let nothing = Vec::new(row.alloc());
    let mut terminal = terminal_at(column, console_of(row, fails, nothing));
    put_text(row, &mut terminal, &text);
    write!(row, " column {}", terminal.column);
    show_put(row, terminal)
}

/// Prints the line that was read into a buffer.
fn show_line(row: &mut Row, answer: Result<Option<u8>, ConsoleError>, buffer: &[u8; 255]) {
    match answer {
        Ok(Some(count)) => row.write_runs(&buffer[..usize::from(count)]),
        Ok(None) => write!(row, " warm boot"),
        Err(error) => write!(row, " {error:?}"),
    }
}

/// Reads a line: the columns are the room, the column, which calls fail, and what is typed. Prints the line, whether input is left, and
/// what was put.
pub(crate) fn answer_line(row: &mut Row) {
    let room = row.byte();
    let column = row.short();
    let fails = row.word();
    let typed = row.bytes();
    let mut terminal = terminal_at(column, console_of(row, fails, typed));
    let mut buffer = [0xAA; 255];
    let answer = terminal.read_line(room, &mut buffer);
    show_line(row, answer, &buffer);
    if terminal.console.ready() {
        write!(row, ", input is left");
    }
    write!(row, ", put");
    show_put(row, terminal)
}

/// Prints a text in memory up to its `$`: the columns are the address and the text.
pub(crate) fn answer_dollar(row: &mut Row) {
    let address = row.hexadecimal();
    let text = row.bytes();
    let Ok(mut memory) = Memory::new(row.alloc()) else {
        return row.refuse("no memory");
    };
    put(&mut memory, address, &text);
    let byte_at = |place: u16| -> u8 { memory.get(place) };
    let mut terminal = terminal_at(0, good_console(row.alloc()));
    if let Err(error) = terminal.print_until_dollar(address, &byte_at) {
        write!(row, " {error:?}");
    }
    show_put(row, terminal)
}

/// Prints each byte that a console gives, until there is none.
fn show_taken(row: &mut Row, console: &mut StreamConsole<MemorySink>) {
    for _ in 0..256u32 {
        let is_ready = console.ready();
        write!(row, " {}", if is_ready { "ready" } else { "not ready" });
        match console.get() {
            Ok(byte) => write!(row, " {byte:02X}"),
            Err(error) => return write!(row, " {error:?}"),
        }
    }
}

/// Tests a console over a writer: the columns are what is typed and what is put. The last byte is put on the console directly.
pub(crate) fn answer_stream(row: &mut Row) {
    let typed = row.word();
    let text = row.word();
    let raw = row.hexadecimal_byte();
    let (typed, text) = (row.bytes_of(typed), row.bytes_of(text));
    let console = StreamConsole::new(typed, MemorySink::new(row.alloc()));
    let mut terminal = Terminal::new(console);
    show_taken(row, &mut terminal.console);
    put_text(row, &mut terminal, &text);
    if let Err(error) = terminal.console.put(raw) {
        write!(row, " {error:?}");
    }
    write!(row, ", column {}", terminal.column);
    let Terminal { console, .. } = terminal;
    row.write_runs(&console.into_writer().into_bytes())
}

/// Puts bytes on a console over a writer, and prints each fault, the column after them, how often the writer failed, and what it took.
pub(crate) fn answer_writer(row: &mut Row) {
    let Ok(scripted) = Scripted::new(row.alloc(), row.word()) else {
        return row.refuse("no memory");
    };
    let text = row.bytes();
    let console = StreamConsole::new(Vec::new(row.alloc()), WatchedSink::new(scripted));
    let mut terminal = Terminal::new(console);
    put_text(row, &mut terminal, &text);
    let Terminal { console, column } = terminal;
    let writer = console.into_writer();
    write!(row, " column {column}, failures {}", writer.failures());
    row.write_runs(&writer.into_stream().taken)
}
