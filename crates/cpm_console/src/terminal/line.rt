//! Reads an edited line.

ghost use Rattle.std.specs.Prelude.{◌≡◌, ◌<◌, ℕ, take};
ghost use Rattle.cpm_console.specs.Line.{edited};
ghost use Rattle.cpm_console.specs.Private.Draft.{line_at};

use super::{TAB, Terminal};
use crate::console::Console;
use crate::error::ConsoleError;
use crate::key::Key;

/// Erases the last byte on the screen.
const RUB_OUT: [u8; 3] = [0x08, b' ', 0x08];

/// The line so far: the number of its stored bytes, and the column where it began.
#[derive(Clone, Copy)]
struct Draft {
    len: u8,
    start: u16,
}

impl<C: Console> Terminal<C> {
    ghost use Rattle.std.specs.Prelude.{◌≡◌, ◌<◌, ◌-◌, ℕ, List, take, replicate};
    ghost use Rattle.std.specs.List.{concat, flat_map};
    ghost use Rattle.cpm_console.specs.Screen.{screen};
    ghost use Rattle.cpm_console.specs.Text.{PutsText};
    ghost use Rattle.cpm_console.specs.Line.{LineEnds, EditedLine, echo_of, edited, line_ended, rub_out, typed_line};
    ghost use Rattle.cpm_console.specs.Private.Draft.{line_at};

    /// Reads a line of at most `room` bytes into a buffer while it is typed and edited, and answers the number of its bytes. `None` if a
    /// warm boot was asked for.
    ///
    /// The rest of the buffer may then have any bytes.
    ///
    /// # Errors
    ///
    /// [`ConsoleError::EndOfInput`] if the input ends before the line does, [`ConsoleError::ConsoleFault`] if the console failed. Then
    /// only the first of the bytes that pass while the line is read have passed.
    pub fn read_line(
        &mut self,
        room: u8,
        buffer: &mut [u8; 255],
    ) -> Result<Option<u8>, ConsoleError>
        ensures { LineEnds (typed_line room (screen C.dialog self.old)) (screen C.dialog self.old) (screen C.dialog self.new) buffer.new result }
    {
        let mut line = Draft {
            len: 0,
            start: self.column,
        };
        while line.len < room {
            let byte = self.console.get()?;
            let key = Key::of(byte);
            if key.is_end() {
                return self.end_line(line.len);
            }
            if key.is_warm_boot(line.len) {
                return Ok(None);
            }
            self.show(key, byte, line, buffer)?;
            line = stored(key, byte, line, buffer);
        }
        self.end_line(line.len)
    }

    /// Echoes CR, and answers the length of the line.
    fn end_line(&mut self, len: u8) -> Result<Option<u8>, ConsoleError>
        ensures { (line : EditedLine) (buffer : List ℕ) → take len buffer ≡ line.bytes
            → LineEnds (line_ended line) (screen C.dialog self.old) (screen C.dialog self.new) buffer result }
    {
        self.put_char(b'\r')?;
        Ok(Some(len))
    }

    /// Shows on the terminal what a key does to a line.
    fn show(
        &mut self,
        key: Key,
        byte: u8,
        line: Draft,
        buffer: &[u8; 255],
    ) -> Result<(), ConsoleError>
        requires { line.len < 256 }
        ensures { let e = edited key byte (line_at line buffer.now self.old.column) in
            PutsText (screen C.dialog self.old) (screen C.dialog self.new) e.text result }
    {
        let bytes = &buffer[..usize::from(line.len)];
        match key {
            Key::TakeOut => match bytes {
                [.., _] => self.put_text(&RUB_OUT),
                [] => Ok(()),
            },
            Key::RubOut => match bytes {
                [.., last] => self.echo(*last),
                [] => Ok(()),
            },
            Key::StartAnew => self.put_text(b"#\r\n"),
            Key::WipeOut => self.wipe_out(line.start),
            Key::NewLine => self.put_text(b"\r\n"),
            Key::Retype => {
                self.put_text(b"#\r\n")?;
                self.echo_all(bytes)
            }
            Key::End | Key::Break | Key::Other => self.echo(byte),
        }
    }

    /// Erases everything from a column on.
    fn wipe_out(&mut self, start: u16) -> Result<(), ConsoleError>
        ensures { PutsText (screen C.dialog self.old) (screen C.dialog self.new) (concat (replicate (self.old.column - start) rub_out)) result }
    {
        for _ in start..self.column {
            self.put_text(&RUB_OUT)?;
        }
        Ok(())
    }

    /// Echoes stored bytes.
    fn echo_all(&mut self, bytes: &[u8]) -> Result<(), ConsoleError>
        ensures { PutsText (screen C.dialog self.old) (screen C.dialog self.new) (flat_map echo_of bytes.now) result }
    {
        for byte in bytes {
            self.echo(*byte)?;
        }
        Ok(())
    }

    /// Echoes a stored byte.
    fn echo(&mut self, byte: u8) -> Result<(), ConsoleError>
        ensures { PutsText (screen C.dialog self.old) (screen C.dialog self.new) (echo_of byte) result }
    {
        if byte < b' ' && byte != TAB {
            self.put_text(&[b'^', byte + 0x40])
        } else {
            self.put_char(byte)
        }
    }
}

/// Does to the stored bytes of a line what a key asks for.
fn stored(key: Key, byte: u8, line: Draft, buffer: &mut [u8; 255]) -> Draft
    requires { line.len < 255 }
    ensures bytes { (column : ℕ) → take result.len buffer.new ≡ (edited key byte (line_at line buffer.old column)).bytes }
    ensures start { (column : ℕ) → result.start ≡ (edited key byte (line_at line buffer.old column)).start }
{
    let Draft { len, start } = line;
    match key {
        Key::TakeOut | Key::RubOut => Draft {
            len: len.saturating_sub(1),
            start,
        },
        Key::StartAnew => Draft { len: 0, start: 0 },
        Key::WipeOut => Draft { len: 0, start },
        Key::NewLine | Key::Retype => Draft { len, start: 0 },
        Key::End | Key::Break | Key::Other => {
            buffer[usize::from(len)] = byte;
            Draft {
                len: len + 1,
                start,
            }
        }
    }
}
