//! Takes bytes with their echo, and puts bytes with tabs expanded.

ghost use Rattle.std.specs.Prelude.{◌≡◌, slice_index};
ghost use Rattle.cpm_console.specs.Screen.{screen};
ghost use Rattle.cpm_bdos.specs.Console.Texts.{Speaks, is_echoed, printed, put_talk, taken_talk};

use crate::console::raw::stop_of;
use cpm_console::{Console, Terminal};
use cpm_disk::Stop;
use z80_cpu::Memory;

/// Whether function 1 echoes this byte.
fn is_echoed(byte: u8) -> bool
    ensures { result ≡ is_echoed byte }
{
    (0x20 <= byte && byte <= 0x7E) || [b'\r', b'\n', 0x08, b'\t'].contains(&byte)
}

/// Function 1: takes the next byte of the input, and echoes it if it is printable, CR, LF, 08H or a tab.
///
/// # Errors
///
/// [`Stop::EndOfInput`] if no input is left, [`Stop::ConsoleFault`].
pub fn take<C: Console>(terminal: &mut Terminal<C>) -> Result<u8, Stop>
    ensures { Speaks (screen C.dialog terminal.old) (screen C.dialog terminal.new) (taken_talk (screen C.dialog terminal.old)) result }
{
    let byte = match terminal.console.get() {
        Ok(byte) => byte,
        Err(error) => return Err(stop_of(error)),
    };
    if !is_echoed(byte) {
        return Ok(byte);
    }
    match terminal.put_char(byte) {
        Ok(()) => Ok(byte),
        Err(error) => Err(stop_of(error)),
    }
}

/// Function 2: puts a byte, and for a tab blanks.
///
/// # Errors
///
/// [`Stop::ConsoleFault`].
pub fn put<C: Console>(terminal: &mut Terminal<C>, byte: u8) -> Result<(), Stop>
    ensures { Speaks (screen C.dialog terminal.old) (screen C.dialog terminal.new) (put_talk (screen C.dialog terminal.old) byte) result }
{
    terminal.put_char(byte).map_err(stop_of)
}

/// Function 9: puts the bytes from an address up to a dollar sign, at most 65,536, with blanks for tabs.
///
/// # Errors
///
/// [`Stop::ConsoleFault`].
pub fn print<C: Console>(
    terminal: &mut Terminal<C>,
    memory: &Memory,
    address: u16,
) -> Result<(), Stop>
    ensures { Speaks (screen C.dialog terminal.old) (screen C.dialog terminal.new) (printed (screen C.dialog terminal.old) address memory.now) result }
{
    let byte_at = |place: u16| -> u8
        ensures { result ≡ slice_index memory.entry.now place }
    { memory.get(place) };
    match terminal.print_until_dollar(address, &byte_at) {
        Ok(()) => Ok(()),
        Err(error) => Err(stop_of(error)),
    }
}
