//! Takes and puts bytes unchanged: no echo, no tabs, and the column stays.

ghost use Rattle.std.specs.Prelude.{◌≡◌};
ghost use Rattle.cpm_console.specs.Screen.{screen};
ghost use Rattle.cpm_bdos.specs.Console.Raw.{Directs, PutsRaw, TakesRaw, readiness, console_stop};

use cpm_console::{Console, ConsoleError, Terminal};
use cpm_disk::Stop;

/// With this argument, function 6 takes a byte instead of putting one.
const ANY_INPUT: u8 = 0xFF;

/// The stop for an error of the console.
pub(crate) fn stop_of(error: ConsoleError) -> Stop
    ensures { result ≡ console_stop error }
{
    match error {
        ConsoleError::EndOfInput => Stop::EndOfInput,
        ConsoleError::ConsoleFault => Stop::ConsoleFault,
    }
}

/// Function 11 and the BIOS's CONST: answers FFH if input is left, otherwise 0.
pub fn is_ready<C: Console>(terminal: &Terminal<C>) -> u8
    ensures { result ≡ readiness (C.dialog terminal.now.console).input }
{
    if terminal.console.ready() { 0xFF } else { 0 }
}

/// The BIOS's CONIN: takes the next byte of the input.
///
/// # Errors
///
/// [`Stop::EndOfInput`] if no input is left, [`Stop::ConsoleFault`].
pub fn take_raw<C: Console>(terminal: &mut Terminal<C>) -> Result<u8, Stop>
    ensures { TakesRaw (screen C.dialog terminal.old) (screen C.dialog terminal.new) result }
{
    terminal.console.get().map_err(stop_of)
}

/// The BIOS's CONOUT: puts a byte.
///
/// # Errors
///
/// [`Stop::ConsoleFault`].
pub fn put_raw<C: Console>(terminal: &mut Terminal<C>, byte: u8) -> Result<(), Stop>
    ensures { PutsRaw (screen C.dialog terminal.old) (screen C.dialog terminal.new) byte result }
{
    terminal.console.put(byte).map_err(stop_of)
}

/// Function 6: for FFH, takes the next byte, or answers 0 if none is left; puts any other byte.
///
/// # Errors
///
/// [`Stop::ConsoleFault`].
pub fn direct<C: Console>(terminal: &mut Terminal<C>, byte: u8) -> Result<u8, Stop>
    ensures { Directs (screen C.dialog terminal.old) (screen C.dialog terminal.new) byte result }
{
    if byte == ANY_INPUT {
        if terminal.console.ready() {
            take_raw(terminal)
        } else {
            Ok(0)
        }
    } else {
        put_raw(terminal, byte)?;
        Ok(0)
    }
}
