//! Reading an edited line.

ghost use Rattle.cpm_console.specs.Line.{typed_line};
ghost use Rattle.cpm_console.specs.Screen.{screen};
ghost use Rattle.cpm_disk.specs.Control.Bytes.{memory_byte};
ghost use Rattle.cpm_bdos.specs.Console.Lines.{ReadsLine};

use crate::console::raw::stop_of;
use crate::console::reply::Reply;
use cpm_console::{Console, Terminal};
use cpm_disk::{Stop, put_field};
use z80_cpu::Memory;

/// Function 10: reads an edited line to a buffer in memory. The first byte of the buffer says how many bytes it can take. The second
/// becomes the number of bytes in the line, and the line follows. Memory changes only at the end.
///
/// # Errors
///
/// [`Stop::EndOfInput`] if the input ends before the line, [`Stop::ConsoleFault`].
pub fn read_line<C: Console>(
    terminal: &mut Terminal<C>,
    memory: &mut Memory,
    address: u16,
) -> Result<Reply, Stop>
    ensures { ReadsLine (typed_line (memory_byte address memory.old) (screen C.dialog terminal.old)) address (screen C.dialog terminal.old) (screen C.dialog terminal.new) memory.old memory.new result }
{
    let mut buffer = [0; 255];
    match terminal
        .read_line(memory.get(address), &mut buffer)
        .map_err(stop_of)?
    {
        Some(count) => {
            put_field(memory, address, 1, &[count]);
            put_field(memory, address, 2, &buffer[..usize::from(count)]);
            Ok(Reply::Value(0))
        }
        None => Ok(Reply::WarmBoot),
    }
}
