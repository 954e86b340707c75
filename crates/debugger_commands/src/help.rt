//! The list of the commands.

ghost use Rattle.std.specs.Prelude.{◌≡◌, ◌≤◌, ◌==◌, ◌++◌, OnOk, length};
ghost use Rattle.std.specs.List.{position_or_len};
ghost use Rattle.debugger_commands.specs.Help.{after_comma, help_of, shows_form};

use crate::Verb;
use bstr::ByteSlice;
use std::alloc::{AllocError, Global};

/// What `help` prints.
pub const HELP: &[u8] = b"step [N], next            N turns (1); one turn, or all of a call
finish                    run to the first return with SP higher after it
run [ADDR]                run to ADDR, a breakpoint, a watched byte, or the end
back [N], back-next       N turns back (1); one turn back, or all of a call
back-run                  go back to the last breakpoint or watched change
turn N                    go to the state after N turns from the start
where, regs               PC with its line of the listing; registers, DMA, user
mem ADDR [N]              N bytes of memory (16)
dis ADDR [N]              N instructions (8)
stack, output             the top of the stack; what the program has printed
who ADDR                  the last turn that changed this byte
break ADDR [if REG=VALUE] stop when PC is ADDR, and REG has this value
watch ADDR [N]            stop at a turn that changes this byte, or one of N
info                      list the breakpoints and the watched bytes
delete [ADDR]             forget those at ADDR, or all of them, and list them
files                     the files of the disk: user, name and records
help [COMMAND], quit      this list, or the line of a command; end the session
A word may be shortened. It stands for the first command above, line by line,
left to right, that begins so: s is step, br is break. ADDR is a label, or PC,
SP, AF, BC, DE, HL, IX or IY, each also with a number as in TEXT+1 or SP-2; or
four hexadecimal digits as they are printed; or a number of the assembler, as
125H or 293. VALUE is the same, but no register: write the byte BC as 0BCH. A
turn that writes the same value does not change a byte.
";

/// How many bytes of a line are before its first comma.
fn before_comma(line: &[u8]) -> usize
    ensures len { result ≡ position_or_len (λ byte. byte == 0x2C) line.now }
    ensures within { result ≤ length line.now }
{
    line.iter().take_while(|byte| **byte != b',').count()
}

/// What comes after the first comma of a line, and a blank.
fn after_comma(line: &[u8]) -> &[u8]
    ensures { result.now ≡ after_comma line.now }
{
    let (_, rest) = line.split_at(before_comma(line));
    rest.get(2..).unwrap_or(&[])
}

/// Whether a line of the list shows this form of a command.
fn shows_form(form: &[u8], line: &[u8]) -> bool
    ensures { result ≡ shows_form form.now line.now }
{
    line.starts_with(form) || after_comma(line).starts_with(form)
}

/// Appends the lines of the list that show a command.
pub fn put_help(alloc: Global, verb: Verb, text: &mut Vec<u8>) -> Result<(), AllocError>
    ensures { OnOk result (text.new.items ≡ text.old.items ++ help_of verb) }
{
    let mut form = Vec::new(alloc);
    form.extend_from_slice(verb.name())?;
    form.extend_from_slice(verb.arguments())?;
    for line in HELP.lines() {
        if shows_form(&form, line) {
            text.extend_from_slice(line)?;
            text.extend_from_slice(b"\n")?;
        }
    }
    Ok(())
}
