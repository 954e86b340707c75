//! Prints the machine at the end of a run.

ghost use Rattle.std.specs.Prelude.{◌≡◌, ◌++◌, IfOk, OnOk, map, option_copied};
ghost use Rattle.cpm_run.specs.Turns.{place_at_pc};
ghost use Rattle.z80_cpu.specs.State.{word_at};
ghost use Rattle.z80dev_run.specs.Registers.{came_from, fcb_line, four_words, is_lost, is_reset, machine_text, name_byte, name_text, outside_text, return_line, return_text, stack_line, step_from_end, takes_fcb, way_from, way_out, way_text, word_there};

use crate::labels::Labels;
use crate::lines::label_of;
use cpm_bdos::{Function, SearchCall};
use cpm_disk::Fcb;
use cpm_run::{BDOS, Left, TraceStep, bios_entry, is_finished};
use state_text::{put_blanks, put_registers, put_word};
use std::alloc::{AllocError, Global};
use std::collections::VecDeque;
use z80_cpu::{Cpu, Memory};

/// Appends a word in memory.
fn put_word_there(
    alloc: Global,
    out: &mut Vec<u8>,
    memory: &Memory,
    address: u16,
) -> Result<(), AllocError>
    ensures { OnOk result (out.new.items ≡ out.old.items ++ word_there memory.now address) }
{
    put_blanks(out, 1)?;
    put_word(alloc, out, memory.word(address))
}

fn put_four_words(
    alloc: Global,
    out: &mut Vec<u8>,
    memory: &Memory,
    address: u16,
) -> Result<(), AllocError>
    ensures { OnOk result (out.new.items ≡ out.old.items ++ four_words memory.now address) }
{
    put_word_there(alloc, out, memory, address)?;
    put_word_there(alloc, out, memory, address.wrapping_add(2))?;
    put_word_there(alloc, out, memory, address.wrapping_add(4))?;
    put_word_there(alloc, out, memory, address.wrapping_add(6))
}

/// Appends the line of the stack's top eight words.
fn put_stack_line(
    alloc: Global,
    out: &mut Vec<u8>,
    cpu: &Cpu,
    memory: &Memory,
) -> Result<(), AllocError>
    ensures { OnOk result (out.new.items ≡ out.old.items ++ stack_line cpu.now memory.now) }
{
    out.extend_from_slice(b"stack at ")?;
    put_word(alloc, out, cpu.sp)?;
    out.push(b':')?;
    put_four_words(alloc, out, memory, cpu.sp)?;
    put_four_words(alloc, out, memory, cpu.sp.wrapping_add(8))?;
    out.extend_from_slice(b"\n")
}

/// Appends where a call of the system returns to.
fn put_return(
    alloc: Global,
    out: &mut Vec<u8>,
    labels: &Labels,
    address: u16,
) -> Result<(), AllocError>
    ensures { OnOk result (out.new.items ≡ out.old.items ++ return_text labels.now address) }
{
    let label = label_of(alloc, labels, address)?;
    out.extend_from_slice(b"returns to ")?;
    put_word(alloc, out, address)?;
    put_blanks(out, 1)?;
    out.extend_from_slice(&label)?;
    out.extend_from_slice(b"\n")
}

/// Appends where the call of the system at PC returns to, if one is there.
fn put_return_line(
    alloc: Global,
    out: &mut Vec<u8>,
    cpu: &Cpu,
    memory: &Memory,
    labels: &Labels,
) -> Result<(), AllocError>
    ensures { OnOk result (out.new.items ≡ out.old.items ++ return_line (place_at_pc cpu.now.pc) labels.now (word_at cpu.now.sp memory.now)) }
{
    let address = memory.word(cpu.sp);
    if cpu.pc == BDOS {
        return put_return(alloc, out, labels, address);
    }
    match bios_entry(cpu.pc) {
        Some(_) => put_return(alloc, out, labels, address),
        None => Ok(()),
    }
}

/// Whether DE is the address of a file control block in a call of this function.
fn takes_fcb(function: Option<Function>) -> bool
    ensures { result ≡ takes_fcb function }
{
    match function {
        Some(Function::File(_)) => true,
        Some(Function::Record(_)) => true,
        Some(Function::Search(SearchCall::First)) => true,
        _ => false,
    }
}

/// A byte of a name without its attribute, or `?` if it cannot be printed.
fn name_byte(byte: u8) -> u8
    ensures { result ≡ name_byte byte }
{
    let letter = byte % 128;
    if letter >= 0x20 && letter < 0x7F {
        letter
    } else {
        b'?'
    }
}

/// Bytes of a name, as they are printed.
fn printable(alloc: Global, bytes: &[u8]) -> Result<Vec<u8>, AllocError>
    ensures { IfOk result (λ text. text.items ≡ map name_byte bytes.now) }
{
    bytes.iter().map(|byte| name_byte(*byte)).collect(alloc)
}

/// The name in a file control block, as it is printed.
fn name_text(alloc: Global, name: [u8; 11]) -> Result<Vec<u8>, AllocError>
    ensures { IfOk result (λ text. text.items ≡ name_text name) }
{
    let (stem, kind) = name[..].split_at(8);
    let mut text = printable(alloc, stem)?;
    let ending = printable(alloc, kind)?;
    text.push(b'.')?;
    text.extend_from_slice(&ending)?;
    Ok(text)
}

/// Appends the file control block of the call at PC, if it has one.
fn put_fcb_line(
    alloc: Global,
    out: &mut Vec<u8>,
    cpu: &Cpu,
    memory: &Memory,
) -> Result<(), AllocError>
    ensures { OnOk result (out.new.items ≡ out.old.items ++ fcb_line cpu.now memory.now) }
{
    if cpu.pc != BDOS || !takes_fcb(Function::of(cpu.main.c)) {
        return Ok(());
    }
    let address = cpu.main.de();
    let name = name_text(alloc, Fcb::at(memory, address).name())?;
    out.extend_from_slice(b"FCB at ")?;
    put_word(alloc, out, address)?;
    out.extend_from_slice(b": ")?;
    out.extend_from_slice(&name)?;
    out.extend_from_slice(b"\n")
}

/// The step at this distance from the last.
fn step_from_end(steps: &VecDeque<TraceStep>, distance: usize) -> Option<&TraceStep>
    ensures { option_copied result ≡ step_from_end distance steps.now.items }
{
    let len = steps.len();
    if distance >= len {
        return None;
    }
    steps.get(len - distance - 1)
}

/// From where the system was entered: the address of this step, or of the one before it if this one is the jump that CP/M has at `entry`.
fn came_from(entry: u16, step: Option<&TraceStep>, before: Option<&TraceStep>) -> Option<u16>
    ensures { result ≡ came_from entry (option_copied step.entry) (option_copied before.entry) }
{
    let address = step?.before.pc;
    if address != entry {
        return Some(address);
    }
    match before {
        Some(step) => Some(step.before.pc),
        None => None,
    }
}

/// Whether a step is system call 0, which ends a program.
fn is_reset(step: Option<&TraceStep>) -> bool
    ensures { result ≡ is_reset (option_copied step.entry) }
{
    match step {
        Some(step) => step.before.pc == BDOS && step.before.main.c == 0,
        None => false,
    }
}

/// How a program came to its end.
#[derive(Clone, Copy)]
enum WayOut {
    /// By a jump to the cold or the warm start.
    Jump,
    /// By system call 0.
    SystemCall,
}

/// A way out with the address that it was taken from, if that is known.
fn way_from(way: WayOut, address: Option<u16>) -> Option<(WayOut, u16)>
    ensures { result ≡ way_from way address }
{
    match address {
        Some(address) => Some((way, address)),
        None => None,
    }
}

/// How a program came to its end, and from which address. `last` has the last three steps at least; with fewer, the address is not known
/// for a call over the jump at 0005H.
fn way_out(cpu: &Cpu, last: &VecDeque<TraceStep>) -> Option<(WayOut, u16)>
    ensures { result ≡ way_out cpu.now last.now.items }
{
    let step = step_from_end(last, 0);
    let before = step_from_end(last, 1);
    if is_finished(cpu.pc) {
        way_from(WayOut::Jump, came_from(0x0000, step, before))
    } else if is_reset(step) {
        way_from(
            WayOut::SystemCall,
            came_from(0x0005, before, step_from_end(last, 2)),
        )
    } else {
        None
    }
}

/// Whether a program is lost: it came to its end from outside of its bytes. `last` has the last three steps at least.
pub fn is_lost(cpu: &Cpu, last: &VecDeque<TraceStep>, labels: &Labels) -> bool
    ensures { result ≡ is_lost labels.now cpu.now last.now.items }
{
    match way_out(cpu, last) {
        Some((_, address)) => !labels.has(address),
        None => false,
    }
}

/// Appends a way out.
fn put_way(out: &mut Vec<u8>, way: WayOut) -> Result<(), AllocError>
    ensures { OnOk result (out.new.items ≡ out.old.items ++ way_text way) }
{
    match way {
        WayOut::Jump => out.extend_from_slice(b"a jump"),
        WayOut::SystemCall => out.extend_from_slice(b"system call 0"),
    }
}

/// Appends how a program came to its end, and from which address, if that is outside of the program.
fn put_outside(
    alloc: Global,
    out: &mut Vec<u8>,
    labels: &Labels,
    way: Option<(WayOut, u16)>,
) -> Result<(), AllocError>
    ensures { OnOk result (out.new.items ≡ out.old.items ++ outside_text labels.now way) }
{
    let Some((way, address)) = way else {
        return Ok(());
    };
    if labels.has(address) {
        return Ok(());
    }
    out.extend_from_slice(b"ended by ")?;
    put_way(out, way)?;
    out.extend_from_slice(b" from ")?;
    put_word(alloc, out, address)?;
    out.extend_from_slice(b", outside the program\n")
}

/// Prints the machine at the end of a run: the registers and the flags, the address of the buffer for records and the user, the stack's top
/// eight words, and the call of the system at PC: where it returns to, and its file control block. `last` has the last three steps at
/// least; a program that came to its end from outside of its bytes has a line that says so.
pub fn machine_text(
    alloc: Global,
    left: &Left,
    last: &VecDeque<TraceStep>,
    labels: &Labels,
) -> Result<Vec<u8>, AllocError>
    ensures { IfOk result (λ text. text.items ≡ machine_text labels.now left.now last.now.items) }
{
    let Left {
        cpu,
        memory,
        dma,
        user,
    } = left;
    let mut out = Vec::new(alloc);
    put_registers(alloc, &mut out, cpu, *dma, *user)?;
    put_stack_line(alloc, &mut out, cpu, memory)?;
    put_return_line(alloc, &mut out, cpu, memory, labels)?;
    put_fcb_line(alloc, &mut out, cpu, memory)?;
    put_outside(alloc, &mut out, labels, way_out(cpu, last))?;
    Ok(out)
}
