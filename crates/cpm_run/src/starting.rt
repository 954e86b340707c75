//! The state in which a program begins.

ghost use Rattle.std.specs.Prelude.{◌≡◌, ◌≤◌, IfOk, length, map};
ghost use Rattle.common.specs.declared.limits.TheConstants.{LONGEST_PROGRAM};
ghost use Rattle.cpm_run.specs.Start.{IsStart, start_cpu, start_memory, command_word};
ghost use Rattle.cpm_disk.specs.Control.Words.{control, tail_of};
ghost use Rattle.cpm_disk.specs.declared.words.TheConstants.{LONGEST_TAIL};

use crate::fault::StartFault;
use common::LONGEST_PROGRAM;
use cpm_disk::put_bytes;
use cpm_disk::words::{LONGEST_TAIL, control, tail_of, upper};
use std::alloc::{AllocError, Global};
use z80_cpu::{Cpu, Memory};

/// JP to the warm start of the BIOS, for address 0.
const TO_BIOS: [u8; 3] = [0xC3, 0x03, 0xFF];

/// JP to the BDOS, for address 5.
const TO_BDOS: [u8; 3] = [0xC3, 0x06, 0xFE];

/// The entries of the BIOS: seventeen jumps, each to itself.
const BIOS_ENTRIES: [u8; 51] = [
    0xC3, 0x00, 0xFF, //
    0xC3, 0x03, 0xFF, //
    0xC3, 0x06, 0xFF, //
    0xC3, 0x09, 0xFF, //
    0xC3, 0x0C, 0xFF, //
    0xC3, 0x0F, 0xFF, //
    0xC3, 0x12, 0xFF, //
    0xC3, 0x15, 0xFF, //
    0xC3, 0x18, 0xFF, //
    0xC3, 0x1B, 0xFF, //
    0xC3, 0x1E, 0xFF, //
    0xC3, 0x21, 0xFF, //
    0xC3, 0x24, 0xFF, //
    0xC3, 0x27, 0xFF, //
    0xC3, 0x2A, 0xFF, //
    0xC3, 0x2D, 0xFF, //
    0xC3, 0x30, 0xFF, //
];

/// The word with this number in upper case, or no bytes if the command has fewer words.
fn word_at(alloc: Global, words: &[&[u8]], number: usize) -> Result<Vec<u8>, AllocError>
    ensures { IfOk result (λ word. word.items ≡ command_word (map (λ w. w.now) words.now) number) }
{
    match words.get(number) {
        Some(word) => upper(alloc, word),
        None => Ok(Vec::new(alloc)),
    }
}

/// The first twelve bytes of the file control block of the word with this number: drive and name.
fn control_at(alloc: Global, words: &[&[u8]], number: usize) -> Result<Vec<u8>, AllocError>
    ensures bytes { IfOk result (λ bytes. bytes.items ≡ control (command_word (map (λ w. w.now) words.now) number)) }
    ensures size { IfOk result (λ bytes. length bytes.items ≡ 12) }
{
    let word = word_at(alloc, words, number)?;
    control(alloc, &word)
}

/// The registers at the start. Memory is 0 at SP, so a RET goes to 0000H.
fn start_cpu() -> Cpu
    ensures { result ≡ start_cpu }
{
    let mut cpu = Cpu::new();
    cpu.sp = 0xFDFE;
    cpu.pc = 0x0100;
    cpu
}

/// The memory at the start.
fn start_memory(
    alloc: Global,
    file: &[u8],
    words: &[&[u8]],
    tail: &[u8],
) -> Result<Memory, AllocError>
    requires file { length file.now ≤ LONGEST_PROGRAM }
    requires tail { length tail.now ≤ LONGEST_TAIL }
    requires words { tail.now ≡ tail_of (map (λ w. w.now) words.now) }
    ensures { IfOk result (λ memory. memory ≡ start_memory file.now (map (λ w. w.now) words.now)) }
{
    let mut memory = Memory::new(alloc)?;
    put_bytes(&mut memory, 0x0000, &TO_BIOS);
    put_bytes(&mut memory, 0x0005, &TO_BDOS);
    put_bytes(&mut memory, 0x005C, &control_at(alloc, words, 0)?);
    put_bytes(&mut memory, 0x006C, &control_at(alloc, words, 1)?);
    put_bytes(&mut memory, 0x0080, &[tail.len() as u8]);
    put_bytes(&mut memory, 0x0081, tail);
    put_bytes(&mut memory, 0x0100, file);
    put_bytes(&mut memory, 0xFF00, &BIOS_ENTRIES);
    Ok(memory)
}

/// Makes the registers and the memory with which a program begins. `file` is at 0100H. Page zero has the jumps to the system, the words
/// in upper case as the command tail at 0080H, and the first two words as file control blocks at 005CH and 006CH.
///
/// # Errors
///
/// [`StartFault::ComTooLong`] above 64,512 bytes; [`StartFault::TailTooLong`] if the words with a space before each have more than 127
/// bytes; [`StartFault::NoMemory`].
pub fn start(alloc: Global, file: &[u8], words: &[&[u8]]) -> Result<(Cpu, Memory), StartFault>
    ensures { IsStart file.now (map (λ w. w.now) words.now) result }
{
    if file.len() > LONGEST_PROGRAM as usize {
        return Err(StartFault::ComTooLong);
    }
    let tail = tail_of(alloc, words)?;
    if tail.len() > LONGEST_TAIL {
        return Err(StartFault::TailTooLong);
    }
    Ok((start_cpu(), start_memory(alloc, file, words, &tail)?))
}
