//! One state of a run.

ghost use Rattle.std.specs.Prelude.{◌≡◌, IfOk};

use crate::coming::due_bytes;
use cpm_bdos::Bdos;
use cpm_console::MemoryConsole;
use cpm_disk::Disk;
use cpm_image::MemoryImage;
use cpm_run::{Arrival, Why, turn};
use std::alloc::{AllocError, Global};
use std::marker::Model;
use z80_cpu::{Cpu, MEMORY_SIZE, Memory};

/// The state of a run on a disk and a console in memory: the registers, the memory of 65,536 bytes, and the system; the number of turns so
/// far; and the bytes of a record that are still to come.
#[derive(Drop)]
pub struct Snapshot<'a> {
    cpu: Cpu,
    memory: Memory,
    system: Bdos<MemoryImage, MemoryConsole>,
    turns: u64,
    coming: &'a [Arrival],
}

impl<'a> Model for Snapshot<'a> {
    ghost use Rattle.z80_cpu.specs.State.{machine};
    ghost use Rattle.machine_history.specs.Walk.{MemoryState};

    ghost Value = { MemoryState };

    ghost view = { λ s. record { machine = machine s.cpu s.memory; system = s.system; turns = s.turns; coming = s.coming.now } };
}

/// A copy of a memory.
fn memory_copied(alloc: Global, memory: &Memory) -> Result<Memory, AllocError>
    ensures { IfOk result (λ copy. copy ≡ memory.now) }
{
    let mut copy = Memory::new(alloc)?;
    for index in 0..MEMORY_SIZE {
        let address = index as u16;
        copy.set(address, memory.get(address));
    }
    Ok(copy)
}

impl<'a> Snapshot<'a> {
    ghost use Rattle.std.specs.Prelude.{◌≡◌, ◌≢◌, ◌-◌, ◌<◌, ◌^◌, [], IfOk, OnErr, Some, false, true};
    ghost use Rattle.cpm_bdos.specs.System.{new_system};
    ghost use Rattle.z80_cpu.specs.State.{byte_at, machine};
    ghost use Rattle.machine_history.specs.Walk.{MemoryState, MakesTurn, due_in};
    ghost use Rattle.machine_history.specs.Private.Typing.{HasTyped};

    /// The state with these registers and this memory, in which no turn has been made. The bytes of the record come later.
    pub(crate) fn new(
        cpu: Cpu,
        memory: Memory,
        disk: Disk<MemoryImage>,
        console: MemoryConsole,
        recorded: &'a [Arrival],
    ) -> Snapshot<'a>
        ensures { result ≡ record { machine = machine cpu memory; system = new_system disk console; turns = 0; coming = recorded.now } }
    {
        Snapshot {
            cpu,
            memory,
            system: Bdos::new(disk, console),
            turns: 0,
            coming: recorded,
        }
    }

    /// A second equal state.
    ///
    /// # Errors
    ///
    /// [`AllocError`] if memory runs out.
    pub(crate) fn copied(&self, alloc: Global) -> Result<Snapshot<'a>, AllocError>
        ensures { IfOk result (λ copy. copy ≡ self.now) }
    {
        Ok(Snapshot {
            cpu: self.cpu,
            memory: memory_copied(alloc, &self.memory)?,
            system: self.system.copied(alloc)?,
            turns: self.turns,
            coming: self.coming,
        })
    }

    /// Whether a byte is due.
    fn is_due(&self) -> bool
        ensures due { result ≡ true → due_in self.now ≢ [] }
        ensures none { result ≡ false → due_in self.now ≡ [] }
    {
        match self.coming.first() {
            Some(arrival) => arrival.turn <= self.turns,
            None => false,
        }
    }

    /// Types the bytes that are due. If memory runs out, none is typed.
    ///
    /// Not inlined: few turns have bytes to type.
    #[inline(never)]
    fn type_all(&mut self, alloc: Global) -> Result<(), AllocError>
        ensures typed { IfOk result (λ _. HasTyped self.old self.new) }
        ensures kept { OnErr result (self.new ≡ self.old) }
    {
        let bytes = due_bytes(alloc, self.turns, self.coming)?;
        self.system.type_in(&bytes)?;
        self.coming = &self.coming[bytes.len()..];
        Ok(())
    }

    /// Types the bytes that are due, if there are any.
    fn type_due(&mut self, alloc: Global) -> Result<(), AllocError>
        ensures typed { IfOk result (λ _. HasTyped self.old self.new) }
        ensures kept { OnErr result ((due_in self.old ≢ []) × (self.new ≡ self.old)) }
    {
        if self.is_due() {
            self.type_all(alloc)
        } else {
            Ok(())
        }
    }

    /// Makes one turn: types the bytes that are due, and makes a step of the program. Answers why it ends the run, if it does.
    pub(crate) fn turn(&mut self, alloc: Global) -> Option<Why>
        requires { self.old.turns < 2 ^ 64 - 1 }
        ensures { MakesTurn self.old result self.new }
    {
        match self.type_due(alloc) {
            Ok(()) => {
                self.turns += 1;
                turn(&mut self.cpu, &mut self.memory, &mut self.system)
            }
            Err(_) => Some(Why::NoMemory),
        }
    }

    /// The registers.
    pub fn cpu(&self) -> &Cpu
        ensures { result.now ≡ self.now.machine.cpu }
    {
        &self.cpu
    }

    /// The memory.
    pub fn memory(&self) -> &Memory
        ensures { result.now ≡ self.now.machine.memory }
    {
        &self.memory
    }

    /// The disk.
    pub fn disk(&self) -> &Disk<MemoryImage>
        ensures { result.now ≡ self.now.system.disk }
    {
        self.system.disk()
    }

    /// The address of the buffer that the next record is read to or written from.
    pub fn dma(&self) -> u16
        ensures { result ≡ self.now.system.dma }
    {
        self.system.dma()
    }

    /// The user from 0 to 31 whose files the system calls see.
    pub fn user(&self) -> u8
        ensures { result ≡ self.now.system.user }
    {
        self.system.user()
    }

    /// The bytes that the program has printed so far.
    pub fn output(&self) -> &[u8]
        ensures { self.now.system.terminal.console.output ≡ Some result.now }
    {
        self.system.console().output()
    }
}
