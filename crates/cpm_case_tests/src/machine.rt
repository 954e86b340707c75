//! A processor with memory that makes system calls.

use cpm_bdos::{After, Bdos, Stop};
use cpm_console::{Console, MemoryConsole};
use cpm_disk::Disk;
use cpm_image::{MemoryImage, Sectors};
use std::alloc::Global;
use std::test::Fail;
use z80_cpu::{Cpu, Memory};

/// The address of the file control block in the tests.
pub(crate) const FCB: u16 = 0x005C;

/// A byte of memory that differs from the one that a test expects.
#[derive(Clone, Copy, Debug, PartialEq)]
pub(crate) struct OtherByte {
    pub(crate) address: u16,
    pub(crate) found: u8,
    pub(crate) wanted: u8,
}

/// A processor with memory, and the system that answers its calls.
#[derive(Drop)]
pub(crate) struct Machine<S: Sectors, C: Console> {
    pub(crate) bdos: Bdos<S, C>,
    pub(crate) cpu: Cpu,
    pub(crate) memory: Memory,
}

impl<S: Sectors + Drop, C: Console + Drop> Machine<S, C> {
    pub(crate) fn new(alloc: Global, disk: Disk<S>, console: C) -> Result<Machine<S, C>, Fail> {
        Ok(Machine {
            bdos: Bdos::new(disk, console),
            cpu: Cpu::new(),
            memory: Memory::new(alloc)?,
        })
    }

    /// Makes a call, and answers the value in HL.
    pub(crate) fn call(&mut self, function: u8, argument: u16) -> Result<u16, Stop> {
        self.cpu.main.c = function;
        self.cpu.main.set_de(argument);
        match self.bdos.call(&mut self.cpu, &mut self.memory) {
            Ok(After::Return) => Ok(self.cpu.main.hl()),
            Ok(After::WarmBoot) => Ok(0xFFFF),
            Err(stop) => Err(stop),
        }
    }

    /// Writes bytes to memory.
    pub(crate) fn put(&mut self, address: u16, bytes: &[u8]) {
        let mut next = address;
        for byte in bytes {
            self.memory.set(next, *byte);
            next = next.wrapping_add(1);
        }
    }

    /// Writes a file control block with a name, EX, S2 and CR; all its other bytes are 0.
    pub(crate) fn put_fcb(&mut self, address: u16, name: &[u8; 11], place: [u8; 3]) {
        let [extent, s2, current] = place;
        self.put(address, &[0; 36]);
        self.put(address.wrapping_add(1), name);
        self.put(address.wrapping_add(12), &[extent]);
        self.put(address.wrapping_add(14), &[s2]);
        self.put(address.wrapping_add(32), &[current]);
    }

    /// Writes R0 to R2.
    pub(crate) fn put_random(&mut self, address: u16, numbers: [u8; 3]) {
        self.put(address.wrapping_add(33), &numbers);
    }

    /// Compares bytes of memory with those that a test expects.
    ///
    /// # Errors
    /// The first byte that differs.
    pub(crate) fn expect_bytes(&self, address: u16, wanted: &[u8]) -> Result<(), OtherByte> {
        let mut next = address;
        for byte in wanted {
            let found = self.memory.get(next);
            if found != *byte {
                return Err(OtherByte {
                    address: next,
                    found,
                    wanted: *byte,
                });
            }
            next = next.wrapping_add(1);
        }
        Ok(())
    }
}

pub(crate) type Plain = Machine<MemoryImage, MemoryConsole>;

/// Mounts an image whose directory keeps the rules.
pub(crate) fn mounted(alloc: Global, image: MemoryImage) -> Result<Disk<MemoryImage>, Fail> {
    match Disk::mount(alloc, image) {
        Ok(disk) => Ok(disk),
        Err((fault, _)) => Err(Fail::from(fault)),
    }
}
