//! The memory.

use std::alloc::{AllocError, Global};
use std::marker::Model;

/// The number of bytes: one for each address of 16 bits.
pub const MEMORY_SIZE: usize = 65_536;

/// The memory: 65,536 bytes. In a contract it is the list of them.
#[derive(Debug, Drop)]
pub struct Memory {
    bytes: Vec<u8>,
}

impl Model for Memory {
    ghost use Rattle.std.specs.Prelude.{◌≡◌, List, ℕ, length};
    ghost use Rattle.z80_cpu.specs.declared.memory.TheConstants.{MEMORY_SIZE};

    ghost Value = { List ℕ };

    ghost view = { λ m. m.bytes.items };

    ghost invariant = { λ m. length m.bytes.items ≡ MEMORY_SIZE };
}

impl Memory {
    ghost use Rattle.std.specs.Prelude.{◌≡◌, IfOk, replicate, slice_index, slice_set, length};
    ghost use Rattle.z80_cpu.specs.declared.memory.TheConstants.{MEMORY_SIZE};

    /// Memory in which all bytes are 0. The only error is that memory runs out.
    pub fn new(alloc: Global) -> Result<Memory, AllocError>
        ensures { IfOk result (λ memory. memory ≡ replicate MEMORY_SIZE 0) }
    {
        Ok(Memory {
            bytes: vec![in alloc; 0; MEMORY_SIZE]?,
        })
    }

    /// The byte at an address.
    #[inline(always)]
    pub fn get(&self, address: u16) -> u8
        ensures byte { result ≡ slice_index self.now address }
        ensures size { length self.now ≡ MEMORY_SIZE }
    {
        self.bytes[address as usize]
    }

    /// Sets the byte at an address, and no other.
    #[inline(always)]
    pub fn set(&mut self, address: u16, value: u8)
        ensures byte { self.new ≡ slice_set self.old address value }
        ensures size { length self.new ≡ MEMORY_SIZE }
    {
        self.bytes[address as usize] = value;
    }
}

impl Memory {
    ghost use Rattle.std.specs.Prelude.{◌≡◌};
    ghost use Rattle.z80_cpu.specs.State.{word_at, with_word_at};

    /// The word at an address and the next one, low byte first.
    #[inline(always)]
    pub fn word(&self, address: u16) -> u16
        ensures { result ≡ word_at address self.now }
    {
        u16::from_le_bytes([self.get(address), self.get(address.wrapping_add(1))])
    }

    /// Sets the word at an address and the next one, low byte first, and no other byte.
    #[inline(always)]
    pub fn set_word(&mut self, address: u16, word: u16)
        ensures { self.new ≡ with_word_at address word self.old }
    {
        let [low, high] = word.to_le_bytes();
        self.set(address, low);
        self.set(address.wrapping_add(1), high);
    }
}
