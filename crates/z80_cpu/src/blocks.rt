//! Block transfer, search, input and output.
ghost use Rattle.std.specs.Prelude.{◌≡◌};
ghost use Rattle.z80_cpu.specs.State.{machine, byte_at, hl};
ghost use Rattle.z80_cpu.specs.Blocks.{port_value, stepped, repeats, again_if, loaded, compared, counted_down, block_effect};
ghost use Rattle.z80_cpu.specs.Types.{BlockOperation};

use crate::memory::Memory;
use crate::registers::Cpu;
use z80_instr::{BlockOperation, BlockStep};

/// What IN reads: FFH, since there are no ports.
pub const PORT_VALUE: u8 = 0xFF;

#[inline(always)]
fn stepped(step: BlockStep, address: u16) -> u16
    ensures { result ≡ stepped step address }
{
    match step {
        BlockStep::Increment | BlockStep::IncrementRepeat => address.wrapping_add(1),
        BlockStep::Decrement | BlockStep::DecrementRepeat => address.wrapping_sub(1),
    }
}

#[inline(always)]
fn repeats(step: BlockStep) -> bool
    ensures { result ≡ repeats step }
{
    matches!(
        step,
        BlockStep::IncrementRepeat | BlockStep::DecrementRepeat
    )
}

impl Cpu {
    #[inline(always)]
    pub fn block(&mut self, memory: &mut Memory, operation: BlockOperation, step: BlockStep)
        ensures { machine self.new memory.new ≡ block_effect operation step (machine self.old memory.old) }
    {
        match operation {
            BlockOperation::Load => self.block_load(memory, step),
            BlockOperation::Compare => self.block_compare(memory, step),
            BlockOperation::Input => {
                memory.set(self.main.hl(), PORT_VALUE);
                self.count_down(step);
            }
            BlockOperation::Output => self.count_down(step),
        }
    }

    /// LDI, LDD, LDIR and LDDR.
    #[inline(always)]
    fn block_load(&mut self, memory: &mut Memory, step: BlockStep)
        ensures { machine self.new memory.new ≡ block_effect BlockOperation.Load step (machine self.old memory.old) }
    {
        let (from, to) = (self.main.hl(), self.main.de());
        let count = self.main.bc().wrapping_sub(1);
        memory.set(to, memory.get(from));
        self.main.set_hl(stepped(step, from));
        self.main.set_de(stepped(step, to));
        self.main.set_bc(count);
        self.main.flags.half_carry = false;
        self.main.flags.parity_overflow = count != 0;
        self.main.flags.subtract = false;
        self.repeat_if(count != 0, step);
    }

    /// CPI, CPD, CPIR and CPDR.
    #[inline(always)]
    fn block_compare(&mut self, memory: &Memory, step: BlockStep)
        ensures { self.new ≡ compared step (byte_at (hl self.old.main) memory.now) self.old }
    {
        let address = self.main.hl();
        let count = self.main.bc().wrapping_sub(1);
        let carry = self.main.flags.carry;
        let difference = self
            .main
            .flags
            .subtract(self.main.a, memory.get(address), false);
        self.main.flags.parity_overflow = count != 0;
        self.main.flags.carry = carry;
        self.main.set_hl(stepped(step, address));
        self.main.set_bc(count);
        self.repeat_if(count != 0 && difference != 0, step);
    }

    /// INI to OTDR, except for the byte itself.
    #[inline(always)]
    fn count_down(&mut self, step: BlockStep)
        ensures { self.new ≡ counted_down step self.old }
    {
        let count = self.main.b.wrapping_sub(1);
        self.main.set_hl(stepped(step, self.main.hl()));
        self.main.b = count;
        self.main.flags.zero = count == 0;
        self.main.flags.subtract = true;
        self.repeat_if(count != 0, step);
    }

    /// Moves PC back to a repeating instruction that has to repeat.
    #[inline(always)]
    fn repeat_if(&mut self, more: bool, step: BlockStep)
        ensures { self.new ≡ again_if more step self.old }
    {
        if repeats(step) && more {
            self.pc = self.pc.wrapping_sub(2);
        }
    }
}
