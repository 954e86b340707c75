//! Carries out each instruction. PC is already at the next one.
ghost use Rattle.std.specs.Prelude.{◌≡◌};
ghost use Rattle.z80_cpu.specs.State.{machine};
ghost use Rattle.z80_cpu.specs.Effect.{instruction_effect};

use crate::blocks::PORT_VALUE;
use crate::memory::Memory;
use crate::operands::displaced;
use crate::registers::Cpu;
use z80_instr::{Instr, Rotation};

impl Cpu {
    /// Carries out the instruction. The groups are those of the manual.
    pub fn execute(&mut self, memory: &mut Memory, instr: Instr)
        ensures { machine self.new memory.new ≡ instruction_effect instr (machine self.old memory.old) }
    {
        match instr {
            // 8-bit load group
            Instr::Load(register, operand) => {
                let value = self.operand(memory, operand);
                self.main.set(register, value);
            }
            Instr::Store(place, register) => memory.set(
                self.address(place),
                self.main.get(register),
            ),
            Instr::LoadByte(operand, n) => self.set_operand(memory, operand, n),
            Instr::LoadA(pointer) => self.main.a = memory.get(self.pointer(pointer)),
            Instr::StoreA(pointer) => memory.set(self.pointer(pointer), self.main.a),
            Instr::LoadAFromI => self.load_from_control(self.i),
            Instr::LoadAFromR => self.load_from_control(self.r),
            Instr::LoadIFromA => self.i = self.main.a,
            Instr::LoadRFromA => self.r = self.main.a,
            // 16-bit load group
            Instr::LoadWord(register, nn) => self.set_word(register, nn),
            Instr::LoadWordFrom(register, nn) => self.set_word(register, memory.word(nn)),
            Instr::StoreWord(register, nn) => memory.set_word(nn, self.word(register)),
            Instr::LoadSp(register) => self.sp = self.hl_or_index(register),
            Instr::Push(operand) => self.push(memory, self.stack_operand(operand)),
            Instr::Pop(operand) => {
                let word = self.pop(memory);
                self.set_stack_operand(operand, word);
            }
            // Exchange, block transfer, and search group
            Instr::ExDeHl => self.ex_de_hl(),
            Instr::ExAf => self.ex_af(),
            Instr::Exx => self.exx(),
            Instr::ExSp(register) => self.ex_sp(memory, register),
            Instr::Block(operation, step) => self.block(memory, operation, step),
            // 8-bit arithmetic group
            Instr::Alu(operation, operand) => {
                let value = self.operand(memory, operand);
                self.operate(operation, value);
            }
            Instr::AluByte(operation, n) => self.operate(operation, n),
            Instr::Inc(operand) => self.increment(memory, operand),
            Instr::Dec(operand) => self.decrement(memory, operand),
            // General-purpose arithmetic and CPU control groups
            Instr::Daa => self.adjust(),
            Instr::Cpl => self.complement(),
            Instr::Neg => self.negate(),
            Instr::Ccf => self.main.flags.complement_carry(),
            Instr::Scf => self.main.flags.set_carry(),
            Instr::Nop => {}
            Instr::Halt => self.pc = self.pc.wrapping_sub(1),
            Instr::Di => self.set_interrupts(false),
            Instr::Ei => self.set_interrupts(true),
            Instr::Im(mode) => self.mode = mode,
            // 16-bit arithmetic group
            Instr::AddHl(pair) => self.add_hl(pair),
            Instr::AdcHl(pair) => self.adc_hl(pair),
            Instr::SbcHl(pair) => self.sbc_hl(pair),
            Instr::AddIndex(index, addend) => self.add_index(index, addend),
            Instr::IncWord(register) => self.increment_word(register),
            Instr::DecWord(register) => self.decrement_word(register),
            // Rotate and shift group
            Instr::Rlca => self.rotate_accumulator(Rotation::Rlc),
            Instr::Rla => self.rotate_accumulator(Rotation::Rl),
            Instr::Rrca => self.rotate_accumulator(Rotation::Rrc),
            Instr::Rra => self.rotate_accumulator(Rotation::Rr),
            Instr::Rotate(rotation, operand) => self.rotate(memory, rotation, operand),
            Instr::Rld => self.rotate_digits_left(memory),
            Instr::Rrd => self.rotate_digits_right(memory),
            // Bit set, reset, and test group
            Instr::Bit(bit, operand) => {
                let value = self.operand(memory, operand);
                self.main.flags.test_bit(bit, value);
            }
            Instr::Set(bit, operand) => self.set_bit(memory, bit, operand),
            Instr::Res(bit, operand) => self.reset_bit(memory, bit, operand),
            // Jump group
            Instr::Jump(nn) => self.pc = nn,
            Instr::JumpIf(condition, nn) => self.jump_if(condition, nn),
            Instr::JumpRelative(e) => self.pc = displaced(self.pc, e),
            Instr::JumpRelativeIf(condition, e) => self.jump_relative_if(condition, e),
            Instr::JumpIndirect(register) => self.pc = self.hl_or_index(register),
            Instr::Djnz(e) => self.decrement_and_jump(e),
            // Call and return group
            Instr::Call(nn) => self.call(memory, nn),
            Instr::CallIf(condition, nn) => self.call_if(memory, condition, nn),
            Instr::Ret | Instr::Reti => self.ret(memory),
            Instr::RetIf(condition) => self.ret_if(memory, condition),
            Instr::Retn => self.retn(memory),
            Instr::Restart(p) => self.call(memory, 8 * p.number() as u16),
            // Input and output group
            Instr::InA(_) => self.main.a = PORT_VALUE,
            Instr::InC(register) => {
                self.main.set(register, PORT_VALUE);
                self.main.flags.set_parity(PORT_VALUE, false);
            }
            Instr::OutA(_) | Instr::OutC(_) => {}
        }
    }

    /// DI and EI.
    #[inline(always)]
    pub fn set_interrupts(&mut self, accepted: bool)
        ensures { self.new ≡ record self.old { iff1 = accepted; iff2 = accepted } }
    {
        self.iff1 = accepted;
        self.iff2 = accepted;
    }
}
