//! The number of bytes in the canonical encoding of an instruction.
ghost use Rattle.std.specs.Prelude.{◌≡◌, ◌+◌, ◌<◌, ◌≤◌, ℕ, length};
ghost use Rattle.z80_instr.specs.declared.Instr.{Instr};
ghost use Rattle.z80_instr.specs.declared.Register.{Register};
ghost use Rattle.z80_instr.specs.declared.AluOperation.{AluOperation};
ghost use Rattle.z80_instr.specs.declared.Rotation.{Rotation};
ghost use Rattle.z80_instr.specs.declared.Octal.{Octal};
ghost use Rattle.z80_instr.specs.Table.{canonical};

use crate::{HlOrIndex, Instr, Memory, Operand, Pointer, RegisterPair, StackOperand, WordRegister};

/// The length of an instruction with one opcode byte and this operand. A second opcode byte or a number adds 1.
fn operand_size(operand: Operand) -> u8
    ensures load { (r : Register) → result ≡ length (canonical (Instr.Load r operand)) }
    ensures alu { (a : AluOperation) → result ≡ length (canonical (Instr.Alu a operand)) }
    ensures inc { result ≡ length (canonical (Instr.Inc operand)) }
    ensures dec { result ≡ length (canonical (Instr.Dec operand)) }
    ensures load_byte { (n : ℕ) → result + 1 ≡ length (canonical (Instr.LoadByte operand n)) }
    ensures rotate { (t : Rotation) → result + 1 ≡ length (canonical (Instr.Rotate t operand)) }
    ensures bit { (b : Octal) → result + 1 ≡ length (canonical (Instr.Bit b operand)) }
    ensures set { (b : Octal) → result + 1 ≡ length (canonical (Instr.Set b operand)) }
    ensures res { (b : Octal) → result + 1 ≡ length (canonical (Instr.Res b operand)) }
{
    match operand {
        Operand::Register(_) | Operand::Memory(Memory::Hl) => 1,
        Operand::Memory(Memory::Indexed(_, _)) => 3,
    }
}

/// The length of the canonical encoding, 1 to 4.
pub fn size(instr: &Instr) -> u8
    ensures length { result ≡ length (canonical instr.now) }
    ensures least { 0 < result }
    ensures most { result ≤ 4 }
{
    match *instr {
        Instr::Load(_, operand)
        | Instr::Alu(_, operand)
        | Instr::Inc(operand)
        | Instr::Dec(operand) => operand_size(operand),
        Instr::LoadByte(operand, _) | Instr::Rotate(_, operand) => operand_size(operand) + 1,
        Instr::Bit(_, operand) | Instr::Set(_, operand) | Instr::Res(_, operand) => {
            operand_size(operand) + 1
        }
        Instr::Store(Memory::Hl, _) => 1,
        Instr::Store(Memory::Indexed(_, _), _) => 3,

        Instr::LoadA(Pointer::Bc | Pointer::De) | Instr::StoreA(Pointer::Bc | Pointer::De) => 1,
        Instr::LoadA(Pointer::Address(_)) | Instr::StoreA(Pointer::Address(_)) => 3,

        Instr::LoadWord(WordRegister::Pair(_), _)
        | Instr::LoadWordFrom(WordRegister::Pair(RegisterPair::Hl), _)
        | Instr::StoreWord(WordRegister::Pair(RegisterPair::Hl), _) => 3,
        Instr::LoadWord(_, _) | Instr::LoadWordFrom(_, _) | Instr::StoreWord(_, _) => 4,

        Instr::LoadSp(HlOrIndex::Hl)
        | Instr::ExSp(HlOrIndex::Hl)
        | Instr::JumpIndirect(HlOrIndex::Hl) => 1,
        Instr::LoadSp(_) | Instr::ExSp(_) | Instr::JumpIndirect(_) => 2,
        Instr::Push(StackOperand::Index(_)) | Instr::Pop(StackOperand::Index(_)) => 2,
        Instr::Push(_) | Instr::Pop(_) => 1,
        Instr::IncWord(WordRegister::Pair(_)) | Instr::DecWord(WordRegister::Pair(_)) => 1,
        Instr::IncWord(_) | Instr::DecWord(_) => 2,

        Instr::ExDeHl | Instr::ExAf | Instr::Exx | Instr::Daa | Instr::Cpl | Instr::Ccf => 1,
        Instr::Scf | Instr::Nop | Instr::Halt | Instr::Di | Instr::Ei | Instr::Rlca => 1,
        Instr::Rla | Instr::Rrca | Instr::Rra | Instr::AddHl(_) | Instr::Ret => 1,
        Instr::RetIf(_) | Instr::Restart(_) => 1,

        Instr::LoadAFromI | Instr::LoadAFromR | Instr::LoadIFromA | Instr::LoadRFromA => 2,
        Instr::Block(_, _) | Instr::AluByte(_, _) | Instr::Neg | Instr::Im(_) => 2,
        Instr::AdcHl(_) | Instr::SbcHl(_) | Instr::AddIndex(_, _) | Instr::Rld | Instr::Rrd => 2,
        Instr::JumpRelative(_) | Instr::JumpRelativeIf(_, _) | Instr::Djnz(_) => 2,
        Instr::Reti | Instr::Retn => 2,
        Instr::InA(_) | Instr::InC(_) | Instr::OutA(_) | Instr::OutC(_) => 2,

        Instr::Jump(_) | Instr::JumpIf(_, _) | Instr::Call(_) | Instr::CallIf(_, _) => 3,
    }
}
