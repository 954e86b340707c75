//! Writes the encodings of instructions that differ only in an operand.
ghost use Rattle.std.specs.Prelude.{◌≡◌, ◌+◌, ◌*◌, ◌≤◌, ◌∷◌, length};
ghost use Rattle.z80_instr.specs.declared.Instr.{Instr};
ghost use Rattle.z80_instr.specs.declared.Register.{Register};
ghost use Rattle.z80_instr.specs.declared.AluOperation.{AluOperation};
ghost use Rattle.z80_instr.specs.declared.Rotation.{Rotation};
ghost use Rattle.z80_instr.specs.declared.Octal.{Octal};
ghost use Rattle.z80_instr.specs.Table;
ghost use Rattle.z80_instr.specs.Private.Writes.{Writes, Spells, operand_code};

use crate::code::{pair_code, prefix, register_code};
use crate::{
    HlOrIndex, Memory, Operand, Pointer, Register, RegisterPair, StackOperand, WordRegister,
};

/// Writes the bytes at the front of the buffer, and answers how many they are.
pub(crate) fn put(out: &mut [u8; 4], bytes: &[u8]) -> u8
    requires { length bytes.now ≤ 4 }
    ensures { Writes bytes.now out.old out.new result }
{
    out[..bytes.len()].copy_from_slice(bytes);
    bytes.len() as u8
}

/// Writes an instruction with one opcode byte and this operand. The opcode already has the operand's code in it.
pub(crate) fn put_operand(out: &mut [u8; 4], opcode: u8, operand: Operand) -> u8
    ensures load { (r : Register) → opcode ≡ 0x40 + 8 * Table.register_code r + operand_code operand →
        Spells (Instr.Load r operand) out.old out.new result }
    ensures alu { (a : AluOperation) → opcode ≡ 0x80 + 8 * Table.operation_code a + operand_code operand →
        Spells (Instr.Alu a operand) out.old out.new result }
    ensures inc { opcode ≡ 0x04 + 8 * operand_code operand →
        Spells (Instr.Inc operand) out.old out.new result }
    ensures dec { opcode ≡ 0x05 + 8 * operand_code operand →
        Spells (Instr.Dec operand) out.old out.new result }
{
    match operand {
        Operand::Register(_) | Operand::Memory(Memory::Hl) => put(out, &[opcode]),
        Operand::Memory(Memory::Indexed(index, d)) => {
            put(out, &[prefix(index), opcode, d.cast_unsigned()])
        }
    }
}

/// Writes an instruction with an opcode after CB. The opcode already has the operand's code in it.
pub(crate) fn put_bits(out: &mut [u8; 4], opcode: u8, operand: Operand) -> u8
    ensures rotate { (t : Rotation) → opcode ≡ 8 * Table.rotation_code t + operand_code operand →
        Spells (Instr.Rotate t operand) out.old out.new result }
    ensures bit { (b : Octal) → opcode ≡ 0x40 + 8 * Table.octal_code b + operand_code operand →
        Spells (Instr.Bit b operand) out.old out.new result }
    ensures res { (b : Octal) → opcode ≡ 0x80 + 8 * Table.octal_code b + operand_code operand →
        Spells (Instr.Res b operand) out.old out.new result }
    ensures set { (b : Octal) → opcode ≡ 0xC0 + 8 * Table.octal_code b + operand_code operand →
        Spells (Instr.Set b operand) out.old out.new result }
{
    match operand {
        Operand::Register(_) | Operand::Memory(Memory::Hl) => put(out, &[0xCB, opcode]),
        Operand::Memory(Memory::Indexed(index, d)) => {
            put(out, &[prefix(index), 0xCB, d.cast_unsigned(), opcode])
        }
    }
}

/// Writes LD of a register to memory.
pub(crate) fn put_store(out: &mut [u8; 4], memory: Memory, register: Register) -> u8
    ensures { Spells (Instr.Store memory register) out.old out.new result }
{
    let opcode = 0x70 + register_code(register);
    match memory {
        Memory::Hl => put(out, &[opcode]),
        Memory::Indexed(index, d) => put(out, &[prefix(index), opcode, d.cast_unsigned()]),
    }
}

/// Writes LD of a number to an operand.
pub(crate) fn put_load_byte(out: &mut [u8; 4], operand: Operand, n: u8) -> u8
    ensures { Spells (Instr.LoadByte operand n) out.old out.new result }
{
    match operand {
        Operand::Register(register) => put(out, &[0x06 + 8 * register_code(register), n]),
        Operand::Memory(Memory::Hl) => put(out, &[0x36, n]),
        Operand::Memory(Memory::Indexed(index, d)) => {
            put(out, &[prefix(index), 0x36, d.cast_unsigned(), n])
        }
    }
}

/// Writes LD between A and a byte that only A can be loaded from or stored to. `opcode` is that for (BC).
pub(crate) fn put_pointer(out: &mut [u8; 4], opcode: u8, pointer: Pointer) -> u8
    requires { opcode ≤ 0x0A }
    ensures load { opcode ≡ 0x0A → Spells (Instr.LoadA pointer) out.old out.new result }
    ensures store { opcode ≡ 0x02 → Spells (Instr.StoreA pointer) out.old out.new result }
{
    match pointer {
        Pointer::Bc => put(out, &[opcode]),
        Pointer::De => put(out, &[opcode + 0x10]),
        Pointer::Address(nn) => {
            let [low, high] = nn.to_le_bytes();
            put(out, &[opcode + 0x30, low, high])
        }
    }
}

/// Writes LD of a word to a register.
pub(crate) fn put_load_word(out: &mut [u8; 4], register: WordRegister, nn: u16) -> u8
    ensures { Spells (Instr.LoadWord register nn) out.old out.new result }
{
    let [low, high] = nn.to_le_bytes();
    match register {
        WordRegister::Pair(pair) => put(out, &[0x01 + 16 * pair_code(pair), low, high]),
        WordRegister::Index(index) => put(out, &[prefix(index), 0x21, low, high]),
    }
}

/// Writes LD between a register and the word at an address. `opcode` is that for HL, and `extended` the one after ED for BC.
pub(crate) fn put_word_at(
    out: &mut [u8; 4],
    opcode: u8,
    extended: u8,
    register: WordRegister,
    nn: u16,
) -> u8
    requires { extended ≤ 0x4B }
    ensures load { opcode ≡ 0x2A → extended ≡ 0x4B →
        Spells (Instr.LoadWordFrom register nn) out.old out.new result }
    ensures store { opcode ≡ 0x22 → extended ≡ 0x43 →
        Spells (Instr.StoreWord register nn) out.old out.new result }
{
    let [low, high] = nn.to_le_bytes();
    match register {
        WordRegister::Pair(RegisterPair::Hl) => put(out, &[opcode, low, high]),
        WordRegister::Pair(pair) => put(out, &[0xED, extended + 16 * pair_code(pair), low, high]),
        WordRegister::Index(index) => put(out, &[prefix(index), opcode, low, high]),
    }
}

/// Writes an instruction of HL or an index register.
pub(crate) fn put_hl_or_index(out: &mut [u8; 4], opcode: u8, register: HlOrIndex) -> u8
    ensures load { opcode ≡ 0xF9 → Spells (Instr.LoadSp register) out.old out.new result }
    ensures exchange { opcode ≡ 0xE3 → Spells (Instr.ExSp register) out.old out.new result }
    ensures jump { opcode ≡ 0xE9 → Spells (Instr.JumpIndirect register) out.old out.new result }
{
    match register {
        HlOrIndex::Hl => put(out, &[opcode]),
        HlOrIndex::Index(index) => put(out, &[prefix(index), opcode]),
    }
}

/// Writes PUSH or POP. `opcode` is that for BC.
pub(crate) fn put_stack(out: &mut [u8; 4], opcode: u8, operand: StackOperand) -> u8
    requires { opcode ≤ 0xC5 }
    ensures push { opcode ≡ 0xC5 → Spells (Instr.Push operand) out.old out.new result }
    ensures pop { opcode ≡ 0xC1 → Spells (Instr.Pop operand) out.old out.new result }
{
    match operand {
        StackOperand::Bc => put(out, &[opcode]),
        StackOperand::De => put(out, &[opcode + 0x10]),
        StackOperand::Hl => put(out, &[opcode + 0x20]),
        StackOperand::Af => put(out, &[opcode + 0x30]),
        StackOperand::Index(index) => put(out, &[prefix(index), opcode + 0x20]),
    }
}

/// Writes INC or DEC of a 16-bit register. `opcode` is that for BC.
pub(crate) fn put_count(out: &mut [u8; 4], opcode: u8, register: WordRegister) -> u8
    requires { opcode ≤ 0x0B }
    ensures inc { opcode ≡ 0x03 → Spells (Instr.IncWord register) out.old out.new result }
    ensures dec { opcode ≡ 0x0B → Spells (Instr.DecWord register) out.old out.new result }
{
    match register {
        WordRegister::Pair(pair) => put(out, &[opcode + 16 * pair_code(pair)]),
        WordRegister::Index(index) => put(out, &[prefix(index), opcode + 0x20]),
    }
}

/// Writes an opcode and a word, low byte first.
pub(crate) fn put_word(out: &mut [u8; 4], opcode: u8, nn: u16) -> u8
    ensures { Writes (opcode ∷ Table.word nn) out.old out.new result }
{
    let [low, high] = nn.to_le_bytes();
    put(out, &[opcode, low, high])
}
