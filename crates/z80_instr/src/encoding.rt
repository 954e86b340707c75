//! Writes the bytes of an instruction of the Z80.

ghost use Rattle.std.specs.Prelude.{◌≡◌, ◌≤◌, ◌++◌, length, drop};
ghost use Rattle.z80_instr.specs.Table.{canonical};
ghost use Rattle.z80_instr.specs.Codes.{Codes};
ghost use Rattle.z80_instr.specs.Private.Writes.{Spells};

use crate::code::{
    addend_code, block_operation_code, block_step_code, condition_code, operand_code,
    operation_code, pair_code, prefix, register_code, rotation_code, short_condition_code,
};
use crate::put::{
    put, put_bits, put_count, put_hl_or_index, put_load_byte, put_load_word, put_operand,
    put_pointer, put_stack, put_store, put_word, put_word_at,
};
use crate::{Instr, InterruptMode};

/// Writes the canonical encoding of an instruction at the front of the buffer, and answers its length.
///
/// The other bytes of the buffer stay as they are.
pub fn encode(instr: &Instr, out: &mut [u8; 4]) -> u8
    ensures codes { Codes instr.now (canonical instr.now) }
    ensures written { out.new ≡ canonical instr.now ++ drop (length (canonical instr.now)) out.old }
    ensures count { result ≡ length (canonical instr.now) }
    ensures most { result ≤ 4 }
{
    let instr = *instr;
    put_instr(out, instr)
}

/// Writes the encoding, with an arm for each instruction in the manual's groups and order.
fn put_instr(out: &mut [u8; 4], instr: Instr) -> u8
    ensures codes { Codes instr (canonical instr) }
    ensures spells { Spells instr out.old out.new result }
{
    match instr {
        Instr::Load(r, s) => put_operand(out, 0x40 + 8 * register_code(r) + operand_code(s), s),
        Instr::Store(memory, r) => put_store(out, memory, r),
        Instr::LoadByte(operand, n) => put_load_byte(out, operand, n),
        Instr::LoadA(pointer) => put_pointer(out, 0x0A, pointer),
        Instr::StoreA(pointer) => put_pointer(out, 0x02, pointer),
        Instr::LoadAFromI => put(out, &[0xED, 0x57]),
        Instr::LoadAFromR => put(out, &[0xED, 0x5F]),
        Instr::LoadIFromA => put(out, &[0xED, 0x47]),
        Instr::LoadRFromA => put(out, &[0xED, 0x4F]),

        Instr::LoadWord(register, nn) => put_load_word(out, register, nn),
        Instr::LoadWordFrom(register, nn) => put_word_at(out, 0x2A, 0x4B, register, nn),
        Instr::StoreWord(register, nn) => put_word_at(out, 0x22, 0x43, register, nn),
        Instr::LoadSp(register) => put_hl_or_index(out, 0xF9, register),
        Instr::Push(operand) => put_stack(out, 0xC5, operand),
        Instr::Pop(operand) => put_stack(out, 0xC1, operand),

        Instr::ExDeHl => put(out, &[0xEB]),
        Instr::ExAf => put(out, &[0x08]),
        Instr::Exx => put(out, &[0xD9]),
        Instr::ExSp(register) => put_hl_or_index(out, 0xE3, register),
        Instr::Block(operation, step) => {
            let opcode = 0xA0 + 8 * block_step_code(step) + block_operation_code(operation);
            put(out, &[0xED, opcode])
        }

        Instr::Alu(operation, s) => {
            put_operand(
                out,
                0x80 + 8 * operation_code(operation) + operand_code(s),
                s,
            )
        }
        Instr::AluByte(operation, n) => put(out, &[0xC6 + 8 * operation_code(operation), n]),
        Instr::Inc(m) => put_operand(out, 0x04 + 8 * operand_code(m), m),
        Instr::Dec(m) => put_operand(out, 0x05 + 8 * operand_code(m), m),

        Instr::Daa => put(out, &[0x27]),
        Instr::Cpl => put(out, &[0x2F]),
        Instr::Neg => put(out, &[0xED, 0x44]),
        Instr::Ccf => put(out, &[0x3F]),
        Instr::Scf => put(out, &[0x37]),
        Instr::Nop => put(out, &[0x00]),
        Instr::Halt => put(out, &[0x76]),
        Instr::Di => put(out, &[0xF3]),
        Instr::Ei => put(out, &[0xFB]),
        Instr::Im(InterruptMode::Zero) => put(out, &[0xED, 0x46]),
        Instr::Im(InterruptMode::One) => put(out, &[0xED, 0x56]),
        Instr::Im(InterruptMode::Two) => put(out, &[0xED, 0x5E]),

        Instr::AddHl(pair) => put(out, &[0x09 + 16 * pair_code(pair)]),
        Instr::AdcHl(pair) => put(out, &[0xED, 0x4A + 16 * pair_code(pair)]),
        Instr::SbcHl(pair) => put(out, &[0xED, 0x42 + 16 * pair_code(pair)]),
        Instr::AddIndex(index, addend) => {
            put(out, &[prefix(index), 0x09 + 16 * addend_code(addend)])
        }
        Instr::IncWord(register) => put_count(out, 0x03, register),
        Instr::DecWord(register) => put_count(out, 0x0B, register),

        Instr::Rlca => put(out, &[0x07]),
        Instr::Rla => put(out, &[0x17]),
        Instr::Rrca => put(out, &[0x0F]),
        Instr::Rra => put(out, &[0x1F]),
        Instr::Rotate(rotation, m) => {
            put_bits(out, 8 * rotation_code(rotation) + operand_code(m), m)
        }
        Instr::Rld => put(out, &[0xED, 0x6F]),
        Instr::Rrd => put(out, &[0xED, 0x67]),

        Instr::Bit(b, m) => put_bits(out, 0x40 + 8 * b.number() + operand_code(m), m),
        Instr::Set(b, m) => put_bits(out, 0xC0 + 8 * b.number() + operand_code(m), m),
        Instr::Res(b, m) => put_bits(out, 0x80 + 8 * b.number() + operand_code(m), m),

        Instr::Jump(nn) => put_word(out, 0xC3, nn),
        Instr::JumpIf(condition, nn) => put_word(out, 0xC2 + 8 * condition_code(condition), nn),
        Instr::JumpRelative(e) => put(out, &[0x18, e.cast_unsigned()]),
        Instr::JumpRelativeIf(condition, e) => {
            put(
                out,
                &[
                    0x20 + 8 * short_condition_code(condition),
                    e.cast_unsigned(),
                ],
            )
        }
        Instr::JumpIndirect(register) => put_hl_or_index(out, 0xE9, register),
        Instr::Djnz(e) => put(out, &[0x10, e.cast_unsigned()]),

        Instr::Call(nn) => put_word(out, 0xCD, nn),
        Instr::CallIf(condition, nn) => put_word(out, 0xC4 + 8 * condition_code(condition), nn),
        Instr::Ret => put(out, &[0xC9]),
        Instr::RetIf(condition) => put(out, &[0xC0 + 8 * condition_code(condition)]),
        Instr::Reti => put(out, &[0xED, 0x4D]),
        Instr::Retn => put(out, &[0xED, 0x45]),
        Instr::Restart(t) => put(out, &[0xC7 + 8 * t.number()]),

        Instr::InA(n) => put(out, &[0xDB, n]),
        Instr::InC(register) => put(out, &[0xED, 0x40 + 8 * register_code(register)]),
        Instr::OutA(n) => put(out, &[0xD3, n]),
        Instr::OutC(register) => put(out, &[0xED, 0x41 + 8 * register_code(register)]),
    }
}
