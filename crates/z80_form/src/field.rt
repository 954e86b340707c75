//! The numbers of an instruction: where they go, which are allowed, and putting them in.

ghost use Rattle.std.specs.Prelude.{◌≡◌, ◌<◌, FitsSigned, length, true};
ghost use Rattle.std.specs.Int.{w8};
ghost use Rattle.z80_instr.specs.Table.{canonical};
ghost use Rattle.z80_form.specs.Rows.{row};
ghost use Rattle.z80_form.specs.Numbers.{AreAllowed, allows, field_of, memory_at, number_field, operand_at, pointer_at, signed, with_bit, with_byte, with_displacement, with_distance, with_number, with_numbers, with_restart, with_mode, with_word_operand, mode_of};

use crate::form::Form;
use z80_instr::{Instr, InterruptMode, Memory, Octal, Operand, Pointer};

/// The fields of instructions: what a number of an instruction is.
#[derive(Clone, Copy, Debug, PartialEq, Eq)]
pub enum Field {
    /// A byte: `n` in the manual.
    Byte,
    /// A word: `nn` in the manual.
    Word,
    /// The displacement from IX or IY: `d`.
    Displacement,
    /// The distance of a relative jump, from the instruction that follows it: `e`.
    Distance,
    /// The number of a bit: `b`.
    Bit,
    /// The mode of `IM`.
    Mode,
    /// The address of `RST`: `p`.
    Restart,
}

impl Field {
    ghost use Rattle.std.specs.Prelude.{◌≡◌};
    ghost use Rattle.z80_form.specs.Numbers.{allows};

    /// Whether this field allows a number. A negative number is given modulo 65,536, as arithmetic in expressions gives it: 0FFFBH
    /// is -5.
    pub fn allows(self, value: u16) -> bool
        ensures { result ≡ allows self value }
    {
        match self {
            Field::Byte => value < 256 || value >= 0xFF80,
            Field::Word => true,
            Field::Displacement | Field::Distance => value < 128 || value >= 0xFF80,
            Field::Bit => value < 8,
            Field::Mode => value < 3,
            Field::Restart => value < 64 && value % 8 == 0,
        }
    }
}

/// The field that an operand `n`, `nn`, `(n)`, `(nn)`, `e`, `b` or `p` of the instruction fills, if it has such an operand.
fn number_field(instr: Instr) -> Option<Field>
    ensures { result ≡ number_field instr }
{
    match instr {
        Instr::LoadByte(..) | Instr::AluByte(..) | Instr::InA(_) | Instr::OutA(_) => {
            Some(Field::Byte)
        }
        Instr::LoadA(Pointer::Address(_)) | Instr::StoreA(Pointer::Address(_)) => {
            Some(Field::Word)
        }
        Instr::LoadWord(..) | Instr::LoadWordFrom(..) | Instr::StoreWord(..) => Some(Field::Word),
        Instr::Jump(_) | Instr::JumpIf(..) | Instr::Call(_) | Instr::CallIf(..) => {
            Some(Field::Word)
        }
        Instr::JumpRelative(_) | Instr::JumpRelativeIf(..) | Instr::Djnz(_) => {
            Some(Field::Distance)
        }
        Instr::Bit(..) | Instr::Set(..) | Instr::Res(..) => Some(Field::Bit),
        Instr::Im(_) => Some(Field::Mode),
        Instr::Restart(_) => Some(Field::Restart),
        _ => None,
    }
}

/// The field that the expression of an operand fills; None if an operand of this form has no expression.
pub fn field_of(instr: Instr, form: Form) -> Option<Field>
    ensures { result ≡ field_of instr form }
{
    match form {
        Form::Displaced(_) => Some(Field::Displacement),
        Form::AtNumber | Form::Number => number_field(instr),
        _ => None,
    }
}

/// The low byte as a signed number.
fn signed(value: u16) -> i8
    ensures value { result ≡ signed value }
    ensures fits { FitsSigned w8 result }
{
    ((value % 256) as u8).cast_signed()
}

fn memory_at(d: i8, memory: Memory) -> Memory
    ensures { result ≡ memory_at d memory }
{
    match memory {
        Memory::Hl => Memory::Hl,
        Memory::Indexed(x, _) => Memory::Indexed(x, d),
    }
}

fn operand_at(d: i8, operand: Operand) -> Operand
    ensures { result ≡ operand_at d operand }
{
    match operand {
        Operand::Register(r) => Operand::Register(r),
        Operand::Memory(m) => Operand::Memory(memory_at(d, m)),
    }
}

fn with_displacement(d: i8, instr: Instr) -> Instr
    ensures { result ≡ with_displacement d instr }
{
    match instr {
        Instr::Load(r, s) => Instr::Load(r, operand_at(d, s)),
        Instr::Store(m, r) => Instr::Store(memory_at(d, m), r),
        Instr::LoadByte(m, n) => Instr::LoadByte(operand_at(d, m), n),
        Instr::Alu(operation, s) => Instr::Alu(operation, operand_at(d, s)),
        Instr::Inc(m) => Instr::Inc(operand_at(d, m)),
        Instr::Dec(m) => Instr::Dec(operand_at(d, m)),
        Instr::Rotate(rotation, m) => Instr::Rotate(rotation, operand_at(d, m)),
        Instr::Bit(b, m) => Instr::Bit(b, operand_at(d, m)),
        Instr::Set(b, m) => Instr::Set(b, operand_at(d, m)),
        Instr::Res(b, m) => Instr::Res(b, operand_at(d, m)),
        _ => instr,
    }
}

fn with_byte(n: u8, instr: Instr) -> Instr
    ensures { result ≡ with_byte n instr }
{
    match instr {
        Instr::LoadByte(m, _) => Instr::LoadByte(m, n),
        Instr::AluByte(operation, _) => Instr::AluByte(operation, n),
        Instr::InA(_) => Instr::InA(n),
        Instr::OutA(_) => Instr::OutA(n),
        _ => instr,
    }
}

fn pointer_at(nn: u16, pointer: Pointer) -> Pointer
    ensures { result ≡ pointer_at nn pointer }
{
    match pointer {
        Pointer::Address(_) => Pointer::Address(nn),
        _ => pointer,
    }
}

fn with_word(nn: u16, instr: Instr) -> Instr
    ensures { result ≡ with_word_operand nn instr }
{
    match instr {
        Instr::LoadA(from) => Instr::LoadA(pointer_at(nn, from)),
        Instr::StoreA(to) => Instr::StoreA(pointer_at(nn, to)),
        Instr::LoadWord(dd, _) => Instr::LoadWord(dd, nn),
        Instr::LoadWordFrom(dd, _) => Instr::LoadWordFrom(dd, nn),
        Instr::StoreWord(dd, _) => Instr::StoreWord(dd, nn),
        Instr::Jump(_) => Instr::Jump(nn),
        Instr::JumpIf(cc, _) => Instr::JumpIf(cc, nn),
        Instr::Call(_) => Instr::Call(nn),
        Instr::CallIf(cc, _) => Instr::CallIf(cc, nn),
        _ => instr,
    }
}

fn with_distance(e: i8, instr: Instr) -> Instr
    ensures { result ≡ with_distance e instr }
{
    match instr {
        Instr::JumpRelative(_) => Instr::JumpRelative(e),
        Instr::JumpRelativeIf(cc, _) => Instr::JumpRelativeIf(cc, e),
        Instr::Djnz(_) => Instr::Djnz(e),
        _ => instr,
    }
}

fn with_bit(b: Octal, instr: Instr) -> Instr
    ensures { result ≡ with_bit b instr }
{
    match instr {
        Instr::Bit(_, m) => Instr::Bit(b, m),
        Instr::Set(_, m) => Instr::Set(b, m),
        Instr::Res(_, m) => Instr::Res(b, m),
        _ => instr,
    }
}

fn with_mode(mode: InterruptMode, instr: Instr) -> Instr
    ensures { result ≡ with_mode mode instr }
{
    match instr {
        Instr::Im(_) => Instr::Im(mode),
        _ => instr,
    }
}

fn with_restart(t: Octal, instr: Instr) -> Instr
    ensures { result ≡ with_restart t instr }
{
    match instr {
        Instr::Restart(_) => Instr::Restart(t),
        _ => instr,
    }
}

fn mode_of(value: u16) -> InterruptMode
    ensures { result ≡ mode_of value }
{
    match value {
        0 => InterruptMode::Zero,
        1 => InterruptMode::One,
        _ => InterruptMode::Two,
    }
}

/// The instruction with a number in its field. An instruction without such a field stays as it is.
pub fn with_number(instr: Instr, field: Field, value: u16) -> Instr
    requires { allows field value ≡ true }
    ensures number { result ≡ with_number field value instr }

    // The source form stays the same apart from the number, and so does the count of bytes.
    ensures row { row result ≡ row instr }
    ensures size { length (canonical result) ≡ length (canonical instr) }
{
    filled(instr, field, value)
}

/// The instruction with a number in its field, for each kind of field.
fn filled(instr: Instr, field: Field, value: u16) -> Instr
    requires { allows field value ≡ true }
    ensures { result ≡ with_number field value instr }
{
    match field {
        Field::Byte => with_byte((value % 256) as u8, instr),
        Field::Word => with_word(value, instr),
        Field::Displacement => with_displacement(signed(value), instr),
        Field::Distance => with_distance(signed(value), instr),
        Field::Bit => with_bit(Octal::from_number(value as u8), instr),
        Field::Mode => with_mode(mode_of(value), instr),
        Field::Restart => with_restart(Octal::from_number((value / 8) as u8), instr),
    }
}

/// The instruction with each of these numbers in its field, put in from left to right.
pub fn with_numbers(instr: Instr, numbers: &[(Field, u16)]) -> Instr
    requires { AreAllowed numbers.now }
    ensures numbers { result ≡ with_numbers numbers.entry.now instr }
    ensures row { row result ≡ row instr }
    ensures size { length (canonical result) ≡ length (canonical instr) }
{
    let mut instr = instr;
    for (field, value) in numbers {
        instr = filled(instr, *field, *value);
    }
    instr
}
