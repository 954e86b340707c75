//! Prints instructions.

ghost use Rattle.std.specs.Prelude.{◌≡◌, ◌++◌, ◌∷◌, [], OnOk, decimal, map};
ghost use Rattle.hex.specs.Hex.{encode_upper};
ghost use Rattle.z80_instr.specs.Table.{octal_code};
ghost use Rattle.state_text.specs.Printing.Instructions.{byte_number, goal_text, in_parentheses, index_word, instr_displacement, instr_number, instr_text, memory_displacement, mode_text, number_with_sign, operand_displacement, operand_text, operands_text, pointed_word, pointer_number, word_number};
ghost use Rattle.state_text.specs.Private.Rows.{forms_of};

use super::columns::put_word;
use super::row::{Operands, mnemonic_of, operands_of};
use super::words::{mnemonic_word, operand_word};
use std::alloc::{AllocError, Global};
use z80_form::{Form, Pointed};
use z80_instr::{IndexRegister, Instr, InterruptMode, Memory, Octal, Operand, Pointer};

/// Appends a byte as two hexadecimal digits.
pub fn put_byte(alloc: Global, text: &mut Vec<u8>, byte: u8) -> Result<(), AllocError>
    ensures { OnOk result (text.new.items ≡ text.old.items ++ encode_upper (byte ∷ [])) }
{
    let digits = hex::encode_upper(alloc, &[byte][..])?;
    text.extend_from_slice(digits.as_bytes())
}

/// Appends a byte as a number of the assembler, which begins with a digit.
pub fn put_byte_number(alloc: Global, text: &mut Vec<u8>, byte: u8) -> Result<(), AllocError>
    ensures { OnOk result (text.new.items ≡ text.old.items ++ byte_number byte) }
{
    if byte >= 0xA0 {
        text.push(b'0')?;
    }
    put_byte(alloc, text, byte)?;
    text.extend_from_slice(b"H")
}

/// Appends a word in the same way.
pub fn put_word_number(alloc: Global, text: &mut Vec<u8>, word: u16) -> Result<(), AllocError>
    ensures { OnOk result (text.new.items ≡ text.old.items ++ word_number word) }
{
    if word >= 0xA000 {
        text.push(b'0')?;
    }
    put_word(alloc, text, word)?;
    text.extend_from_slice(b"H")
}

/// Appends a number in decimal after its sign.
fn put_signed(alloc: Global, text: &mut Vec<u8>, number: i16) -> Result<(), AllocError>
    ensures { OnOk result (text.new.items ≡ text.old.items ++ number_with_sign number) }
{
    text.push(if number < 0 { b'-' } else { b'+' })?;
    let size = number.unsigned_abs();
    text.extend_from_slice(format!(in alloc; "{size}")?.as_bytes())
}

/// Appends the target of a relative jump with the distance `e`, which counts from the next instruction.
fn put_goal(alloc: Global, text: &mut Vec<u8>, e: i8) -> Result<(), AllocError>
    ensures { OnOk result (text.new.items ≡ text.old.items ++ goal_text e) }
{
    text.extend_from_slice(b"$")?;
    put_signed(alloc, text, e as i16 + 2)
}

/// Appends a number of three bits.
fn put_digit(alloc: Global, text: &mut Vec<u8>, octal: Octal) -> Result<(), AllocError>
    ensures { OnOk result (text.new.items ≡ text.old.items ++ decimal (octal_code octal)) }
{
    let digit = octal.number();
    text.extend_from_slice(format!(in alloc; "{digit}")?.as_bytes())
}

/// Appends an interrupt mode.
fn put_mode(text: &mut Vec<u8>, mode: InterruptMode) -> Result<(), AllocError>
    ensures { OnOk result (text.new.items ≡ text.old.items ++ mode_text mode) }
{
    match mode {
        InterruptMode::Zero => text.extend_from_slice(b"0"),
        InterruptMode::One => text.extend_from_slice(b"1"),
        InterruptMode::Two => text.extend_from_slice(b"2"),
    }
}

/// Appends the number of a pointer, if it has one.
fn put_pointer(alloc: Global, text: &mut Vec<u8>, pointer: Pointer) -> Result<(), AllocError>
    ensures { OnOk result (text.new.items ≡ text.old.items ++ pointer_number pointer) }
{
    match pointer {
        Pointer::Address(nn) => put_word_number(alloc, text, nn),
        _ => Ok(()),
    }
}

/// Appends the number of an instruction that is not its displacement, if it has one.
fn put_instr_number(alloc: Global, text: &mut Vec<u8>, instr: Instr) -> Result<(), AllocError>
    ensures { OnOk result (text.new.items ≡ text.old.items ++ instr_number instr) }
{
    match instr {
        Instr::LoadByte(_, n) => put_byte_number(alloc, text, n),
        Instr::LoadA(from) => put_pointer(alloc, text, from),
        Instr::StoreA(to) => put_pointer(alloc, text, to),
        Instr::LoadWord(_, nn) => put_word_number(alloc, text, nn),
        Instr::LoadWordFrom(_, nn) => put_word_number(alloc, text, nn),
        Instr::StoreWord(_, nn) => put_word_number(alloc, text, nn),
        Instr::AluByte(_, n) => put_byte_number(alloc, text, n),
        Instr::Im(mode) => put_mode(text, mode),
        Instr::Bit(b, _) => put_digit(alloc, text, b),
        Instr::Set(b, _) => put_digit(alloc, text, b),
        Instr::Res(b, _) => put_digit(alloc, text, b),
        Instr::Jump(nn) => put_word_number(alloc, text, nn),
        Instr::JumpIf(_, nn) => put_word_number(alloc, text, nn),
        Instr::JumpRelative(e) => put_goal(alloc, text, e),
        Instr::JumpRelativeIf(_, e) => put_goal(alloc, text, e),
        Instr::Djnz(e) => put_goal(alloc, text, e),
        Instr::Call(nn) => put_word_number(alloc, text, nn),
        Instr::CallIf(_, nn) => put_word_number(alloc, text, nn),
        Instr::Restart(t) => put_byte_number(alloc, text, 8 * t.number()),
        Instr::InA(n) => put_byte_number(alloc, text, n),
        Instr::OutA(n) => put_byte_number(alloc, text, n),
        _ => Ok(()),
    }
}

/// The displacement of an operand in memory; 0 if it has none.
fn memory_displacement(memory: Memory) -> i8
    ensures { result ≡ memory_displacement memory }
{
    match memory {
        Memory::Hl => 0,
        Memory::Indexed(_, d) => d,
    }
}

/// The displacement of an operand; 0 if it has none.
fn operand_displacement(operand: Operand) -> i8
    ensures { result ≡ operand_displacement operand }
{
    match operand {
        Operand::Register(_) => 0,
        Operand::Memory(memory) => memory_displacement(memory),
    }
}

/// The displacement of an instruction; 0 if it has none.
fn instr_displacement(instr: Instr) -> i8
    ensures { result ≡ instr_displacement instr }
{
    match instr {
        Instr::Load(_, s) => operand_displacement(s),
        Instr::Store(m, _) => memory_displacement(m),
        Instr::LoadByte(m, _) => operand_displacement(m),
        Instr::Alu(_, s) => operand_displacement(s),
        Instr::Inc(m) => operand_displacement(m),
        Instr::Dec(m) => operand_displacement(m),
        Instr::Rotate(_, m) => operand_displacement(m),
        Instr::Bit(_, m) => operand_displacement(m),
        Instr::Set(_, m) => operand_displacement(m),
        Instr::Res(_, m) => operand_displacement(m),
        _ => 0,
    }
}

fn pointed_word(pointed: Pointed) -> &'static [u8]
    ensures { result.now ≡ pointed_word pointed }
{
    match pointed {
        Pointed::Hl => b"HL",
        Pointed::Bc => b"BC",
        Pointed::De => b"DE",
        Pointed::Sp => b"SP",
        Pointed::C => b"C",
    }
}

fn index_word(x: IndexRegister) -> &'static [u8]
    ensures { result.now ≡ index_word x }
{
    match x {
        IndexRegister::Ix => b"IX",
        IndexRegister::Iy => b"IY",
    }
}

/// Appends a word in parentheses.
fn put_in_parentheses(text: &mut Vec<u8>, word: &[u8]) -> Result<(), AllocError>
    ensures { OnOk result (text.new.items ≡ text.old.items ++ in_parentheses word.now) }
{
    text.extend_from_slice(b"(")?;
    text.extend_from_slice(word)?;
    text.extend_from_slice(b")")
}

/// Appends an index register with a displacement, in parentheses.
fn put_displaced(
    alloc: Global,
    text: &mut Vec<u8>,
    x: IndexRegister,
    d: i8,
) -> Result<(), AllocError>
    ensures { OnOk result (text.new.items ≡ text.old.items ++ in_parentheses (index_word x ++ number_with_sign d)) }
{
    text.extend_from_slice(b"(")?;
    text.extend_from_slice(index_word(x))?;
    put_signed(alloc, text, d as i16)?;
    text.extend_from_slice(b")")
}

/// Appends the number of an instruction, in parentheses.
fn put_at_number(alloc: Global, text: &mut Vec<u8>, instr: Instr) -> Result<(), AllocError>
    ensures { OnOk result (text.new.items ≡ text.old.items ++ in_parentheses (instr_number instr)) }
{
    text.extend_from_slice(b"(")?;
    put_instr_number(alloc, text, instr)?;
    text.extend_from_slice(b")")
}

/// Appends an operand of an instruction, in this form.
fn put_operand(
    alloc: Global,
    text: &mut Vec<u8>,
    instr: Instr,
    form: Form,
) -> Result<(), AllocError>
    ensures { OnOk result (text.new.items ≡ text.old.items ++ operand_text instr form) }
{
    match form {
        Form::Name(name) => text.extend_from_slice(operand_word(name)),
        Form::At(pointed) => put_in_parentheses(text, pointed_word(pointed)),
        Form::AtIndex(x) => put_in_parentheses(text, index_word(x)),
        Form::Displaced(x) => put_displaced(alloc, text, x, instr_displacement(instr)),
        Form::AtNumber => put_at_number(alloc, text, instr),
        Form::Number => put_instr_number(alloc, text, instr),
    }
}

/// Appends the operands of an instruction, in these forms.
fn put_operands(
    alloc: Global,
    text: &mut Vec<u8>,
    instr: Instr,
    operands: Operands,
) -> Result<(), AllocError>
    ensures { OnOk result (text.new.items ≡ text.old.items ++ operands_text (map (operand_text instr) (forms_of operands))) }
{
    match operands {
        Operands::Empty => Ok(()),
        Operands::One(operand) => {
            text.extend_from_slice(b" ")?;
            put_operand(alloc, text, instr, operand)
        }
        Operands::Two(left, right) => {
            text.extend_from_slice(b" ")?;
            put_operand(alloc, text, instr, left)?;
            text.extend_from_slice(b",")?;
            put_operand(alloc, text, instr, right)
        }
    }
}

/// Appends an instruction: its row in the assembler's table, with its numbers.
///
/// # Errors
///
/// [`AllocError`] if memory runs out.
pub fn put_instr(alloc: Global, text: &mut Vec<u8>, instr: Instr) -> Result<(), AllocError>
    ensures { OnOk result (text.new.items ≡ text.old.items ++ instr_text instr) }
{
    text.extend_from_slice(mnemonic_word(mnemonic_of(instr)))?;
    put_operands(alloc, text, instr, operands_of(instr))
}
