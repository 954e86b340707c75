//! Finds the instruction that a mnemonic and its operands name.

ghost use Rattle.std.specs.Prelude.{◌≡◌, ◌↔◌, Some, None, IfSome};
ghost use Rattle.z80_form.specs.Types.{Instr};
ghost use Rattle.z80_form.specs.Spelling.{Spells, instruction_of};
ghost use Rattle.z80_form.specs.Numbers.{with_zeros, HasFields};
ghost use Rattle.z80_form.specs.Private.Reading as reading;

use crate::form::{Form, Pointed};
use crate::loads::{if_a, load};
use crate::mnemonic::Mnemonic;
use crate::name::Name;
use crate::part::{
    addend, at_hl_or_index, condition, hl_or_index, operand, pair, register, short_condition,
    stack_operand, word_register,
};
use z80_instr::{AluOperation, IndexRegister, Instr, InterruptMode, Octal};

/// The instruction that a mnemonic and its operands name, with zeros in place of its numbers; None if they name none.
pub fn instruction(mnemonic: Mnemonic, operands: &[Form]) -> Option<Instr>
    ensures spelled { (instr : Instr) →
        (result ≡ Some instr) ↔ (Spells mnemonic operands.entry.now instr × (with_zeros instr ≡ instr)) }
    ensures fields { IfSome result (λ instr. HasFields instr operands.entry.now) }
    ensures none { (result ≡ None) ↔ ((instr : Instr) → Spells mnemonic operands.entry.now instr → ⊥) }
    ensures found { result ≡ instruction_of mnemonic operands.entry.now }
{
    read(mnemonic, operands)
}

/// The instruction, for each count of operands.
fn read(mnemonic: Mnemonic, operands: &[Form]) -> Option<Instr>
    ensures { result ≡ reading.instruction_read mnemonic operands.entry.now }
{
    match operands {
        [] => alone(mnemonic),
        [form] => one(mnemonic, *form),
        [left, right] => two(mnemonic, *left, *right),
        _ => None,
    }
}

/// An instruction without operands.
fn alone(mnemonic: Mnemonic) -> Option<Instr>
    ensures { result ≡ reading.alone_read mnemonic }
{
    match mnemonic {
        Mnemonic::Exx => Some(Instr::Exx),
        Mnemonic::Block(operation, step) => Some(Instr::Block(operation, step)),
        Mnemonic::Daa => Some(Instr::Daa),
        Mnemonic::Cpl => Some(Instr::Cpl),
        Mnemonic::Neg => Some(Instr::Neg),
        Mnemonic::Ccf => Some(Instr::Ccf),
        Mnemonic::Scf => Some(Instr::Scf),
        Mnemonic::Nop => Some(Instr::Nop),
        Mnemonic::Halt => Some(Instr::Halt),
        Mnemonic::Di => Some(Instr::Di),
        Mnemonic::Ei => Some(Instr::Ei),
        Mnemonic::Rlca => Some(Instr::Rlca),
        Mnemonic::Rla => Some(Instr::Rla),
        Mnemonic::Rrca => Some(Instr::Rrca),
        Mnemonic::Rra => Some(Instr::Rra),
        Mnemonic::Rld => Some(Instr::Rld),
        Mnemonic::Rrd => Some(Instr::Rrd),
        Mnemonic::Ret => Some(Instr::Ret),
        Mnemonic::Reti => Some(Instr::Reti),
        Mnemonic::Retn => Some(Instr::Retn),
        _ => None,
    }
}

/// The instruction, if the operand is a number.
fn if_number(form: Form, instr: Instr) -> Option<Instr>
    ensures { result ≡ reading.if_number form instr }
{
    match form {
        Form::Number => Some(instr),
        _ => None,
    }
}

/// An instruction with one operand.
fn one(mnemonic: Mnemonic, form: Form) -> Option<Instr>
    ensures { result ≡ reading.one_read mnemonic form }
{
    match mnemonic {
        Mnemonic::Push => stack_operand(form).map(Instr::Push),
        Mnemonic::Pop => stack_operand(form).map(Instr::Pop),
        Mnemonic::Alu(operation) => one_on_byte(operation, form),
        Mnemonic::Inc => match operand(form) {
            Some(m) => Some(Instr::Inc(m)),
            None => word_register(form).map(Instr::IncWord),
        },
        Mnemonic::Dec => match operand(form) {
            Some(m) => Some(Instr::Dec(m)),
            None => word_register(form).map(Instr::DecWord),
        },
        Mnemonic::Im => if_number(form, Instr::Im(InterruptMode::Zero)),
        Mnemonic::Rotate(rotation) => operand(form).map(|m| Instr::Rotate(rotation, m)),
        Mnemonic::Jp => jump(form),
        Mnemonic::Jr => if_number(form, Instr::JumpRelative(0)),
        Mnemonic::Djnz => if_number(form, Instr::Djnz(0)),
        Mnemonic::Call => if_number(form, Instr::Call(0)),
        Mnemonic::Ret => condition(form).map(Instr::RetIf),
        Mnemonic::Rst => if_number(form, Instr::Restart(Octal::Zero)),
        _ => None,
    }
}

/// An operation on A and a byte.
fn on_byte(operation: AluOperation, form: Form) -> Option<Instr>
    ensures { result ≡ reading.on_byte operation form }
{
    match form {
        Form::Number => Some(Instr::AluByte(operation, 0)),
        _ => operand(form).map(|s| Instr::Alu(operation, s)),
    }
}

/// Operations on A whose source form does not name A.
fn one_on_byte(operation: AluOperation, form: Form) -> Option<Instr>
    ensures { result ≡ reading.one_on_byte operation form }
{
    match operation {
        AluOperation::Add | AluOperation::Adc | AluOperation::Sbc => None,
        _ => on_byte(operation, form),
    }
}

/// The instruction of `JP nn`, `JP (HL)` or `JP (IX)`.
fn jump(form: Form) -> Option<Instr>
    ensures { result ≡ reading.jump form }
{
    match form {
        Form::Number => Some(Instr::Jump(0)),
        _ => at_hl_or_index(form).map(Instr::JumpIndirect),
    }
}

/// An instruction with two operands.
fn two(mnemonic: Mnemonic, left: Form, right: Form) -> Option<Instr>
    ensures { result ≡ reading.two_read mnemonic left right }
{
    match mnemonic {
        Mnemonic::Ld => load(left, right),
        Mnemonic::Ex => exchange(left, right),
        Mnemonic::Alu(operation) => two_on_byte(operation, left, right),
        Mnemonic::Bit | Mnemonic::Set | Mnemonic::Res => on_bit(mnemonic, left, right),
        Mnemonic::Jp | Mnemonic::Jr | Mnemonic::Call => conditional(mnemonic, left, right),
        Mnemonic::In => input(left, right),
        Mnemonic::Out => output(left, right),
        _ => None,
    }
}

/// The instruction of `EX` with these operands.
fn exchange(left: Form, right: Form) -> Option<Instr>
    ensures { result ≡ reading.exchange left right }
{
    match (left, right) {
        (Form::Name(Name::De), Form::Name(Name::Hl)) => Some(Instr::ExDeHl),
        (Form::Name(Name::Af), Form::Name(Name::OtherAf)) => Some(Instr::ExAf),
        (Form::At(Pointed::Sp), with) => hl_or_index(with).map(Instr::ExSp),
        _ => None,
    }
}

/// Operations whose source form names A, HL or an index register.
fn two_on_byte(operation: AluOperation, left: Form, right: Form) -> Option<Instr>
    ensures { result ≡ reading.two_on_byte operation left right }
{
    match (operation, left) {
        (AluOperation::Add | AluOperation::Adc | AluOperation::Sbc, Form::Name(Name::A)) => on_byte(
            operation, right,
        ),
        (AluOperation::Add, Form::Name(Name::Hl)) => pair(right).map(Instr::AddHl),
        (AluOperation::Adc, Form::Name(Name::Hl)) => pair(right).map(Instr::AdcHl),
        (AluOperation::Sbc, Form::Name(Name::Hl)) => pair(right).map(Instr::SbcHl),
        (AluOperation::Add, Form::Name(Name::Ix)) => add_index(IndexRegister::Ix, right),
        (AluOperation::Add, Form::Name(Name::Iy)) => add_index(IndexRegister::Iy, right),
        _ => None,
    }
}

/// The instruction of `ADD IX,pp`.
fn add_index(x: IndexRegister, form: Form) -> Option<Instr>
    ensures { result ≡ reading.add_index x form }
{
    addend(x, form).map(|pp| Instr::AddIndex(x, pp))
}

/// The instruction of `BIT`, `SET` or `RES`.
fn on_bit(mnemonic: Mnemonic, number: Form, form: Form) -> Option<Instr>
    ensures { result ≡ reading.on_bit mnemonic number form }
{
    let Form::Number = number else {
        return None;
    };
    let m = operand(form)?;
    match mnemonic {
        Mnemonic::Bit => Some(Instr::Bit(Octal::Zero, m)),
        Mnemonic::Set => Some(Instr::Set(Octal::Zero, m)),
        Mnemonic::Res => Some(Instr::Res(Octal::Zero, m)),
        _ => None,
    }
}

/// The instruction of `JP cc,nn`, `JR cc,e` or `CALL cc,nn`.
fn conditional(mnemonic: Mnemonic, cc: Form, goal: Form) -> Option<Instr>
    ensures { result ≡ reading.conditional mnemonic cc goal }
{
    let Form::Number = goal else {
        return None;
    };
    match mnemonic {
        Mnemonic::Jp => condition(cc).map(|cc| Instr::JumpIf(cc, 0)),
        Mnemonic::Jr => short_condition(cc).map(|cc| Instr::JumpRelativeIf(cc, 0)),
        Mnemonic::Call => condition(cc).map(|cc| Instr::CallIf(cc, 0)),
        _ => None,
    }
}

/// The instruction of `IN A,(n)` or `IN r,(C)`.
fn input(to: Form, port: Form) -> Option<Instr>
    ensures { result ≡ reading.input to port }
{
    match port {
        Form::AtNumber => if_a(to, Instr::InA(0)),
        Form::At(Pointed::C) => register(to).map(Instr::InC),
        _ => None,
    }
}

/// The instruction of `OUT (n),A` or `OUT (C),r`.
fn output(port: Form, from: Form) -> Option<Instr>
    ensures { result ≡ reading.output port from }
{
    match port {
        Form::AtNumber => if_a(from, Instr::OutA(0)),
        Form::At(Pointed::C) => register(from).map(Instr::OutC),
        _ => None,
    }
}
