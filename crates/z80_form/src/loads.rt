//! The rows of `LD`.

ghost use Rattle.std.specs.Prelude.{◌≡◌};
ghost use Rattle.z80_form.specs.Private.Reading as reading;

use crate::form::{Form, Pointed};
use crate::name::Name;
use crate::part::{hl_or_index, memory, operand, register, word_register};
use z80_instr::{Instr, Operand, Pointer, Register};

/// The instruction, if the operand is A.
pub(crate) fn if_a(form: Form, instr: Instr) -> Option<Instr>
    ensures { result ≡ reading.if_a form instr }
{
    match form {
        Form::Name(Name::A) => Some(instr),
        _ => None,
    }
}

/// The instruction of `LD r,n`, `LD (HL),n`, `LD (IX+d),n`, `LD dd,nn` or `LD IX,nn`.
fn load_number(to: Form) -> Option<Instr>
    ensures { result ≡ reading.load_number to }
{
    match operand(to) {
        Some(m) => Some(Instr::LoadByte(m, 0)),
        None => word_register(to).map(|dd| Instr::LoadWord(dd, 0)),
    }
}

/// The instruction of `LD A,(nn)`, `LD dd,(nn)` or `LD IX,(nn)`.
fn load_at_number(to: Form) -> Option<Instr>
    ensures { result ≡ reading.load_at_number to }
{
    match to {
        Form::Name(Name::A) => Some(Instr::LoadA(Pointer::Address(0))),
        _ => word_register(to).map(|dd| Instr::LoadWordFrom(dd, 0)),
    }
}

/// The instruction of `LD (nn),A`, `LD (nn),dd` or `LD (nn),IX`.
fn store_at_number(from: Form) -> Option<Instr>
    ensures { result ≡ reading.store_at_number from }
{
    match from {
        Form::Name(Name::A) => Some(Instr::StoreA(Pointer::Address(0))),
        _ => word_register(from).map(|dd| Instr::StoreWord(dd, 0)),
    }
}

/// The instruction of `LD A,I`, `LD A,R` or `LD A,r`.
fn load_a(from: Form) -> Option<Instr>
    ensures { result ≡ reading.load_a from }
{
    match from {
        Form::Name(Name::I) => Some(Instr::LoadAFromI),
        Form::Name(Name::R) => Some(Instr::LoadAFromR),
        _ => register(from).map(|s| Instr::Load(Register::A, Operand::Register(s))),
    }
}

/// The instruction of `LD` from a name: a register, a pair of registers, or I or R.
fn load_name(to: Form, from: Form) -> Option<Instr>
    ensures { result ≡ reading.load_name to from }
{
    match to {
        Form::Name(Name::A) => load_a(from),
        Form::Name(Name::I) => if_a(from, Instr::LoadIFromA),
        Form::Name(Name::R) => if_a(from, Instr::LoadRFromA),
        Form::Name(Name::Sp) => hl_or_index(from).map(Instr::LoadSp),
        Form::Name(_) => match (register(to), register(from)) {
            (Some(r), Some(s)) => Some(Instr::Load(r, Operand::Register(s))),
            _ => None,
        },
        Form::At(Pointed::Bc) => if_a(from, Instr::StoreA(Pointer::Bc)),
        Form::At(Pointed::De) => if_a(from, Instr::StoreA(Pointer::De)),
        Form::AtNumber => store_at_number(from),
        _ => match (memory(to), register(from)) {
            (Some(m), Some(r)) => Some(Instr::Store(m, r)),
            _ => None,
        },
    }
}

/// The instruction of `LD` with these operands.
pub(crate) fn load(to: Form, from: Form) -> Option<Instr>
    ensures { result ≡ reading.load to from }
{
    match from {
        Form::Number => load_number(to),
        Form::AtNumber => load_at_number(to),
        Form::At(Pointed::Bc) => if_a(to, Instr::LoadA(Pointer::Bc)),
        Form::At(Pointed::De) => if_a(to, Instr::LoadA(Pointer::De)),
        Form::Name(_) => load_name(to, from),
        _ => match (register(to), memory(from)) {
            (Some(r), Some(m)) => Some(Instr::Load(r, Operand::Memory(m))),
            _ => None,
        },
    }
}
