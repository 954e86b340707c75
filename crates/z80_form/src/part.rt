//! What a form can be as an operand of an instruction. Numbers are 0.

ghost use Rattle.std.specs.Prelude.{◌≡◌};
ghost use Rattle.z80_form.specs.Private.Reading.{addend_in, at_hl_or_index_in, condition_in, hl_or_index_in, index_in, memory_in, operand_in, pair_in, register_in, short_condition_in, stack_operand_in, word_register_in};

use crate::form::{Form, Pointed};
use crate::name::Name;
use z80_instr::{
    Addend, Cond, HlOrIndex, IndexRegister, Memory, Operand, Register, RegisterPair, ShortCond,
    StackOperand, WordRegister,
};

pub(crate) fn register(form: Form) -> Option<Register>
    ensures { result ≡ register_in form }
{
    match form {
        Form::Name(Name::B) => Some(Register::B),
        Form::Name(Name::C) => Some(Register::C),
        Form::Name(Name::D) => Some(Register::D),
        Form::Name(Name::E) => Some(Register::E),
        Form::Name(Name::H) => Some(Register::H),
        Form::Name(Name::L) => Some(Register::L),
        Form::Name(Name::A) => Some(Register::A),
        _ => None,
    }
}

pub(crate) fn memory(form: Form) -> Option<Memory>
    ensures { result ≡ memory_in form }
{
    match form {
        Form::At(Pointed::Hl) => Some(Memory::Hl),
        Form::AtIndex(x) | Form::Displaced(x) => Some(Memory::Indexed(x, 0)),
        _ => None,
    }
}

pub(crate) fn operand(form: Form) -> Option<Operand>
    ensures { result ≡ operand_in form }
{
    match memory(form) {
        Some(m) => Some(Operand::Memory(m)),
        None => register(form).map(Operand::Register),
    }
}

pub(crate) fn pair(form: Form) -> Option<RegisterPair>
    ensures { result ≡ pair_in form }
{
    match form {
        Form::Name(Name::Bc) => Some(RegisterPair::Bc),
        Form::Name(Name::De) => Some(RegisterPair::De),
        Form::Name(Name::Hl) => Some(RegisterPair::Hl),
        Form::Name(Name::Sp) => Some(RegisterPair::Sp),
        _ => None,
    }
}

fn index(form: Form) -> Option<IndexRegister>
    ensures { result ≡ index_in form }
{
    match form {
        Form::Name(Name::Ix) => Some(IndexRegister::Ix),
        Form::Name(Name::Iy) => Some(IndexRegister::Iy),
        _ => None,
    }
}

pub(crate) fn word_register(form: Form) -> Option<WordRegister>
    ensures { result ≡ word_register_in form }
{
    match pair(form) {
        Some(dd) => Some(WordRegister::Pair(dd)),
        None => index(form).map(WordRegister::Index),
    }
}

pub(crate) fn hl_or_index(form: Form) -> Option<HlOrIndex>
    ensures { result ≡ hl_or_index_in form }
{
    match form {
        Form::Name(Name::Hl) => Some(HlOrIndex::Hl),
        _ => index(form).map(HlOrIndex::Index),
    }
}

/// HL or an index register, if the form is `(HL)`, `(IX)` or `(IY)`.
pub(crate) fn at_hl_or_index(form: Form) -> Option<HlOrIndex>
    ensures { result ≡ at_hl_or_index_in form }
{
    match form {
        Form::At(Pointed::Hl) => Some(HlOrIndex::Hl),
        Form::AtIndex(x) => Some(HlOrIndex::Index(x)),
        _ => None,
    }
}

/// The register that may be added to the index register x.
pub(crate) fn addend(x: IndexRegister, form: Form) -> Option<Addend>
    ensures { result ≡ addend_in x form }
{
    match (x, form) {
        (_, Form::Name(Name::Bc)) => Some(Addend::Bc),
        (_, Form::Name(Name::De)) => Some(Addend::De),
        (_, Form::Name(Name::Sp)) => Some(Addend::Sp),
        (IndexRegister::Ix, Form::Name(Name::Ix)) => Some(Addend::Itself),
        (IndexRegister::Iy, Form::Name(Name::Iy)) => Some(Addend::Itself),
        _ => None,
    }
}

pub(crate) fn stack_operand(form: Form) -> Option<StackOperand>
    ensures { result ≡ stack_operand_in form }
{
    match form {
        Form::Name(Name::Bc) => Some(StackOperand::Bc),
        Form::Name(Name::De) => Some(StackOperand::De),
        Form::Name(Name::Hl) => Some(StackOperand::Hl),
        Form::Name(Name::Af) => Some(StackOperand::Af),
        _ => index(form).map(StackOperand::Index),
    }
}

pub(crate) fn condition(form: Form) -> Option<Cond>
    ensures { result ≡ condition_in form }
{
    match form {
        Form::Name(Name::Nz) => Some(Cond::NotZero),
        Form::Name(Name::Z) => Some(Cond::Zero),
        Form::Name(Name::Nc) => Some(Cond::NotCarry),
        Form::Name(Name::C) => Some(Cond::Carry),
        Form::Name(Name::Po) => Some(Cond::ParityOdd),
        Form::Name(Name::Pe) => Some(Cond::ParityEven),
        Form::Name(Name::P) => Some(Cond::Plus),
        Form::Name(Name::M) => Some(Cond::Minus),
        _ => None,
    }
}

pub(crate) fn short_condition(form: Form) -> Option<ShortCond>
    ensures { result ≡ short_condition_in form }
{
    match form {
        Form::Name(Name::Nz) => Some(ShortCond::NotZero),
        Form::Name(Name::Z) => Some(ShortCond::Zero),
        Form::Name(Name::Nc) => Some(ShortCond::NotCarry),
        Form::Name(Name::C) => Some(ShortCond::Carry),
        _ => None,
    }
}
