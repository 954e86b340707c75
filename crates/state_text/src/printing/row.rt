//! The rows of instructions: their mnemonics and operands.

ghost use Rattle.std.specs.Prelude.{◌≡◌, ◌∷◌, []};
ghost use Rattle.z80_form.specs.Rows.{addend, at_hl_or_index, condition, hl_or_index, index, memory, on_a, operand_form, pair, pointer, register, row, short_condition_form, stack_operand, word_register};
ghost use Rattle.z80_form.specs.declared.form.Form.TheVariants as form;
ghost use Rattle.z80_form.specs.declared.name.Name.TheVariants as name;
ghost use Rattle.state_text.specs.Private.Rows.{forms_of, mnemonic_alone};

use z80_form::{Form, Mnemonic, Name, Pointed};
use z80_instr::{
    Addend, AluOperation, Cond, HlOrIndex, IndexRegister, Instr, Memory, Operand, Pointer,
    Register, RegisterPair, ShortCond, StackOperand, WordRegister,
};

/// The forms of an instruction's operands.
#[derive(Clone, Copy)]
pub(crate) enum Operands {
    Empty,
    One(Form),
    Two(Form, Form),
}

/// The mnemonic of an instruction that has no operands.
fn mnemonic_alone(instr: Instr) -> Option<Mnemonic>
    ensures { result ≡ mnemonic_alone (row instr) }
{
    match instr {
        Instr::Exx => Some(Mnemonic::Exx),
        Instr::Block(operation, step) => Some(Mnemonic::Block(operation, step)),
        Instr::Daa => Some(Mnemonic::Daa),
        Instr::Cpl => Some(Mnemonic::Cpl),
        Instr::Neg => Some(Mnemonic::Neg),
        Instr::Ccf => Some(Mnemonic::Ccf),
        Instr::Scf => Some(Mnemonic::Scf),
        Instr::Nop => Some(Mnemonic::Nop),
        Instr::Halt => Some(Mnemonic::Halt),
        Instr::Di => Some(Mnemonic::Di),
        Instr::Ei => Some(Mnemonic::Ei),
        Instr::Rlca => Some(Mnemonic::Rlca),
        Instr::Rla => Some(Mnemonic::Rla),
        Instr::Rrca => Some(Mnemonic::Rrca),
        Instr::Rra => Some(Mnemonic::Rra),
        Instr::Rld => Some(Mnemonic::Rld),
        Instr::Rrd => Some(Mnemonic::Rrd),
        Instr::Ret => Some(Mnemonic::Ret),
        Instr::Reti => Some(Mnemonic::Reti),
        Instr::Retn => Some(Mnemonic::Retn),
        _ => None,
    }
}

/// The mnemonic of an instruction. What no other arm takes has no operands, or is an LD.
pub(crate) fn mnemonic_of(instr: Instr) -> Mnemonic
    ensures { result ≡ (row instr).mnemonic }
{
    match instr {
        Instr::Push(_) => Mnemonic::Push,
        Instr::Pop(_) => Mnemonic::Pop,
        Instr::ExDeHl | Instr::ExAf | Instr::ExSp(_) => Mnemonic::Ex,
        Instr::Alu(operation, _) | Instr::AluByte(operation, _) => Mnemonic::Alu(operation),
        Instr::AddHl(_) | Instr::AddIndex(..) => Mnemonic::Alu(AluOperation::Add),
        Instr::AdcHl(_) => Mnemonic::Alu(AluOperation::Adc),
        Instr::SbcHl(_) => Mnemonic::Alu(AluOperation::Sbc),
        Instr::Inc(_) | Instr::IncWord(_) => Mnemonic::Inc,
        Instr::Dec(_) | Instr::DecWord(_) => Mnemonic::Dec,
        Instr::Im(_) => Mnemonic::Im,
        Instr::Rotate(rotation, _) => Mnemonic::Rotate(rotation),
        Instr::Bit(..) => Mnemonic::Bit,
        Instr::Set(..) => Mnemonic::Set,
        Instr::Res(..) => Mnemonic::Res,
        Instr::Jump(_) | Instr::JumpIf(..) | Instr::JumpIndirect(_) => Mnemonic::Jp,
        Instr::JumpRelative(_) | Instr::JumpRelativeIf(..) => Mnemonic::Jr,
        Instr::Djnz(_) => Mnemonic::Djnz,
        Instr::Call(_) | Instr::CallIf(..) => Mnemonic::Call,
        Instr::RetIf(_) => Mnemonic::Ret,
        Instr::Restart(_) => Mnemonic::Rst,
        Instr::InA(_) | Instr::InC(_) => Mnemonic::In,
        Instr::OutA(_) | Instr::OutC(_) => Mnemonic::Out,
        _ => mnemonic_alone(instr).unwrap_or(Mnemonic::Ld),
    }
}

/// The forms of an instruction's operands, in the order of the manual.
pub(crate) fn operands_of(instr: Instr) -> Operands
    ensures { forms_of result ≡ (row instr).operands }
{
    match instr {
        Instr::Load(r, s) => Operands::Two(register(r), operand(s)),
        Instr::Store(m, r) => Operands::Two(memory(m), register(r)),
        Instr::LoadByte(m, _) => Operands::Two(operand(m), Form::Number),
        Instr::LoadA(from) => Operands::Two(Form::Name(Name::A), pointer(from)),
        Instr::StoreA(to) => Operands::Two(pointer(to), Form::Name(Name::A)),
        Instr::LoadAFromI => names(Name::A, Name::I),
        Instr::LoadAFromR => names(Name::A, Name::R),
        Instr::LoadIFromA => names(Name::I, Name::A),
        Instr::LoadRFromA => names(Name::R, Name::A),
        Instr::LoadWord(to, _) => Operands::Two(word_register(to), Form::Number),
        Instr::LoadWordFrom(to, _) => Operands::Two(word_register(to), Form::AtNumber),
        Instr::StoreWord(from, _) => Operands::Two(Form::AtNumber, word_register(from)),
        Instr::LoadSp(from) => Operands::Two(Form::Name(Name::Sp), hl_or_index(from)),
        Instr::Push(qq) | Instr::Pop(qq) => Operands::One(stack_operand(qq)),
        Instr::ExDeHl => names(Name::De, Name::Hl),
        Instr::ExAf => names(Name::Af, Name::OtherAf),
        Instr::ExSp(with) => Operands::Two(Form::At(Pointed::Sp), hl_or_index(with)),
        Instr::Alu(operation, s) => operands_on_a(operation, operand(s)),
        Instr::AluByte(operation, _) => operands_on_a(operation, Form::Number),
        Instr::Inc(m) | Instr::Dec(m) | Instr::Rotate(_, m) => Operands::One(operand(m)),
        Instr::AddHl(ss) | Instr::AdcHl(ss) | Instr::SbcHl(ss) => hl_and(ss),
        Instr::AddIndex(x, pp) => Operands::Two(index(x), addend(x, pp)),
        Instr::IncWord(ss) | Instr::DecWord(ss) => Operands::One(word_register(ss)),
        Instr::Bit(_, m) | Instr::Set(_, m) | Instr::Res(_, m) => {
            Operands::Two(Form::Number, operand(m))
        }
        Instr::JumpIf(cc, _) | Instr::CallIf(cc, _) => {
            Operands::Two(condition(cc), Form::Number)
        }
        Instr::JumpRelativeIf(cc, _) => Operands::Two(short_condition(cc), Form::Number),
        Instr::JumpIndirect(to) => Operands::One(at_hl_or_index(to)),
        Instr::RetIf(cc) => Operands::One(condition(cc)),
        Instr::Im(_) | Instr::Restart(_) => Operands::One(Form::Number),
        Instr::Jump(_) | Instr::Call(_) => Operands::One(Form::Number),
        Instr::JumpRelative(_) | Instr::Djnz(_) => Operands::One(Form::Number),
        Instr::InA(_) => Operands::Two(Form::Name(Name::A), Form::AtNumber),
        Instr::InC(r) => Operands::Two(register(r), Form::At(Pointed::C)),
        Instr::OutA(_) => Operands::Two(Form::AtNumber, Form::Name(Name::A)),
        Instr::OutC(r) => Operands::Two(Form::At(Pointed::C), register(r)),
        _ => Operands::Empty,
    }
}

/// Two names.
fn names(left: Name, right: Name) -> Operands
    ensures { forms_of result ≡ form.Name left ∷ form.Name right ∷ [] }
{
    Operands::Two(Form::Name(left), Form::Name(right))
}

/// The operands of an operation on A. ADD, ADC and SBC name A, because they exist for HL too.
fn operands_on_a(operation: AluOperation, operand: Form) -> Operands
    ensures { forms_of result ≡ (on_a operation operand).operands }
{
    match operation {
        AluOperation::Add | AluOperation::Adc | AluOperation::Sbc => {
            Operands::Two(Form::Name(Name::A), operand)
        }
        _ => Operands::One(operand),
    }
}

/// The operands of an operation on HL and another pair of registers.
fn hl_and(ss: RegisterPair) -> Operands
    ensures { forms_of result ≡ form.Name name.Hl ∷ pair ss ∷ [] }
{
    Operands::Two(Form::Name(Name::Hl), pair(ss))
}

fn register(r: Register) -> Form
    ensures { result ≡ register r }
{
    match r {
        Register::B => Form::Name(Name::B),
        Register::C => Form::Name(Name::C),
        Register::D => Form::Name(Name::D),
        Register::E => Form::Name(Name::E),
        Register::H => Form::Name(Name::H),
        Register::L => Form::Name(Name::L),
        Register::A => Form::Name(Name::A),
    }
}

fn index(x: IndexRegister) -> Form
    ensures { result ≡ index x }
{
    match x {
        IndexRegister::Ix => Form::Name(Name::Ix),
        IndexRegister::Iy => Form::Name(Name::Iy),
    }
}

fn memory(m: Memory) -> Form
    ensures { result ≡ memory m }
{
    match m {
        Memory::Hl => Form::At(Pointed::Hl),
        Memory::Indexed(x, _) => Form::Displaced(x),
    }
}

fn operand(s: Operand) -> Form
    ensures { result ≡ operand_form s }
{
    match s {
        Operand::Register(r) => register(r),
        Operand::Memory(m) => memory(m),
    }
}

fn pointer(of: Pointer) -> Form
    ensures { result ≡ pointer of }
{
    match of {
        Pointer::Bc => Form::At(Pointed::Bc),
        Pointer::De => Form::At(Pointed::De),
        Pointer::Address(_) => Form::AtNumber,
    }
}

fn pair(ss: RegisterPair) -> Form
    ensures { result ≡ pair ss }
{
    match ss {
        RegisterPair::Bc => Form::Name(Name::Bc),
        RegisterPair::De => Form::Name(Name::De),
        RegisterPair::Hl => Form::Name(Name::Hl),
        RegisterPair::Sp => Form::Name(Name::Sp),
    }
}

fn word_register(of: WordRegister) -> Form
    ensures { result ≡ word_register of }
{
    match of {
        WordRegister::Pair(ss) => pair(ss),
        WordRegister::Index(x) => index(x),
    }
}

fn hl_or_index(of: HlOrIndex) -> Form
    ensures { result ≡ hl_or_index of }
{
    match of {
        HlOrIndex::Hl => Form::Name(Name::Hl),
        HlOrIndex::Index(x) => index(x),
    }
}

/// `(HL)` or `(IX)`, as a jump has it.
fn at_hl_or_index(of: HlOrIndex) -> Form
    ensures { result ≡ at_hl_or_index of }
{
    match of {
        HlOrIndex::Hl => Form::At(Pointed::Hl),
        HlOrIndex::Index(x) => Form::AtIndex(x),
    }
}

/// What ADD adds to an index register.
fn addend(x: IndexRegister, pp: Addend) -> Form
    ensures { result ≡ addend x pp }
{
    match pp {
        Addend::Bc => Form::Name(Name::Bc),
        Addend::De => Form::Name(Name::De),
        Addend::Itself => index(x),
        Addend::Sp => Form::Name(Name::Sp),
    }
}

fn stack_operand(qq: StackOperand) -> Form
    ensures { result ≡ stack_operand qq }
{
    match qq {
        StackOperand::Bc => Form::Name(Name::Bc),
        StackOperand::De => Form::Name(Name::De),
        StackOperand::Hl => Form::Name(Name::Hl),
        StackOperand::Af => Form::Name(Name::Af),
        StackOperand::Index(x) => index(x),
    }
}

fn condition(cc: Cond) -> Form
    ensures { result ≡ condition cc }
{
    match cc {
        Cond::NotZero => Form::Name(Name::Nz),
        Cond::Zero => Form::Name(Name::Z),
        Cond::NotCarry => Form::Name(Name::Nc),
        Cond::Carry => Form::Name(Name::C),
        Cond::ParityOdd => Form::Name(Name::Po),
        Cond::ParityEven => Form::Name(Name::Pe),
        Cond::Plus => Form::Name(Name::P),
        Cond::Minus => Form::Name(Name::M),
    }
}

/// A condition that JR can have.
fn short_condition(cc: ShortCond) -> Form
    ensures { result ≡ short_condition_form cc }
{
    match cc {
        ShortCond::NotZero => Form::Name(Name::Nz),
        ShortCond::Zero => Form::Name(Name::Z),
        ShortCond::NotCarry => Form::Name(Name::Nc),
        ShortCond::Carry => Form::Name(Name::C),
    }
}
