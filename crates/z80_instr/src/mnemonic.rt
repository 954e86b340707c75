//! Writes instructions as text, with the manual's mnemonics.

use crate::{
    Addend, AluOperation, BlockOperation, BlockStep, Cond, HlOrIndex, IndexRegister, Instr,
    InterruptMode, Memory, Operand, Pointer, Register, RegisterPair, Rotation, ShortCond,
    StackOperand, WordRegister,
};
use std::fmt;

/// The manual's mnemonic with its operands, as this assembler reads it.
///
/// Bytes and words are hexadecimal, with an H at the end and a 0 before a letter: `07H`, `0FFH`, `0006H`. A displacement is signed and
/// decimal: `(IX-5)`, `(IX+0)`. The target of a relative jump is its distance from the jump itself, e + 2: `JR $+5`. Bit numbers and
/// interrupt modes are one digit.
impl fmt::Display for Instr {
    fn fmt<W: fmt::Write>(&self, f: &mut fmt::Formatter<W>) -> fmt::Result {
        write!(f, "{}", line_of(*self))
    }
}

/// A mnemonic and its operands.
#[derive(Clone, Copy)]
enum Line {
    Alone(&'static str),
    One(&'static str, Text),
    Two(&'static str, Text, Text),
}

impl fmt::Display for Line {
    fn fmt<W: fmt::Write>(&self, f: &mut fmt::Formatter<W>) -> fmt::Result {
        match self {
            Line::Alone(mnemonic) => write!(f, "{mnemonic}"),
            Line::One(mnemonic, operand) => write!(f, "{mnemonic} {operand}"),
            Line::Two(mnemonic, left, right) => write!(f, "{mnemonic} {left},{right}"),
        }
    }
}

/// An operand as it is printed.
#[derive(Clone, Copy)]
enum Text {
    /// A register or a condition.
    Name(&'static str),
    /// A register in parentheses: `(HL)`
    At(&'static str),
    /// `(IX+d)`
    Indexed(&'static str, i8),
    /// A number below 10.
    Digit(u8),
    Byte(u8),
    Word(u16),
    /// `(n)`
    AtByte(u8),
    /// `(nn)`
    AtWord(u16),
    /// The target of a relative jump with the distance e, which counts from the next instruction.
    Goal(i8),
}

impl fmt::Display for Text {
    fn fmt<W: fmt::Write>(&self, f: &mut fmt::Formatter<W>) -> fmt::Result {
        match *self {
            Text::Name(name) => write!(f, "{name}"),
            Text::At(name) => write!(f, "({name})"),
            Text::Indexed(name, d) => write!(f, "({name}{d:+})"),
            Text::Digit(digit) => write!(f, "{digit}"),
            Text::Byte(n) => write!(f, "{}{n:02X}H", zero_before(n >= 0xA0)),
            Text::Word(nn) => write!(f, "{}{nn:04X}H", zero_before(nn >= 0xA000)),
            Text::AtByte(n) => write!(f, "({}{n:02X}H)", zero_before(n >= 0xA0)),
            Text::AtWord(nn) => write!(f, "({}{nn:04X}H)", zero_before(nn >= 0xA000)),
            Text::Goal(e) => write!(f, "${:+}", e as i16 + 2),
        }
    }
}

/// The 0 before a number that begins with a letter.
fn zero_before(letter: bool) -> &'static str {
    if letter { "0" } else { "" }
}

fn line_of(instr: Instr) -> Line {
    match instr {
        Instr::Load(r, s) => Line::Two("LD", register(r), operand(s)),
        Instr::Store(m, r) => Line::Two("LD", memory(m), register(r)),
        Instr::LoadByte(m, n) => Line::Two("LD", operand(m), Text::Byte(n)),
        Instr::LoadA(from) => Line::Two("LD", Text::Name("A"), pointer(from)),
        Instr::StoreA(to) => Line::Two("LD", pointer(to), Text::Name("A")),
        Instr::LoadAFromI => Line::Two("LD", Text::Name("A"), Text::Name("I")),
        Instr::LoadAFromR => Line::Two("LD", Text::Name("A"), Text::Name("R")),
        Instr::LoadIFromA => Line::Two("LD", Text::Name("I"), Text::Name("A")),
        Instr::LoadRFromA => Line::Two("LD", Text::Name("R"), Text::Name("A")),

        Instr::LoadWord(to, nn) => Line::Two("LD", word_register(to), Text::Word(nn)),
        Instr::LoadWordFrom(to, nn) => Line::Two("LD", word_register(to), Text::AtWord(nn)),
        Instr::StoreWord(from, nn) => Line::Two("LD", Text::AtWord(nn), word_register(from)),
        Instr::LoadSp(from) => Line::Two("LD", Text::Name("SP"), Text::Name(hl_or_index(from))),
        Instr::Push(from) => Line::One("PUSH", stack_operand(from)),
        Instr::Pop(to) => Line::One("POP", stack_operand(to)),

        Instr::ExDeHl => Line::Two("EX", Text::Name("DE"), Text::Name("HL")),
        Instr::ExAf => Line::Two("EX", Text::Name("AF"), Text::Name("AF'")),
        Instr::Exx => Line::Alone("EXX"),
        Instr::ExSp(with) => Line::Two("EX", Text::At("SP"), Text::Name(hl_or_index(with))),
        Instr::Block(operation, step) => Line::Alone(block(operation, step)),

        Instr::Alu(operation, s) => alu(operation, operand(s)),
        Instr::AluByte(operation, n) => alu(operation, Text::Byte(n)),
        Instr::Inc(m) => Line::One("INC", operand(m)),
        Instr::Dec(m) => Line::One("DEC", operand(m)),

        Instr::Daa => Line::Alone("DAA"),
        Instr::Cpl => Line::Alone("CPL"),
        Instr::Neg => Line::Alone("NEG"),
        Instr::Ccf => Line::Alone("CCF"),
        Instr::Scf => Line::Alone("SCF"),
        Instr::Nop => Line::Alone("NOP"),
        Instr::Halt => Line::Alone("HALT"),
        Instr::Di => Line::Alone("DI"),
        Instr::Ei => Line::Alone("EI"),
        Instr::Im(InterruptMode::Zero) => Line::One("IM", Text::Digit(0)),
        Instr::Im(InterruptMode::One) => Line::One("IM", Text::Digit(1)),
        Instr::Im(InterruptMode::Two) => Line::One("IM", Text::Digit(2)),

        Instr::AddHl(ss) => Line::Two("ADD", Text::Name("HL"), pair(ss)),
        Instr::AdcHl(ss) => Line::Two("ADC", Text::Name("HL"), pair(ss)),
        Instr::SbcHl(ss) => Line::Two("SBC", Text::Name("HL"), pair(ss)),
        Instr::AddIndex(x, pp) => Line::Two("ADD", Text::Name(index(x)), addend(x, pp)),
        Instr::IncWord(ss) => Line::One("INC", word_register(ss)),
        Instr::DecWord(ss) => Line::One("DEC", word_register(ss)),

        Instr::Rlca => Line::Alone("RLCA"),
        Instr::Rla => Line::Alone("RLA"),
        Instr::Rrca => Line::Alone("RRCA"),
        Instr::Rra => Line::Alone("RRA"),
        Instr::Rotate(by, m) => Line::One(rotation(by), operand(m)),
        Instr::Rld => Line::Alone("RLD"),
        Instr::Rrd => Line::Alone("RRD"),

        Instr::Bit(b, m) => Line::Two("BIT", Text::Digit(b.number()), operand(m)),
        Instr::Set(b, m) => Line::Two("SET", Text::Digit(b.number()), operand(m)),
        Instr::Res(b, m) => Line::Two("RES", Text::Digit(b.number()), operand(m)),

        Instr::Jump(nn) => Line::One("JP", Text::Word(nn)),
        Instr::JumpIf(cc, nn) => Line::Two("JP", condition(cc), Text::Word(nn)),
        Instr::JumpRelative(e) => Line::One("JR", Text::Goal(e)),
        Instr::JumpRelativeIf(cc, e) => Line::Two("JR", short_condition(cc), Text::Goal(e)),
        Instr::JumpIndirect(to) => Line::One("JP", Text::At(hl_or_index(to))),
        Instr::Djnz(e) => Line::One("DJNZ", Text::Goal(e)),

        Instr::Call(nn) => Line::One("CALL", Text::Word(nn)),
        Instr::CallIf(cc, nn) => Line::Two("CALL", condition(cc), Text::Word(nn)),
        Instr::Ret => Line::Alone("RET"),
        Instr::RetIf(cc) => Line::One("RET", condition(cc)),
        Instr::Reti => Line::Alone("RETI"),
        Instr::Retn => Line::Alone("RETN"),
        Instr::Restart(t) => Line::One("RST", Text::Byte(8 * t.number())),

        Instr::InA(n) => Line::Two("IN", Text::Name("A"), Text::AtByte(n)),
        Instr::InC(r) => Line::Two("IN", register(r), Text::At("C")),
        Instr::OutA(n) => Line::Two("OUT", Text::AtByte(n), Text::Name("A")),
        Instr::OutC(r) => Line::Two("OUT", Text::At("C"), register(r)),
    }
}

/// An operation on A. ADD, ADC and SBC name A, because they exist for HL too.
fn alu(operation: AluOperation, operand: Text) -> Line {
    match operation {
        AluOperation::Add => Line::Two("ADD", Text::Name("A"), operand),
        AluOperation::Adc => Line::Two("ADC", Text::Name("A"), operand),
        AluOperation::Sub => Line::One("SUB", operand),
        AluOperation::Sbc => Line::Two("SBC", Text::Name("A"), operand),
        AluOperation::And => Line::One("AND", operand),
        AluOperation::Xor => Line::One("XOR", operand),
        AluOperation::Or => Line::One("OR", operand),
        AluOperation::Cp => Line::One("CP", operand),
    }
}

fn block(operation: BlockOperation, step: BlockStep) -> &'static str {
    match (operation, step) {
        (BlockOperation::Load, BlockStep::Increment) => "LDI",
        (BlockOperation::Load, BlockStep::IncrementRepeat) => "LDIR",
        (BlockOperation::Load, BlockStep::Decrement) => "LDD",
        (BlockOperation::Load, BlockStep::DecrementRepeat) => "LDDR",
        (BlockOperation::Compare, BlockStep::Increment) => "CPI",
        (BlockOperation::Compare, BlockStep::IncrementRepeat) => "CPIR",
        (BlockOperation::Compare, BlockStep::Decrement) => "CPD",
        (BlockOperation::Compare, BlockStep::DecrementRepeat) => "CPDR",
        (BlockOperation::Input, BlockStep::Increment) => "INI",
        (BlockOperation::Input, BlockStep::IncrementRepeat) => "INIR",
        (BlockOperation::Input, BlockStep::Decrement) => "IND",
        (BlockOperation::Input, BlockStep::DecrementRepeat) => "INDR",
        (BlockOperation::Output, BlockStep::Increment) => "OUTI",
        (BlockOperation::Output, BlockStep::IncrementRepeat) => "OTIR",
        (BlockOperation::Output, BlockStep::Decrement) => "OUTD",
        (BlockOperation::Output, BlockStep::DecrementRepeat) => "OTDR",
    }
}

fn rotation(rotation: Rotation) -> &'static str {
    match rotation {
        Rotation::Rlc => "RLC",
        Rotation::Rrc => "RRC",
        Rotation::Rl => "RL",
        Rotation::Rr => "RR",
        Rotation::Sla => "SLA",
        Rotation::Sra => "SRA",
        Rotation::Srl => "SRL",
    }
}

fn register(register: Register) -> Text {
    Text::Name(match register {
        Register::B => "B",
        Register::C => "C",
        Register::D => "D",
        Register::E => "E",
        Register::H => "H",
        Register::L => "L",
        Register::A => "A",
    })
}

fn index(index: IndexRegister) -> &'static str {
    match index {
        IndexRegister::Ix => "IX",
        IndexRegister::Iy => "IY",
    }
}

fn memory(memory: Memory) -> Text {
    match memory {
        Memory::Hl => Text::At("HL"),
        Memory::Indexed(x, d) => Text::Indexed(index(x), d),
    }
}

fn operand(operand: Operand) -> Text {
    match operand {
        Operand::Register(r) => register(r),
        Operand::Memory(m) => memory(m),
    }
}

fn pointer(pointer: Pointer) -> Text {
    match pointer {
        Pointer::Bc => Text::At("BC"),
        Pointer::De => Text::At("DE"),
        Pointer::Address(nn) => Text::AtWord(nn),
    }
}

fn pair(pair: RegisterPair) -> Text {
    Text::Name(match pair {
        RegisterPair::Bc => "BC",
        RegisterPair::De => "DE",
        RegisterPair::Hl => "HL",
        RegisterPair::Sp => "SP",
    })
}

fn word_register(register: WordRegister) -> Text {
    match register {
        WordRegister::Pair(ss) => pair(ss),
        WordRegister::Index(x) => Text::Name(index(x)),
    }
}

fn hl_or_index(register: HlOrIndex) -> &'static str {
    match register {
        HlOrIndex::Hl => "HL",
        HlOrIndex::Index(x) => index(x),
    }
}

/// The register that ADD adds to the index register x.
fn addend(x: IndexRegister, addend: Addend) -> Text {
    Text::Name(match addend {
        Addend::Bc => "BC",
        Addend::De => "DE",
        Addend::Itself => index(x),
        Addend::Sp => "SP",
    })
}

fn stack_operand(operand: StackOperand) -> Text {
    Text::Name(match operand {
        StackOperand::Bc => "BC",
        StackOperand::De => "DE",
        StackOperand::Hl => "HL",
        StackOperand::Af => "AF",
        StackOperand::Index(x) => index(x),
    })
}

fn condition(condition: Cond) -> Text {
    Text::Name(match condition {
        Cond::NotZero => "NZ",
        Cond::Zero => "Z",
        Cond::NotCarry => "NC",
        Cond::Carry => "C",
        Cond::ParityOdd => "PO",
        Cond::ParityEven => "PE",
        Cond::Plus => "P",
        Cond::Minus => "M",
    })
}

fn short_condition(condition: ShortCond) -> Text {
    Text::Name(match condition {
        ShortCond::NotZero => "NZ",
        ShortCond::Zero => "Z",
        ShortCond::NotCarry => "NC",
        ShortCond::Carry => "C",
    })
}
