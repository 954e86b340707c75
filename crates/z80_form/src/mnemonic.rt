//! The words that name operations.

ghost use Rattle.std.specs.Prelude.{◌≡◌, ◌∷◌, ◌↔◌, Some};
ghost use Rattle.z80_form.specs.Types.{Mnemonic};
ghost use Rattle.z80_form.specs.Words.{upper_letters, mnemonic_word};
ghost use Rattle.z80_form.specs.Named.{mnemonic_named};
ghost use Rattle.z80_form.specs.Private.Lists.{mnemonic_read};

use crate::buffer::Buffer;
use z80_instr::{AluOperation, BlockOperation, BlockStep, Rotation};

/// The word that names the operation of an instruction.
#[derive(Clone, Copy, Debug, PartialEq, Eq)]
pub enum Mnemonic {
    Ld,
    Push,
    Pop,
    Ex,
    Exx,
    /// `LDI`, `LDIR` .. `CPDR`, and `INI` .. `OTDR`
    Block(BlockOperation, BlockStep),
    /// `ADD`, `ADC`, `SUB`, `SBC`, `AND`, `XOR`, `OR`, `CP`
    Alu(AluOperation),
    Inc,
    Dec,
    Daa,
    Cpl,
    Neg,
    Ccf,
    Scf,
    Nop,
    Halt,
    Di,
    Ei,
    Im,
    Rlca,
    Rla,
    Rrca,
    Rra,
    /// `RLC`, `RL`, `RRC`, `RR`, `SLA`, `SRA`, `SRL`
    Rotate(Rotation),
    Rld,
    Rrd,
    Bit,
    Set,
    Res,
    Jp,
    Jr,
    Djnz,
    Call,
    Ret,
    Reti,
    Retn,
    Rst,
    In,
    Out,
}

/// All mnemonics, in upper case: the words for which [`mnemonic_of`] answers one. `explain` looks among them for the word that
/// somebody meant.
pub const MNEMONICS: [&str; 67] = [
    "LD", "PUSH", "POP", "EX", "EXX", "LDI", "LDIR", "LDD", "LDDR", "CPI", "CPIR", "CPD", "CPDR",
    "INI", "INIR", "IND", "INDR", "OUTI", "OTIR", "OUTD", "OTDR", "ADD", "ADC", "SUB", "SBC",
    "AND", "XOR", "OR", "CP", "INC", "DEC", "DAA", "CPL", "NEG", "CCF", "SCF", "NOP", "HALT", "DI",
    "EI", "IM", "RLCA", "RLA", "RRCA", "RRA", "RLC", "RL", "RRC", "RR", "SLA", "SRA", "SRL", "RLD",
    "RRD", "BIT", "SET", "RES", "JP", "JR", "DJNZ", "CALL", "RET", "RETI", "RETN", "RST", "IN",
    "OUT",
];

/// The mnemonic that a word is, in upper or lower case.
pub fn mnemonic_of(name: &[u8]) -> Option<Mnemonic>
    ensures spelled { (m : Mnemonic) → (result ≡ Some m) ↔ (upper_letters name.now ≡ mnemonic_word m) }
    ensures named { result ≡ mnemonic_named name.now }
{
    let buffer = Buffer::upper(name)?;
    read(buffer.as_slice())
}

/// The mnemonic that a word in upper case is. There are at most fifteen with its first letter to compare it with.
fn read(name: &[u8]) -> Option<Mnemonic>
    ensures { result ≡ mnemonic_read name.now }
{
    match name {
        [b'A', rest @ ..] => after_a(rest),
        [b'B', rest @ ..] if rest == b"IT".as_slice() => Some(Mnemonic::Bit),
        [b'C', rest @ ..] => after_c(rest),
        [b'D', rest @ ..] => after_d(rest),
        [b'E', rest @ ..] => after_e(rest),
        [b'H', rest @ ..] if rest == b"ALT".as_slice() => Some(Mnemonic::Halt),
        [b'I', rest @ ..] => after_i(rest),
        [b'J', rest @ ..] => after_j(rest),
        [b'L', rest @ ..] => after_l(rest),
        [b'N', rest @ ..] => after_n(rest),
        [b'O', rest @ ..] => after_o(rest),
        [b'P', rest @ ..] => after_p(rest),
        [b'R', rest @ ..] => after_r(rest),
        [b'S', rest @ ..] => after_s(rest),
        [b'X', rest @ ..] if rest == b"OR".as_slice() => Some(Mnemonic::Alu(AluOperation::Xor)),
        _ => None,
    }
}

fn after_a(rest: &[u8]) -> Option<Mnemonic>
    ensures { result ≡ mnemonic_read (0x41 ∷ rest.now) }
{
    match rest {
        b"DC" => Some(Mnemonic::Alu(AluOperation::Adc)),
        b"DD" => Some(Mnemonic::Alu(AluOperation::Add)),
        b"ND" => Some(Mnemonic::Alu(AluOperation::And)),
        _ => None,
    }
}

fn after_c(rest: &[u8]) -> Option<Mnemonic>
    ensures { result ≡ mnemonic_read (0x43 ∷ rest.now) }
{
    match rest {
        b"ALL" => Some(Mnemonic::Call),
        b"CF" => Some(Mnemonic::Ccf),
        b"P" => Some(Mnemonic::Alu(AluOperation::Cp)),
        b"PD" => Some(Mnemonic::Block(BlockOperation::Compare, BlockStep::Decrement)),
        b"PDR" => Some(Mnemonic::Block(BlockOperation::Compare, BlockStep::DecrementRepeat)),
        b"PI" => Some(Mnemonic::Block(BlockOperation::Compare, BlockStep::Increment)),
        b"PIR" => Some(Mnemonic::Block(BlockOperation::Compare, BlockStep::IncrementRepeat)),
        b"PL" => Some(Mnemonic::Cpl),
        _ => None,
    }
}

fn after_d(rest: &[u8]) -> Option<Mnemonic>
    ensures { result ≡ mnemonic_read (0x44 ∷ rest.now) }
{
    match rest {
        b"AA" => Some(Mnemonic::Daa),
        b"EC" => Some(Mnemonic::Dec),
        b"I" => Some(Mnemonic::Di),
        b"JNZ" => Some(Mnemonic::Djnz),
        _ => None,
    }
}

fn after_e(rest: &[u8]) -> Option<Mnemonic>
    ensures { result ≡ mnemonic_read (0x45 ∷ rest.now) }
{
    match rest {
        b"I" => Some(Mnemonic::Ei),
        b"X" => Some(Mnemonic::Ex),
        b"XX" => Some(Mnemonic::Exx),
        _ => None,
    }
}

fn after_i(rest: &[u8]) -> Option<Mnemonic>
    ensures { result ≡ mnemonic_read (0x49 ∷ rest.now) }
{
    match rest {
        b"M" => Some(Mnemonic::Im),
        b"N" => Some(Mnemonic::In),
        b"NC" => Some(Mnemonic::Inc),
        b"ND" => Some(Mnemonic::Block(BlockOperation::Input, BlockStep::Decrement)),
        b"NDR" => Some(Mnemonic::Block(BlockOperation::Input, BlockStep::DecrementRepeat)),
        b"NI" => Some(Mnemonic::Block(BlockOperation::Input, BlockStep::Increment)),
        b"NIR" => Some(Mnemonic::Block(BlockOperation::Input, BlockStep::IncrementRepeat)),
        _ => None,
    }
}

fn after_j(rest: &[u8]) -> Option<Mnemonic>
    ensures { result ≡ mnemonic_read (0x4A ∷ rest.now) }
{
    match rest {
        b"P" => Some(Mnemonic::Jp),
        b"R" => Some(Mnemonic::Jr),
        _ => None,
    }
}

fn after_l(rest: &[u8]) -> Option<Mnemonic>
    ensures { result ≡ mnemonic_read (0x4C ∷ rest.now) }
{
    match rest {
        b"D" => Some(Mnemonic::Ld),
        b"DD" => Some(Mnemonic::Block(BlockOperation::Load, BlockStep::Decrement)),
        b"DDR" => Some(Mnemonic::Block(BlockOperation::Load, BlockStep::DecrementRepeat)),
        b"DI" => Some(Mnemonic::Block(BlockOperation::Load, BlockStep::Increment)),
        b"DIR" => Some(Mnemonic::Block(BlockOperation::Load, BlockStep::IncrementRepeat)),
        _ => None,
    }
}

fn after_n(rest: &[u8]) -> Option<Mnemonic>
    ensures { result ≡ mnemonic_read (0x4E ∷ rest.now) }
{
    match rest {
        b"EG" => Some(Mnemonic::Neg),
        b"OP" => Some(Mnemonic::Nop),
        _ => None,
    }
}

fn after_o(rest: &[u8]) -> Option<Mnemonic>
    ensures { result ≡ mnemonic_read (0x4F ∷ rest.now) }
{
    match rest {
        b"R" => Some(Mnemonic::Alu(AluOperation::Or)),
        b"TDR" => Some(Mnemonic::Block(BlockOperation::Output, BlockStep::DecrementRepeat)),
        b"TIR" => Some(Mnemonic::Block(BlockOperation::Output, BlockStep::IncrementRepeat)),
        b"UT" => Some(Mnemonic::Out),
        b"UTD" => Some(Mnemonic::Block(BlockOperation::Output, BlockStep::Decrement)),
        b"UTI" => Some(Mnemonic::Block(BlockOperation::Output, BlockStep::Increment)),
        _ => None,
    }
}

fn after_p(rest: &[u8]) -> Option<Mnemonic>
    ensures { result ≡ mnemonic_read (0x50 ∷ rest.now) }
{
    match rest {
        b"OP" => Some(Mnemonic::Pop),
        b"USH" => Some(Mnemonic::Push),
        _ => None,
    }
}

fn after_r(rest: &[u8]) -> Option<Mnemonic>
    ensures { result ≡ mnemonic_read (0x52 ∷ rest.now) }
{
    match rest {
        b"ES" => Some(Mnemonic::Res),
        b"ET" => Some(Mnemonic::Ret),
        b"ETI" => Some(Mnemonic::Reti),
        b"ETN" => Some(Mnemonic::Retn),
        b"L" => Some(Mnemonic::Rotate(Rotation::Rl)),
        b"LA" => Some(Mnemonic::Rla),
        b"LC" => Some(Mnemonic::Rotate(Rotation::Rlc)),
        b"LCA" => Some(Mnemonic::Rlca),
        b"LD" => Some(Mnemonic::Rld),
        b"R" => Some(Mnemonic::Rotate(Rotation::Rr)),
        b"RA" => Some(Mnemonic::Rra),
        b"RC" => Some(Mnemonic::Rotate(Rotation::Rrc)),
        b"RCA" => Some(Mnemonic::Rrca),
        b"RD" => Some(Mnemonic::Rrd),
        b"ST" => Some(Mnemonic::Rst),
        _ => None,
    }
}

fn after_s(rest: &[u8]) -> Option<Mnemonic>
    ensures { result ≡ mnemonic_read (0x53 ∷ rest.now) }
{
    match rest {
        b"BC" => Some(Mnemonic::Alu(AluOperation::Sbc)),
        b"CF" => Some(Mnemonic::Scf),
        b"ET" => Some(Mnemonic::Set),
        b"LA" => Some(Mnemonic::Rotate(Rotation::Sla)),
        b"RA" => Some(Mnemonic::Rotate(Rotation::Sra)),
        b"RL" => Some(Mnemonic::Rotate(Rotation::Srl)),
        b"UB" => Some(Mnemonic::Alu(AluOperation::Sub)),
        _ => None,
    }
}
