//! The words of operations, registers and conditions.

ghost use Rattle.std.specs.Prelude.{◌≡◌};
ghost use Rattle.z80_form.specs.Words.{block_word, mnemonic_word, operand_word, operation_word, rotation_word};

use z80_form::{Mnemonic, Name};
use z80_instr::{AluOperation, BlockOperation, BlockStep, Rotation};

fn operation_word(operation: AluOperation) -> &'static [u8]
    ensures { result.now ≡ operation_word operation }
{
    match operation {
        AluOperation::Add => b"ADD",
        AluOperation::Adc => b"ADC",
        AluOperation::Sub => b"SUB",
        AluOperation::Sbc => b"SBC",
        AluOperation::And => b"AND",
        AluOperation::Xor => b"XOR",
        AluOperation::Or => b"OR",
        AluOperation::Cp => b"CP",
    }
}

fn rotation_word(rotation: Rotation) -> &'static [u8]
    ensures { result.now ≡ rotation_word rotation }
{
    match rotation {
        Rotation::Rlc => b"RLC",
        Rotation::Rrc => b"RRC",
        Rotation::Rl => b"RL",
        Rotation::Rr => b"RR",
        Rotation::Sla => b"SLA",
        Rotation::Sra => b"SRA",
        Rotation::Srl => b"SRL",
    }
}

fn block_word(operation: BlockOperation, step: BlockStep) -> &'static [u8]
    ensures { result.now ≡ block_word operation step }
{
    match (operation, step) {
        (BlockOperation::Load, BlockStep::Decrement) => b"LDD",
        (BlockOperation::Load, BlockStep::Increment) => b"LDI",
        (BlockOperation::Load, BlockStep::DecrementRepeat) => b"LDDR",
        (BlockOperation::Load, BlockStep::IncrementRepeat) => b"LDIR",
        (BlockOperation::Compare, BlockStep::Decrement) => b"CPD",
        (BlockOperation::Compare, BlockStep::Increment) => b"CPI",
        (BlockOperation::Compare, BlockStep::DecrementRepeat) => b"CPDR",
        (BlockOperation::Compare, BlockStep::IncrementRepeat) => b"CPIR",
        (BlockOperation::Input, BlockStep::Decrement) => b"IND",
        (BlockOperation::Input, BlockStep::Increment) => b"INI",
        (BlockOperation::Input, BlockStep::DecrementRepeat) => b"INDR",
        (BlockOperation::Input, BlockStep::IncrementRepeat) => b"INIR",
        (BlockOperation::Output, BlockStep::Decrement) => b"OUTD",
        (BlockOperation::Output, BlockStep::Increment) => b"OUTI",
        (BlockOperation::Output, BlockStep::DecrementRepeat) => b"OTDR",
        (BlockOperation::Output, BlockStep::IncrementRepeat) => b"OTIR",
    }
}

/// The word of a mnemonic.
pub(crate) fn mnemonic_word(mnemonic: Mnemonic) -> &'static [u8]
    ensures { result.now ≡ mnemonic_word mnemonic }
{
    match mnemonic {
        Mnemonic::Block(operation, step) => block_word(operation, step),
        Mnemonic::Alu(operation) => operation_word(operation),
        Mnemonic::Rotate(rotation) => rotation_word(rotation),
        Mnemonic::Ld => b"LD",
        Mnemonic::Push => b"PUSH",
        Mnemonic::Pop => b"POP",
        Mnemonic::Ex => b"EX",
        Mnemonic::Exx => b"EXX",
        Mnemonic::Inc => b"INC",
        Mnemonic::Dec => b"DEC",
        Mnemonic::Daa => b"DAA",
        Mnemonic::Cpl => b"CPL",
        Mnemonic::Neg => b"NEG",
        Mnemonic::Ccf => b"CCF",
        Mnemonic::Scf => b"SCF",
        Mnemonic::Nop => b"NOP",
        Mnemonic::Halt => b"HALT",
        Mnemonic::Di => b"DI",
        Mnemonic::Ei => b"EI",
        Mnemonic::Im => b"IM",
        Mnemonic::Rlca => b"RLCA",
        Mnemonic::Rla => b"RLA",
        Mnemonic::Rrca => b"RRCA",
        Mnemonic::Rra => b"RRA",
        Mnemonic::Rld => b"RLD",
        Mnemonic::Rrd => b"RRD",
        Mnemonic::Bit => b"BIT",
        Mnemonic::Set => b"SET",
        Mnemonic::Res => b"RES",
        Mnemonic::Jp => b"JP",
        Mnemonic::Jr => b"JR",
        Mnemonic::Djnz => b"DJNZ",
        Mnemonic::Call => b"CALL",
        Mnemonic::Ret => b"RET",
        Mnemonic::Reti => b"RETI",
        Mnemonic::Retn => b"RETN",
        Mnemonic::Rst => b"RST",
        Mnemonic::In => b"IN",
        Mnemonic::Out => b"OUT",
    }
}

/// The word of a register or a condition.
pub(crate) fn operand_word(name: Name) -> &'static [u8]
    ensures { result.now ≡ operand_word name }
{
    match name {
        Name::A => b"A",
        Name::B => b"B",
        Name::C => b"C",
        Name::D => b"D",
        Name::E => b"E",
        Name::H => b"H",
        Name::L => b"L",
        Name::I => b"I",
        Name::R => b"R",
        Name::Af => b"AF",
        Name::OtherAf => b"AF'",
        Name::Bc => b"BC",
        Name::De => b"DE",
        Name::Hl => b"HL",
        Name::Ix => b"IX",
        Name::Iy => b"IY",
        Name::Sp => b"SP",
        Name::Nz => b"NZ",
        Name::Z => b"Z",
        Name::Nc => b"NC",
        Name::Po => b"PO",
        Name::Pe => b"PE",
        Name::P => b"P",
        Name::M => b"M",
    }
}
