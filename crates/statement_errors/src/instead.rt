//! What to write in place of an instruction that the Z80 does not have.
//!
//! Each row has the operands that are written, and the statements that do what was meant. Of the rows that fit, the first one counts whose
//! statements all build.

use crate::pattern::Written;
use error_lines::Case;
use message_texts::{Operand, Shape, fits};
use std::alloc::AllocError;
use z80_form::{Mnemonic, Name, Pointed};
use z80_instr::{AluOperation, Rotation};

/// Mnemonics that a row is about.
#[derive(Clone, Copy)]
enum Words {
    One(Mnemonic),
    /// `ADD`, `ADC` and `SBC`, which name the register that they change.
    Sums,
    /// `ADD` and `ADC`, whose operands may be exchanged.
    Additions,
    /// `SUB`, `AND`, `XOR` and `OR`, which change A.
    OnA,
    /// `SUB`, `AND`, `XOR`, `OR` and `CP`, which have A as their first operand.
    WithA,
    /// `AND`, `XOR` and `OR`.
    Logic,
    /// `INC`, `DEC`, and the rotations and shifts.
    Changes,
    /// `BIT`, `SET` and `RES`.
    Bits,
    /// `NEG`, `CPL` and `DAA`, which have no operand and change A.
    Bare,
}

/// Whether the mnemonic of an operation is one of these.
fn has_operation(words: Words, operation: AluOperation) -> bool {
    let names_register = matches!(
        operation,
        AluOperation::Add | AluOperation::Adc | AluOperation::Sbc
    );
    match words {
        Words::Sums => names_register,
        Words::Additions => matches!(operation, AluOperation::Add | AluOperation::Adc),
        Words::WithA => !names_register,
        Words::OnA => !names_register && operation != AluOperation::Cp,
        Words::Logic => matches!(
            operation,
            AluOperation::And | AluOperation::Xor | AluOperation::Or
        ),
        _ => false,
    }
}

/// Whether a mnemonic is one of these.
fn has(words: Words, mnemonic: Mnemonic) -> bool {
    match words {
        Words::One(wanted) => wanted == mnemonic,
        Words::Changes => matches!(
            mnemonic,
            Mnemonic::Inc | Mnemonic::Dec | Mnemonic::Rotate(_)
        ),
        Words::Bits => matches!(mnemonic, Mnemonic::Bit | Mnemonic::Set | Mnemonic::Res),
        Words::Bare => matches!(mnemonic, Mnemonic::Neg | Mnemonic::Cpl | Mnemonic::Daa),
        _ => match mnemonic {
            Mnemonic::Alu(operation) => has_operation(words, operation),
            _ => false,
        },
    }
}

/// The mnemonics, both operands, and what to write: a pattern of `Written`.
type Row = (Words, Shape, Shape, &'static str);

const LD: Words = Words::One(Mnemonic::Ld);

const ADD: Words = Words::One(Mnemonic::Alu(AluOperation::Add));

const SUB: Words = Words::One(Mnemonic::Alu(AluOperation::Sub));

const CP: Words = Words::One(Mnemonic::Alu(AluOperation::Cp));

const SLA: Words = Words::One(Mnemonic::Rotate(Rotation::Sla));

const SRA: Words = Words::One(Mnemonic::Rotate(Rotation::Sra));

const SRL: Words = Words::One(Mnemonic::Rotate(Rotation::Srl));

const RL: Words = Words::One(Mnemonic::Rotate(Rotation::Rl));

const RR: Words = Words::One(Mnemonic::Rotate(Rotation::Rr));

const PUSH: Words = Words::One(Mnemonic::Push);

const POP: Words = Words::One(Mnemonic::Pop);

const EX: Words = Words::One(Mnemonic::Ex);

const IN: Words = Words::One(Mnemonic::In);

const OUT: Words = Words::One(Mnemonic::Out);

const DJNZ: Words = Words::One(Mnemonic::Djnz);

const RET: Words = Words::One(Mnemonic::Ret);

const BIT: Words = Words::One(Mnemonic::Bit);

const A: Shape = Shape::Is(Name::A);

const HL: Shape = Shape::Is(Name::Hl);

const AT_HL: Shape = Shape::At(Pointed::Hl);

const AT_BC: Shape = Shape::At(Pointed::Bc);

const AT_DE: Shape = Shape::At(Pointed::De);

/// A pair from an address in another pair, a byte at a time.
const PAIR_FROM: &str = "LD A,2/LD l,A/INC n/LD A,2/LD h,A";

/// A pair to an address in another pair, a byte at a time.
const PAIR_TO: &str = "LD A,k/LD 1,A/INC m/LD A,j/LD 1,A";

const LOADS: [Row; 29] = [
    (LD, HL, Shape::Is(Name::L), "LD H,0"),
    (LD, Shape::Is(Name::De), Shape::Is(Name::E), "LD D,0"),
    (LD, Shape::Is(Name::Bc), Shape::Is(Name::C), "LD B,0"),
    (LD, A, Shape::Pair, "LD A,(2)|LD A,k"),
    (LD, Shape::Byte, Shape::Pair, "LD 1,(2)|LD 1,k"),
    (LD, Shape::Pair, A, "LD l,A/LD h,0"),
    (LD, Shape::Pair, Shape::Byte, "LD l,2/LD h,0"),
    (LD, Shape::Pair, Shape::AtIndex, "LD l,2/LD h,t"),
    (LD, Shape::AtIndex, Shape::Pair, "LD 1,k/LD s,j"),
    (LD, HL, AT_HL, "LD A,2/INC HL/LD H,2/LD L,A"),
    (LD, Shape::Pair, AT_HL, "LD l,2/INC HL/LD h,2"),
    (LD, HL, AT_DE, PAIR_FROM),
    (LD, HL, AT_BC, PAIR_FROM),
    (LD, Shape::Is(Name::De), AT_BC, PAIR_FROM),
    (LD, Shape::Is(Name::Bc), AT_DE, PAIR_FROM),
    (LD, AT_HL, Shape::Is(Name::De), "LD 1,k/INC HL/LD 1,j"),
    (LD, AT_HL, Shape::Is(Name::Bc), "LD 1,k/INC HL/LD 1,j"),
    (LD, AT_DE, HL, PAIR_TO),
    (LD, AT_DE, Shape::Is(Name::Bc), PAIR_TO),
    (LD, AT_BC, HL, PAIR_TO),
    (LD, AT_BC, Shape::Is(Name::De), PAIR_TO),
    (LD, Shape::Pushed, Shape::At(Pointed::Sp), "POP 1/PUSH 1"),
    (LD, Shape::Any, Shape::Other, "LD A,2/LD 1,A"),
    (LD, Shape::Memory, Shape::Number, "LD HL,2/LD 1,HL"),
    (LD, Shape::Named, Shape::Any, "LD (1),2"),
    (LD, Shape::Named, Shape::Byte, "LD A,2/LD (1),A"),
    (PUSH, Shape::Number, Shape::Absent, "LD HL,1/PUSH HL"),
    (PUSH, Shape::Memory, Shape::Absent, "LD HL,1/PUSH HL"),
    (POP, Shape::Memory, Shape::Absent, "POP HL/LD 1,HL"),
];

/// What to write for a comparison of HL, which changes only the flags.
const COMPARED: &str = "OR A/SBC HL,2/ADD HL,2";

const SUMS: [Row; 33] = [
    (SUB, HL, Shape::Number, "LD DE,2/OR A/SBC HL,DE"),
    (SUB, HL, Shape::Memory, "LD DE,2/OR A/SBC HL,DE"),
    (SUB, HL, Shape::Is(Name::E), "LD D,0/OR A/SBC HL,DE"),
    (SUB, HL, Shape::Any, "OR A/SBC HL,2"),
    (SUB, HL, A, "LD E,A/LD D,0/OR A/SBC HL,DE"),
    (SUB, HL, Shape::Byte, "LD E,2/LD D,0/OR A/SBC HL,DE"),
    (CP, HL, Shape::Number, "LD DE,2/OR A/SBC HL,DE/ADD HL,DE"),
    (CP, HL, Shape::Memory, "LD DE,2/OR A/SBC HL,DE/ADD HL,DE"),
    (CP, HL, Shape::Any, COMPARED),
    (
        Words::Logic,
        Shape::Pair,
        Shape::Pair,
        "LD A,h/w j/LD h,A/LD A,l/w k/LD l,A",
    ),
    (Words::WithA, Shape::Number, A, "w 1: works on A"),
    (Words::WithA, A, Shape::Any, "w 2: works on A"),
    (Words::WithA, A, Shape::Memory, "LD HL,n/w (HL)"),
    (Words::WithA, Shape::Memory, Shape::Absent, "LD HL,m/w (HL)"),
    (
        Words::WithA,
        AT_DE,
        Shape::Absent,
        "EX DE,HL/w (HL)/EX DE,HL",
    ),
    (Words::WithA, AT_BC, Shape::Absent, "LD H,B/LD L,C/w (HL)"),
    (CP, Shape::Other, Shape::Other, "LD A,1/CP 2"),
    (Words::OnA, Shape::Other, Shape::Other, "LD A,1/w 2/LD 1,A"),
    (Words::Logic, Shape::Other, A, "w 1/LD 1,A"),
    (Words::Sums, A, Shape::Memory, "LD HL,n/w A,(HL)"),
    (Words::Sums, A, AT_DE, "EX DE,HL/w A,(HL)/EX DE,HL"),
    (Words::Sums, A, AT_BC, "LD H,B/LD L,C/w A,(HL)"),
    (
        Words::Sums,
        Shape::Other,
        Shape::Other,
        "LD A,1/w A,2/LD 1,A",
    ),
    (Words::Additions, Shape::Other, A, "w A,1/LD 1,A"),
    (
        Words::Sums,
        Shape::Other,
        Shape::Is(Name::E),
        "LD D,0/w 1,DE",
    ),
    (Words::Sums, Shape::Other, A, "LD E,A/LD D,0/w 1,DE"),
    (
        Words::Sums,
        Shape::Other,
        Shape::Byte,
        "LD E,2/LD D,0/w 1,DE",
    ),
    (Words::Sums, Shape::Other, Shape::Any, "LD DE,2/w 1,DE"),
    (Words::Additions, Shape::Is(Name::Sp), HL, "w 2,1/LD 1,2"),
    (
        Words::Additions,
        Shape::Is(Name::Sp),
        Shape::Index,
        "w 2,1/LD 1,2",
    ),
    (
        Words::Additions,
        Shape::Pair,
        HL,
        "w HL,1: leaves the sum in HL",
    ),
    (
        ADD,
        Shape::Pair,
        Shape::Is(Name::Ix),
        "ADD IX,1: leaves the sum in IX",
    ),
    (
        ADD,
        Shape::Pair,
        Shape::Is(Name::Iy),
        "ADD IY,1: leaves the sum in IY",
    ),
];

const OTHERS: [Row; 29] = [
    (SLA, HL, Shape::Absent, "ADD HL,HL"),
    (SLA, Shape::Index, Shape::Absent, "ADD 1,1"),
    (SLA, Shape::Pair, Shape::Absent, "SLA l/RL h"),
    (SRA, Shape::Pair, Shape::Absent, "SRA h/RR l"),
    (SRL, Shape::Pair, Shape::Absent, "SRL h/RR l"),
    (RL, Shape::Pair, Shape::Absent, "RL l/RL h"),
    (RR, Shape::Pair, Shape::Absent, "RR h/RR l"),
    (
        Words::Changes,
        Shape::Memory,
        Shape::Absent,
        "LD HL,m/w (HL)",
    ),
    (
        Words::Changes,
        Shape::Other,
        Shape::Absent,
        "LD A,1/w A/LD 1,A",
    ),
    (
        Words::Bits,
        Shape::Number,
        Shape::Memory,
        "LD HL,n/w 1,(HL)",
    ),
    (BIT, Shape::Number, Shape::Other, "LD A,2/BIT 1,A"),
    (
        Words::Bits,
        Shape::Number,
        Shape::Other,
        "LD A,2/w 1,A/LD 2,A",
    ),
    (EX, HL, Shape::Is(Name::De), "EX DE,HL"),
    (EX, Shape::Is(Name::Af), Shape::Is(Name::Af), "EX AF,AF'"),
    (
        EX,
        Shape::Pushed,
        Shape::Pushed,
        "PUSH 1/PUSH 2/POP 1/POP 2",
    ),
    (IN, Shape::Any, Shape::Is(Name::C), "IN 1,(C)"),
    (IN, Shape::Any, Shape::Number, "IN 1,(2)"),
    (IN, Shape::Any, Shape::Number, "IN A,(2)/LD 1,A"),
    (IN, Shape::Any, Shape::Memory, "IN A,2/LD 1,A"),
    (OUT, Shape::Is(Name::C), Shape::Any, "OUT (C),2"),
    (OUT, Shape::Number, Shape::Any, "OUT (1),2"),
    (OUT, Shape::Number, Shape::Other, "LD A,2/OUT (1),A"),
    (OUT, Shape::Any, Shape::Other, "LD A,2/OUT 1,A"),
    (DJNZ, Shape::Is(Name::B), Shape::Number, "DJNZ 2: counts B"),
    (DJNZ, A, Shape::Number, "DEC A/JP NZ,2"),
    (DJNZ, Shape::Byte, Shape::Number, "DEC 1/JP NZ,2"),
    (RET, Shape::Any, Shape::Number, "RET 1|JP 1,2"),
    (Words::Bare, A, Shape::Absent, "w: works on A"),
    (Words::Bare, Shape::Other, Shape::Absent, "LD A,1/w/LD 1,A"),
];

/// What to write by the first of these rows that fits and whose statements build.
fn first_of(
    rows: &[Row],
    mnemonic: Mnemonic,
    own: &Written<'_, '_>,
) -> Result<Option<String>, AllocError> {
    let alloc = own.case.alloc;
    for (words, left, right, pattern) in rows {
        if has(*words, mnemonic)
            && fits(alloc, *left, own.left.as_ref())?
            && fits(alloc, *right, own.right.as_ref())?
        {
            if let Some(text) = own.filled(*pattern)? {
                return Ok(Some(text));
            }
        }
    }
    Ok(None)
}

/// What to write in place of an instruction with one operand or two that it does not take; None if nothing is known.
pub(crate) fn instead(
    case: &Case<'_>,
    mnemonic: Mnemonic,
    word: &str,
    operands: &[Operand<'_>],
) -> Result<Option<String>, AllocError> {
    if operands.is_empty() || operands.len() > 2 {
        return Ok(None);
    }
    let own = Written {
        case,
        word,
        left: operands.first().copied(),
        right: operands.get(1).copied(),
    };
    if let Some(text) = first_of(&LOADS, mnemonic, &own)? {
        return Ok(Some(text));
    }
    if let Some(text) = first_of(&SUMS, mnemonic, &own)? {
        return Ok(Some(text));
    }
    first_of(&OTHERS, mnemonic, &own)
}
