//! The address that an instruction has as an operand, and where the program goes after it.

use z80_instr::{Cond, Instr, Pointer};

/// An operand that a label can stand for.
#[derive(Clone, Copy)]
pub(crate) enum Reference {
    /// The target of a `JP` that the linker could make short.
    Relaxable(u16),
    /// The target of another `JP`, or of a `CALL`.
    Target(u16),
    /// The target of `JR` or `DJNZ`.
    Relative(u16),
    /// A word, or the address of one.
    Word(u16),
}

impl Reference {
    /// Answers the address, if the program can go there.
    pub(crate) fn target(self) -> Option<u16> {
        match self {
            Reference::Relaxable(nn) | Reference::Target(nn) | Reference::Relative(nn) => Some(nn),
            Reference::Word(_) => None,
        }
    }

    /// Answers the address.
    pub(crate) fn address(self) -> u16 {
        match self {
            Reference::Relaxable(nn) | Reference::Target(nn) => nn,
            Reference::Relative(nn) | Reference::Word(nn) => nn,
        }
    }
}

/// Answers the target of a conditional `JP`. The linker makes those short whose condition `JR` has too.
fn jump_if(cc: Cond, nn: u16) -> Reference {
    match cc {
        Cond::NotZero | Cond::Zero | Cond::NotCarry | Cond::Carry => Reference::Relaxable(nn),
        Cond::ParityOdd | Cond::ParityEven | Cond::Plus | Cond::Minus => Reference::Target(nn),
    }
}

/// Answers the operand of an instruction that a label can stand for, given the address of the next instruction.
pub(crate) fn reference_of(instr: Instr, next: u16) -> Option<Reference> {
    match instr {
        Instr::Jump(nn) => Some(Reference::Relaxable(nn)),
        Instr::JumpIf(cc, nn) => Some(jump_if(cc, nn)),
        Instr::Call(nn) | Instr::CallIf(_, nn) => Some(Reference::Target(nn)),
        Instr::JumpRelative(e) | Instr::JumpRelativeIf(_, e) | Instr::Djnz(e) => Some(
            Reference::Relative(next.wrapping_add_signed(i16::from(e))),
        ),
        Instr::LoadA(Pointer::Address(nn)) | Instr::StoreA(Pointer::Address(nn)) => Some(
            Reference::Word(nn),
        ),
        Instr::LoadWord(_, nn) | Instr::LoadWordFrom(_, nn) | Instr::StoreWord(_, nn) => Some(
            Reference::Word(nn),
        ),
        _ => None,
    }
}

/// Whether the program may go on with the instruction after this one. A call is taken to return.
pub(crate) fn goes_on(instr: Instr) -> bool {
    !matches!(
        instr,
        Instr::Jump(_)
            | Instr::JumpRelative(_)
            | Instr::JumpIndirect(_)
            | Instr::Ret
            | Instr::Reti
            | Instr::Retn
    )
}
