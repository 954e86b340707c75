//! The conditions of jumps, calls and returns.
ghost use Rattle.std.specs.Prelude.{◌≡◌};
ghost use Rattle.z80_cpu.specs.Operands.{condition_holds, short_condition_holds};

use crate::Flags;
use z80_instr::{Cond, ShortCond};

#[inline(always)]
pub(crate) fn condition_holds(condition: Cond, flags: &Flags) -> bool
    ensures { result ≡ condition_holds condition flags.now }
{
    match condition {
        Cond::NotZero => !flags.zero,
        Cond::Zero => flags.zero,
        Cond::NotCarry => !flags.carry,
        Cond::Carry => flags.carry,
        Cond::ParityOdd => !flags.parity_overflow,
        Cond::ParityEven => flags.parity_overflow,
        Cond::Plus => !flags.sign,
        Cond::Minus => flags.sign,
    }
}

#[inline(always)]
pub(crate) fn short_condition_holds(condition: ShortCond, flags: &Flags) -> bool
    ensures { result ≡ short_condition_holds condition flags.now }
{
    match condition {
        ShortCond::NotZero => !flags.zero,
        ShortCond::Zero => flags.zero,
        ShortCond::NotCarry => !flags.carry,
        ShortCond::Carry => flags.carry,
    }
}
