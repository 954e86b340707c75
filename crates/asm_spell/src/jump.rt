//! Jumps to one name.

ghost use Rattle.std.specs.Prelude.{◌≡◌, ℕ, List};
ghost use Rattle.std.specs.Option.{option_map};
ghost use Rattle.asm_spell.specs.Spelling.{jump_to, short_condition};
ghost use Rattle.asm_spell.specs.Private.Choices.{jumps};

use crate::line::Body;
use z80_instr::{Branch, Cond, Instr, ShortCond};

/// Which forms a jump to one name may take.
#[derive(Clone, Copy, Debug)]
pub(crate) enum Jump {
    /// `JP` without a condition, or on one that `JR` can test too: it may be long or short.
    Relaxable(Option<ShortCond>),
    /// `JR` and `DJNZ`: always short.
    Always(Branch),
}

impl Jump {
    ghost use Rattle.std.specs.Prelude.{◌≡◌};
    ghost use Rattle.asm_spell.specs.Line.{body_of};
    ghost use Rattle.asm_spell.specs.Private.Choices.{jumps};

    pub(crate) fn to(self, target: Vec<u8>) -> Body
        ensures { body_of result ≡ jumps self target.items }
    {
        match self {
            Jump::Relaxable(condition) => Body::Jump { condition, target },
            Jump::Always(branch) => Body::Short { branch, target },
        }
    }
}

/// The condition as one of `JR`, if `JR` can test it.
fn short_condition(condition: Cond) -> Option<ShortCond>
    ensures { result ≡ short_condition condition }
{
    match condition {
        Cond::NotZero => Some(ShortCond::NotZero),
        Cond::Zero => Some(ShortCond::Zero),
        Cond::NotCarry => Some(ShortCond::NotCarry),
        Cond::Carry => Some(ShortCond::Carry),
        _ => None,
    }
}

/// The kind of jump that an instruction is if its target is one name; None if it is no such jump.
pub(crate) fn jump_of(instr: Instr) -> Option<Jump>
    ensures { (name : List ℕ) → option_map (λ jump. jumps jump name) result ≡ jump_to instr name }
{
    match instr {
        Instr::Jump(_) => Some(Jump::Relaxable(None)),
        Instr::JumpIf(cc, _) => short_condition(cc).map(|c| Jump::Relaxable(Some(c))),
        Instr::JumpRelative(_) => Some(Jump::Always(Branch::Relative(None))),
        Instr::JumpRelativeIf(cc, _) => Some(Jump::Always(Branch::Relative(Some(cc)))),
        Instr::Djnz(_) => Some(Jump::Always(Branch::CountDown)),
        _ => None,
    }
}
