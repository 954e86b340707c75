//! What a name stands for that EQU defines by an expression.

ghost use Rattle.std.specs.Prelude.{◌≡◌, ◌⊎◌, Err, IfOk};
ghost use Rattle.std.specs.List.{AllPass};
ghost use Rattle.asm_expr.specs.Types.{ExprFault};
ghost use Rattle.asm_parse.specs.Values.Postfix.{source_tree};
ghost use Rattle.asm_expr.specs.Names.{IsCounted};
ghost use Rattle.asm_expr.specs.Settling.{is_known};
ghost use Rattle.asm_expr.specs.Equating.{equated};

use crate::answer::{Settled, settle};
use crate::meaning::{Equated, Meaning};
use crate::names::Names;
use crate::unknown::Unknown;
use crate::weigh::{is_constant, size};
use asm_parse::{ExprFault, Tree, constant};
use std::alloc::Global;

/// Finds what a name stands for that EQU defines by this expression.
///
/// # Errors
///
/// The first error of the expression, as [`settle`](crate::settle) reports it.
pub fn equate(alloc: Global, parsed: &Tree, names: &Names) -> Result<Meaning, ExprFault>
    requires { AllPass (is_known names.now) parsed.now }
    ensures equated { (result ≡ equated names.now (source_tree parsed.now)) ⊎ (result ≡ Err ExprFault.NoMemory) }
    ensures counted { IfOk result IsCounted }
{
    // Called for its clause, from which follows that an expression stands for at least one term or operator.
    names.counted();
    let settled = settle(alloc, parsed, names)?;
    if !is_constant(parsed, names) {
        let size = size(parsed, names);
        let shared = settled.into_shared(alloc)?;
        return Ok(Meaning::Equ(Equated {
            settled: shared,
            size,
        }));
    }
    match settled {
        Settled::Known(expr) => match constant(&expr) {
            Some(n) => Ok(Meaning::Constant(n)),
            None => unreachable!(),
        },
        Settled::Unknown(Unknown::Anything) => Ok(Meaning::Faulty),
        Settled::Unknown(_) => Ok(Meaning::UnknownConstant),
    }
}
