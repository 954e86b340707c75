//! Says what a statement makes once its names are known.

ghost use Rattle.asm_spell.specs.Faults.{Gives};
ghost use Rattle.asm_spell.specs.Line.{body_of};
ghost use Rattle.asm_stmt.specs.Made.{AreDefined, made, made_of};

use crate::code::{code, jump, short};
use crate::data::{bytes, words};
use crate::piece::Made;
use crate::space::{origin, space};
use asm_expr::Names;
use asm_spell::{Body, StmtFault};
use std::alloc::Global;

/// Answers what a statement makes: the piece of a program that it is, with a fix-up for each value that depends on addresses. Each name in
/// its operands has to stand for something. `$` is the address of the statement.
///
/// # Errors
///
/// The first error of the operands, from left to right. For one operand, the errors of its expression come first ([`StmtFault::Expr`]),
/// then those of its value: [`StmtFault::ByteRange`] if it is out of range; [`StmtFault::NeedsLowOrHigh`] if a byte depends on addresses,
/// and [`StmtFault::NeedsNumber`] if another field does that takes only a number; [`StmtFault::ShortNeedsLabel`] if the operand of JR or
/// DJNZ is neither a label nor `$` with a constant (if it is not one of `$`, `$+n` and `$-n`, no other error of it is reported);
/// [`StmtFault::SizeNamesLabel`] if the size of a DS is not constant; [`StmtFault::BadOrg`] for an ORG that is not 0100H, or comes after a
/// statement. [`StmtFault::NoMemory`] if memory ran out.
pub fn settle(alloc: Global, body: &Body, names: &Names) -> Result<Made, StmtFault>
    requires { AreDefined names.now (body_of body.now) }
    ensures { Gives made_of result (made names.now (body_of body.now)) }
{
    match body {
        Body::Code { instr, numbers } => code(alloc, *instr, numbers.as_slice(), names),
        Body::Jump { condition, target } => jump(alloc, *condition, target, names),
        Body::Short { branch, target } => short(*branch, target, names),
        Body::Bytes(values) => bytes(alloc, values, names),
        Body::Words(fields) => words(alloc, fields, names),
        Body::Space { size, fill } => space(alloc, size, fill.as_ref(), names),
        Body::Origin(tree) => origin(alloc, tree, names),
        Body::Public(_) | Body::External(_) | Body::End(_) | Body::Z80 => Ok(Made::Nothing),
    }
}
