//! Settling an expression: replacing its names by what they stand for, and each fixed part by its number.

ghost use Rattle.std.specs.Prelude.{◌≡◌, ◌⊎◌, ◌≤◌, length, Some, Ok, Err, IfOk, IfSome};
ghost use Rattle.std.specs.List.{AllPass};
ghost use Rattle.asm_parse.specs.declared.fault.ExprFault.{ExprFault};
ghost use Rattle.asm_expr.specs.declared.answer.Settled.{Settled};
ghost use Rattle.asm_parse.specs.Values.Postfix.{source_tree};
ghost use Rattle.asm_expr.specs.Settling.{IsWorthOf, is_known, settled};
ghost use Rattle.asm_expr.specs.Private.Folding.{unknown_at_end, unknown_by};

use crate::alone::{atom_alone, left_alone};
use crate::names::Names;
use crate::part::Part;
use crate::parts::Parts;
use crate::reduction::reduce;
use crate::sharing::kept_of;
use crate::unknown::Unknown;
use asm_parse::{Expr, ExprFault, Item, Tree, Unary};
use std::alloc::{AllocError, Global};

/// An expression that is settled.
#[derive(Debug, Drop)]
pub enum Settled {
    /// The items of the expression, with each fixed part as its number.
    Known(Expr),
    /// A part has no value, because a line that it depends on has an error. This says what is known of the whole.
    Unknown(Unknown),
}

impl Settled {
    /// The same, with its items kept so that other expressions can share them.
    pub(crate) fn into_shared(self, alloc: Global) -> Result<Settled, AllocError>
        ensures { IfOk result (λ shared. shared ≡ self) }
    {
        match self {
            Settled::Known(expr) => Ok(Settled::Known(expr.into_shared(alloc)?)),
            Settled::Unknown(what) => Ok(Settled::Unknown(what)),
        }
    }
}

/// What is known of an expression that has a part without a value, given its last item.
fn unknown_by(last: &Item<Part>) -> Unknown
    ensures { result ≡ unknown_by (Some last.now) }
{
    match last {
        Item::Leaf(Part::Unknown(what)) => *what,
        Item::Unary(Unary::High | Unary::Low) => Unknown::VariesInByte,
        _ => Unknown::Varies,
    }
}

/// What is known of an expression that has a part without a value, given its reduced items.
fn unknown_of(reduced: &Parts<'_>) -> Unknown
    requires { 1 ≤ length reduced.now }
    ensures { result ≡ unknown_at_end reduced.now }
{
    unknown_by(&reduced.last())
}

/// The settled expression, if the expression is one term that settling leaves as it is and whose items can be shared; None
/// otherwise.
fn settle_again(parsed: &Tree, names: &Names) -> Result<Option<Expr>, AllocError>
    ensures { IfOk result (λ answer. IfSome answer (λ expr. settled names.now (source_tree parsed.now) ≡ Ok (Settled.Known expr))) }
{
    match left_alone(parsed, names) {
        Some(expr) => expr.again(),
        None => Ok(None),
    }
}

/// Settles an expression of any number of terms.
fn settle_items(alloc: Global, parsed: &Tree, names: &Names) -> Result<Settled, ExprFault>
    requires { AllPass (is_known names.now) parsed.now }
    ensures settled { (result ≡ settled names.now (source_tree parsed.now)) ⊎ (result ≡ Err ExprFault.NoMemory) }
    ensures worth { IfOk result (λ answer. IsWorthOf names.now (source_tree parsed.now) answer) }
{
    // Called for its clause, from which follows that there are never more than `MOST_ITEMS` settled items.
    names.counted();
    let reduced = reduce(parsed, names)?;
    match kept_of(alloc, reduced.cells())? {
        Some(items) => Ok(Settled::Known(Expr::known(items))),
        None => Ok(Settled::Unknown(unknown_of(&reduced))),
    }
}

/// Settles an expression: replaces its names by what they stand for, and each fixed part by its number. A part may have no value,
/// if the line that it depends on has an error: a name whose own line has one, or a distance over a statement of unknown size. That
/// is no error of this expression; the answer then says whether the whole is fixed all the same.
///
/// # Errors
///
/// If an expression has several errors, the first one in postfix order: [`ExprFault::DivideByZero`] and [`ExprFault::LabelDivisor`]
/// at a division whose divisor is 0, or is not fixed; [`ExprFault::TooLarge`] at the 65th term or operator, counted after EQU names
/// are replaced. [`ExprFault::NoMemory`] if memory runs out.
pub fn settle(alloc: Global, parsed: &Tree, names: &Names) -> Result<Settled, ExprFault>
    requires { AllPass (is_known names.now) parsed.now }
    ensures settled { (result ≡ settled names.now (source_tree parsed.now)) ⊎ (result ≡ Err ExprFault.NoMemory) }
    ensures worth { IfOk result (λ answer. IsWorthOf names.now (source_tree parsed.now) answer) }
{
    // Called for its clause about the table.
    names.counted();
    match atom_alone(parsed, names) {
        Some(atom) => Ok(Settled::Known(Expr::leaf(atom))),
        None => match settle_again(parsed, names)? {
            Some(expr) => Ok(Settled::Known(expr)),
            None => settle_items(alloc, parsed, names),
        },
    }
}
