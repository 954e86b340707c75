//! Operands of JR and DJNZ that begin with `$`.

ghost use Rattle.std.specs.Prelude.{◌≡◌, [], ◌∷◌, ◌↔◌, IsTrue, Some, map, length, nat_eq, MatchOption};
ghost use Rattle.std.specs.List.{AllPass};
ghost use Rattle.std.specs.Option.{option_eq, option_map};
ghost use Rattle.asm_parse.specs.declared.item.Item.{Item};
ghost use Rattle.asm_parse.specs.Source.{Here, source_item};
ghost use Rattle.asm_parse.specs.Values.Postfix.{run, source_tree};
ghost use Rattle.asm_expr.specs.Settling.{is_known};
ghost use Rattle.asm_expr.specs.Offsets.{IsOffset};
ghost use Rattle.asm_expr.specs.Private.Heads.{IsFromHere, IsNotFromHere, numbered, sign_of};

use crate::answer::{Settled, settle};
use crate::names::Names;
use crate::weigh::all_constant;
use asm_parse::{
    Atom, Binary, ExprFault, Item, Room, Term, Tree, apply_binary, items, values_left,
};
use std::alloc::Global;

/// What the operand of a JR or DJNZ says.
#[derive(Clone, Copy, Debug, PartialEq, Eq)]
pub enum Offset {
    /// `$`, `$+n` or `$-n` with n constant: how far the target is after `$`, modulo 65,536.
    Number(u16),
    /// Such an operand, but n is not known, because a line that it depends on has an error.
    Unknown,
    /// `$+n` or `$-n`, and n is not constant.
    NotConstant,
    /// An operand of another form.
    Other,
}

/// The operator of an operand whose first item is `$` and whose last item is `+` or `-`; None for any other operand.
fn sign_of(first: &Item<Term>, last: &Item<Term>) -> Option<Binary>
    ensures { result ≡ sign_of (source_item first.now) (source_item last.now) }
{
    match (first, last) {
        (Item::Leaf(Term::Here), Item::Binary(Binary::Add)) => Some(Binary::Add),
        (Item::Leaf(Term::Here), Item::Binary(Binary::Subtract)) => Some(Binary::Subtract),
        _ => None,
    }
}

/// Whether these items are one expression: whether they leave exactly one value.
fn leaves_one(items: &[Item<Term>]) -> bool
    ensures { result ≡ option_eq nat_eq (option_map length (run items.now [])) (Some 1) }
{
    values_left(items) == Some(1)
}

/// The operator and the items of n, if the operand is `$+n` or `$-n`.
fn from_here(items: &[Item<Term>]) -> Option<(Binary, &[Item<Term>])>
    ensures { MatchOption result (IsNotFromHere (map source_item items.now)) (λ found. IsFromHere found.0 (map source_item found.1.now) (map source_item items.now)) }
{
    let [first, n @ .., last] = items else {
        return None;
    };
    let op = sign_of(first, last)?;
    if leaves_one(n) { Some((op, n)) } else { None }
}

/// How far the target is after `$`, given the settled items of `$+n` or `$-n`.
fn numbered(op: Binary, settled: &[Item<Atom>]) -> Offset
    ensures { result ≡ numbered op settled.now }
{
    match settled {
        [_, Item::Leaf(Atom::Number(n)), _] => Offset::Number(apply_binary(op, 0, *n)),
        _ => Offset::Unknown,
    }
}

fn is_here(items: &[Item<Term>]) -> bool
    ensures { IsTrue result ↔ (map source_item items.now ≡ Item.Leaf Here ∷ []) }
{
    matches!(items, [Item::Leaf(Term::Here)])
}

/// Finds how far the target of an operand is after `$`, if the operand is `$`, or `$+n` or `$-n` with n constant. The form is that
/// of the tree: `$+2*3` has it, and `$+2+3` does not.
///
/// # Errors
///
/// The first error of `$+n` or `$-n`, as [`settle`](crate::settle) reports it. An operand of another form is not checked.
pub fn offset_from_here(alloc: Global, parsed: &Tree, names: &Names) -> Result<Offset, ExprFault>
    requires { AllPass (is_known names.now) parsed.now }
    ensures { IsOffset names.now (source_tree parsed.now) result }
{
    let operand = parsed.items();
    if is_here(operand) {
        return Ok(Offset::Number(0));
    }
    let Some((op, n)) = from_here(operand) else {
        return Ok(Offset::Other);
    };
    let settled = settle(alloc, parsed, names)?;
    if !all_constant(n, names) {
        return Ok(Offset::NotConstant);
    }
    match settled {
        Settled::Known(expr) => Ok(numbered(op, items(&expr, &mut Room::new()))),
        Settled::Unknown(_) => Ok(Offset::Unknown),
    }
}
