//! Expressions of one term, as most expressions are.

ghost use Rattle.std.specs.Prelude.{◌≡◌, ◌∷◌, [], ℕ, IfSome, Ok, Some};
ghost use Rattle.std.specs.Option.{option_map};
ghost use Rattle.asm_parse.specs.declared.item.Item.{Item};
ghost use Rattle.asm_parse.specs.Source.{operand};
ghost use Rattle.asm_parse.specs.declared.values.atom.Atom.{Atom};
ghost use Rattle.asm_expr.specs.declared.answer.Settled.{Settled};
ghost use Rattle.asm_expr.specs.Alone.{atom_alone, atom_of, number_alone};
ghost use Rattle.asm_parse.specs.Values.Postfix.{source_tree};
ghost use Rattle.asm_expr.specs.Settling.{settled};
ghost use Rattle.asm_expr.specs.Private.Left.{IsLeftOperand, operand_alone};

use crate::meaning::Meaning;
use crate::names::Names;
use asm_parse::{Atom, Expr, Item, Term, TermView, Tree};

/// The number or ref that a term stands for; None if it has no value, or if it stands for an expression with an operator.
fn atom_of(term: &Term, names: &Names) -> Option<Atom>
    ensures { result ≡ atom_of names.now (operand term.now) }
{
    match term.view() {
        TermView::Number(n) => Some(Atom::Number(n)),
        TermView::Here => Some(Atom::Ref(names.here())),
        TermView::Name(name) => match names.meaning(name) {
            Some(Meaning::Label(r) | Meaning::External(r)) => Some(Atom::Ref(*r)),
            Some(Meaning::Constant(n)) => Some(Atom::Number(*n)),
            _ => None,
        },
    }
}

/// The number or ref that an expression of one term stands for; None for any other expression, and for a term that has no value or
/// stands for an expression with an operator.
pub(crate) fn atom_alone(parsed: &Tree, names: &Names) -> Option<Atom>
    ensures alone { result ≡ atom_alone names.now parsed.now }
{
    match parsed.items() {
        [Item::Leaf(term)] => atom_of(term, names),
        _ => None,
    }
}

/// The expression that a term stands for, if settling leaves it as it is.
fn left_of<'a>(term: &Term, names: &'a Names) -> Option<&'a Expr>
    ensures { IfSome result (λ expr. IsLeftOperand names.now (operand term.now) expr.now) }
{
    match term.view() {
        TermView::Name(name) => names.left(name),
        _ => None,
    }
}

/// The term of an expression that has only one; None for any other expression.
fn term_alone(parsed: &Tree) -> Option<&Term>
    ensures { option_map (λ term. operand term.now) result ≡ operand_alone parsed.now }
{
    match parsed.items() {
        [Item::Leaf(term)] => Some(term),
        _ => None,
    }
}

/// The expression that the only term of an expression stands for, if settling leaves it as it is. None for any other expression.
pub(crate) fn left_alone<'a>(parsed: &Tree, names: &'a Names) -> Option<&'a Expr>
    ensures settled { IfSome result (λ expr. settled names.now (source_tree parsed.now) ≡ Ok (Settled.Known expr.now)) }
{
    match term_alone(parsed) {
        Some(term) => left_of(term, names),
        None => None,
    }
}

/// The number that an expression of one term stands for: the term is a number or the name of a constant. None for any other
/// expression.
pub fn number_alone(parsed: &Tree, names: &Names) -> Option<u16>
    ensures alone { result ≡ number_alone names.now parsed.now }
    ensures settled { (n : ℕ) → result ≡ Some n → settled names.now (source_tree parsed.now) ≡ Ok (Settled.Known (Item.Leaf (Atom.Number n) ∷ [])) }
{
    match atom_alone(parsed, names) {
        Some(Atom::Number(n)) => Some(n),
        _ => None,
    }
}
