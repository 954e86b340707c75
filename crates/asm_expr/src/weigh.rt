//! What can be said of an expression before it is settled: its size, whether it is constant, and whether its names are defined.

ghost use Rattle.std.specs.Prelude.{◌≡◌, ◌≤◌, ◌↔◌, IsTrue};
ghost use Rattle.std.specs.List.{AllPass, list_all};
ghost use Rattle.asm_parse.specs.Source.{source_item};
ghost use Rattle.asm_parse.specs.Expression.{postfix};
ghost use Rattle.asm_parse.specs.declared.values.expr.TheConstants.{MOST_ITEMS};
ghost use Rattle.asm_parse.specs.Values.Postfix.{source_tree};
ghost use Rattle.asm_expr.specs.Settling.{is_constant_item, is_known, expression_size};
ghost use Rattle.asm_expr.specs.Private.Folding.{item_size};

use crate::meaning::Meaning;
use crate::names::Names;
use asm_parse::{Item, Term, TermView, Tree};

/// How many terms and operators an item of an expression stands for, after EQU names are replaced.
pub(crate) fn item_size(item: &Item<Term>, names: &Names) -> u16
    ensures { result ≡ item_size names.now (source_item item.now) }
{
    let Item::Leaf(TermView::Name(name)) = item.view() else {
        return 1;
    };
    match names.meaning(name) {
        Some(Meaning::Equ(equated)) => equated.size,
        _ => 1,
    }
}

/// Whether an item stands for no address and no external.
fn is_constant_item(item: &Item<Term>, names: &Names) -> bool
    ensures { result ≡ is_constant_item names.now (source_item item.now) }
{
    match item.view() {
        Item::Leaf(TermView::Here) => false,
        Item::Leaf(TermView::Name(name)) => {
            matches!(
                names.meaning(name),
                None | Some(Meaning::Constant(_) | Meaning::UnknownConstant | Meaning::Faulty)
            )
        }
        _ => true,
    }
}

pub(crate) fn all_constant(items: &[Item<Term>], names: &Names) -> bool
    ensures { result ≡ list_all (λ i. is_constant_item names.now (source_item i)) items.now }
{
    items.iter().all(|item| is_constant_item(item, names))
}

/// Whether an expression is constant: it contains no address and no external after EQU names are replaced. A name whose own line
/// has an error counts as constant, and so does one that stands for nothing.
pub fn is_constant(parsed: &Tree, names: &Names) -> bool
    ensures { result ≡ list_all (is_constant_item names.now) (postfix (source_tree parsed.now)) }
{
    all_constant(parsed.items(), names)
}

/// How many terms and operators an expression stands for, after EQU names are replaced, a constant one by its number. They are 64
/// at most if [`settle`](crate::settle) accepts the expression.
pub fn size(parsed: &Tree, names: &Names) -> u16
    requires { expression_size names.now (source_tree parsed.now) ≤ MOST_ITEMS }
    ensures { result ≡ expression_size names.now (source_tree parsed.now) }
{
    let mut total = 0;
    for item in parsed.items() {
        total += item_size(item, names);
    }
    total
}

fn is_known(item: &Item<Term>, names: &Names) -> bool
    ensures { result ≡ is_known names.now (source_item item.now) }
{
    match item.view() {
        Item::Leaf(TermView::Name(name)) => names.meaning(name).is_some(),
        _ => true,
    }
}

fn all_known(items: &[Item<Term>], names: &Names) -> bool
    ensures { result ≡ list_all (λ i. is_known names.now (source_item i)) items.now }
{
    items.iter().all(|item| is_known(item, names))
}

/// Whether each name of an expression stands for something.
pub fn is_defined(parsed: &Tree, names: &Names) -> bool
    ensures { IsTrue result ↔ AllPass (is_known names.now) parsed.now }
{
    all_known(parsed.items(), names)
}
