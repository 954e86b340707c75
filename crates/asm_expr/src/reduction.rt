//! Reduces an expression item by item: replaces names by what they stand for, and each fixed part by its number.

ghost use Rattle.std.specs.Prelude.{◌≡◌, ◌<◌, ◌≤◌, ◌+◌, ◌∷◌, List, Ok, Some, IfOk, IfSome, true, length, map};
ghost use Rattle.std.specs.List.{AllPass};
ghost use Rattle.asm_expr.specs.declared.part.Part.{Part};
ghost use Rattle.asm_parse.specs.declared.item.Item.{Item};
ghost use Rattle.asm_parse.specs.Expression.{Expression, Leaf, postfix};
ghost use Rattle.asm_parse.specs.Values.Postfix.{source_tree, spread, tree};
ghost use Rattle.asm_parse.specs.Source.{operand, source_item};
ghost use Rattle.asm_expr.specs.Names.{AreCounted, found, item_count};
ghost use Rattle.asm_parse.specs.Values.Arithmetic.{binary};
ghost use Rattle.asm_parse.specs.Values.Items.{IsExpr};
ghost use Rattle.asm_expr.specs.Settling.{both, distance_of, is_known, known_item, operand_size, standing};
ghost use Rattle.asm_parse.specs.Private.Steps.{arity};
ghost use Rattle.asm_expr.specs.Private.Left.{IsLeftName};
ghost use Rattle.asm_expr.specs.Private.Folding.{Folds, IsReduced, difference_of, fold_all, fold_one, folded_binary, folded_unary, item_fault, item_size, items_for, leaf_of, prefixed, single_of, worth_of};

use crate::answer::Settled;
use crate::meaning::{Equated, Meaning};
use crate::names::Names;
use crate::part::Part;
use crate::parts::{Parts, known_item};
use crate::single::Single;
use crate::unknown::Unknown;
use crate::weigh::item_size;
use asm_parse::{
    Atom, Binary, Expr, ExprFault, Item, MOST_ITEMS, Room, Term, TermView, Tree, Unary, Worth,
    apply_binary, apply_unary, items,
};
use std::rc::Rc;

fn worth_of(item: &Item<Part>) -> Worth
    ensures { result ≡ worth_of item.now }
{
    match item {
        Item::Leaf(Part::Number(n)) => Worth::Number(*n),
        Item::Leaf(Part::Unknown(Unknown::Anything | Unknown::Number)) => Worth::Unknown,
        _ => Worth::Varies,
    }
}

fn single_of(item: &Item<Part>) -> Single
    ensures { result ≡ single_of item.now }
{
    match item {
        Item::Leaf(Part::Ref(r)) => Single::Place(*r),
        Item::Leaf(Part::Unknown(Unknown::Anything)) => Single::Anything,
        _ => Single::Other,
    }
}

/// The difference of two operands, if it is the distance of two addresses. Otherwise the answer is `Varies`.
fn distance_of(names: &Names, x: Single, y: Single) -> Worth
    ensures { result ≡ distance_of names.now x y }
{
    match (x, y) {
        (Single::Place(p), Single::Place(q)) => names.distance(p, q),
        (Single::Place(p), Single::Anything) | (Single::Anything, Single::Place(p)) =>
            names.some_distance(p),
        _ => Worth::Varies,
    }
}

/// The leaf that a fixed part becomes; None for a part that varies.
fn leaf_of(worth: Worth) -> Option<Part>
    ensures { result ≡ leaf_of worth }
{
    match worth {
        Worth::Number(n) => Some(Part::Number(n)),
        Worth::Unknown => Some(Part::Unknown(Unknown::Number)),
        Worth::Varies => None,
    }
}

/// What is known of the result of a prefix operator, given the last item of its operand.
fn folded_unary(op: Unary, x: &Item<Part>) -> Worth
    ensures { result ≡ folded_unary op x.now }
{
    match worth_of(x) {
        Worth::Number(n) => Worth::Number(apply_unary(op, n)),
        other => other,
    }
}

/// What is known of the result of a subtraction as the distance of two addresses. `Varies` for any other operator.
fn difference_of(names: &Names, op: Binary, x: &Item<Part>, y: &Item<Part>) -> Worth
    ensures { result ≡ difference_of names.now op x.now y.now }
{
    match op {
        Binary::Subtract => distance_of(names, single_of(x), single_of(y)),
        _ => Worth::Varies,
    }
}

/// What is known of the result of an operator, given what is known of its two operands.
fn both(op: Binary, x: Worth, y: Worth) -> Worth
    ensures { result ≡ both (binary op) x y }
{
    match (x, y) {
        (Worth::Number(a), Worth::Number(b)) => Worth::Number(apply_binary(op, a, b)),
        (Worth::Varies, _) | (_, Worth::Varies) => Worth::Varies,
        _ => Worth::Unknown,
    }
}

/// What is known of the result of an infix operator, given the last items of its two operands.
fn folded_binary(names: &Names, op: Binary, x: &Item<Part>, y: &Item<Part>) -> Worth
    ensures { result ≡ folded_binary names.now op x.now y.now }
{
    match difference_of(names, op, x, y) {
        Worth::Varies => both(op, worth_of(x), worth_of(y)),
        distance => distance,
    }
}

/// The error of a division whose divisor ends with this item.
fn item_fault(op: Binary, divisor: &Item<Part>) -> Option<ExprFault>
    ensures { result ≡ item_fault op divisor.now }
{
    if !op.divides() {
        return None;
    }
    match worth_of(divisor) {
        Worth::Number(0) => Some(ExprFault::DivideByZero),
        Worth::Varies => Some(ExprFault::LabelDivisor),
        _ => None,
    }
}

/// Appends a prefix operator to the reduced items of its operand, and reduces the result.
fn fold_unary(items: &mut Parts<'_>, op: Unary)
    requires some { 1 ≤ length items.old }
    requires room { length items.old < MOST_ITEMS }
    ensures least { length items.old ≤ length items.new }
    ensures most { length items.new ≤ length items.old + 1 }
    ensures folds { (a : Expression Part) (before : List (Expression Part)) → items.old ≡ spread (a ∷ before) →
        items.new ≡ spread (prefixed op a ∷ before) }
{
    match leaf_of(folded_unary(op, &items.last())) {
        Some(leaf) => items.replace_last(leaf),
        None => items.push(Item::Unary(op)),
    }
}

/// Appends an infix operator to the reduced items of its two operands, and reduces the result.
fn fold_binary(items: &mut Parts<'_>, op: Binary, names: &Names) -> Result<(), ExprFault>
    requires two { 2 ≤ length items.old }
    requires room { length items.old < MOST_ITEMS }
    ensures least { IfOk result (λ _. length items.old ≤ length items.new + 1) }
    ensures most { IfOk result (λ _. length items.new ≤ length items.old + 1) }
    ensures folds { (a b : Expression Part) (before : List (Expression Part)) → items.old ≡ spread (b ∷ a ∷ before) →
        Folds (fold_one names.now (Item.Binary op) (b ∷ a ∷ before)) result items.new }
{
    let left = items.before_last();
    let right = items.last();
    if let Some(fault) = item_fault(op, &right) {
        return Err(fault);
    }
    match leaf_of(folded_binary(names, op, &left, &right)) {
        Some(leaf) => {
            items.replace_two(leaf);
            Ok(())
        }
        None => {
            items.push(Item::Binary(op));
            Ok(())
        }
    }
}

/// Appends one item to reduced items, and reduces the result.
fn fold(items: &mut Parts<'_>, item: Item<Part>, names: &Names) -> Result<(), ExprFault>
    requires operands { arity item ≤ length items.old }
    requires room { length items.old < MOST_ITEMS }
    ensures least { IfOk result (λ _. length items.old + 1 ≤ length items.new + arity item) }
    ensures most { IfOk result (λ _. length items.new ≤ length items.old + 1) }
    ensures folds { (before : List (Expression Part)) → items.old ≡ spread before → arity item ≤ length before →
        Folds (fold_one names.now item before) result items.new }
{
    match item {
        Item::Leaf(_) => {
            items.push(item);
            Ok(())
        }
        Item::Unary(op) => {
            fold_unary(items, op);
            Ok(())
        }
        Item::Binary(op) => fold_binary(items, op, names),
    }
}

/// Appends the items of an expression to reduced items, one by one, and reduces the result.
fn take_items(out: &mut Parts<'_>, items: &[Item<Atom>], names: &Names) -> Result<(), ExprFault>
    requires expr { IsExpr items.now }
    requires room { length out.old + length items.now ≤ MOST_ITEMS }
    ensures most { IfOk result (λ _. length out.new ≤ length out.old + length items.now) }
    ensures folds { (before : List (Expression Part)) → out.old ≡ spread before →
        Folds (fold_all names.now (map known_item items.now) before) result out.new }
{
    for item in items {
        fold(out, known_item(*item), names)?;
    }
    Ok(())
}

/// Appends the items of an expression that are not side by side in memory to reduced items.
#[inline(never)]
fn take_gathered(out: &mut Parts<'_>, expr: &Expr, names: &Names) -> Result<(), ExprFault>
    requires room { length out.old + length expr.now ≤ MOST_ITEMS }
    ensures whole { postfix (tree expr.now) ≡ expr.now }
    ensures most { IfOk result (λ _. length out.new ≤ length out.old + length expr.now) }
    ensures folds { (before : List (Expression Part)) → out.old ≡ spread before →
        Folds (fold_all names.now (map known_item expr.now) before) result out.new }
{
    take_items(out, items(expr, &mut Room::new()), names)
}

/// Appends the items of any expression to reduced items.
pub(crate) fn take_expr(out: &mut Parts<'_>, expr: &Expr, names: &Names) -> Result<(), ExprFault>
    requires room { length out.old + length expr.now ≤ MOST_ITEMS }
    ensures whole { postfix (tree expr.now) ≡ expr.now }
    ensures most { IfOk result (λ _. length out.new ≤ length out.old + length expr.now) }
    ensures folds { (before : List (Expression Part)) → out.old ≡ spread before →
        Folds (fold_all names.now (map known_item expr.now) before) result out.new }
{
    match expr.side_by_side() {
        Some(list) => take_items(out, list, names),
        None => take_gathered(out, expr, names),
    }
}

/// Appends a leaf to reduced items. There is no error.
fn put_part(out: &mut Parts<'_>, part: Part) -> Result<(), ExprFault>
    requires room { length out.old < MOST_ITEMS }
    ensures most { IfOk result (λ _. length out.new ≤ length out.old + 1) }
    ensures folds { (before : List (Expression Part)) → out.old ≡ spread before → Folds (Ok (Leaf part ∷ before)) result out.new }
{
    out.push(Item::Leaf(part));
    Ok(())
}

/// Appends what an EQU name's expression was settled as to reduced items.
fn take_settled(out: &mut Parts<'_>, settled: &Settled, names: &Names) -> Result<(), ExprFault>
    requires room { length out.old + item_count settled.now ≤ MOST_ITEMS }
    ensures most { IfOk result (λ _. length out.new ≤ length out.old + item_count settled.now) }
    ensures folds { (before : List (Expression Part)) → out.old ≡ spread before →
        Folds (fold_all names.now (postfix (standing settled.now)) before) result out.new }
{
    match settled {
        Settled::Known(expr) => take_expr(out, expr, names),
        Settled::Unknown(what) => put_part(out, Part::Unknown(*what)),
    }
}

/// The items that a name stands for, if settling leaves them as they are and there are at least two.
fn list_left<'a>(name: &[u8], names: &'a Names) -> Option<&'a Rc<Vec<Item<Atom>>>>
    ensures { IfSome result (λ list. IsLeftName names.now name.now list.now.value.items × (2 ≤ length list.now.value.items)) }
{
    match names.left(name) {
        Some(expr) => match expr.shared() {
            Some(list) if 2 <= list.len() => Some(list),
            _ => None,
        },
        None => None,
    }
}

/// Appends what an EQU name stands for to reduced items. An expression that settling leaves as it is is not settled again.
fn take_equ<'a>(
    out: &mut Parts<'a>,
    name: &[u8],
    equated: &Equated,
    names: &'a Names,
) -> Result<(), ExprFault>
    requires known { found names.now name.now ≡ Some (Meaning.Equ equated.now) }
    requires room { length out.old + item_count equated.now.settled ≤ MOST_ITEMS }
    ensures most { IfOk result (λ _. length out.new ≤ length out.old + item_count equated.now.settled) }
    ensures folds { (before : List (Expression Part)) → out.old ≡ spread before →
        Folds (fold_all names.now (postfix (standing equated.now.settled)) before) result out.new }
{
    match list_left(name, names) {
        Some(list) => {
            out.push_list(list);
            Ok(())
        }
        None => take_settled(out, &equated.settled, names),
    }
}

/// Appends what a term stands for to reduced items.
fn take_term<'a>(out: &mut Parts<'a>, term: &Term, names: &'a Names) -> Result<(), ExprFault>
    requires known { is_known names.now (Item.Leaf (operand term.now)) ≡ true }
    requires counted { AreCounted names.now }
    requires room { length out.old + operand_size names.now (operand term.now) ≤ MOST_ITEMS }
    ensures most { IfOk result (λ _. length out.new ≤ length out.old + operand_size names.now (operand term.now)) }
    ensures folds { (before : List (Expression Part)) → out.old ≡ spread before →
        Folds (fold_all names.now (items_for names.now (Item.Leaf (operand term.now))) before) result out.new }
{
    match term.view() {
        TermView::Number(n) => put_part(out, Part::Number(n)),
        TermView::Here => put_part(out, Part::Ref(names.here())),
        TermView::Name(name) => match names.meaning(name) {
            Some(Meaning::Label(statement)) => put_part(out, Part::Ref(*statement)),
            Some(Meaning::External(external)) => put_part(out, Part::Ref(*external)),
            Some(Meaning::Constant(n)) => put_part(out, Part::Number(*n)),
            Some(Meaning::UnknownConstant) => put_part(out, Part::Unknown(Unknown::Number)),
            Some(Meaning::Equ(equated)) => take_equ(out, name, equated, names),
            Some(Meaning::Faulty) => put_part(out, Part::Unknown(Unknown::Anything)),
            None => unreachable!(),
        },
    }
}

/// Appends an item of a source to reduced items.
fn take_item<'a>(out: &mut Parts<'a>, item: &Item<Term>, names: &'a Names) -> Result<(), ExprFault>
    requires known { is_known names.now (source_item item.now) ≡ true }
    requires counted { AreCounted names.now }
    requires operands { arity (source_item item.now) ≤ length out.old }
    requires room { length out.old + item_size names.now (source_item item.now) ≤ MOST_ITEMS }
    ensures most { IfOk result (λ _. length out.new ≤ length out.old + item_size names.now (source_item item.now)) }
    ensures folds { (before : List (Expression Part)) → out.old ≡ spread before → arity (source_item item.now) ≤ length before →
        Folds (fold_all names.now (items_for names.now (source_item item.now)) before) result out.new }
{
    match item {
        Item::Leaf(term) => take_term(out, term, names),
        Item::Unary(op) => fold(out, Item::Unary(*op), names),
        Item::Binary(op) => fold(out, Item::Binary(*op), names),
    }
}

/// The items of an expression with its names replaced, and with each fixed part as its number, or as one part if the number is not
/// known.
pub(crate) fn reduce<'a>(parsed: &Tree, names: &'a Names) -> Result<Parts<'a>, ExprFault>
    requires { AllPass (is_known names.now) parsed.now }
    ensures { IsReduced names.now (source_tree parsed.now) result }
{
    // Called for its clause: what a name stands for has no more items than terms and operators.
    names.counted();
    let mut out = Parts::new();
    let mut size = 0;
    for item in parsed.items() {
        size += usize::from(item_size(item, names));
        if size > MOST_ITEMS {
            return Err(ExprFault::TooLarge);
        }
        take_item(&mut out, item, names)?;
    }
    Ok(out)
}
