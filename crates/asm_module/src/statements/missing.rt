//! Looks for names that are defined nowhere, and for names that are not labels.

ghost use Rattle.std.specs.Prelude.{◌≡◌, option_copied};
ghost use Rattle.std.specs.List.{list_any};
ghost use Rattle.asm_parse.specs.Source.{source_item};
ghost use Rattle.asm_spell.specs.Line.{body_of, value_of};
ghost use Rattle.asm_module.specs.Module.Faults.{passed_on, used};
ghost use Rattle.asm_module.specs.Private.Missing.{fill_misses, is_missing, is_no_label, item_misses, tree_misses, value_misses};

use asm_expr::{Item, Term, TermView, Tree};
use asm_names::{Kind, NameTable};
use asm_spell::{Body, KeptName, Value};
use z80_form::Field;

/// Whether a name is defined nowhere.
fn is_missing(table: &NameTable, name: &[u8]) -> bool
    ensures { result ≡ is_missing table.now name.now }
{
    table.kind(name).is_none()
}

/// Whether one of the names is defined nowhere.
fn names_miss(table: &NameTable, names: &[KeptName]) -> bool
    ensures { result ≡ list_any (λ name. is_missing table.now name.items) names.now }
{
    names.iter().any(|name| is_missing(table, name))
}

/// Whether an item of an expression is a name that is defined nowhere.
fn item_misses(table: &NameTable, item: &Item<Term>) -> bool
    ensures { result ≡ item_misses table.now (source_item item.now) }
{
    match item.view() {
        Item::Leaf(TermView::Name(name)) => is_missing(table, name),
        _ => false,
    }
}

fn items_miss(table: &NameTable, items: &[Item<Term>]) -> bool
    ensures { result ≡ list_any (λ i. item_misses table.now (source_item i)) items.now }
{
    items.iter().any(|item| item_misses(table, item))
}

/// Whether an expression has a name that is defined nowhere.
fn tree_misses(table: &NameTable, tree: &Tree) -> bool
    ensures { result ≡ tree_misses table.now tree.now }
{
    items_miss(table, tree.items())
}

fn numbers_miss(table: &NameTable, numbers: &[(Field, Tree)]) -> bool
    ensures { result ≡ list_any (λ n. tree_misses table.now n.1) numbers.now }
{
    numbers.iter().any(|number| tree_misses(table, &number.1))
}

fn value_misses(table: &NameTable, value: &Value) -> bool
    ensures { result ≡ value_misses table.now (value_of value.now) }
{
    match value {
        Value::Text(_) => false,
        Value::Byte(tree) => tree_misses(table, tree),
    }
}

fn values_miss(table: &NameTable, values: &[Value]) -> bool
    ensures { result ≡ list_any (λ v. value_misses table.now (value_of v)) values.now }
{
    values.iter().any(|value| value_misses(table, value))
}

fn fields_miss(table: &NameTable, fields: &[Tree]) -> bool
    ensures { result ≡ list_any (tree_misses table.now) fields.now }
{
    fields.iter().any(|tree| tree_misses(table, tree))
}

fn fill_misses(table: &NameTable, fill: Option<&Tree>) -> bool
    ensures { result ≡ fill_misses table.now (option_copied fill.entry) }
{
    match fill {
        Some(tree) => tree_misses(table, tree),
        None => false,
    }
}

/// Whether a statement and its operands use a name that is defined nowhere.
pub(crate) fn is_undefined(table: &NameTable, body: &Body) -> bool
    ensures { result ≡ list_any (is_missing table.now) (used (body_of body.now)) }
{
    match body {
        Body::Code { instr: _, numbers } => numbers_miss(table, numbers.as_slice()),
        Body::Jump {
            condition: _,
            target,
        } => is_missing(table, target),
        Body::Short { branch: _, target } => is_missing(table, target),
        Body::Bytes(values) => values_miss(table, values),
        Body::Words(fields) => fields_miss(table, fields),
        Body::Space { size, fill } => {
            tree_misses(table, size) || fill_misses(table, fill.as_ref())
        }
        Body::Public(names) => names_miss(table, names),
        Body::Origin(tree) => tree_misses(table, tree),
        Body::End(Some(entry)) => is_missing(table, entry),
        Body::End(None) | Body::External(_) | Body::Z80 => false,
    }
}

/// Whether a name is not a label.
fn is_no_label(table: &NameTable, name: &[u8]) -> bool
    ensures { result ≡ is_no_label table.now name.now }
{
    !matches!(table.kind(name), Some(Kind::Label(_)))
}

fn one_is_no_label(table: &NameTable, names: &[KeptName]) -> bool
    ensures { result ≡ list_any (λ name. is_no_label table.now name.items) names.now }
{
    names.iter().any(|name| is_no_label(table, name))
}

/// Whether `PUBLIC` or `END` lists a name that is not a label.
pub(crate) fn lacks_label(table: &NameTable, body: &Body) -> bool
    ensures { result ≡ list_any (is_no_label table.now) (passed_on (body_of body.now)) }
{
    match body {
        Body::Public(names) => one_is_no_label(table, names),
        Body::End(Some(entry)) => is_no_label(table, entry),
        _ => false,
    }
}
