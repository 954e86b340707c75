//! Judging one EQU line: what its name stands for, or its error.

ghost use Rattle.std.specs.Prelude.{◌≡◌, true, false, IfOk, Some};
ghost use Rattle.std.specs.List.{AllPass, list_all};
ghost use Rattle.asm_parse.specs.Source.{source_item};
ghost use Rattle.asm_expr.specs.Names.{IsCounted};
ghost use Rattle.asm_expr.specs.Settling.{is_known};
ghost use Rattle.asm_expr.specs.declared.meaning.Meaning.{Meaning};
ghost use Rattle.asm_names.specs.Private.Judged.{is_named, judged};

use crate::equ_fault::EquFault;
use crate::table::NameTable;
use asm_expr::{ExprFault, Item, Meaning, Names, Term, TermView, Tree, equate};
use std::alloc::{AllocError, Global};

/// Whether an item of an expression is a defined name, or no name at all.
fn is_named(names: &NameTable, item: &Item<Term>) -> bool
    ensures { result ≡ is_named names.now (source_item item.now) }
{
    match item.view() {
        Item::Leaf(TermView::Name(name)) => names.kind(name).is_some(),
        _ => true,
    }
}

fn all_named(names: &NameTable, items: &[Item<Term>]) -> bool
    ensures { result ≡ list_all (λ i. is_named names.now (source_item i)) items.now }
{
    items.iter().all(|item| is_named(names, item))
}

/// Whether each name in an expression is defined.
fn are_named(names: &NameTable, value: &Tree) -> bool
    ensures { result ≡ list_all (is_named names.now) value.now }
{
    all_named(names, value.items())
}

/// What an EQU defines its name to stand for, and the first error of its line.
#[derive(Debug, Drop)]
pub(crate) struct Judged {
    pub(crate) meaning: Meaning,
    pub(crate) fault: Option<EquFault>,
}

/// The judgement of a line with this error: its name may stand for anything.
fn refused(why: EquFault) -> Judged
    ensures meaning { result.meaning ≡ Meaning.Faulty }
    ensures fault { result.fault ≡ Some why }
{
    Judged {
        meaning: Meaning::Faulty,
        fault: Some(why),
    }
}

/// Judges an EQU line, given what the names in its expression stand for.
pub(crate) fn judge(
    alloc: Global,
    value: &Tree,
    table: &NameTable,
    on_circle: bool,
    names: &Names,
) -> Result<Judged, AllocError>
    requires { list_all (is_named table.now) value.now ≡ true → on_circle ≡ false → AllPass (is_known names.now) value.now }
    ensures meaning { IfOk result (λ j. j.meaning ≡ (judged table.now on_circle names.now value.now).0) }
    ensures fault { IfOk result (λ j. j.fault ≡ (judged table.now on_circle names.now value.now).1) }
    ensures counted { IfOk result (λ j. IsCounted j.meaning) }
{
    if !are_named(table, value) {
        return Ok(refused(EquFault::Undefined));
    }
    if on_circle {
        return Ok(refused(EquFault::EquCircle));
    }
    match equate(alloc, value, names) {
        Ok(meaning) => Ok(Judged {
            meaning,
            fault: None,
        }),
        Err(ExprFault::NoMemory) => Err(AllocError),
        Err(why) => Ok(refused(EquFault::Expr(why))),
    }
}
