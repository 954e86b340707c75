//! Says whether a line defines a name again.

ghost use Rattle.std.specs.Prelude.{◌≡◌, ℕ, None, Some, is_some, option_copied};
ghost use Rattle.std.specs.List.{list_any};
ghost use Rattle.std.specs.Option.{option_map};
ghost use Rattle.asm_spell.specs.Line.{body_of, line_of};
ghost use Rattle.asm_names.specs.Names.{defines, has_clash, kind_of_name};
ghost use Rattle.source_errors.specs.Private.State.{body_clashes, external_clashes, is_other, is_this, label_known};

use asm_names::{Kind, NameTable};
use asm_spell::{Body, KeptName, Line};

/// Whether a name is in the table, and is no external there.
fn is_other(table: &NameTable, name: &[u8]) -> bool
    ensures { result ≡ is_other (kind_of_name table.now name.now) }
{
    match table.kind(name) {
        None | Some(Kind::External) => false,
        Some(Kind::Label(_) | Kind::Equ(_)) => true,
    }
}

/// Whether a name is this label.
fn is_this(label: Option<&Vec<u8>>, name: &[u8]) -> bool
    ensures { result ≡ is_this (option_map (λ label. label.items) (option_copied label.entry)) name.now }
{
    match label {
        Some(label) => name == label.as_slice(),
        None => false,
    }
}

/// Whether an external clashes with a name before it, or with the label of its line.
fn external_clashes(table: &NameTable, label: Option<&Vec<u8>>, name: &[u8]) -> bool
    ensures { result ≡ external_clashes table.now (option_map (λ label. label.items) (option_copied label.entry)) name.now }
{
    is_other(table, name) || is_this(label, name)
}

/// Whether one of these externals does.
fn externals_clash(table: &NameTable, label: Option<&Vec<u8>>, names: &[KeptName]) -> bool
    ensures { result ≡ list_any (λ name. external_clashes table.now (option_map (λ label. label.items) (option_copied label.entry)) name.items) names.now }
{
    names
        .iter()
        .any(|name| external_clashes(table, label, name))
}

/// Whether a statement is an EXTRN that declares a name that clashes.
fn statement_clashes(table: &NameTable, label: Option<&Vec<u8>>, body: &Body) -> bool
    ensures { result ≡ body_clashes table.now (option_map (λ label. label.items) (option_copied label.entry)) (Some (body_of body.now)) }
{
    match body {
        Body::External(names) => externals_clash(table, label, names),
        _ => false,
    }
}

/// Whether a line's statement does, if it has one.
fn body_clashes(table: &NameTable, label: Option<&Vec<u8>>, body: Option<&Body>) -> bool
    ensures { result ≡ body_clashes table.now (option_map (λ label. label.items) (option_copied label.entry)) (option_map body_of (option_copied body.entry)) }
{
    match body {
        Some(body) => statement_clashes(table, label, body),
        None => false,
    }
}

/// Whether a name is in the table.
fn is_known(table: &NameTable, name: &[u8]) -> bool
    ensures { result ≡ is_some (kind_of_name table.now name.now) }
{
    table.kind(name).is_some()
}

/// Whether a line's label is in the table, if it has one.
fn is_label_known(table: &NameTable, label: Option<&Vec<u8>>) -> bool
    ensures { result ≡ label_known table.now (option_map (λ label. label.items) (option_copied label.entry)) }
{
    match label {
        Some(name) => is_known(table, name),
        None => false,
    }
}

/// Whether a line defines a name that is defined already.
pub(crate) fn clashes(table: &NameTable, line: &Line) -> bool
    ensures { (at : ℕ) → result ≡ has_clash table.now (defines at (line_of line.now)) }
{
    match line {
        Line::Equ { name, .. } => is_known(table, name),
        Line::Statement { label, body } => {
            let label = label.as_ref();
            if is_label_known(table, label) {
                return true;
            }
            body_clashes(table, label, body.as_ref())
        }
    }
}

/// The first external that is in the table as something else.
fn repeated_external<'a>(table: &NameTable, names: &'a [KeptName]) -> Option<&'a [u8]> {
    for name in names {
        if is_other(table, name) {
            return Some(name);
        }
    }
    None
}

/// The first name that a line defines and that is in the table already, if there is one.
pub(crate) fn repeated<'a>(table: &NameTable, line: &'a Line) -> Option<&'a [u8]> {
    match line {
        Line::Equ { name, .. } => Some(name),
        Line::Statement { label, body } => match (label, body) {
            (Some(name), _) if is_known(table, name) => Some(name),
            (_, Some(Body::External(names))) => repeated_external(table, names),
            _ => None,
        },
    }
}
