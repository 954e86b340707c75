//! Collects what a module has besides its statements: labels, public labels, externals and an entry.

ghost use Rattle.std.specs.Prelude.{◌≡◌, ◌≤◌, ◌++◌, ◌||◌, [], ℕ, List, IfOk, OnOk, length, map};
ghost use Rattle.std.specs.List.{cons_option, list_any};
ghost use Rattle.std.specs.Option.{option_map};
ghost use Rattle.std.specs.Str.{bytes_eq};
ghost use Rattle.common.specs.declared.limits.TheConstants.{MOST_NAMES};
ghost use Rattle.asm_spell.specs.Line.{line_of, listed_names};
ghost use Rattle.asm_names.specs.Layout.{layout_of};
ghost use Rattle.asm_names.specs.Meanings.{external_in, externals};
ghost use Rattle.asm_names.specs.Lines.{lines_of};
ghost use Rattle.zmo_object.specs.Modules.{label_of};
ghost use Rattle.asm_module.specs.Holding.{begins, entry, entry_name, is_origin_line, label_in, labels, listed, publics};

use crate::name_set::NameSet;
use asm_names::{Kind, Layout, NameTable, SourceLine};
use asm_spell::{Body, KeptName, Line};
use common::{KeyMixer, NameKey};
use std::alloc::{AllocError, Global};
use zmo_object::Label;

/// Answers the label of this name, if the name is a label.
fn label_in(
    alloc: Global,
    layout: &Layout,
    name: &[u8],
    kind: Kind,
) -> Result<Option<Label>, AllocError>
    ensures { IfOk result (λ one. option_map label_of one ≡ label_in (layout_of layout.now) (name.now, kind)) }
{
    match kind {
        Kind::Label(line) => Ok(Some(Label {
            statement: layout.next_at(line),
            name: name.to_vec(alloc)?,
        })),
        Kind::External | Kind::Equ(_) => Ok(None),
    }
}

/// Appends an item, if there is one.
fn put<T: Drop>(items: &mut Vec<T>, one: Option<T>) -> Result<(), AllocError>
    ensures { OnOk result (items.new.items ≡ items.old.items ++ cons_option one []) }
{
    if let Some(item) = one {
        items.push(item)?;
    }
    Ok(())
}

/// Answers the labels, in the order in which they are defined.
pub fn labels_of(
    alloc: Global,
    table: &NameTable,
    layout: &Layout,
) -> Result<Vec<Label>, AllocError>
    ensures { IfOk result (λ all. map label_of all.items ≡ labels (layout_of layout.now) table.now) }
{
    let mut labels = Vec::with_capacity(alloc, table.len())?;
    for at in 0..table.len() {
        if let Some((name, kind)) = table.get(at) {
            let one = label_in(alloc, layout, name, kind)?;
            put(&mut labels, one)?;
        }
    }
    Ok(labels)
}

/// Answers the external of this name, if the name is an external.
fn external_in(alloc: Global, name: &[u8], kind: Kind) -> Result<Option<Vec<u8>>, AllocError>
    ensures { IfOk result (λ one. option_map (λ name. name.items) one ≡ external_in (name.now, kind)) }
{
    match kind {
        Kind::External => Ok(Some(name.to_vec(alloc)?)),
        Kind::Label(_) | Kind::Equ(_) => Ok(None),
    }
}

/// Answers the externals, in the order in which they are declared.
pub fn externals_of(alloc: Global, table: &NameTable) -> Result<Vec<Vec<u8>>, AllocError>
    ensures { IfOk result (λ all. map (λ name. name.items) all.items ≡ externals table.now) }
{
    let mut externals = Vec::new(alloc);
    for at in 0..table.len() {
        if let Some((name, kind)) = table.get(at) {
            let one = external_in(alloc, name, kind)?;
            put(&mut externals, one)?;
        }
    }
    Ok(externals)
}

fn is_origin(line: &Line) -> bool
    ensures { result ≡ is_origin_line (line_of line.now) }
{
    matches!(
        line,
        Line::Statement {
            label: _,
            body: Some(Body::Origin(_)),
        }
    )
}

/// Whether one of the lines is an ORG.
pub fn begins(lines: &[SourceLine]) -> bool
    ensures { result ≡ begins (lines_of lines.now) }
{
    lines.iter().any(|line| is_origin(&line.line))
}

/// Mixes the names that a PUBLIC line lists into the key.
fn mix(mixer: &mut KeyMixer, line: &Line) {
    if let Line::Statement {
        label: _,
        body: Some(Body::Public(names)),
    } = line
    {
        for name in names {
            mixer.mix(name);
        }
    }
}

/// Answers the key with which the names in PUBLIC lines are hashed. These names need not be defined anywhere.
fn key_of(lines: &[SourceLine]) -> NameKey {
    let mut mixer = KeyMixer::new();
    for line in lines {
        mix(&mut mixer, &line.line);
    }
    mixer.key()
}

/// Adds the names that a PUBLIC line lists.
fn list_names<'a>(names: &'a [KeptName], listed: &mut NameSet<'a>) -> Result<(), AllocError>
    ensures { OnOk result ((name : List ℕ) → list_any (bytes_eq name) listed.new ≡ (list_any (bytes_eq name) listed.old || list_any (bytes_eq name) (listed_names names.now))) }
{
    for name in names {
        listed.add(name)?;
    }
    Ok(())
}

/// Answers the names that PUBLIC lines list.
fn listed_by<'a>(alloc: Global, lines: &'a [SourceLine]) -> Result<NameSet<'a>, AllocError>
    ensures { IfOk result (λ all. (name : List ℕ) → list_any (bytes_eq name) all ≡ list_any (bytes_eq name) (listed (lines_of lines.now))) }
{
    let mut all = NameSet::new(alloc, key_of(lines));
    for line in lines {
        if let Line::Statement {
            label: _,
            body: Some(Body::Public(names)),
        } = &line.line
        {
            list_names(names, &mut all)?;
        }
    }
    Ok(all)
}

/// Answers the numbers of the labels that PUBLIC lines list, ascending, each once.
pub fn publics_of(
    alloc: Global,
    labels: &[Label],
    lines: &[SourceLine],
) -> Result<Vec<u16>, AllocError>
    requires { length labels.now ≤ MOST_NAMES }
    ensures { IfOk result (λ all. all.items ≡ publics (map label_of labels.now) (listed (lines_of lines.now))) }
{
    let listed = listed_by(alloc, lines)?;
    let mut publics = Vec::new(alloc);
    for (number, label) in labels.iter().enumerate() {
        if listed.has(&label.name) {
            publics.push(number as u16)?;
        }
    }
    Ok(publics)
}

/// Answers the name that END has.
fn entry_name(lines: &[SourceLine]) -> Option<&[u8]>
    ensures { option_map (λ name. name.now) result ≡ entry_name (lines_of lines.now) }
{
    for line in lines {
        if let Line::Statement {
            label: _,
            body: Some(Body::End(Some(name))),
        } = &line.line
        {
            return Some(name);
        }
    }
    None
}

/// Answers the number of the label that END names.
pub fn entry_of(labels: &[Label], lines: &[SourceLine]) -> Option<u16>
    requires { length labels.now ≤ MOST_NAMES }
    ensures { result ≡ entry (map label_of labels.now) (lines_of lines.now) }
{
    let name = entry_name(lines)?;
    let number = labels
        .iter()
        .position(|label| name == label.name.as_slice())?;
    Some(number as u16)
}
