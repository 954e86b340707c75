//! Reads and writes names, labels and publics.

ghost use Rattle.std.specs.Prelude.{◌≡◌, ◌≤◌, ◌+◌, ◌++◌, ◌∷◌, [], OnOk, IfOk, All, length, map, true};
ghost use Rattle.std.specs.List.{flat_map};
ghost use Rattle.zmo_object.specs.declared.module.TheConstants.{LONGEST_NAME};
ghost use Rattle.zmo_object.specs.Modules.{label_of};
ghost use Rattle.zmo_object.specs.Fields.Field.{FieldGives, many};
ghost use Rattle.zmo_object.specs.Fields.Texts.{with_length, word_bytes};
ghost use Rattle.zmo_object.specs.Texts.{label_text};
ghost use Rattle.zmo_object.specs.Reading.{is_definable, is_new, label_field, lists_at, name_at, public_at, with_label, with_further_name};
ghost use Rattle.zmo_object.specs.Private.{Labelled, Named, counts_of, lists_of};

use crate::Label;
use crate::field::{counted, number};
use crate::field_fault::FieldFault;
use crate::header::Counts;
use crate::names::Names;
use crate::put::{put_counted, put_word};
use crate::room::room;
use asm_parse::is_name;
use common::NameKey;
use std::alloc::{AllocError, Global};

/// The fewest bytes that a label takes: the number of a statement, and a name of one byte with its length.
const LEAST_LABEL: usize = 4;
/// The bytes that a public takes.
const LEAST_PUBLIC: usize = 2;
/// The fewest bytes that an external takes: a name of one byte with its length.
const LEAST_EXTERNAL: usize = 2;

/// The labels, publics and externals of a module.
#[derive(Drop)]
pub(crate) struct Lists {
    pub(crate) labels: Vec<Label>,
    pub(crate) publics: Vec<u16>,
    pub(crate) externals: Vec<Vec<u8>>,
}

/// Appends labels.
pub(crate) fn put_labels(text: &mut Vec<u8>, labels: &[Label]) -> Result<(), AllocError>
    requires { All (λ l. length l.name.items ≤ LONGEST_NAME) labels.now }
    ensures { OnOk result (text.new.items ≡ text.old.items ++ flat_map label_text (map label_of labels.now)) }
{
    for label in labels {
        put_word(text, label.statement)?;
        put_counted(text, &label.name)?;
    }
    Ok(())
}

/// Appends publics.
pub(crate) fn put_publics(text: &mut Vec<u8>, publics: &[u16]) -> Result<(), AllocError>
    ensures { OnOk result (text.new.items ≡ text.old.items ++ flat_map word_bytes publics.now) }
{
    for label in publics {
        put_word(text, *label)?;
    }
    Ok(())
}

/// Appends externals.
pub(crate) fn put_externals(text: &mut Vec<u8>, externals: &[Vec<u8>]) -> Result<(), AllocError>
    requires { All (λ name. length name.items ≤ LONGEST_NAME) externals.now }
    ensures { OnOk result (text.new.items ≡ text.old.items ++ flat_map with_length (map (λ name. name.items) externals.now)) }
{
    for name in externals {
        put_counted(text, name)?;
    }
    Ok(())
}

fn is_definable(name: &[u8]) -> bool
    ensures { result ≡ is_definable name.now }
{
    is_name(name)
}

/// Adds a name if a source can define it and it is not there yet, and answers whether it did.
fn add<'a>(names: &mut Names<'a>, name: &'a [u8]) -> Result<bool, AllocError>
    ensures new { IfOk result (λ found. found ≡ is_new names.old name.now) }
    ensures added { IfOk result (λ found. found ≡ true → names.new ≡ names.old ++ name.now ∷ []) }
{
    if !is_definable(name) {
        return Ok(false);
    }
    names.add(name)
}

/// Reads a name that differs from all names before.
fn name<'a>(names: &mut Names<'a>, bytes: &'a [u8]) -> Result<(&'a [u8], &'a [u8]), FieldFault>
    ensures { Named (λ x. (x.0.now, x.1.now)) names.old result names.new (name_at names.old bytes.now) }
{
    let (name, rest) = counted(bytes)?;
    if !add(names, name)? {
        return Err(FieldFault::BadField(bytes.len()));
    }
    Ok((name, rest))
}

/// Reads a label. Its name differs from all names before, and its statement is one of the module's or the end.
fn label<'a>(
    alloc: Global,
    statements: u16,
    names: &mut Names<'a>,
    bytes: &'a [u8],
) -> Result<(Label, &'a [u8]), FieldFault>
    ensures { Labelled (λ x. (label_of x.0, x.1.now)) names.old result names.new (label_field statements names.old bytes.now) }
{
    let (statement, rest) = number(0, usize::from(statements) + 1, bytes)?;
    let (name, rest) = name(names, rest)?;
    let name = Vec::from_slice(alloc, name)?;
    Ok((Label { statement, name }, rest))
}

/// Reads `count` labels.
fn labels<'a>(
    alloc: Global,
    statements: u16,
    count: u16,
    names: &mut Names<'a>,
    bytes: &'a [u8],
) -> Result<(Vec<Label>, &'a [u8]), FieldFault>
    ensures read { FieldGives (λ x. (map label_of x.0.items, x.1.now)) result (many (label_field statements) with_label names.old count bytes.now) }
    ensures names { IfOk result (λ x. names.new ≡ names.old ++ map (λ l. l.name) (map label_of x.0.items)) }
{
    let mut labels = Vec::with_capacity(alloc, room(count, LEAST_LABEL, bytes))?;
    let mut rest = bytes;
    for _ in 0..count {
        let (next, after) = label(alloc, statements, names, rest)?;
        labels.push(next)?;
        rest = after;
    }
    Ok((labels, rest))
}

/// Reads `count` publics: numbers of labels, below `labels` and ascending.
fn publics<'a>(
    alloc: Global,
    labels: usize,
    count: u16,
    bytes: &'a [u8],
) -> Result<(Vec<u16>, &'a [u8]), FieldFault>
    ensures { FieldGives (λ x. (x.0.items, x.1.now)) result (many (public_at labels) (λ _ p. p + 1) 0 count bytes.now) }
{
    let mut publics = Vec::with_capacity(alloc, room(count, LEAST_PUBLIC, bytes))?;
    let mut rest = bytes;
    let mut least = 0;
    for _ in 0..count {
        let (next, after) = number(least, labels, rest)?;
        least = usize::from(next) + 1;
        publics.push(next)?;
        rest = after;
    }
    Ok((publics, rest))
}

/// Reads `count` externals.
fn externals<'a>(
    alloc: Global,
    count: u16,
    names: &mut Names<'a>,
    bytes: &'a [u8],
) -> Result<(Vec<Vec<u8>>, &'a [u8]), FieldFault>
    ensures { FieldGives (λ x. (map (λ name. name.items) x.0.items, x.1.now)) result (many name_at with_further_name names.old count bytes.now) }
{
    let mut externals = Vec::with_capacity(alloc, room(count, LEAST_EXTERNAL, bytes))?;
    let mut rest = bytes;
    for _ in 0..count {
        let (next, after) = name(names, rest)?;
        let name = Vec::from_slice(alloc, next)?;
        externals.push(name)?;
        rest = after;
    }
    Ok((externals, rest))
}

/// Reads the labels, publics and externals, as many as the header says.
pub(crate) fn read_lists(
    alloc: Global,
    counts: Counts,
    bytes: &[u8],
) -> Result<(Lists, &[u8]), FieldFault>
    ensures { FieldGives (λ x. (lists_of x.0, x.1.now)) result (lists_at (counts_of counts) bytes.now) }
{
    let most = room(counts.labels, LEAST_LABEL, bytes)
        + room(counts.externals, LEAST_EXTERNAL, bytes);
    let mut names = Names::with_capacity(alloc, most, NameKey::of(bytes))?;
    let (labels, rest) = labels(alloc, counts.statements, counts.labels, &mut names, bytes)?;
    let (publics, rest) = publics(alloc, usize::from(counts.labels), counts.publics, rest)?;
    let (externals, rest) = externals(alloc, counts.externals, &mut names, rest)?;
    let lists = Lists {
        labels,
        publics,
        externals,
    };
    Ok((lists, rest))
}
