//! Finds the warnings about a line as it is written.

ghost use Rattle.std.specs.Prelude.{◌≡◌, ◌++◌, OnOk, map, option_copied};
ghost use Rattle.std.specs.Option.{option_map};
ghost use Rattle.asm_spell.specs.Line.{body_of, line_of, listed_names};
ghost use Rattle.source_warnings.specs.Noted.{noted_on};
ghost use Rattle.source_warnings.specs.Warnings as spec;
ghost use Rattle.source_warnings.specs.Warnings.{each_said, external_says, externals_read, label_read, label_warnings, own_warnings, public_says, publics_read, warning_of};
ghost use Rattle.source_warnings.specs.Private.Known.{Agrees, externals_in, line_seen, publics_in, says};

use crate::first_lines::FirstLines;
use crate::warning::{Kind, SourceWarning};
use asm_macro::ExpandedLine;
use asm_spell::{Body, KeptName, Line};
use std::alloc::{AllocError, Global};

/// A word that lists names.
#[derive(Clone, Copy)]
pub(crate) enum Word {
    Public,
    Extrn,
}

/// What is known of the lines of a source before one of them.
#[derive(Drop)]
pub(crate) struct Before {
    /// The names that the source mentions.
    pub(crate) mentioned: FirstLines,
    /// The names of the PUBLIC lines so far.
    pub(crate) publics: FirstLines,
    /// The names of the EXTRN lines so far.
    pub(crate) externals: FirstLines,
}

/// Appends a warning.
fn put(
    alloc: Global,
    line: &ExpandedLine,
    kind: Kind,
    name: &[u8],
    found: &mut Vec<SourceWarning>,
) -> Result<(), AllocError>
    ensures { OnOk result (map warning_of found.new.items ≡ map warning_of found.old.items ++ spec.warn (line_seen line.now) kind name.now) }
{
    found.push(SourceWarning {
        number: line.number,
        text: line.text.to_vec(alloc)?,
        kind,
        name: name.to_vec(alloc)?,
    })?;
    Ok(())
}

/// Appends the warning about a label, if the source mentions it nowhere.
fn put_label(
    alloc: Global,
    line: &ExpandedLine,
    label: Option<&Vec<u8>>,
    mentioned: &FirstLines,
    found: &mut Vec<SourceWarning>,
) -> Result<(), AllocError>
    ensures { OnOk result (map warning_of found.new.items ≡ map warning_of found.old.items ++ label_warnings mentioned.now (line_seen line.now) (option_map (λ name. name.items) (option_copied label.entry))) }
{
    match label {
        Some(name) => match mentioned.first(name) {
            Some(_) => Ok(()),
            None => put(alloc, line, Kind::UnusedLabel, name, found),
        },
        None => Ok(()),
    }
}

/// Appends the warning about a name of a PUBLIC or an EXTRN, given the line with which an earlier one has it.
fn put_name(
    alloc: Global,
    line: &ExpandedLine,
    word: Word,
    name: &[u8],
    first: Option<u32>,
    mentioned: &FirstLines,
    found: &mut Vec<SourceWarning>,
) -> Result<(), AllocError>
    ensures { OnOk result (map warning_of found.new.items ≡ map warning_of found.old.items ++ says word mentioned.now (line_seen line.now) name.now first) }
{
    match (word, first) {
        (Word::Public, Some(first)) => put(alloc, line, Kind::PublicAgain(first), name, found),
        (Word::Public, None) => Ok(()),
        (Word::Extrn, Some(first)) => put(alloc, line, Kind::ExternalAgain(first), name, found),
        (Word::Extrn, None) => match mentioned.first(name) {
            Some(_) => Ok(()),
            None => put(alloc, line, Kind::UnusedExternal, name, found),
        },
    }
}

/// Appends the warnings about the names of a PUBLIC or an EXTRN, and notes them.
fn put_names(
    alloc: Global,
    line: &ExpandedLine,
    word: Word,
    names: &[KeptName],
    noted: &mut FirstLines,
    mentioned: &FirstLines,
    found: &mut Vec<SourceWarning>,
) -> Result<(), AllocError>
    ensures warnings { OnOk result (map warning_of found.new.items ≡ map warning_of found.old.items
        ++ each_said (says word mentioned.now (line_seen line.now)) line.now.number noted.old (listed_names names.now)) }
    ensures noted { OnOk result (Agrees noted.new (noted.old ++ noted_on line.now.number (listed_names names.now))) }
{
    for name in names {
        let first = noted.first(name);
        put_name(alloc, line, word, name, first, mentioned, found)?;
        noted.note(name, line.number)?;
    }
    Ok(())
}

/// Appends the warnings about the names that a statement lists, and notes them.
fn put_body(
    alloc: Global,
    line: &ExpandedLine,
    body: Option<&Body>,
    before: &mut Before,
    found: &mut Vec<SourceWarning>,
) -> Result<(), AllocError>
    ensures warnings { OnOk result (map warning_of found.new.items ≡ map warning_of found.old.items
        ++ each_said (public_says (line_seen line.now)) line.now.number before.old.publics (publics_in (option_map body_of (option_copied body.entry)))
        ++ each_said (external_says before.old.mentioned (line_seen line.now)) line.now.number before.old.externals (externals_in (option_map body_of (option_copied body.entry)))) }
    ensures mentioned { before.new.mentioned ≡ before.old.mentioned }
    ensures publics { OnOk result (Agrees before.new.publics (before.old.publics ++ noted_on line.now.number (publics_in (option_map body_of (option_copied body.entry))))) }
    ensures externals { OnOk result (Agrees before.new.externals (before.old.externals ++ noted_on line.now.number (externals_in (option_map body_of (option_copied body.entry))))) }
{
    match body {
        Some(Body::Public(names)) => put_names(
            alloc,
            line,
            Word::Public,
            names,
            &mut before.publics,
            &before.mentioned,
            found,
        ),
        Some(Body::External(names)) => put_names(
            alloc,
            line,
            Word::Extrn,
            names,
            &mut before.externals,
            &before.mentioned,
            found,
        ),
        _ => Ok(()),
    }
}

/// Appends the warnings about a line as it is written, and notes the names that it lists.
pub(crate) fn put_own(
    alloc: Global,
    line: &ExpandedLine,
    read: Option<&Line>,
    before: &mut Before,
    found: &mut Vec<SourceWarning>,
) -> Result<(), AllocError>
    ensures warnings { OnOk result (map warning_of found.new.items ≡ map warning_of found.old.items
        ++ own_warnings before.old.mentioned before.old.publics before.old.externals (line_seen line.now) (option_map line_of (option_copied read.entry))) }
    ensures mentioned { before.new.mentioned ≡ before.old.mentioned }
    ensures publics { OnOk result (Agrees before.new.publics (before.old.publics ++ noted_on line.now.number (publics_read (option_map line_of (option_copied read.entry))))) }
    ensures externals { OnOk result (Agrees before.new.externals (before.old.externals ++ noted_on line.now.number (externals_read (option_map line_of (option_copied read.entry))))) }
{
    match read {
        Some(Line::Statement { label, body }) => {
            put_label(alloc, line, label.as_ref(), &before.mentioned, found)?;
            put_body(alloc, line, body.as_ref(), before, found)
        }
        _ => Ok(()),
    }
}
