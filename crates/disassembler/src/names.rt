//! The labels of the text: where they are, and their names.

use crate::code::{Kind, instr_at, target_of};
use crate::labels::{Label, is_upper_digit};
use crate::place::{address_of, offset_of};
use asm_parse::is_name;
use std::alloc::{AllocError, Global};
use std::collections::BTreeMap;
use std::collections::btree_map::Entry;

/// The longest name that the text uses: a line with it has at most 255 bytes.
const LONGEST_NAME: usize = 200;

/// The name of a place that the labels file names, and the offset of its label.
#[derive(Drop)]
pub(crate) struct Name {
    offset: usize,
    pub(crate) text: Vec<u8>,
}

/// The labels of the text.
#[derive(Drop)]
pub(crate) struct Names {
    /// For each offset, and for the end, whether it has a label.
    labelled: Vec<bool>,
    /// The names of the places that the labels file names, by their offsets. Other labels are named by their addresses.
    names: Vec<Name>,
}

/// Whether a name has the form of those that the text has for an address: `L0105`.
fn is_made(name: &[u8]) -> bool {
    match name {
        [b'L', a, b, c, d] => {
            is_upper_digit(*a) && is_upper_digit(*b) && is_upper_digit(*c) && is_upper_digit(*d)
        }
        _ => false,
    }
}

/// Whether the text can use a name, given in upper case. Names that begin with `??` are those that LOCAL makes, which tell
/// less than an address. A name EQU or MACRO would be read as a definition where a jump names it.
fn is_usable(name: &[u8]) -> bool {
    name.len() <= LONGEST_NAME
        && is_name(name)
        && !is_made(name)
        && !name.starts_with(b"??")
        && !matches!(name, b"EQU" | b"MACRO")
}

/// Answers the offset of a label, if an item of the text can begin there. The end of the program is such a place too.
fn label_offset(kinds: &[Kind], address: u16) -> Option<usize> {
    let offset = offset_of(address)?;
    match kinds.get(offset) {
        Some(Kind::Inside) => None,
        Some(_) => Some(offset),
        None if offset == kinds.len() => Some(offset),
        None => None,
    }
}

/// Answers the usable names with the offsets of their labels, or None in place of the offset if a name is given twice.
fn usable_names(
    alloc: Global,
    kinds: &[Kind],
    labels: &[Label<'_>],
) -> Result<BTreeMap<Vec<u8>, Option<usize>>, AllocError> {
    let mut usable = BTreeMap::new(alloc);
    for label in labels {
        let name = label.name.to_ascii_uppercase(alloc)?;
        if !is_usable(&name) {
            continue;
        }
        match usable.entry(name)? {
            Entry::Occupied(mut entry) => *entry.get_mut() = None,
            Entry::Vacant(entry) => {
                entry.insert(label_offset(kinds, label.address));
            }
        }
    }
    Ok(usable)
}

/// Answers the names of the labels, by their offsets.
fn names_of(alloc: Global, kinds: &[Kind], labels: &[Label<'_>]) -> Result<Vec<Name>, AllocError> {
    let mut names = Vec::new(alloc);
    for (text, place) in usable_names(alloc, kinds, labels)? {
        if let Some(offset) = place {
            names.push(Name { offset, text })?;
        }
    }
    names.sort_by_key(|name| name.offset)?;
    Ok(names)
}

/// The name that the text gives an address for which it has no other one.
pub(crate) fn made_name(alloc: Global, address: u16) -> Result<Vec<u8>, AllocError> {
    let name = format!(in alloc; "L{address:04X}")?;
    Vec::from_slice(alloc, name.as_bytes())
}

/// Answers for each offset, and for the end, whether it has a name.
fn named_offsets(alloc: Global, kinds: &[Kind], names: &[Name]) -> Result<Vec<bool>, AllocError> {
    let mut named = vec![in alloc; false; kinds.len().saturating_add(1)]?;
    for name in names {
        set(&mut named, name.offset);
    }
    Ok(named)
}

/// Adds a name made of its address for each place that has a name in the labels file, but none that the text can use. Without a label, a
/// number would stand for the place, and whoever makes a text before it longer would not see that the number has to change.
fn with_all_places(
    alloc: Global,
    kinds: &[Kind],
    labels: &[Label<'_>],
    given: Vec<Name>,
) -> Result<Vec<Name>, AllocError> {
    let mut named = named_offsets(alloc, kinds, &given)?;
    let mut names = given;
    for label in labels {
        let Some(offset) = label_offset(kinds, label.address) else {
            continue;
        };
        if named.get(offset) == Some(&false) {
            set(&mut named, offset);
            let text = made_name(alloc, label.address)?;
            names.push(Name { offset, text })?;
        }
    }
    names.sort_by_key(|name| name.offset)?;
    Ok(names)
}

/// Notes that an offset has a label.
fn set(labelled: &mut [bool], offset: usize) {
    if let Some(own) = labelled.get_mut(offset) {
        *own = true;
    }
}

/// Answers for each offset, and for the end, whether a jump or a call leads there. None leads into an instruction, since that cannot have a
/// label.
fn targets(alloc: Global, program: &[u8], kinds: &[Kind]) -> Result<Vec<bool>, AllocError> {
    let mut labelled = vec![in alloc; false; kinds.len().saturating_add(1)]?;
    for (at, kind) in kinds.iter().enumerate() {
        if *kind != Kind::First {
            continue;
        }
        let target = instr_at(program, at).and_then(|found| target_of(found, kinds.len()));
        if let Some(offset) = target {
            if label_offset(kinds, address_of(offset)).is_some() {
                set(&mut labelled, offset);
            }
        }
    }
    Ok(labelled)
}

impl Names {
    /// The labels of a program whose code was found.
    pub(crate) fn new(
        alloc: Global,
        program: &[u8],
        kinds: &[Kind],
        labels: &[Label<'_>],
        entries: &[usize],
    ) -> Result<Names, AllocError> {
        let mut labelled = targets(alloc, program, kinds)?;
        for entry in entries {
            if label_offset(kinds, address_of(*entry)).is_some() {
                set(&mut labelled, *entry);
            }
        }
        let given = names_of(alloc, kinds, labels)?;
        let names = with_all_places(alloc, kinds, labels, given)?;
        for name in &names {
            set(&mut labelled, name.offset);
        }
        Ok(Names { labelled, names })
    }

    /// Takes away the labels from an offset on.
    pub(crate) fn cut(&mut self, offset: usize) {
        self.labelled.truncate(offset);
    }

    /// Whether an offset has a label.
    pub(crate) fn is_labelled(&self, offset: usize) -> bool {
        matches!(self.labelled.get(offset), Some(true))
    }

    /// Answers the first name of an offset that the labels file names.
    pub(crate) fn first_at(&self, offset: usize) -> Option<&Name> {
        let from = self.names.partition_point(|name| name.offset < offset);
        self.names.get(from).filter(|name| name.offset == offset)
    }

    /// Answers the names of an offset that the labels file names.
    pub(crate) fn at(&self, offset: usize) -> &[Name] {
        let from = self.names.partition_point(|name| name.offset < offset);
        let rest = self.names.get(from..).unwrap_or(&[]);
        let count = rest.iter().take_while(|name| name.offset == offset).count();
        rest.get(..count).unwrap_or(&[])
    }
}
