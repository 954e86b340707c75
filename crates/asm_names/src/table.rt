//! A table of the names of a source.

ghost use Rattle.std.specs.Prelude.{◌≡◌, List, [], ◌∷◌, ◌++◌, ℕ, Option, None, OnOk, length, map, option_copied, slice_get, Vec};
ghost use Rattle.std.specs.Option.{option_map};
ghost use Rattle.asm_spell.specs.Line.{body_of, line_of, listed_names};
ghost use Rattle.asm_names.specs.declared.kind.Kind.{Kind};
ghost use Rattle.asm_names.specs.Names.{Names, declared, defines, kind_of_name, label_definition};
ghost use Rattle.asm_names.specs.Faults.{TakesUp};
ghost use Rattle.asm_names.specs.Private.Steps.{externals};

use crate::fault::NameFault;
use crate::kind::Kind;
use asm_spell::{Body, KeptName, Line};
use common::NameKey;
use indexmap::IndexMap;
use std::alloc::{AllocError, Global};
use std::marker::Model;

/// The names of a source, in upper case, and what each is, in the order in which they are first defined.
#[derive(Debug, Drop)]
pub struct NameTable {
    alloc: Global,
    kinds: IndexMap<Vec<u8>, Kind, NameKey>,
}

impl Model for NameTable {
    ghost use Rattle.asm_expr.specs.Private.Entries.{named};
    ghost use Rattle.asm_names.specs.Names.{Names};

    ghost Value = { Names };

    ghost view = { λ t. named t.kinds.entries };
}

impl NameTable {
    /// An empty table whose names will be looked up by this key.
    pub fn new(alloc: Global, key: NameKey) -> NameTable
        ensures { result ≡ [] }
    {
        NameTable {
            alloc,
            kinds: IndexMap::with_hasher(alloc, key),
        }
    }

    /// The key of this table. Other tables of the same names may use it too.
    pub fn key(&self) -> NameKey {
        *self.kinds.hasher()
    }

    /// How many names there are.
    pub fn len(&self) -> usize
        ensures { result ≡ length self.now }
    {
        self.kinds.len()
    }

    /// What a name is, or None if it is not defined. The name is in upper case.
    pub fn kind(&self, name: &[u8]) -> Option<Kind>
        ensures { result ≡ kind_of_name self.now name.now }
    {
        self.kinds.get(name).copied()
    }

    /// The name with this index in the order of first definitions, in upper case, and what it is; None if there are fewer names.
    pub fn get(&self, index: usize) -> Option<(&[u8], Kind)>
        ensures { option_map (λ d. (d.0.now, d.1)) result ≡ slice_get self.now index }
    {
        let (name, kind) = self.kinds.get_index(index)?;
        Some((name, *kind))
    }

    /// Adds a name that is not in the table yet.
    fn insert(&mut self, name: &[u8], kind: Kind) -> Result<(), AllocError>
        requires { kind_of_name self.old name.now ≡ None }
        ensures { OnOk result (self.new ≡ self.old ++ (name.now, kind) ∷ []) }
    {
        self.kinds.insert(name.to_vec(self.alloc)?, kind)?;
        Ok(())
    }

    /// Adds a name, and what it is. An external that is in the table already may be declared again; any other name that is there is
    /// an error.
    fn add(&mut self, name: &[u8], kind: Kind) -> Result<(), NameFault>
        ensures { TakesUp self.old ((name.now, kind) ∷ []) result self.new }
    {
        match self.kind(name) {
            None => {
                self.insert(name, kind)?;
                Ok(())
            }
            Some(Kind::External) if kind == Kind::External => Ok(()),
            Some(_) => Err(NameFault::Duplicate),
        }
    }

    /// Adds the names of an EXTRN.
    fn declare(&mut self, names: &[KeptName]) -> Result<(), NameFault>
        ensures { TakesUp self.old (externals (listed_names names.now)) result self.new }
    {
        for name in names {
            self.add(name, Kind::External)?;
        }
        Ok(())
    }

    /// Adds the label of line `at`, if it has one.
    fn label(&mut self, at: usize, label: Option<&Vec<u8>>) -> Result<(), NameFault>
        ensures { TakesUp self.old (label_definition at (option_map (λ name. name.items) (option_copied label.entry))) result self.new }
    {
        match label {
            Some(name) => self.add(name, Kind::Label(at)),
            None => Ok(()),
        }
    }

    /// Adds the names that line `at` defines.
    ///
    /// # Errors
    ///
    /// [`NameFault::Duplicate`] if one of them is in the table already, or twice in the line, and is not an external in both. The names
    /// before it may be in the table then. [`NameFault::NoMemory`] if memory ran out.
    pub fn define(&mut self, at: usize, line: &Line) -> Result<(), NameFault>
        ensures { TakesUp self.old (defines at (line_of line.now)) result self.new }
    {
        match line {
            Line::Equ { name, .. } => self.add(name, Kind::Equ(at)),
            Line::Statement { label, body } => {
                self.label(at, label.as_ref())?;
                match body {
                    Some(Body::External(names)) => self.declare(names),
                    _ => Ok(()),
                }
            }
        }
    }
}
