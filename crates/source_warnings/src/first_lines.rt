//! The first line of each name.

ghost use Rattle.std.specs.Prelude.{◌≡◌, ◌++◌, ◌∷◌, [], None, OnOk};
ghost use Rattle.source_warnings.specs.Noted.{first_noted};
ghost use Rattle.source_warnings.specs.Private.Known.{Agrees};

use common::NameKey;
use indexmap::IndexMap;
use std::alloc::{AllocError, Global};
use std::marker::Model;

/// Names in upper case, each with the number of the first line with which it was noted.
#[derive(Drop)]
pub(crate) struct FirstLines {
    alloc: Global,
    lines: IndexMap<Vec<u8>, u32, NameKey>,
}

impl Model for FirstLines {
    ghost use Rattle.asm_expr.specs.Private.Entries.{named};
    ghost use Rattle.source_warnings.specs.Noted.{Noted};

    ghost Value = { Noted };

    ghost view = { λ f. named f.lines.entries };
}

impl FirstLines {
    /// No names yet. They will be looked up by this key.
    pub(crate) fn new(alloc: Global, key: NameKey) -> FirstLines
        ensures { result ≡ [] }
    {
        FirstLines {
            alloc,
            lines: IndexMap::with_hasher(alloc, key),
        }
    }

    /// The number of the first line with which a name was noted.
    pub(crate) fn first(&self, name: &[u8]) -> Option<u32>
        ensures { result ≡ first_noted self.now name.now }
    {
        self.lines.get(name).copied()
    }

    /// Adds a name that was not noted yet.
    fn insert(&mut self, name: &[u8], number: u32) -> Result<(), AllocError>
        requires { first_noted self.old name.now ≡ None }
        ensures { OnOk result (self.new ≡ self.old ++ (name.now, number) ∷ []) }
    {
        self.lines.insert(name.to_vec(self.alloc)?, number)?;
        Ok(())
    }

    /// Notes a name with the number of a line.
    pub(crate) fn note(&mut self, name: &[u8], number: u32) -> Result<(), AllocError>
        ensures { OnOk result (Agrees self.new (self.old ++ (name.now, number) ∷ [])) }
    {
        match self.first(name) {
            Some(_) => Ok(()),
            None => self.insert(name, number),
        }
    }
}
