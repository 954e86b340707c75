//! A set of names.

ghost use Rattle.std.specs.Prelude.{◌≡◌, ◌||◌, [], ℕ, List, OnOk};
ghost use Rattle.std.specs.List.{list_any};
ghost use Rattle.std.specs.Str.{bytes_eq};

use common::NameKey;
use indexmap::IndexSet;
use std::alloc::{AllocError, Global};
use std::marker::Model;

/// A set of names, in which each is looked up by its hash.
#[derive(Drop)]
pub struct NameSet<'a> {
    set: IndexSet<&'a [u8], NameKey>,
}

impl<'a> Model for NameSet<'a> {
    ghost use Rattle.std.specs.Prelude.{List, ℕ, map};

    ghost Value = { List (List ℕ) };

    ghost view = { λ n. map (λ k. k.now) n.set.keys };
}

impl<'a> NameSet<'a> {
    /// Makes an empty set, which hashes names with `key`.
    pub(crate) fn new(alloc: Global, key: NameKey) -> NameSet<'a>
        ensures { result ≡ [] }
    {
        NameSet {
            set: IndexSet::with_hasher(alloc, key),
        }
    }

    /// Adds a name.
    pub(crate) fn add(&mut self, name: &'a [u8]) -> Result<(), AllocError>
        ensures { OnOk result ((other : List ℕ) → list_any (bytes_eq other) self.new ≡ (list_any (bytes_eq other) self.old || bytes_eq other name.now)) }
    {
        self.set.insert(name)?;
        Ok(())
    }

    /// Whether a name is in the set.
    pub(crate) fn has(&self, name: &[u8]) -> bool
        ensures { result ≡ list_any (bytes_eq name.now) self.now }
    {
        self.set.contains(name)
    }
}
