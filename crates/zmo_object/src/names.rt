//! The names of labels and externals read so far.

ghost use Rattle.std.specs.Prelude.{◌≡◌, ◌++◌, ◌∷◌, [], IfOk, not, true};
ghost use Rattle.std.specs.List.{list_any};
ghost use Rattle.std.specs.Str.{bytes_eq};

use common::NameKey;
use indexmap::IndexSet;
use std::alloc::{AllocError, Global};
use std::marker::Model;

/// The names read so far, in order.
#[derive(Drop)]
pub(crate) struct Names<'a> {
    set: IndexSet<&'a [u8], NameKey>,
}

impl<'a> Model for Names<'a> {
    ghost use Rattle.std.specs.Prelude.{List, ℕ, map};

    ghost Value = { List (List ℕ) };

    ghost view = { λ n. map (λ k. k.now) n.set.keys };
}

impl<'a> Names<'a> {
    /// Makes an empty set with room for `count` names, which it hashes with `key`.
    pub(crate) fn with_capacity(
        alloc: Global,
        count: usize,
        key: NameKey,
    ) -> Result<Names<'a>, AllocError>
        ensures { IfOk result (λ names. names ≡ []) }
    {
        Ok(Names {
            set: IndexSet::with_capacity_and_hasher(alloc, count, key)?,
        })
    }

    /// Adds a name, and answers whether it was not there before.
    pub(crate) fn add(&mut self, name: &'a [u8]) -> Result<bool, AllocError>
        ensures new { IfOk result (λ is_new. is_new ≡ not (list_any (bytes_eq name.now) self.old)) }
        ensures added { IfOk result (λ is_new. is_new ≡ true → self.new ≡ self.old ++ name.now ∷ []) }
    {
        Ok(self.set.insert(name)?)
    }
}
