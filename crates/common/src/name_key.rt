//! A key for tables of names.
//!
//! A hash table with a fixed hash function is slow if somebody chooses names that all go to one slot. So each table has a key of
//! its own, which depends on all names that may be in it. Whoever changes a name changes the key, and with it the slot of every
//! name. What a table answers does not depend on its key.

ghost use Rattle.std.specs.Prelude.{◌≡◌, map};
ghost use Rattle.std.specs.List.{fold};
ghost use Rattle.common.specs.Keys.{hashed, keyed, nothing_hashed};

use std::hash::{BuildHasher, DefaultHasher, FoldHasher, Hasher};

/// The key of a table: the hasher of each name begins with it.
#[derive(Clone, Copy)]
pub struct NameKey {
    first: FoldHasher,
}

/// A hash of all names or texts that were mixed in: SipHash-1-3 of all their bytes, one after the other.
#[derive(Clone, Copy)]
pub struct KeyMixer {
    mixed: DefaultHasher,
}

impl KeyMixer {
    /// A mixer with nothing mixed in yet.
    pub fn new() -> KeyMixer
        ensures { result.mixed ≡ nothing_hashed }
    {
        KeyMixer {
            mixed: DefaultHasher::new(),
        }
    }

    /// Mixes in a name or a text.
    pub fn mix(&mut self, bytes: &[u8])
        ensures { self.new.mixed ≡ hashed self.old.mixed bytes.now }
    {
        self.mixed.write(bytes);
    }

    /// Mixes in several names.
    pub fn mix_all(&mut self, names: &[Vec<u8>])
        ensures { self.new.mixed ≡ fold hashed self.old.mixed (map (λ name. name.items) names.now) }
    {
        for name in names {
            self.mix(name);
        }
    }

    /// The key that depends on all that was mixed in.
    pub fn key(&self) -> NameKey
        ensures { result.first ≡ keyed self.now.mixed }
    {
        let mut first = FoldHasher::default();
        first.write_u64(self.mixed.finish());
        NameKey { first }
    }
}

impl NameKey {
    /// The key that depends on this text.
    pub fn of(text: &[u8]) -> NameKey
        ensures { result.first ≡ keyed (hashed (nothing_hashed) text.now) }
    {
        let mut mixer = KeyMixer::new();
        mixer.mix(text);
        mixer.key()
    }
}

impl BuildHasher for NameKey {
    type Hasher = FoldHasher;

    ghost build_hasher = { λ k. k.first };

    fn build_hasher(&self) -> FoldHasher {
        self.first
    }
}
