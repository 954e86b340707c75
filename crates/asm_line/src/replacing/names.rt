//! The names of a macro, and the place of each.

ghost use Rattle.std.specs.Prelude.{◌≡◌, ◌<◌, ◌++◌, ◌∷◌, [], IfOk, List, OnOk, length, slice_index_or, ℕ};
ghost use Rattle.asm_line.specs.Replacing.Replaced.{SaySame};
ghost use Rattle.asm_line.specs.Replacing.Views.{names_seen, texts};
ghost use Rattle.asm_line.specs.Private.Places.{placed};

use common::{KeyMixer, NameKey};
use indexmap::IndexMap;
use std::alloc::{AllocError, Global};

/// Which kind of name of a macro it is.
#[derive(Clone, Copy, Debug)]
pub(crate) enum NameKind {
    Parameter,
    Local,
}

/// The position of a name, from 0, among the parameters or among the LOCAL names.
#[derive(Clone, Copy, Debug)]
pub(crate) struct Place {
    pub kind: NameKind,
    pub at: usize,
}

/// Names in upper case, each with its place. If a name occurs twice, the first one counts, and parameters come before LOCAL names.
#[derive(Debug, Drop)]
pub struct Names {
    pub(crate) places: IndexMap<Vec<u8>, Place, NameKey>,
}

/// Adds a name, unless it is there already.
fn add(
    places: &mut IndexMap<Vec<u8>, Place, NameKey>,
    name: Vec<u8>,
    place: Place,
) -> Result<(), AllocError>
    ensures { OnOk result ((f : Place → List ℕ) → SaySame (names_seen f places.new.entries) (names_seen f places.old.entries ++ (name.items, f place) ∷ [])) }
{
    if places.get(name.as_slice()).is_some() {
        return Ok(());
    }
    places.insert(name, place)?;
    Ok(())
}

/// Answers a copy of the name at this index.
fn name_at(names: &[Vec<u8>], at: usize) -> Result<Vec<u8>, AllocError>
    requires { at < length names.now }
    ensures { IfOk result (λ name. name.items ≡ slice_index_or (texts names.now) at []) }
{
    names[at].clone()
}

/// Adds names of one kind.
fn add_all(
    places: &mut IndexMap<Vec<u8>, Place, NameKey>,
    kind: NameKind,
    names: &[Vec<u8>],
) -> Result<(), AllocError>
    ensures { OnOk result ((f : Place → List ℕ) → SaySame (names_seen f places.new.entries) (names_seen f places.old.entries ++ placed f kind 0 (texts names.now))) }
{
    let mut at = 0;
    while at < names.len() {
        let name = name_at(names, at)?;
        add(places, name, Place { kind, at })?;
        at += 1;
    }
    Ok(())
}

impl Names {
    ghost use Rattle.std.specs.Prelude.{◌≡◌, ◌++◌, IfOk, List, ℕ, is_some};
    ghost use Rattle.std.specs.Map.{lookup};
    ghost use Rattle.std.specs.Option.{option_map};
    ghost use Rattle.std.specs.Str.{bytes_eq};
    ghost use Rattle.asm_line.specs.Replacing.Replaced.{SaySame, arguments_of, local_names};
    ghost use Rattle.asm_line.specs.Replacing.Views.{in_call, names_seen, texts};

    /// Collects the names of a macro's parameters and of its LOCAL lines, all in upper case.
    pub fn new(
        alloc: Global,
        parameters: &[Vec<u8>],
        locals: &[Vec<u8>],
    ) -> Result<Names, AllocError>
        ensures { IfOk result (λ names. (some : List (List ℕ)) (counter : ℕ) → SaySame (in_call names some counter) (arguments_of (texts parameters.now) some ++ local_names counter (texts locals.now))) }
    {
        let mut mixer = KeyMixer::new();
        mixer.mix_all(parameters);
        mixer.mix_all(locals);
        let mut places = IndexMap::with_hasher(alloc, mixer.key());
        add_all(&mut places, NameKind::Parameter, parameters)?;
        add_all(&mut places, NameKind::Local, locals)?;
        Ok(Names { places })
    }

    /// Answers the place of a name in upper case.
    pub(crate) fn place_of(&self, name: &[u8]) -> Option<Place>
        ensures { (f : Place → List ℕ) → option_map f result ≡ lookup (bytes_eq name.now) (names_seen f self.now.places.entries) }
    {
        self.places.get(name).copied()
    }

    /// Whether a name in upper case is one of the macro's.
    pub fn has(&self, name: &[u8]) -> bool
        ensures { (some : List (List ℕ)) (counter : ℕ) → result ≡ is_some (lookup (bytes_eq name.now) (in_call self.now some counter)) }
    {
        self.places.get(name).is_some()
    }
}
