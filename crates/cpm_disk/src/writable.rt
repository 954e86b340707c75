//! Remembers a file that is not read-only.

ghost use Rattle.std.specs.Prelude.{◌≡◌};
ghost use Rattle.cpm_disk.specs.Private.State.{is_known};

use cpm_image::Name;

/// The user and the name of a file that is not read-only.
#[derive(Clone, Copy)]
pub(crate) struct Writable {
    pub user: u8,
    pub name: Name,
}

/// Whether a file is the one that is known not to be read-only.
pub(crate) fn is_known(known: &Option<Writable>, user: u8, name: &Name) -> bool
    ensures { result ≡ is_known user name.now known.now }
{
    match known {
        Some(file) => file.user == user && file.name == *name,
        None => false,
    }
}
