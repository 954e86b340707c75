//! The files to which the entries of a directory belong.

use crate::Name;

/// The user and the name of a file. Files are ordered by user and then by name.
#[derive(Clone, Copy, Debug, PartialEq, Eq, PartialOrd, Ord)]
pub(crate) struct File {
    pub user: u8,
    pub name: Name,
}
