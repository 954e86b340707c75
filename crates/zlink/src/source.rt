//! The sources that are built.

/// A source and its name. The first 255 bytes of the name are the name of its module.
#[derive(Clone, Copy, Debug)]
pub struct Source<'a> {
    pub name: &'a [u8],
    pub text: &'a [u8],
}
