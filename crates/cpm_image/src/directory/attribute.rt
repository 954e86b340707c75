//! Attributes of files.

ghost use Rattle.std.specs.Prelude.{◌≡◌, ◌<◌};
ghost use Rattle.cpm_image.specs.Directory.Entries.{attribute_byte};

/// An attribute of a file: the high bit of one byte of its type, in each of its directory entries.
#[derive(Clone, Copy, Debug, PartialEq, Eq)]
pub enum Attribute {
    /// The type's first byte. The file cannot be written, erased or renamed.
    ReadOnly,
    /// The type's second byte. DIR does not show the file.
    System,
}

/// The number of the byte of a name that has the attribute.
pub(crate) fn byte_of(attribute: Attribute) -> usize
    ensures byte { result ≡ attribute_byte attribute }
    ensures within { result < 11 }
{
    match attribute {
        Attribute::ReadOnly => 8,
        Attribute::System => 9,
    }
}
