//! Names of files.

use std::marker::Model;

/// The name of a file: eight bytes and three of its type, padded with spaces. Each byte is below 80H. In a contract it is the list of the
/// eleven bytes.
#[derive(Clone, Copy, Debug, PartialEq, Eq, PartialOrd, Ord)]
pub struct Name {
    bytes: [u8; 11],
}

impl Model for Name {
    ghost use Rattle.std.specs.Prelude.{◌≡◌, List, ℕ};
    ghost use Rattle.cpm_image.specs.Directory.Letters.{letters};

    ghost Value = { List ℕ };

    ghost view = { λ n. n.bytes };

    ghost inverse = { λ bs. record { bytes = bs } };

    ghost invariant = { λ n. letters n.bytes ≡ n.bytes };
}

impl Name {
    ghost use Rattle.std.specs.Prelude.{◌≡◌, length};
    ghost use Rattle.cpm_image.specs.Directory.Letters.{letters};

    /// The name in these eleven bytes, without their high bits.
    pub fn new(mut bytes: [u8; 11]) -> Name
        ensures { result ≡ letters bytes }
    {
        for byte in &mut bytes {
            *byte %= 128;
        }
        Name { bytes }
    }

    /// The eleven bytes, each below 80H.
    pub fn bytes(&self) -> [u8; 11]
        ensures value { result ≡ self.now }
        ensures seven { letters self.now ≡ self.now }
        ensures eleven { length self.now ≡ 11 }
    {
        self.bytes
    }
}
