//! Paths that a command knows by their endings, and does not write to.

ghost use Rattle.std.specs.Prelude.{◌≡◌, map};
ghost use Rattle.std.specs.Char.{to_ascii_lowercase};
ghost use Rattle.host.specs.Ending.{RefusesText, over_text};
ghost use Rattle.host.specs.Paths.{ending_of, names_no_image, names_work};

use crate::End;
use std::alloc::Global;

/// The last four bytes of a path.
fn ending_of(path: &str) -> &[u8]
    ensures { map to_ascii_lowercase result.now ≡ ending_of path.now }
{
    let bytes = path.as_bytes();
    &bytes[bytes.len().saturating_sub(4)..]
}

/// Whether a path ends as that of a program or of a source does. No image of a disk is written there.
pub fn names_no_image(path: &str) -> bool
    ensures { result ≡ names_no_image path.now }
{
    let ending = ending_of(path);
    ending.eq_ignore_ascii_case(b".com") || ending.eq_ignore_ascii_case(b".asm")
}

/// Whether a path ends as that of a program, of a source or of an image does. A trace, a profile or a record is not written there.
pub fn names_work(path: &str) -> bool
    ensures { result ≡ names_work path.now }
{
    names_no_image(path) || ending_of(path).eq_ignore_ascii_case(b".img")
}

/// The refusal to write over a file of this path.
pub fn over<'a>(alloc: Global, path: &str) -> End<'a>
    ensures { RefusesText (over_text path.now) result }
{
    match format!(in alloc; "Overwrites({path})") {
        Ok(text) => End::Refused(text),
        Err(_) => End::NoMemory,
    }
}
