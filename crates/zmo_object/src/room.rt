//! How many elements to reserve room for at once.

ghost use Rattle.std.specs.Prelude.{◌<◌, ◌≤◌, ◌*◌, length};

/// Answers how many elements to reserve: `count`, but no more than the bytes can hold if each element takes at least `least` bytes. So a
/// file with a false count cannot make the reader reserve more than the file's own size allows.
pub(crate) fn room(count: u16, least: usize, bytes: &[u8]) -> usize
    requires { 0 < least }
    ensures count { result ≤ count }
    // That many elements of `least` bytes each are no longer than the bytes that are left.
    ensures bytes { result * least ≤ length bytes.now }
{
    usize::from(count).min(bytes.len() / least)
}
