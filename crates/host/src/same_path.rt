//! Whether two paths name one file, as far as their text says.

ghost use Rattle.std.specs.Prelude.{◌≡◌};
ghost use Rattle.std.specs.Path.{components_remaining, is_dot_at};
ghost use Rattle.host.specs.SamePath.{is_same_path, path_parts};

use std::path::{Components, Path};

/// Whether a path begins with a point that stands alone.
fn begins_with_point(path: &str) -> bool
    ensures { result ≡ is_dot_at path.now 0 }
{
    match path.as_bytes() {
        [b'.'] => true,
        [b'.', next, ..] => *next == b'/',
        _ => false,
    }
}

/// The parts of a path. A point at its beginning, which `components` gives, is left out.
fn path_parts(path: &str) -> Components<'_>
    ensures { components_remaining result ≡ path_parts path.now }
{
    let mut parts = Path::new(path).components();
    if begins_with_point(path) {
        parts.next();
    }
    parts
}

/// Whether two paths name one file, as far as their text says: they are the same but for slashes after others and points that name the folder
/// before them, as in `./a` and `a`.
pub fn is_same_path(path: &str, other: &str) -> bool
    ensures { result ≡ is_same_path path.now other.now }
{
    let mut parts = path_parts(path);
    let mut others = path_parts(other);
    loop {
        match (parts.next(), others.next()) {
            (None, None) => return true,
            (Some(part), Some(other)) if part.as_os_str() == other.as_os_str() => {}
            _ => return false,
        }
    }
}
