//! Which files a command writes, and why it may not write them.

ghost use Rattle.std.specs.Prelude.{◌≡◌, ◌++◌, ◌==◌, IfOk, map, option_map, string_bytes};
ghost use Rattle.std.specs.List.{list_any};
ghost use Rattle.std.specs.Path.{slash};
ghost use Rattle.host.specs.SamePath.{is_same_path};
ghost use Rattle.z80dev.specs.Outputs.{base_of, begins_ending, ends_before_name, overwritten, why_not_written, without_ending};
ghost use Rattle.host.specs.Ending.{IsClear};

use crate::{End, Kind};
use host::is_same_path;
use std::alloc::{AllocError, Global};

/// Whether there is a slash in a path.
fn has_slash(path: &str) -> bool
    ensures { result ≡ list_any (λ byte. byte == slash) path.now }
{
    path.as_bytes().iter().any(|byte| *byte == b'/')
}

/// Whether a path ends where the name of a file begins.
fn ends_before_name(path: &str) -> bool
    ensures { result ≡ ends_before_name path.now }
{
    match path.as_bytes().last() {
        Some(byte) => *byte == b'/',
        None => true,
    }
}

/// Whether an ending begins at a point of a path, by what comes before it and by the rest: a slash may not come after the point, and the
/// point may not begin the name of a file, as in `.game`.
fn is_ending(before: &str, rest: &str) -> bool
    ensures { result ≡ begins_ending before.now rest.now }
{
    !has_slash(rest) && !ends_before_name(before)
}

/// A path without its ending.
fn without_ending(path: &str) -> &str
    ensures { result.now ≡ without_ending path.now }
{
    match path.rfind('.') {
        Some(point) if is_ending(&path[..point], &path[point..]) => &path[..point],
        _ => path,
    }
}

/// The path of the files to write, without their endings: the one that was given, or that of the first source or object.
pub(crate) fn base_of<'a>(out: Option<&'a str>, sources: &[&'a str]) -> &'a str
    ensures { result.now ≡ base_of out.entry (map (λ path. path.now) sources.now) }
{
    match (out, sources) {
        (Some(out), _) => out,
        (None, [first, ..]) => without_ending(first),
        (None, []) => "",
    }
}

/// Whether a path names the same file as one of these.
fn is_among(path: &str, paths: &[&str]) -> bool
    ensures { result ≡ list_any (λ other. is_same_path path.now other.now) paths.now }
{
    paths.iter().any(|other| is_same_path(path, other))
}

/// Whether a path names one of the shared files or of the sources.
fn is_read(path: &str, shared: &[&str], sources: &[&str]) -> bool
    ensures { result ≡ list_any (is_same_path path.now) (map (λ other. other.now) shared.now ++ map (λ other. other.now) sources.now) }
{
    is_among(path, shared) || is_among(path, sources)
}

/// The first path of the files to write that names one of those that are read.
fn overwritten(
    alloc: Global,
    base: &str,
    kinds: &[Kind],
    shared: &[&str],
    sources: &[&str],
) -> Result<Option<String>, AllocError>
    ensures { IfOk result (λ path. option_map string_bytes path ≡ overwritten base.now kinds.now (map (λ path. path.now) shared.now ++ map (λ path. path.now) sources.now)) }
{
    for kind in kinds {
        let ending = kind.ending();
        let path = format!(in alloc; "{base}{ending}")?;
        if is_read(&path, shared, sources) {
            return Ok(Some(path));
        }
    }
    Ok(None)
}

/// Refuses a command that has no path for its files, or would write over one that it reads.
pub(crate) fn refuse_overwriting(
    alloc: Global,
    base: &str,
    kinds: &[Kind],
    shared: &[&str],
    sources: &[&str],
) -> Result<(), End<'static>>
    ensures { IsClear (why_not_written base.now kinds.now (map (λ path. path.now) shared.now ++ map (λ path. path.now) sources.now)) result }
{
    if base.is_empty() {
        return Err(End::Refused(String::from_str(alloc, "NoBase")?));
    }
    match overwritten(alloc, base, kinds, shared, sources)? {
        Some(path) => Err(End::Refused(format!(in alloc; "Overwrites({path})")?)),
        None => Ok(()),
    }
}
