//! What a command warns of that is not refused.

ghost use Rattle.std.specs.Prelude.{◌≡◌, IfOk, option_map, string_bytes};
ghost use Rattle.cpm_image.specs.Image.{byte_count};
ghost use Rattle.host.specs.Claims.{filled_up_line, is_filled_up, unlocked_line, warnings};

use cpm_image::{DiskKind, RECORD_BYTES};
use std::alloc::{AllocError, Global};

/// The bytes of an image of a kind.
fn byte_count(kind: DiskKind) -> usize
    ensures { result ≡ byte_count kind }
{
    RECORD_BYTES * kind.sector_count() as usize
}

/// Whether an image of this length is filled up: it has bytes, and not the number of bytes of a disk of either kind.
fn is_filled_up(count: usize) -> bool
    ensures { result ≡ is_filled_up count }
{
    count != 0
        && count != byte_count(DiskKind::EightInch)
        && count != byte_count(DiskKind::Megabyte)
}

/// The line that warns of a lock that is not held.
fn unlocked_line(alloc: Global, path: &str) -> Result<String, AllocError>
    ensures { IfOk result (λ line. string_bytes line ≡ unlocked_line path.now) }
{
    format!(in alloc;
        "warning: {path} cannot be locked here: do not let another command change it meanwhile\n"
    )
}

/// The line that warns of an image that was filled up.
fn filled_up_line(alloc: Global, path: &str, count: usize) -> Result<String, AllocError>
    ensures { IfOk result (λ line. string_bytes line ≡ filled_up_line path.now count) }
{
    let mut line = format!(in alloc; "warning: {path} has ")?;
    let rest = format!(in alloc;
        "{count} bytes and was filled up: an image of another system can look empty\n"
    )?;
    line.push_str(&rest)?;
    Ok(line)
}

/// The lines that warn of an image of this length that is filled up, and of a lock that was wanted and is not held; none if neither holds.
pub fn warnings(
    alloc: Global,
    path: &str,
    count: usize,
    is_unlocked: bool,
) -> Result<Option<String>, AllocError>
    ensures { IfOk result (λ line. option_map string_bytes line ≡ warnings path.now count is_unlocked) }
{
    match (is_unlocked, is_filled_up(count)) {
        (false, false) => Ok(None),
        (true, false) => Ok(Some(unlocked_line(alloc, path)?)),
        (false, true) => Ok(Some(filled_up_line(alloc, path, count)?)),
        (true, true) => {
            let mut lines = unlocked_line(alloc, path)?;
            lines.push_str(&filled_up_line(alloc, path, count)?)?;
            Ok(Some(lines))
        }
    }
}
