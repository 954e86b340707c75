//! Prepares a program to run.

ghost use Rattle.std.specs.Prelude.{◌≡◌, ◌≢◌, Err, IfErr, IfOk, map};
ghost use Rattle.z80dev_disk.specs.Disks.{IsMounted};
ghost use Rattle.z80dev_disk.specs.declared.refusal.Refusal.TheVariants as refusal;
ghost use Rattle.z80dev_run.specs.Program.{IsReadyToRun};

use crate::input::typed;
use crate::running::Ready;
use std::alloc::{AllocError, Global};
use z80dev_disk::{Refusal, disk_of};

/// The words as bytes.
fn bytes_of<'a>(alloc: Global, words: &[&'a str]) -> Result<Vec<&'a [u8]>, AllocError>
    ensures { IfOk result (λ bytes. map (λ w. w.now) bytes.items ≡ map (λ w. w.now) words.now) }
{
    let mut bytes = Vec::with_capacity(alloc, words.len())?;
    for word in words {
        bytes.push(word.as_bytes())?;
    }
    Ok(bytes)
}

/// Prepares a program to run with its words on the disk of an image. An image without bytes is an empty eight inch disk. `input` is what
/// is typed, with CR LF and LF as one CR.
///
/// # Errors
///
/// Those of the image: it is not one, or its directory breaks a rule; or memory ran out. Then nothing runs and nothing is printed.
pub fn ready<'p, 'w>(
    alloc: Global,
    program: &'p [u8],
    words: &[&'w str],
    image: &[u8],
    input: &[u8],
) -> Result<Ready<'p, 'w>, Refusal>
    ensures ready { IfOk result (IsReadyToRun program.now (map (λ w. w.now) words.now) image.now input.now) }
    ensures refused { IfErr result (λ why. why ≢ refusal.NoMemory → IsMounted image.now (Err why)) }
{
    Ok(Ready {
        program,
        disk: disk_of(alloc, image)?,
        words: bytes_of(alloc, words)?,
        typed: typed(alloc, input)?,
    })
}
