//! The command `check-disk`.

ghost use Rattle.std.specs.Prelude.{◌≡◌, IfOk, IfSome};
ghost use Rattle.std.specs.List.{flat_map};
ghost use Rattle.host.specs.Answers.{MemoryAside};
ghost use Rattle.z80dev_disk.specs.Check.{IsCheck, broken_line, checked, first_broken_rule};
ghost use Rattle.z80dev_disk.specs.Disks.{disk_answer};
ghost use Rattle.z80dev_disk.specs.Private.{IsAnswered};
ghost use Rattle.z80dev_disk.specs.Refusals.{IsRefusalOf, RefusesNone};

use crate::image::answered;
use crate::refusal::{Refusal, disk_name};
use crate::shown::{joined, trimmed};
use cpm_disk::faults_of;
use cpm_image::{Broken, MemoryImage, Name};
use host::Answer;
use std::alloc::{AllocError, Global};

/// The line of an entry that breaks a rule: `NUMBER USER NAME.TYP RULE`.
fn broken_line(alloc: Global, broken: &Broken) -> Result<Vec<u8>, AllocError>
    ensures { IfOk result (λ line. line.items ≡ broken_line broken.now) }
{
    let name = Name::new(broken.entry.name).bytes();
    let place = broken.number;
    let number = format!(in alloc; "{place} ")?;
    let owner = broken.entry.user;
    let user = format!(in alloc; "{owner} ")?;
    joined(
        alloc,
        &[
            number.as_bytes(),
            user.as_bytes(),
            trimmed(&name[..8]),
            b".",
            trimmed(&name[8..]),
            b" ",
            disk_name(broken.fault).as_bytes(),
            b"\n",
        ],
    )
}

/// The lines of entries that break a rule.
fn broken_lines(alloc: Global, broken: &[Broken]) -> Result<Vec<u8>, AllocError>
    ensures { IfOk result (λ lines. lines.items ≡ flat_map broken_line broken.now) }
{
    let mut lines = Vec::new(alloc);
    for entry in broken {
        lines.extend_from_slice(&broken_line(alloc, entry)?)?;
    }
    Ok(lines)
}

/// The answer for these broken entries: their lines, and the first fault, if there is one, as the refusal.
fn checked(alloc: Global, broken: &[Broken]) -> Result<Answer<Refusal>, AllocError>
    ensures answer { IfOk result (λ answer. disk_answer answer ≡ checked broken.now) }
    ensures refusal { IfOk result (λ answer. answer.refusal ≡ first_broken_rule broken.now) }
{
    Ok(Answer {
        files: Vec::new(alloc),
        printed: broken_lines(alloc, broken)?,
        refusal: broken.first().map(|first| Refusal::Disk(first.fault)),
    })
}

/// Checks the directory of an image; or answers why the bytes are not an image.
fn checked_image(alloc: Global, image: &[u8]) -> Result<Answer<Refusal>, Refusal>
    ensures { IsAnswered RefusesNone (IsCheck image.now) result }
{
    let mut image = MemoryImage::from_bytes(alloc, image)?;
    let broken = faults_of(alloc, &mut image)?;
    Ok(checked(alloc, &broken)?)
}

/// Checks the directory of the disk whose image these bytes are, and answers a line for each entry that breaks a rule: `NUMBER USER
/// NAME.TYP RULE`. NUMBER counts entries from 0, and RULE is the first rule that the entry breaks. The refusal is the first of these
/// faults; every other command refuses the image for the same fault.
///
/// If the bytes are not an image, the refusal is [`ImageFault`](crate::ImageFault), and there are no lines.
pub fn check_disk(alloc: Global, image: &[u8]) -> Answer<Refusal>
    ensures answer { MemoryAside (IsCheck image.now) (disk_answer result) }
    ensures refusals { IfSome result.refusal (IsRefusalOf RefusesNone) }
{
    answered(alloc, checked_image(alloc, image))
}
