//! Tests the rules of a directory.

ghost use Rattle.std.specs.Prelude.{◌≡◌, ◌≤◌, ◌↔◌, IfErr, IfOk, IsTrue, MatchBool, length, true};
ghost use Rattle.cpm_image.specs.Directory.Entries.{blocks_of, is_extent};
ghost use Rattle.cpm_image.specs.Private.Marks.{AddsMarks, AreMarks};
ghost use Rattle.cpm_image.specs.Directory.Rules.{AreBlocks, AreBroken, HasOwnName, IsBlock, IsEntryJudged, IsGood, IsJudged, IsRuleFault};

use crate::directory::blocks::{MOST_BLOCKS, Marks, mark};
use crate::directory::layout::{EXTENT_RECORDS, LAST_EXTENT, S2_VALUES};
use crate::{Broken, DiskFault, DiskKind, Entry, Name};
use std::alloc::Global;

/// Whether the counts of an entry are in range.
fn is_good(kind: DiskKind, entry: &Entry) -> bool
    ensures { IsTrue result ↔ IsGood kind entry.now }
{
    entry.records <= EXTENT_RECORDS
        && entry.extent <= LAST_EXTENT
        && entry.s2 % S2_VALUES <= kind.last_high()
}

/// Whether a number is 0 or that of a block for files.
fn is_block(kind: DiskKind, block: u16) -> bool
    ensures { IsTrue result ↔ IsBlock kind block }
{
    block == 0 || kind.first_block() <= block && block < kind.block_count()
}

/// Whether each block number of an entry is 0 or that of a block for files.
fn are_blocks(kind: DiskKind, entry: &Entry) -> bool
    ensures { MatchBool result (AreBlocks kind entry.now) (¬ AreBlocks kind entry.now) }
{
    for group in 0..entry.block_total(kind) {
        if !is_block(kind, entry.block(kind, group)) {
            return false;
        }
    }
    true
}

/// Whether none of these entries is the same extent of the same file.
fn has_own_name(before: &[Entry], entry: &Entry) -> bool
    requires { is_extent entry.now ≡ true }
    ensures { MatchBool result (HasOwnName before.now entry.now) (¬ HasOwnName before.now entry.now) }
{
    let name = Name::new(entry.name);
    let extent = entry.extent_number();
    !before
        .iter()
        .any(|other| other.is_extent_of(entry.user, &name, extent))
}

/// Tests an entry after those before it, and marks its blocks even if it breaks a rule.
fn judge_entry(
    marks: &mut Marks,
    kind: DiskKind,
    before: &[Entry],
    entry: &Entry,
) -> Result<(), DiskFault>
    requires marks { AreMarks kind marks.old before.now }
    requires extent { is_extent entry.now ≡ true }
    ensures judged { IsEntryJudged kind before.now entry.now result }
    ensures refusals { IfErr result IsRuleFault }
    ensures marked { AddsMarks marks.old marks.new (blocks_of kind entry.now) }
{
    // A later entry must not have these blocks even if this one breaks a rule.
    let own = mark(marks, kind, entry);
    if !is_good(kind, entry) {
        return Err(DiskFault::BadEntry);
    }
    if !are_blocks(kind, entry) {
        return Err(DiskFault::BlockRange);
    }
    if !own {
        return Err(DiskFault::BlockTwice);
    }
    if !has_own_name(before, entry) {
        return Err(DiskFault::NameTwice);
    }
    Ok(())
}

/// Tests whether a directory keeps its rules. The entries of users 0 to 31 are tested in order, each completely before the next.
///
/// # Errors
///
/// The first rule that the first bad entry breaks: [`DiskFault::BadEntry`], [`DiskFault::BlockRange`], [`DiskFault::BlockTwice`],
/// [`DiskFault::NameTwice`].
pub fn judge(kind: DiskKind, entries: &[Entry]) -> Result<(), DiskFault>
    ensures judged { IsJudged kind entries.now result }
    ensures refusals { IfErr result IsRuleFault }
{
    let mut marks = [false; MOST_BLOCKS];
    for (number, entry) in entries.iter().enumerate() {
        if entry.is_extent() {
            judge_entry(&mut marks, kind, &entries[..number], entry)?;
        }
    }
    Ok(())
}

/// The entries of users 0 to 31 that break a rule, in their order, each with the first rule that it breaks. An entry is compared with all
/// before it, even those that break a rule.
///
/// # Errors
///
/// Only [`DiskFault::NoMemory`].
pub fn faults(alloc: Global, kind: DiskKind, entries: &[Entry]) -> Result<Vec<Broken>, DiskFault>
    requires { length entries.now ≤ 65536 }
    ensures broken { IfOk result (λ broken. AreBroken kind entries.now broken.items) }
    ensures memory { IfErr result (λ fault. fault ≡ DiskFault.NoMemory) }
{
    let mut marks = [false; MOST_BLOCKS];
    let mut broken = Vec::new(alloc);
    for (number, entry) in entries.iter().enumerate() {
        if entry.is_extent() {
            match judge_entry(&mut marks, kind, &entries[..number], entry) {
                Ok(()) => {}
                Err(fault) => broken.push(Broken {
                    number: number as u16,
                    entry: *entry,
                    fault,
                })?,
            }
        }
    }
    Ok(broken)
}
