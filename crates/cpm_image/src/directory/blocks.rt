//! The blocks that the entries of a directory have.

ghost use Rattle.std.specs.Prelude.{◌≡◌, ◌||◌, ◌==◌, false, not, true, ◌<◌, ◌≤◌, IfSome, MatchBool, length, slice_index_or, slice_set};
ghost use Rattle.cpm_image.specs.Kind.{number_limit};
ghost use Rattle.cpm_image.specs.Directory.Entries.{blocks_of};
ghost use Rattle.cpm_image.specs.Private.Marks.{AddsMarks, AreMarks, AreOwn, AreSmall};
ghost use Rattle.cpm_image.specs.Directory.Searches.{free_block, free_blocks, space_of};

use crate::{DiskKind, Entry, Space};

/// The most blocks that a disk can have.
pub(crate) const MOST_BLOCKS: usize = 512;

/// A flag for each block that a disk can have. Greater numbers are not marked.
pub(crate) type Marks = [bool; MOST_BLOCKS];

/// Marks a block, and answers whether it is 0 or was not marked before.
fn mark_block(marks: &mut Marks, block: u16) -> bool
    ensures marked { marks.new ≡ slice_set marks.old block true }
    ensures free { result ≡ ((block == 0) || not (slice_index_or marks.old block false)) }
{
    let number = usize::from(block);
    if number >= marks.len() {
        return true;
    }
    let free = block == 0 || !marks[number];
    marks[number] = true;
    free
}

/// Marks the blocks of an entry, and answers whether each of them except 0 is in the entry once and was not marked before.
pub(crate) fn mark(marks: &mut Marks, kind: DiskKind, entry: &Entry) -> bool
    ensures marked { AddsMarks marks.old marks.new (blocks_of kind entry.now) }
    ensures own { AreSmall (blocks_of kind entry.now) → MatchBool result (AreOwn marks.old (blocks_of kind entry.now)) (¬ AreOwn marks.old (blocks_of kind entry.now)) }
{
    let mut own = true;
    for group in 0..entry.block_total(kind) {
        own &= mark_block(marks, entry.block(kind, group));
    }
    own
}

/// Marks the blocks of all entries of users 0 to 31.
fn taken(kind: DiskKind, entries: &[Entry]) -> Marks
    ensures { AreMarks kind result entries.now }
{
    let mut marks = [false; MOST_BLOCKS];
    for entry in entries {
        if entry.is_extent() {
            mark(&mut marks, kind, entry);
        }
    }
    marks
}

/// The lowest block for files that is in no entry of users 0 to 31.
pub fn free_block(kind: DiskKind, entries: &[Entry]) -> Option<u16>
    ensures lowest { result ≡ free_block kind entries.now }
    ensures fits { IfSome result (λ b. b < number_limit kind) }
{
    let marks = taken(kind, entries);
    (kind.first_block()..kind.block_count()).find(|block| !marks[usize::from(*block)])
}

/// The number of blocks for files that are in no entry of users 0 to 31.
fn free_blocks(kind: DiskKind, entries: &[Entry]) -> u16
    ensures { result ≡ free_blocks kind entries.now }
{
    let marks = taken(kind, entries);
    (kind.first_block()..kind.block_count())
        .filter(|block| !marks[usize::from(*block)])
        .count() as u16
}

/// The number of free entries, and the number of blocks for files that are in no entry of users 0 to 31.
pub fn space_of(kind: DiskKind, entries: &[Entry]) -> Space
    requires { length entries.now ≤ 65535 }
    ensures { result ≡ space_of kind entries.now }
{
    Space {
        entries: entries.iter().filter(|entry| entry.is_free()).count() as u16,
        blocks: free_blocks(kind, entries),
    }
}
