//! Entries of a directory.

ghost use Rattle.std.specs.Prelude.{◌≡◌, ◌<◌};
ghost use Rattle.cpm_image.specs.Kind.{entry_blocks, number_limit};
ghost use Rattle.cpm_image.specs.Directory.Entries.{matches_byte, with_block, with_high};
ghost use Rattle.cpm_image.specs.Directory.Letters.{byte_matches, letters, name_matches, with_letters};

use crate::directory::attribute::byte_of;
use crate::directory::layout::{
    BLOCKS_OFFSET, ENTRY_BYTES, EX_OFFSET, EXTENT_RECORDS, NAME_OFFSET, RC_OFFSET, S1_OFFSET,
    S2_EXTENTS, S2_OFFSET, S2_VALUES,
};
use crate::{Attribute, BLANK, DiskKind, LogicalRecord, Name, Pattern};

/// A directory entry: 32 bytes. With a user from 0 to 31 it is an extent of a file. With E5H as the user it is free. With any other user
/// it is foreign: no user below 32 has the file, and the entry takes no block.
#[derive(Clone, Copy, Debug, PartialEq, Eq)]
pub struct Entry {
    /// The user, 0 to 31; E5H if the entry is free.
    pub user: u8,
    /// Eight bytes of the name and three of the type. The high bit of the type's first byte means read-only, that of its second byte
    /// system.
    pub name: [u8; 11],
    /// EX, the low five bits of the number of the extent of 128 records.
    pub extent: u8,
    /// S1, which has no meaning here.
    pub s1: u8,
    /// S2. Its low six bits are the number of the extent divided by 32. They are 0 on an eight inch disk.
    pub s2: u8,
    /// RC, the number of records in the extent.
    pub records: u8,
    /// The block of each group of records, in order; 0 for none. On a Megabyte disk a block number is a word, on an eight inch disk a
    /// byte.
    pub blocks: [u8; 16],
}

/// The user byte of a free entry. So every entry of a blank disk is free.
pub const FREE: u8 = BLANK;
/// The number of users that can have files.
pub const USERS: u8 = 32;
/// `?` in a pattern, which matches any byte.
const WILD: u8 = 0x3F;

/// Whether a byte of a pattern matches a byte of a name, by their low seven bits.
fn byte_matches(pattern: u8, byte: u8) -> bool
    ensures { result ≡ byte_matches pattern byte }
{
    pattern == WILD || pattern % 128 == byte % 128
}

/// Whether a byte of a pattern matches a byte that is not part of a name: it is equal, or `?`.
fn is_asked(pattern: u8, byte: u8) -> bool
    ensures { result ≡ matches_byte pattern byte }
{
    pattern == WILD || pattern == byte
}

/// Whether a name matches the name of a pattern, byte for byte.
fn name_matches(pattern: &[u8; 11], name: &[u8; 11]) -> bool
    ensures { result ≡ name_matches pattern.now name.now }
{
    pattern
        .iter()
        .zip(name)
        .all(|(pattern, byte)| byte_matches(*pattern, *byte))
}

/// A name with other letters; each byte keeps its high bit.
fn with_letters(old: &[u8; 11], mut name: [u8; 11]) -> [u8; 11]
    requires { letters name ≡ name }
    ensures { result ≡ with_letters old.now name }
{
    for (i, byte) in name.iter_mut().enumerate() {
        *byte += old[i] / 128 * 128;
    }
    name
}

/// A byte with its high bit set or cleared.
fn with_high(byte: u8, on: bool) -> u8
    ensures { result ≡ with_high on byte }
{
    if on { byte % 128 + 128 } else { byte % 128 }
}

/// The block numbers of an entry after the block of one group of records is set.
fn with_block(blocks: &[u8; 16], kind: DiskKind, group: u8, block: u16) -> [u8; 16]
    requires group { group < entry_blocks kind }
    requires block { block < number_limit kind }
    ensures bytes { result ≡ with_block kind blocks.now group block }
{
    let mut blocks = *blocks;
    let group = usize::from(group);
    match kind {
        DiskKind::EightInch => blocks[group] = block as u8,
        DiskKind::Megabyte => {
            blocks[2 * group] = (block % 256) as u8;
            blocks[2 * group + 1] = (block / 256) as u8;
        }
    }
    blocks
}

impl Entry {
    ghost use Rattle.std.specs.Prelude.{◌≡◌, ◌<◌, ◌≤◌, ◌/◌, length, slice_index};
    ghost use Rattle.cpm_image.specs.Kind.{block_records, entry_blocks, number_limit};
    ghost use Rattle.cpm_image.specs.Directory.Entries.{block, blocks_of, bytes_of, extent_number, entry_of, erased, has_record, held_blocks, is_exact_match, is_extent, is_extent_of, is_free, is_match, is_of, is_read_only, is_system, marked, new_extent, place_on_disk, record_end, renamed, with_record};

    /// The entry that these 32 bytes are.
    pub fn from_bytes(bytes: &[u8; ENTRY_BYTES]) -> Entry
        ensures { result ≡ entry_of bytes.now }
    {
        let mut name = [0; 11];
        name.copy_from_slice(&bytes[NAME_OFFSET..EX_OFFSET]);
        let mut blocks = [0; 16];
        blocks.copy_from_slice(&bytes[BLOCKS_OFFSET..]);
        Entry {
            user: bytes[0],
            name,
            extent: bytes[EX_OFFSET],
            s1: bytes[S1_OFFSET],
            s2: bytes[S2_OFFSET],
            records: bytes[RC_OFFSET],
            blocks,
        }
    }

    /// The 32 bytes of the entry.
    pub fn to_bytes(&self) -> [u8; ENTRY_BYTES]
        ensures bytes { result ≡ bytes_of self.now }
        ensures again { entry_of result ≡ self.now }
    {
        let mut bytes = [0; ENTRY_BYTES];
        bytes[0] = self.user;
        bytes[NAME_OFFSET..EX_OFFSET].copy_from_slice(&self.name);
        bytes[EX_OFFSET] = self.extent;
        bytes[S1_OFFSET] = self.s1;
        bytes[S2_OFFSET] = self.s2;
        bytes[RC_OFFSET] = self.records;
        bytes[BLOCKS_OFFSET..].copy_from_slice(&self.blocks);
        bytes
    }

    /// Whether the entry is an extent of a file, of users 0 to 31.
    pub fn is_extent(&self) -> bool
        ensures { result ≡ is_extent self.now }
    {
        self.user < USERS
    }

    /// Whether the entry is free, so that a new extent can take it.
    pub fn is_free(&self) -> bool
        ensures { result ≡ is_free self.now }
    {
        self.user == FREE
    }

    /// Whether the entry belongs to this file of this user.
    pub fn is_of(&self, user: u8, name: &Name) -> bool
        ensures { result ≡ is_of user name.now self.now }
    {
        self.user == user && Name::new(self.name) == *name
    }

    /// Whether the entry is the extent with this number of this file.
    pub fn is_extent_of(&self, user: u8, name: &Name, extent: u16) -> bool
        ensures { result ≡ is_extent_of user name.now extent self.now }
    {
        self.is_of(user, name) && self.extent_number() == extent
    }

    /// The number of the extent: EX plus 32 times the low six bits of S2.
    pub fn extent_number(&self) -> u16
        ensures { result ≡ extent_number self.now }
    {
        S2_EXTENTS as u16 * u16::from(self.s2 % S2_VALUES) + u16::from(self.extent)
    }

    /// Whether the entry has the attribute read-only, the high bit of the type's first byte.
    pub fn is_read_only(&self) -> bool
        ensures { result ≡ is_read_only self.now }
    {
        self.name[8] >= 128
    }

    /// Whether the entry has the attribute system, the high bit of the type's second byte.
    pub fn is_system(&self) -> bool
        ensures { result ≡ is_system self.now }
    {
        self.name[9] >= 128
    }

    /// Whether the entry belongs to the user and its name matches that of a pattern.
    pub fn is_match(&self, user: u8, name: &[u8; 11]) -> bool
        ensures { result ≡ is_match user name.now self.now }
    {
        self.user == user && name_matches(name, &self.name)
    }

    /// Whether the entry belongs to the user and matches a pattern, with EX and the low six bits of S2.
    pub fn is_exact_match(&self, user: u8, pattern: &Pattern) -> bool
        ensures { result ≡ is_exact_match user pattern.now self.now }
    {
        self.is_match(user, &pattern.name)
            && is_asked(pattern.extent, self.extent)
            && is_asked(pattern.high, self.s2 % S2_VALUES)
    }

    /// The number of records that the file has up to the end of this extent.
    pub(crate) fn record_end(&self) -> u32
        ensures { result ≡ record_end self.now }
    {
        let records = self.records;
        EXTENT_RECORDS as u32 * u32::from(self.extent_number()) + u32::from(records)
    }

    /// The number of block numbers in the entry.
    pub(crate) fn block_total(&self, kind: DiskKind) -> u8
        ensures total { result ≡ length (blocks_of kind self.now) }
        ensures count { result ≡ entry_blocks kind }
    {
        let _value = *self;
        kind.entry_blocks()
    }

    /// The number of blocks that the entry has: its block numbers except 0.
    pub(crate) fn held_blocks(&self, kind: DiskKind) -> u8
        ensures held { result ≡ held_blocks kind self.now }
        ensures most { result ≤ 16 }
    {
        let mut held = 0;
        for group in 0..self.block_total(kind) {
            if self.block(kind, group) != 0 {
                held += 1;
            }
        }
        held
    }

    /// The block of a group of records, or 0 for none. A group has as many records as a block.
    pub fn block(&self, kind: DiskKind, group: u8) -> u16
        requires { group < entry_blocks kind }
        ensures block { result ≡ block kind self.now group }
        ensures fits { result < number_limit kind }
    {
        let group = usize::from(group);
        match kind {
            DiskKind::EightInch => u16::from(self.blocks[group]),
            DiskKind::Megabyte => {
                u16::from(self.blocks[2 * group]) + 256 * u16::from(self.blocks[2 * group + 1])
            }
        }
    }

    /// Whether the extent has record `i`: it is below the count, and its block is there.
    pub fn has_record(&self, kind: DiskKind, i: u8) -> bool
        requires { i < EXTENT_RECORDS }
        ensures { result ≡ has_record kind self.now i }
    {
        i < self.records && self.block(kind, i / kind.block_records()) != 0
    }

    /// The logical record of the disk that has record `i` of the extent, if the entry has the block for it.
    pub fn place_on_disk(&self, kind: DiskKind, i: u8) -> LogicalRecord
        requires { i < EXTENT_RECORDS }
        ensures { result ≡ place_on_disk kind self.now i }
    {
        let records = kind.block_records();
        let first = u32::from(records) * u32::from(self.block(kind, i / records));
        LogicalRecord::new(first + u32::from(i % records))
    }

    /// The entry after it is erased: only its user byte changes.
    pub fn erased(&self) -> Entry
        ensures { result ≡ erased self.now }
    {
        Entry {
            user: FREE,
            ..*self
        }
    }

    /// The entry with another name. The high bit of each byte of the name stays.
    pub fn renamed(&self, name: &Name) -> Entry
        ensures { result ≡ renamed name.now self.now }
    {
        Entry {
            name: with_letters(&self.name, name.bytes()),
            ..*self
        }
    }

    /// The entry with an attribute set or cleared: only the high bit of one byte of its name changes.
    pub fn marked(&self, attribute: Attribute, on: bool) -> Entry
        ensures { result ≡ marked attribute on self.now }
    {
        let byte = byte_of(attribute);
        let mut name = self.name;
        name[byte] = with_high(name[byte], on);
        Entry { name, ..*self }
    }

    /// The entry after its record `i` is written to a block.
    pub fn with_record(&self, kind: DiskKind, i: u8, block_number: u16) -> Entry
        requires record { i < EXTENT_RECORDS }
        requires block { block_number < number_limit kind }
        ensures entry { result ≡ with_record kind self.now i block_number }
        ensures placed { block kind result (i / block_records kind) ≡ block_number }
    {
        Entry {
            records: self.records.max(i + 1),
            blocks: with_block(&self.blocks, kind, i / kind.block_records(), block_number),
            ..*self
        }
    }

    /// The entry of a new extent without records.
    pub fn new_extent(user: u8, name: [u8; 11], extent: u16) -> Entry
        requires { extent < 8192 }
        ensures { result ≡ new_extent user name extent }
    {
        Entry {
            user,
            name,
            extent: (extent % S2_EXTENTS as u16) as u8,
            s1: 0,
            s2: (extent / S2_EXTENTS as u16) as u8,
            records: 0,
            blocks: [0; 16],
        }
    }
}
