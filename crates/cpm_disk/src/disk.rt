//! Mounted disks.

ghost use Rattle.std.specs.Prelude.{◌≡◌, Bool};
ghost use Rattle.cpm_image.specs.declared.directory.entry.TheConstants.{USERS};
ghost use Rattle.cpm_disk.specs.Private.State.{IsMounted};
ghost use Rattle.cpm_disk.specs.Calls.{Mounted};

use crate::block::write_all;
use crate::change::{Change, change_all};
use crate::copying::image_copied;
use crate::nearby::{extent_near, reading_at, writing_at};
use crate::operations::{creation, erasure, marking, renaming};
use crate::reader::read_entries;
use crate::records::{read_record, store};
use crate::writable::{Writable, is_known};
use cpm_image::laws::{are_entries, is_name};
use cpm_image::{
    Attribute, BLANK, DiskFault, DiskKind, ENTRY_BYTES, Entry, Listed, MemoryImage, Name, Pattern,
    RECORD_BYTES, Sectors, Space, Usage, find, judge, list, position_of, size, space_of, usage_of,
};
use std::alloc::{AllocError, Global};
use std::marker::Model;

/// A mounted disk. An eight inch disk has 64 directory entries, and blocks 2 to 242 for files; a Megabyte disk has 256 entries, and
/// blocks 4 to 511.
///
/// Users are 0 to 31. If the device fails in a call, the call answers [`DiskFault::Fault`]. Then each directory entry is as it was before
/// the call or as the call was to leave it, so the directory still keeps its rules; `write_block_of` says what the records and blocks
/// are. From then on every call but `unmount` answers [`DiskFault::Failed`], until the disk is mounted again.
#[derive(Drop)]
pub struct Disk<S: Sectors> {
    device: S,
    kind: DiskKind,
    entries: Vec<Entry>,
    failed: bool,
    /// The number of the directory entry of the record that was last read or written. It is tried first for the next record; it only
    /// saves time.
    near: u16,
    /// The file that was written last, if no other call has changed the directory since. So it is not read-only.
    writable: Option<Writable>,
}

impl<S: Sectors> Model for Disk<S> {
    ghost Value = { Mounted S };

    ghost view = { λ d. record { device = d.device; kind = d.kind; failed = d.failed } };

    ghost invariant = { λ d. IsMounted d.kind (S.sectors d.device) d.entries.items d.failed d.writable };
}

impl<S: Sectors> Disk<S> {
    ghost use Rattle.std.specs.Prelude.{◌≡◌, ◌<◌, ◌≤◌, ◌*◌, ◌+◌, ◌%◌, ◌⊎◌, IfErr, IfSome, OnErr, position, Option, None, Result, replicate, length, if◌then◌else◌, slice_set, ℕ, List, Some, true, IfOk, OnOk};
    ghost use Rattle.cpm_image.specs.Kind.{entry_count, file_records, sector_count};
    ghost use Rattle.cpm_image.specs.Directory.Entries.{at, bytes_of, is_extent_of};
    ghost use Rattle.cpm_image.specs.Directory.Letters.{name_matches};
    ghost use Rattle.cpm_image.specs.Directory.Rules.{IsSound};
    ghost use Rattle.cpm_image.specs.Directory.Searches.{found_from, no_space, no_usage, size, space_of, usage_of};
    ghost use Rattle.cpm_disk.specs.Refusals.{RefusesCreation, RefusesErasure, RefusesMarking, RefusesReading, RefusesRenaming, RefusesWriting};
    ghost use Rattle.cpm_disk.specs.Calls.{FailsOr};
    ghost use Rattle.cpm_disk.specs.Files.{HasRecord, HasSameRecords, IsEither, IsFile, IsMarkedFile, IsMatched, IsMoved, IsNewFile, IsNoFile, OthersAreSame, file_record};
    ghost use Rattle.cpm_disk.specs.Image.{directory};
    ghost use Rattle.cpm_disk.specs.Mounting.{IsListedBy, IsMountedFrom, RefusesMount};
    ghost use Rattle.cpm_disk.specs.Operations.{IsCreated, IsErased, IsMarked, IsRecordRead, IsRenamed, IsRecordWritten};

    /// Mounts a device of 2,002 sectors as an eight inch disk, and one of 8,192 as a Megabyte disk.
    ///
    /// # Errors
    ///
    /// [`DiskFault::WrongSize`] if the device has neither size, before anything else. [`DiskFault::Fault`] if the device failed,
    /// [`DiskFault::NoMemory`]. Otherwise the first rule that the first bad directory entry breaks: [`DiskFault::BadEntry`],
    /// [`DiskFault::BlockRange`], [`DiskFault::BlockTwice`], [`DiskFault::NameTwice`]. The device comes back with the fault.
    pub fn mount(alloc: Global, mut device: S) -> Result<Disk<S>, (DiskFault, S)>
        ensures done { IsMountedFrom S.sectors S.faults device result }
        ensures refusals { IfErr result (λ back. RefusesMount back.0) }
    {
        let Some(kind) = DiskKind::of_size(device.len()) else {
            return Err((DiskFault::WrongSize, device));
        };
        match read_entries(alloc, &mut device, kind) {
            Ok(entries) => match judge(kind, &entries) {
                Ok(()) => Ok(Disk {
                    device,
                    kind,
                    entries,
                    failed: false,
                    near: 0,
                    writable: None,
                }),
                Err(fault) => Err((fault, device)),
            },
            Err(fault) => Err((fault, device)),
        }
    }

    /// Gives the device back as the calls left it. It can be mounted again, even after a failure.
    pub fn unmount(self) -> S
        ensures device { result ≡ self.device }
        ensures count { length (S.sectors result) ≡ sector_count self.kind }
        ensures sound { IsSound self.kind (directory self.kind (S.sectors result)) }
    {
        self.device
    }

    /// The format of the disk, even after a failure.
    pub fn kind(&self) -> DiskKind
        ensures kind { result ≡ self.now.kind }
        ensures count { length (S.sectors self.now.device) ≡ sector_count self.now.kind }
    {
        self.kind
    }

    /// The number of the first entry from `from` on that belongs to the user and matches a pattern, with its extent. `None` after a
    /// failure.
    pub fn find(&self, user: u8, pattern: &Pattern, from: u16) -> Option<u16>
        ensures found { result ≡ (if self.now.failed then None else found_from user pattern.now from (directory self.now.kind (S.sectors self.now.device))) }
        ensures within { IfSome result (λ k. k < entry_count self.now.kind) }
        ensures sound { IsSound self.now.kind (directory self.now.kind (S.sectors self.now.device)) }
    {
        if self.failed {
            return None;
        }
        find(&self.entries, user, pattern, from)
    }

    /// The number of the entry of a file's extent. The number of the extent is EX plus 32 times the low six bits of S2. There is at most
    /// one such entry. A `?` in the name only matches itself. `None` after a failure.
    pub fn find_extent(&self, user: u8, name: &Name, extent: u16) -> Option<u16>
        ensures found { result ≡ (if self.now.failed then None else position (is_extent_of user name.now extent) (directory self.now.kind (S.sectors self.now.device))) }
        ensures within { IfSome result (λ k. k < entry_count self.now.kind) }
        ensures sound { IsSound self.now.kind (directory self.now.kind (S.sectors self.now.device)) }
    {
        if self.failed {
            return None;
        }
        position_of(&self.entries, user, name, extent)
    }

    /// The 32 bytes of an entry. After a failure they are all E5H.
    pub fn entry(&self, entry_number: u16) -> [u8; ENTRY_BYTES]
        requires { entry_number < entry_count self.now.kind }
        ensures bytes { result ≡ (if self.now.failed then replicate ENTRY_BYTES BLANK else bytes_of (at (directory self.now.kind (S.sectors self.now.device)) entry_number)) }
        ensures sound { IsSound self.now.kind (directory self.now.kind (S.sectors self.now.device)) }
    {
        if self.failed {
            return [BLANK; ENTRY_BYTES];
        }
        self.entries[usize::from(entry_number)].to_bytes()
    }

    /// The number of records up to the file's last one, whether they were written or not: at most 4,096, or 65,536 on a Megabyte disk.
    /// `None` if there is no such file, and after a failure.
    pub fn size(&self, user: u8, name: &Name) -> Option<u32>
        ensures size { result ≡ (if self.now.failed then None else size user name.now (directory self.now.kind (S.sectors self.now.device))) }
        ensures most { user < USERS → IfSome result (λ n. n ≤ file_records self.now.kind) }
        ensures sound { IsSound self.now.kind (directory self.now.kind (S.sectors self.now.device)) }
    {
        if self.failed {
            return None;
        }
        size(&self.entries, user, name)
    }

    /// The number of directory entries that a file has, and of blocks that these have. Both are 0 if there is no such file, and after a
    /// failure.
    pub fn usage(&self, user: u8, name: &Name) -> Usage
        ensures usage { result ≡ (if self.now.failed then no_usage else usage_of self.now.kind user name.now (directory self.now.kind (S.sectors self.now.device))) }
        ensures sound { IsSound self.now.kind (directory self.now.kind (S.sectors self.now.device)) }
    {
        if self.failed {
            return Usage {
                entries: 0,
                blocks: 0,
            };
        }
        usage_of(self.kind, &self.entries, user, name)
    }

    /// The number of free directory entries, and of blocks for files that are in no entry. Both are 0 after a failure.
    pub fn space(&self) -> Space
        ensures space { result ≡ (if self.now.failed then no_space else space_of self.now.kind (directory self.now.kind (S.sectors self.now.device))) }
        ensures sound { IsSound self.now.kind (directory self.now.kind (S.sectors self.now.device)) }
    {
        if self.failed {
            return Space {
                entries: 0,
                blocks: 0,
            };
        }
        space_of(self.kind, &self.entries)
    }

    /// Creates a file without records, and answers the number of its directory entry, the lowest that was free.
    ///
    /// # Errors
    ///
    /// In this order: [`DiskFault::Failed`], [`DiskFault::Exists`], [`DiskFault::DirectoryFull`], [`DiskFault::Fault`].
    pub fn create(&mut self, user: u8, name: &Name) -> Result<u16, DiskFault>
        requires { user < USERS }
        ensures done { IsCreated S.sectors S.faults self.old self.new user name.now result }
        ensures refusals { IfErr result (FailsOr RefusesCreation) }
        ensures within { IfOk result (λ k. k < entry_count self.old.kind) }
        ensures made { OnOk result (IsNewFile self.new.kind (S.sectors self.new.device) user name.now) }
        ensures others { OthersAreSame self.old.kind (S.sectors self.old.device) (S.sectors self.new.device) (IsFile user name.now) }
        ensures sound { IsSound self.new.kind (directory self.new.kind (S.sectors self.new.device)) }
    {
        if self.failed {
            return Err(DiskFault::Failed);
        }
        // A law: the bytes of the name are below 80H, so the file is found by it.
        is_name(name);
        let (number, entry) = creation(&self.entries, user, name)?;
        self.writable = None;
        match store(
            &mut self.device,
            self.kind,
            &mut self.entries,
            number,
            entry,
        ) {
            Ok(()) => Ok(number),
            Err(_) => {
                self.failed = true;
                Err(DiskFault::Fault)
            }
        }
    }

    /// Erases the entries of a user that match a pattern, whatever their extents, and answers how many they were.
    ///
    /// # Errors
    ///
    /// In this order: [`DiskFault::Failed`], [`DiskFault::NotFound`], [`DiskFault::ReadOnly`] if a matching entry is read-only,
    /// [`DiskFault::Fault`].
    pub fn erase(&mut self, user: u8, pattern: &Pattern) -> Result<u16, DiskFault>
        requires { user < USERS }
        ensures done { IsErased S.sectors S.faults self.old self.new user pattern.now.name result }
        ensures refusals { IfErr result (FailsOr RefusesErasure) }
        ensures gone { OnOk result ((name : List ℕ) → name_matches pattern.now.name name ≡ true → IsNoFile self.new.kind (S.sectors self.new.device) user name) }
        ensures others { OthersAreSame self.old.kind (S.sectors self.old.device) (S.sectors self.new.device) (IsMatched user pattern.now.name) }
        ensures sound { IsSound self.new.kind (directory self.new.kind (S.sectors self.new.device)) }
    {
        if self.failed {
            return Err(DiskFault::Failed);
        }
        let count = erasure(&self.entries, user, &pattern.name)?;
        self.writable = None;
        let change = Change::Erase {
            user,
            pattern: pattern.name,
        };
        match change_all(&mut self.device, self.kind, &mut self.entries, &change) {
            Ok(()) => Ok(count),
            Err(_) => {
                self.failed = true;
                Err(DiskFault::Fault)
            }
        }
    }

    /// Sets or clears an attribute in the entries of a user that match a pattern, whatever their extents, and answers how many they were.
    /// It does so for a read-only file too; otherwise that attribute could never be cleared.
    ///
    /// # Errors
    ///
    /// In this order: [`DiskFault::Failed`], [`DiskFault::NotFound`], [`DiskFault::Fault`].
    pub fn mark(
        &mut self,
        user: u8,
        pattern: &Pattern,
        attribute: Attribute,
        on: bool,
    ) -> Result<u16, DiskFault>
        requires { user < USERS }
        ensures done { IsMarked S.sectors S.faults self.old self.new user pattern.now.name attribute on result }
        ensures refusals { IfErr result (FailsOr RefusesMarking) }
        ensures marked { OnOk result ((name : List ℕ) → name_matches pattern.now.name name ≡ true → IsMarkedFile self.old.kind (S.sectors self.old.device) (S.sectors self.new.device) user name attribute on) }
        ensures others { OthersAreSame self.old.kind (S.sectors self.old.device) (S.sectors self.new.device) (IsMatched user pattern.now.name) }
        ensures sound { IsSound self.new.kind (directory self.new.kind (S.sectors self.new.device)) }
    {
        if self.failed {
            return Err(DiskFault::Failed);
        }
        let count = marking(&self.entries, user, &pattern.name)?;
        // A law: the names of entries have eleven bytes, so the bytes of the type are there.
        are_entries(&self.entries);
        self.writable = None;
        let change = Change::Mark {
            user,
            pattern: pattern.name,
            attribute,
            on,
        };
        match change_all(&mut self.device, self.kind, &mut self.entries, &change) {
            Ok(()) => Ok(count),
            Err(_) => {
                self.failed = true;
                Err(DiskFault::Fault)
            }
        }
    }

    /// Renames a file. The high bit of each byte of its entries' names stays.
    ///
    /// # Errors
    ///
    /// In this order: [`DiskFault::Failed`], [`DiskFault::NotFound`], [`DiskFault::Exists`], [`DiskFault::ReadOnly`],
    /// [`DiskFault::Fault`].
    pub fn rename(&mut self, user: u8, old: &Name, new: &Name) -> Result<(), DiskFault>
        requires { user < USERS }
        ensures done { IsRenamed S.sectors S.faults self.old self.new user old.now new.now result }
        ensures refusals { IfErr result (FailsOr RefusesRenaming) }
        ensures moved { OnOk result (IsMoved self.old.kind (S.sectors self.old.device) (S.sectors self.new.device) user old.now new.now) }
        ensures others { OthersAreSame self.old.kind (S.sectors self.old.device) (S.sectors self.new.device) (IsEither user old.now new.now) }
        ensures sound { IsSound self.new.kind (directory self.new.kind (S.sectors self.new.device)) }
    {
        if self.failed {
            return Err(DiskFault::Failed);
        }
        // A law: both names have eleven bytes, as the names of entries have, each below 80H.
        is_name(old);
        is_name(new);
        renaming(&self.entries, user, old, new)?;
        self.writable = None;
        let change = Change::Rename {
            user,
            old: *old,
            new: *new,
        };
        match change_all(&mut self.device, self.kind, &mut self.entries, &change) {
            Ok(()) => Ok(()),
            Err(_) => {
                self.failed = true;
                Err(DiskFault::Fault)
            }
        }
    }

    /// Reads a record of a file, counted from 0.
    ///
    /// # Errors
    ///
    /// In this order: [`DiskFault::Failed`], [`DiskFault::NotFound`], [`DiskFault::TooFar`] above 4,095 (65,535 on a
    /// Megabyte disk), [`DiskFault::NoExtent`], [`DiskFault::Unwritten`], [`DiskFault::Fault`].
    pub fn read_block_of(
        &mut self,
        user: u8,
        name: &Name,
        number: u32,
    ) -> Result<[u8; RECORD_BYTES], DiskFault>
        requires { user < USERS }
        ensures done { IsRecordRead S.sectors S.faults self.old self.new user name.now number result }
        ensures refusals { IfErr result (FailsOr RefusesReading) }
        ensures found { IfOk result (λ bytes. file_record self.old.kind (S.sectors self.old.device) user name.now number ≡ Some bytes) }
        ensures sound { IsSound self.new.kind (directory self.new.kind (S.sectors self.new.device)) }
    {
        if self.failed {
            return Err(DiskFault::Failed);
        }
        let at = extent_near(self.kind, &self.entries, self.near, user, name, number);
        let logical_record = reading_at(self.kind, &self.entries, at, user, name, number)?;
        let mut bytes = [0; RECORD_BYTES];
        match read_record(&mut self.device, self.kind, logical_record, &mut bytes) {
            Ok(()) => {
                self.near = at.unwrap_or(self.near);
                Ok(bytes)
            }
            Err(_) => {
                self.failed = true;
                Err(DiskFault::Fault)
            }
        }
    }

    /// Writes a record of a file, counted from 0. If its block is new, the other records in it become zeros.
    ///
    /// If the device fails on the way, the records of the file are all as before the call, or all as after it; none is half written.
    ///
    /// # Errors
    ///
    /// In this order: [`DiskFault::Failed`], [`DiskFault::NotFound`], [`DiskFault::ReadOnly`], [`DiskFault::TooFar`] above 4,095 (65,535
    /// on a Megabyte disk), [`DiskFault::DirectoryFull`] if the record needs a new extent, [`DiskFault::DiskFull`] if it needs a new
    /// block, [`DiskFault::Fault`].
    pub fn write_block_of(
        &mut self,
        user: u8,
        name: &Name,
        number: u32,
        bytes: &[u8; RECORD_BYTES],
    ) -> Result<(), DiskFault>
        requires { user < USERS }
        ensures done { IsRecordWritten S.sectors S.faults self.old self.new user name.now number bytes.now result }
        ensures refusals { IfErr result (FailsOr RefusesWriting) }
        ensures written { OnOk result (HasRecord self.old.kind (S.sectors self.old.device) (S.sectors self.new.device) user name.now number bytes.now) }
        ensures stopped { OnErr result (HasSameRecords self.old.kind (S.sectors self.old.device) (S.sectors self.new.device) user name.now
            ⊎ HasRecord self.old.kind (S.sectors self.old.device) (S.sectors self.new.device) user name.now number bytes.now) }
        ensures others { OthersAreSame self.old.kind (S.sectors self.old.device) (S.sectors self.new.device) (IsFile user name.now) }
        ensures sound { IsSound self.new.kind (directory self.new.kind (S.sectors self.new.device)) }
    {
        if self.failed {
            return Err(DiskFault::Failed);
        }
        let at = extent_near(self.kind, &self.entries, self.near, user, name, number);
        let may_write = is_known(&self.writable, user, name);
        let place = writing_at(self.kind, &self.entries, at, may_write, user, name, number)?;
        match write_all(
            &mut self.device,
            self.kind,
            &mut self.entries,
            &place,
            number % u32::from(self.kind.block_records()),
            bytes,
        ) {
            Ok(()) => {
                self.near = place.entry_number;
                self.writable = Some(Writable { user, name: *name });
                Ok(())
            }
            Err(_) => {
                self.failed = true;
                Err(DiskFault::Fault)
            }
        }
    }

    /// Lists the files, by user and then by name.
    ///
    /// # Errors
    ///
    /// [`DiskFault::Failed`], [`DiskFault::NoMemory`].
    pub fn list(&self, alloc: Global) -> Result<Vec<Listed>, DiskFault>
        ensures sound { IsSound self.now.kind (directory self.now.kind (S.sectors self.now.device)) }
        ensures listing { IsListedBy S.sectors (λ listed. listed.items) self.now result }
    {
        if self.failed {
            return Err(DiskFault::Failed);
        }
        list(alloc, &self.entries)
    }
}

impl Disk<MemoryImage> {
    ghost use Rattle.std.specs.Prelude.{◌≡◌, IfOk};

    /// A second disk with a copy of the image.
    ///
    /// # Errors
    ///
    /// [`AllocError`] if memory runs out.
    pub fn copied(&self, alloc: Global) -> Result<Disk<MemoryImage>, AllocError>
        ensures { IfOk result (λ copy. copy ≡ self.now) }
    {
        Ok(Disk {
            device: image_copied(alloc, self.kind, &self.device)?,
            kind: self.kind,
            entries: self.entries.clone()?,
            failed: self.failed,
            near: self.near,
            writable: self.writable,
        })
    }
}
