//! The sector of each logical record of a disk.

ghost use Rattle.std.specs.Prelude.{◌≡◌, ◌<◌, ◌≤◌, ℕ};
ghost use Rattle.cpm_image.specs.declared.format.TheConstants.{RECORD_COUNT, SECTOR_COUNT};
ghost use Rattle.cpm_image.specs.Kind.{record_count, sector_count};
ghost use Rattle.cpm_image.specs.Skew.{sector, sector_of};

use crate::kind::DiskKind;
use crate::units::LogicalRecord;

/// The number of sectors on a track.
const TRACK: u32 = 26;
/// The number of system tracks, which come before the records.
const SYSTEM_TRACKS: u32 = 2;
/// The distance between consecutive records on a track, in sectors.
const STEP: u32 = 6;

/// The sector of the image, counted from 0, with this logical record of an eight inch single density disk.
///
/// The first two tracks are the system's. On each other track consecutive records are six sectors apart, round and round, as in the
/// standard translate table, so that a computer has time between two records.
pub fn logical(logical_record: LogicalRecord) -> u32
    requires { logical_record < RECORD_COUNT }
    ensures sector { result ≡ sector logical_record }
    ensures behind_system { 52 ≤ result }
    ensures within { result < SECTOR_COUNT }
    ensures distinct { (m : ℕ) → m < RECORD_COUNT → sector m ≡ sector logical_record → m ≡ logical_record }
{
    let number = logical_record.number();
    let turn = number % TRACK;
    // Six and 26 are even: after 13 steps of six the records are back where they began, and the other 13 records of the track are one
    // sector further on.
    let place = STEP * turn % TRACK + turn / (TRACK / 2);
    TRACK * (SYSTEM_TRACKS + number / TRACK) + place
}

/// The sector of the image, counted from 0, with this logical record of a disk of either format.
pub fn logical_of(kind: DiskKind, logical_record: LogicalRecord) -> u32
    requires { logical_record < record_count kind }
    ensures sector { result ≡ sector_of kind logical_record }
    ensures within { result < sector_count kind }
    ensures distinct { (m : ℕ) → m < record_count kind → sector_of kind m ≡ sector_of kind logical_record → m ≡ logical_record }
{
    match kind {
        DiskKind::EightInch => logical(logical_record),
        DiskKind::Megabyte => logical_record.number(),
    }
}
