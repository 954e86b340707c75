//! The position of a file control block in its file.

use cpm_disk::{DiskKind, Fcb, Stop};
use cpm_image::{EXTENT_RECORDS, LAST_EXTENT, S2_RECORDS, S2_VALUES};

/// The position of a file control block in its file: EX, S2 and CR.
#[derive(Clone, Copy, Debug, PartialEq, Eq)]
pub struct Place {
    pub extent: u8,
    pub s2: u8,
    pub current: u8,
}

impl Place {
    ghost use Rattle.std.specs.Prelude.{◌≡◌, ◌<◌, ◌≤◌, IfSome, OnOk, false};
    ghost use Rattle.cpm_bdos.specs.Records.Places.{is_bad, next_extent, next_high, place_judged, place_of, record_at, turned};

    /// The position in a file control block.
    pub fn of(fcb: &Fcb) -> Place
        ensures { result ≡ place_of fcb.now }
    {
        Place {
            extent: fcb.extent(),
            s2: fcb.s2(),
            current: fcb.current(),
        }
    }

    /// The number of the record at this position. S2 counts only on a Megabyte disk.
    pub fn record(self, kind: DiskKind) -> u32
        ensures { result ≡ record_at kind self }
    {
        let high = match kind {
            DiskKind::EightInch => 0,
            DiskKind::Megabyte => u32::from(self.s2 % S2_VALUES),
        };
        S2_RECORDS as u32 * high
            + EXTENT_RECORDS as u32 * u32::from(self.extent)
            + u32::from(self.current)
    }

    /// Tests a position for reading or writing the next record: EX, CR and, on a Megabyte disk, the low six bits of S2 must not be too
    /// great.
    pub(crate) fn judge(self, kind: DiskKind) -> Result<(), Stop>
        ensures judged { result ≡ place_judged kind self }
        ensures within { OnOk result (self.current ≤ EXTENT_RECORDS) }
    {
        if self.is_bad(kind) {
            Err(Stop::BadFcb)
        } else {
            Ok(())
        }
    }

    fn is_bad(self, kind: DiskKind) -> bool
        ensures bad { result ≡ is_bad kind self }
        ensures within { result ≡ false → self.current ≤ EXTENT_RECORDS }
    {
        let bad = self.extent > LAST_EXTENT || self.current > EXTENT_RECORDS;
        match kind {
            DiskKind::EightInch => bad,
            DiskKind::Megabyte => bad || self.s2 % S2_VALUES > kind.last_high(),
        }
    }

    /// The position of the next record: if CR is 128, it is record 0 of the next extent; `None` if there is none.
    pub(crate) fn turned(self, kind: DiskKind) -> Option<Place>
        ensures place { result ≡ turned kind self }
        ensures within { self.current ≤ EXTENT_RECORDS → IfSome result (λ p. p.current < EXTENT_RECORDS) }
    {
        if self.current == EXTENT_RECORDS {
            self.next_extent(kind)
        } else {
            Some(self)
        }
    }

    /// The position at the beginning of the next extent. After EX 31 that is EX 0 of the next S2, which exists only on a Megabyte disk.
    fn next_extent(self, kind: DiskKind) -> Option<Place>
        ensures place { result ≡ next_extent kind self }
        ensures within { IfSome result (λ p. p.current < EXTENT_RECORDS) }
    {
        if self.extent < LAST_EXTENT {
            return Some(Place {
                extent: self.extent + 1,
                current: 0,
                ..self
            });
        }
        match kind {
            DiskKind::EightInch => None,
            DiskKind::Megabyte => self.next_high(),
        }
    }

    /// The position at the beginning of the first extent of the next S2, if there is one.
    fn next_high(self) -> Option<Place>
        ensures place { result ≡ next_high DiskKind.Megabyte self }
        ensures within { IfSome result (λ p. p.current < EXTENT_RECORDS) }
    {
        if self.s2 % S2_VALUES < DiskKind::Megabyte.last_high() {
            Some(Place {
                extent: 0,
                s2: self.s2 + 1,
                current: 0,
            })
        } else {
            None
        }
    }
}
