//! What the model says that each call answers and leaves of its file control block and the buffer.

use crate::asked::Asked;
use crate::model::{ANY, Model, Refusal, Sought};
use cpm_bdos::Stop;

/// A search: what it looks for, and the number of the entry that it found last.
#[derive(Clone, Copy)]
pub(crate) struct Search {
    sought: Sought,
    found: usize,
}

/// The model of the system: a disk, the user, the buffer and the last search.
#[derive(Drop)]
pub(crate) struct System {
    pub(crate) model: Model,
    pub(crate) user: u8,
    pub(crate) dma: u16,
    pub(crate) search: Option<Search>,
}

/// What a call leaves: EX, S2 and CR, the byte that fills the record in the buffer, or the number of the entry that was found.
#[derive(Clone, Copy)]
pub(crate) struct Left {
    pub(crate) place: [u8; 3],
    pub(crate) fill: Option<u8>,
    pub(crate) entry: Option<usize>,
}

/// The answer of a call, and what it leaves.
pub(crate) type Reply = (Result<u16, Stop>, Left);

/// The number of an entry modulo 4, or FFH if there is none.
fn code(entry: Option<usize>) -> u16 {
    match entry {
        Some(number) => (number % 4) as u16,
        None => 0xFF,
    }
}

impl System {
    /// A reply that leaves the file control block as it is.
    fn keeps(asked: &Asked, answer: Result<u16, Stop>) -> Reply {
        let left = Left {
            place: asked.place,
            fill: None,
            entry: None,
        };
        (answer, left)
    }

    /// Function 15 finds the first entry that matches, with S2 taken as 0.
    pub(crate) fn open(&self, asked: &Asked) -> Reply {
        if let Err(stop) = asked.judge_drive() {
            return System::keeps(asked, Err(stop));
        }
        let [extent, s2, current] = asked.place;
        let sought = Sought {
            is_every: false,
            user: self.user,
            pattern: asked.name,
            number: Some(u16::from(extent)),
        };
        let entry = if extent < 32 {
            self.model.search(&sought, 0)
        } else {
            None
        };
        let s2 = if entry.is_some() { 0 } else { s2 };
        let left = Left {
            place: [extent, s2, current],
            fill: None,
            entry,
        };
        (Ok(code(entry)), left)
    }

    /// The number of the extent that a file control block is at.
    fn number_of(&self, asked: &Asked) -> u16 {
        let [extent, s2, _] = asked.place;
        if self.model.is_megabyte() {
            32 * u16::from(s2 % 64) + u16::from(extent)
        } else {
            u16::from(extent)
        }
    }

    /// Function 16 finds the entry of the extent.
    pub(crate) fn close(&self, asked: &Asked) -> Reply {
        if let Err(stop) = asked.judge_file() {
            return System::keeps(asked, Err(stop));
        }
        let [extent, ..] = asked.place;
        let entry = if extent < 32 {
            self.model
                .find(self.user, &asked.name, self.number_of(asked))
        } else {
            None
        };
        System::keeps(asked, Ok(code(entry)))
    }

    /// Continues a search from entry `from` on.
    fn go_on(&mut self, asked: &Asked, sought: Sought, from: usize) -> Reply {
        let entry = self.model.search(&sought, from);
        self.search = match entry {
            Some(found) => Some(Search { sought, found }),
            None => None,
        };
        let left = Left {
            place: asked.place,
            fill: None,
            entry,
        };
        (Ok(code(entry)), left)
    }

    /// Function 17: with `?` as the drive it finds every entry, and with `?` as EX every extent.
    pub(crate) fn search_first(&mut self, asked: &Asked) -> Reply {
        let is_every = asked.drive == ANY;
        if !is_every && let Err(stop) = asked.judge_drive() {
            return System::keeps(asked, Err(stop));
        }
        let [extent, ..] = asked.place;
        // No entry has an EX above 31, and S2 is taken as 0.
        let number = match extent {
            ANY => None,
            0..32 => Some(u16::from(extent)),
            _ => Some(u16::MAX),
        };
        let sought = Sought {
            is_every,
            user: self.user,
            pattern: asked.name,
            number,
        };
        self.go_on(asked, sought, 0)
    }

    /// Function 18 continues after the entry that was found last.
    pub(crate) fn search_next(&mut self, asked: &Asked) -> Reply {
        match self.search {
            Some(search) => self.go_on(asked, search.sought, search.found.saturating_add(1)),
            None => System::keeps(asked, Ok(0xFF)),
        }
    }

    /// Function 19.
    pub(crate) fn erase(&mut self, asked: &Asked) -> Reply {
        if let Err(stop) = asked.judge_drive() {
            return System::keeps(asked, Err(stop));
        }
        let has_erased = self.model.erase(self.user, &asked.name);
        System::keeps(asked, Ok(if has_erased { 0 } else { 0xFF }))
    }

    /// Function 22.
    pub(crate) fn make(&mut self, asked: &Asked) -> Reply {
        if let Err(stop) = asked.judge_file() {
            return System::keeps(asked, Err(stop));
        }
        if self.model.has_file(self.user, &asked.name) {
            return System::keeps(asked, Ok(0xFF));
        }
        let entry = self.model.add(self.user, &asked.name, 0);
        let [.., current] = asked.place;
        let place = if entry.is_some() {
            [0, 0, current]
        } else {
            asked.place
        };
        let left = Left {
            place,
            fill: None,
            entry: None,
        };
        (Ok(code(entry)), left)
    }

    /// Function 23.
    pub(crate) fn rename(&mut self, asked: &Asked) -> Reply {
        if let Err(stop) = asked.judge_names() {
            return System::keeps(asked, Err(stop));
        }
        let has_old = self.model.has_file(self.user, &asked.name);
        if !has_old || self.model.has_file(self.user, &asked.other) {
            return System::keeps(asked, Ok(0xFF));
        }
        self.model.rename(self.user, &asked.name, &asked.other);
        System::keeps(asked, Ok(0))
    }

    /// The position of the next record: CR 128 is record 0 of the next extent. `None` after the last extent; a stop if EX, S2 or CR is
    /// out of range.
    fn turned(&self, asked: &Asked) -> Result<Option<[u8; 3]>, Stop> {
        asked.judge_file()?;
        let [extent, s2, current] = asked.place;
        let is_megabyte = self.model.is_megabyte();
        if extent > 31 || current > 128 || is_megabyte && s2 % 64 > 15 {
            return Err(Stop::BadFcb);
        }
        Ok(match (current, extent) {
            (0..128, _) => Some(asked.place),
            (_, 0..31) => Some([extent.saturating_add(1), s2, 0]),
            _ if is_megabyte && s2 % 64 < 15 => Some([0, s2.saturating_add(1), 0]),
            _ => None,
        })
    }

    /// The number of the record at a position.
    fn record_at(&self, place: [u8; 3]) -> u32 {
        let [extent, s2, current] = place;
        let high = if self.model.is_megabyte() {
            4096 * u32::from(s2 % 64)
        } else {
            0
        };
        high + 128 * u32::from(extent) + u32::from(current)
    }

    /// Functions 20 and 21: the next record is read, or written full of one byte.
    pub(crate) fn take_turn(&mut self, asked: &Asked, written: Option<u8>) -> Reply {
        let place = match self.turned(asked) {
            Ok(Some(place)) => place,
            Ok(None) => {
                let past = if written.is_some() { 2 } else { 1 };
                return System::keeps(asked, Ok(past));
            }
            Err(stop) => return System::keeps(asked, Err(stop)),
        };
        let record = self.record_at(place);
        let outcome = match written {
            Some(fill) => self.write(&asked.name, record, fill),
            None => self.model.read(self.user, &asked.name, record),
        };
        let refused = match (outcome, written) {
            (Ok(fill), _) => {
                let [extent, s2, current] = place;
                let left = Left {
                    place: [extent, s2, current.saturating_add(1)],
                    fill: Some(fill),
                    entry: None,
                };
                return (Ok(0), left);
            }
            (Err(Refusal::NoFile), Some(_)) => Err(Stop::BadFcb),
            (Err(Refusal::DiskFull), _) => Ok(2),
            (Err(_), _) => Ok(1),
        };
        System::keeps(asked, refused)
    }

    fn write(&mut self, name: &[u8; 11], record: u32, fill: u8) -> Result<u8, Refusal> {
        self.model.write(self.user, name, record, fill)?;
        Ok(fill)
    }

    /// Functions 33 and 34: a record is read by its number, or written full of one byte.
    pub(crate) fn take_at(&mut self, asked: &Asked, written: Option<u8>) -> Reply {
        if let Err(stop) = asked.judge_file() {
            return System::keeps(asked, Err(stop));
        }
        let most = if self.model.is_megabyte() {
            65_536
        } else {
            4096
        };
        if asked.random >= most {
            return System::keeps(asked, Ok(6));
        }
        let record = asked.random;
        let outcome = match written {
            Some(fill) => self.write(&asked.name, record, fill),
            None => self.model.read(self.user, &asked.name, record),
        };
        let (answer, fill) = match (outcome, written) {
            (Ok(fill), _) => (0, Some(fill)),
            (Err(Refusal::NoFile), Some(_)) => return System::keeps(asked, Err(Stop::BadFcb)),
            (Err(Refusal::NoFile | Refusal::NoExtent), _) => (4, None),
            (Err(Refusal::Unwritten), _) => (1, None),
            (Err(Refusal::DiskFull), _) => (2, None),
            (Err(Refusal::DirectoryFull), _) => (5, None),
        };
        let left = Left {
            place: [
                (record / 128 % 32) as u8,
                (record / 4096 % 16) as u8,
                (record % 128) as u8,
            ],
            fill,
            entry: None,
        };
        (Ok(answer), left)
    }

    /// Function 35: the answer, and the number of records.
    pub(crate) fn size(&self, asked: &Asked) -> (Result<u16, Stop>, u32) {
        if let Err(stop) = asked.judge_file() {
            return (Err(stop), asked.random);
        }
        match self.model.size(self.user, &asked.name) {
            Some(size) => (Ok(0), size),
            None => (Ok(0xFF), 0),
        }
    }

    /// Function 36: the answer, and the number of the record.
    pub(crate) fn number(&self, asked: &Asked) -> (Result<u16, Stop>, u32) {
        match asked.judge_file() {
            Ok(()) => (Ok(0), self.record_at(asked.place)),
            Err(stop) => (Err(stop), asked.random),
        }
    }
}
