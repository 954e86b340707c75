//! Random cases: a disk, and calls on it.

use crate::asked::{Asked, some_asked, some_name};
use crate::filled::{Filling, filled};
use crate::machine::{FCB, Machine, Plain, mounted};
use crate::model::ANY;
use crate::player::{Left, Reply, System};
use cpm_bdos::Stop;
use cpm_console::MemoryConsole;
use cpm_disk::DiskKind;
use std::alloc::Global;
use std::process::Abort;
use std::test::Fail;
use z80dev_cases::Draw;

/// The machine under test, and the model of the system that it has to agree with.
#[derive(Drop)]
struct Pair {
    machine: Plain,
    system: System,
    seed: u64,
    counts: Counts,
}

/// The number of calls with each kind of answer.
#[derive(Clone, Copy, Debug)]
struct Counts {
    /// Calls that answered 0 to 3.
    done: u32,
    refused: u32,
    /// Writes by number that found no free block, or no free directory entry.
    disk_full: u32,
    directory_full: u32,
}

impl Counts {
    fn new() -> Counts {
        Counts {
            done: 0,
            refused: 0,
            disk_full: 0,
            directory_full: 0,
        }
    }

    fn count(&mut self, function: u8, answer: Result<u16, Stop>) {
        if matches!(answer, Ok(0..4)) {
            self.done = self.done.saturating_add(1);
        } else {
            self.refused = self.refused.saturating_add(1);
        }
        if function == 34 && answer == Ok(2) {
            self.disk_full = self.disk_full.saturating_add(1);
        }
        if function == 34 && answer == Ok(5) {
            self.directory_full = self.directory_full.saturating_add(1);
        }
    }

    fn add(&mut self, more: Counts) {
        self.done = self.done.saturating_add(more.done);
        self.refused = self.refused.saturating_add(more.refused);
        self.disk_full = self.disk_full.saturating_add(more.disk_full);
        self.directory_full = self.directory_full.saturating_add(more.directory_full);
    }
}

/// Addresses of the DMA buffer.
const BUFFERS: [u16; 4] = [0x0080, 0x2000, 0x4080, 0xF000];

impl Pair {
    /// Writes the file control block to memory, and makes the call.
    fn call(&mut self, function: u8, asked: &Asked) -> Result<u16, Stop> {
        self.machine.put_fcb(FCB, &asked.name, asked.place);
        self.machine.put(FCB, &[asked.drive]);
        self.machine.put(FCB + 17, &asked.other);
        let [low, middle, high, _] = asked.random.to_le_bytes();
        self.machine.put_random(FCB, [low, middle, high]);
        self.machine.call(function, FCB)
    }

    fn assert_answer(
        &mut self,
        rt: &impl Abort,
        function: u8,
        found: Result<u16, Stop>,
        wanted: Result<u16, Stop>,
    ) {
        assert_eq!(rt; found, wanted, "seed {}, call {function}", self.seed);
        self.counts.count(function, wanted);
    }

    /// Asserts EX, S2 and CR, and the buffer if a record was read or written.
    fn assert_left(&self, rt: &impl Abort, function: u8, left: &Left) {
        let [extent, s2, current] = left.place;
        let memory = &self.machine.memory;
        let found = [
            memory.get(FCB + 12),
            memory.get(FCB + 14),
            memory.get(FCB + 32),
        ];
        assert_eq!(rt;
            found,
            [extent, s2, current],
            "seed {}, call {function}",
            self.seed
        );
        if let Some(fill) = left.fill {
            let bytes = self.machine.expect_bytes(self.system.dma, &[fill; 128]);
            assert_eq!(rt; bytes, Ok(()), "seed {}, call {function}", self.seed);
        }
    }

    /// Makes a call of a function on files, and asserts its answer and what it leaves.
    fn assert_call(&mut self, rt: &impl Abort, function: u8, asked: &Asked, reply: &Reply) {
        let (wanted, left) = reply;
        let found = self.call(function, asked);
        self.assert_answer(rt, function, found, *wanted);
        self.assert_left(rt, function, left);
    }

    /// Asserts the entry that a search found, in the buffer.
    fn assert_found(&self, rt: &impl Abort, left: &Left) {
        let Some(entry) = left.entry else {
            return;
        };
        let at = self.system.dma.wrapping_add((entry % 4) as u16 * 32);
        let same = match self.system.model.extent_at(entry) {
            None => self.machine.expect_bytes(at, &[0xE5]),
            Some(extent) => {
                let own = self.machine.expect_bytes(at, &[extent.user]);
                assert_eq!(rt; own, Ok(()), "seed {}", self.seed);
                let name = self.machine.expect_bytes(at.wrapping_add(1), &extent.name);
                assert_eq!(rt; name, Ok(()), "seed {}", self.seed);
                let [low, high] = [extent.number % 32, extent.number / 32];
                let place = [(low % 32) as u8, 0, (high % 64) as u8, extent.count];
                self.machine.expect_bytes(at.wrapping_add(12), &place)
            }
        };
        assert_eq!(rt; same, Ok(()), "seed {}", self.seed);
    }

    /// Functions 17 and 18.
    fn search(&mut self, rt: &impl Abort, draw: &mut Draw) {
        let mut asked = some_asked(draw, true);
        if draw.one_in(6) {
            asked.drive = ANY;
        }
        if draw.one_in(3) {
            asked.place = [ANY, 0, 0];
        }
        let reply = self.system.search_first(&asked);
        self.assert_call(rt, 17, &asked, &reply);
        self.assert_found(rt, &reply.1);
        for _ in 0..draw.below(6) {
            let other = some_asked(draw, true);
            let reply = self.system.search_next(&other);
            self.assert_call(rt, 18, &other, &reply);
            self.assert_found(rt, &reply.1);
        }
    }

    /// Fills the buffer with a random byte, for a write.
    fn fill(&mut self, draw: &mut Draw) -> Option<u8> {
        let fill = draw.byte();
        self.machine.put(self.system.dma, &[fill; 128]);
        Some(fill)
    }

    /// Functions 26, 13 and 32, which set the buffer and the user.
    fn set(&mut self, rt: &impl Abort, draw: &mut Draw) {
        let (function, argument, wanted) = match draw.below(4) {
            0 => {
                self.system.dma = 0x0080;
                (13, draw.word(), 0)
            }
            1 => (32, 0x12FF, u16::from(self.system.user)),
            2 => {
                let user = draw.byte() % 3;
                self.system.user = user;
                (32, 0x7700 + u16::from(user), 0)
            }
            _ => {
                let buffer = match BUFFERS.get(draw.index(BUFFERS.len())) {
                    Some(buffer) => *buffer,
                    None => 0x0080,
                };
                self.system.dma = buffer;
                (26, buffer, 0)
            }
        };
        let found = self.machine.call(function, argument);
        self.assert_answer(rt, function, found, Ok(wanted));
    }

    /// Functions 35 and 36.
    fn measure(&mut self, rt: &impl Abort, draw: &mut Draw) {
        let asked = some_asked(draw, false);
        let (function, (wanted, number)) = if draw.one_in(2) {
            (35, self.system.size(&asked))
        } else {
            (36, self.system.number(&asked))
        };
        let found = self.call(function, &asked);
        self.assert_answer(rt, function, found, wanted);
        let [low, middle, high, _] = number.to_le_bytes();
        let bytes = self.machine.expect_bytes(FCB + 33, &[low, middle, high]);
        assert_eq!(rt; bytes, Ok(()), "seed {}, call {function}", self.seed);
    }

    /// Functions 20, 21, 33 and 34.
    fn transfer(&mut self, rt: &impl Abort, draw: &mut Draw) {
        let asked = some_asked(draw, false);
        let written = if draw.one_in(2) {
            self.fill(draw)
        } else {
            None
        };
        let is_random = draw.one_in(2);
        let reply = if is_random {
            self.system.take_at(&asked, written)
        } else {
            self.system.take_turn(&asked, written)
        };
        let function = match (is_random, written.is_some()) {
            (false, false) => 20,
            (false, true) => 21,
            (true, false) => 33,
            (true, true) => 34,
        };
        self.assert_call(rt, function, &asked, &reply);
    }

    /// A function on a whole file.
    fn change(&mut self, rt: &impl Abort, draw: &mut Draw) {
        let kind = draw.below(12);
        let asked = some_asked(draw, kind < 3);
        let (function, reply) = match kind {
            0 | 1 => (15, self.system.open(&asked)),
            2 => (19, self.system.erase(&asked)),
            3 | 4 => (16, self.system.close(&asked)),
            5 | 6 => (23, self.system.rename(&asked)),
            _ => (22, self.system.make(&asked)),
        };
        self.assert_call(rt, function, &asked, &reply);
    }

    /// Writes or reads a number of records, one after the other, from the beginning of a file, with one file control block.
    fn run_through(&mut self, rt: &impl Abort, draw: &mut Draw) {
        let is_written = draw.one_in(2);
        let mut asked = some_asked(draw, false);
        asked.name = some_name(draw);
        asked.place = [0, 0, 0];
        for _ in 0..draw.below(200) {
            let written = if is_written { self.fill(draw) } else { None };
            let (wanted, left) = self.system.take_turn(&asked, written);
            let function = if is_written { 21 } else { 20 };
            self.assert_call(rt, function, &asked, &(wanted, left));
            let place = left.place;
            asked.place = place;
            if wanted != Ok(0) {
                break;
            }
        }
    }

    fn play(&mut self, rt: &impl Abort, draw: &mut Draw) {
        match draw.below(16) {
            0 | 1 => self.set(rt, draw),
            2 | 3 => self.search(rt, draw),
            4 => self.measure(rt, draw),
            5..9 => self.change(rt, draw),
            9 => self.run_through(rt, draw),
            _ => self.transfer(rt, draw),
        }
    }
}

/// The disk of a case: empty, with a few extents, with more, or nearly full.
fn disk_of(alloc: Global, draw: &mut Draw, kind: DiskKind) -> Result<Filling, Fail> {
    let extents = match draw.below(4) {
        0 => 0,
        1 => 12,
        2 => 60,
        _ => 10_000,
    };
    filled(alloc, draw, kind, extents)
}

fn new_pair(alloc: Global, draw: &mut Draw, kind: DiskKind, seed: u64) -> Result<Pair, Fail> {
    let Filling { image, model, .. } = disk_of(alloc, draw, kind)?;
    let disk = mounted(alloc, image)?;
    let console = MemoryConsole::new(alloc, Vec::new(alloc));
    Ok(Pair {
        machine: Machine::new(alloc, disk, console)?,
        system: System {
            model,
            user: 0,
            dma: 0x0080,
            search: None,
        },
        seed,
        counts: Counts::new(),
    })
}

/// Plays a case on a disk of a format: eighty times one or a few calls. Counts their answers.
fn try_case(rt: &impl Abort, alloc: Global, kind: DiskKind, seed: u64) -> Result<Counts, Fail> {
    let mut draw = Draw::new(seed);
    let mut pair = new_pair(alloc, &mut draw, kind, seed)?;
    for _ in 0..80 {
        pair.play(rt, &mut draw);
    }
    Ok(pair.counts)
}

/// Plays two hundred cases, and asserts that each kind of answer occurs often.
fn try_cases(rt: &impl Abort, alloc: Global, kind: DiskKind) -> Result<(), Fail> {
    let mut counts = Counts::new();
    for seed in 0..200 {
        let more = try_case(rt, alloc, kind, seed)?;
        counts.add(more);
    }
    assert!(rt; counts.done >= 8000 && counts.refused >= 4000, "{counts:?}");
    assert!(rt;
        counts.disk_full >= 20 && counts.directory_full >= 5,
        "{counts:?}"
    );
    Ok(())
}

#[test]
fn eight_inch_disks(rt: HostRuntime) -> Result<(), Fail> {
    try_cases(&rt, rt.alloc(), DiskKind::EightInch)
}

#[test]
fn megabyte_disks(rt: HostRuntime) -> Result<(), Fail> {
    try_cases(&rt, rt.alloc(), DiskKind::Megabyte)
}
