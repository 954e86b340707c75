//! Runs a program for somebody at a keyboard.

ghost use Rattle.std.specs.Prelude.{◌≡◌, ◌≤◌, ◌<◌, [], List, OnOk, ℕ, map};
ghost use Rattle.cpm_run.specs.declared.arriving.PlayEnd.TheVariants as play;
ghost use Rattle.cpm_run.specs.declared.ending.Why.{Why};
ghost use Rattle.cpm_run.specs.Run.{unstarted};
ghost use Rattle.cpm_run.specs.Play.{Arrives, CameBefore, IsPlayed, PlayState, PlayEnds, Sees};
ghost use Rattle.cpm_console.specs.Seat.{Seat};
ghost use Rattle.cpm_run.specs.Private.Playing.{Begins, Ends, GoesRound, HasEnded, HasStopped, OnlyShows, Rests, RestsOn, state_of};

pub(crate) mod state;
mod waiting;

use crate::arriving::{Arrival, PlayEnd};
use crate::ending::{Why, unstarted};
use crate::fault::StartFault;
use crate::places::is_finished;
use crate::starting::start;
use cpm_console::Station;
use cpm_disk::Disk;
use cpm_image::Sectors;
use state::Playing;
use std::alloc::Global;

/// The machine makes at most this number of steps before the session may look at the keyboard again, so that a person can leave a program
/// that makes no calls. A look is made only once the last one is `LONGEST_UNSEEN` steps ago, so two looks are up to 4,000,000 steps apart.
pub(crate) const SLICE: u64 = 2_000_000;

/// How a session ended, the disk then, and the bytes that came.
#[derive(Drop)]
pub struct Played<S: Sectors> {
    pub end: PlayEnd,
    /// The number of steps: system calls and steps of the machine, with the last one.
    pub turns: u64,
    /// PC at the end: the address of the next instruction.
    pub pc: u16,
    pub disk: Disk<S>,
    /// Each byte that came, in order.
    pub arrivals: Vec<Arrival>,
}

impl<S: Sectors> Playing<S> {
    /// Makes steps up to an address of the system, sees that the next step has the input that it needs, and makes it.
    fn go_round<K: Station>(
        &mut self,
        alloc: Global,
        station: &mut K,
        limit: u64,
    ) -> Result<(), PlayEnd>
        requires bound { self.old.turns ≤ limit }
        ensures bound { self.new.turns ≤ limit }
        ensures further { OnOk result (self.old.turns < self.new.turns) }
        ensures looks { (start : PlayState S) (before : Seat) → Rests S.sectors S.faults start before self.old (K.seat station.old) → RestsOn S.sectors S.faults result start before self.new (K.seat station.new) }
        ensures so_far { (start : PlayState S) (before : Seat) → Begins S.sectors S.faults start before self.old (K.seat station.old) → GoesRound S.sectors S.faults limit result start before self.new (K.seat station.new) }
    {
        if let Some(why) = self.compute((limit - self.turns).min(SLICE)) {
            return Err(PlayEnd::Run(why));
        }
        if is_finished(self.cpu.pc) {
            return Err(PlayEnd::Run(Why::Finished));
        }
        if self.turns == limit {
            return Err(PlayEnd::Run(Why::TurnLimit));
        }
        if let Err(end) = self.attend(alloc, station) {
            return Err(end);
        }
        if let Some(why) = self.take_turn() {
            return Err(PlayEnd::Run(why));
        }
        match self.show_much(station) {
            Ok(()) => Ok(()),
            Err(_) => Err(PlayEnd::Failed),
        }
    }

    /// Makes steps until the session ends.
    fn play<K: Station>(&mut self, alloc: Global, station: &mut K, limit: u64) -> PlayEnd
        requires bound { self.old.turns ≤ limit }
        ensures bound { self.new.turns ≤ limit }
        ensures looks { (start : PlayState S) (before : Seat) → Rests S.sectors S.faults start before self.old (K.seat station.old) → HasStopped S.sectors S.faults result start before self.new (K.seat station.new) }
        ensures so_far { (start : PlayState S) (before : Seat) → Begins S.sectors S.faults start before self.old (K.seat station.old) → Ends S.sectors S.faults limit result start before self.new (K.seat station.new) }
    {
        loop {
            if let Err(end) = self.go_round(alloc, station, limit) {
                return end;
            }
        }
    }

    /// How the session ended, and what it leaves.
    pub(crate) fn into_played(self, end: PlayEnd) -> Played<S>
        ensures end { result.end ≡ end }
        ensures turns { result.turns ≡ self.turns }
        ensures pc { result.pc ≡ self.cpu.pc }
        ensures disk { result.disk ≡ self.bdos.disk }
        ensures arrivals { result.arrivals.items ≡ self.arrivals.items }
    {
        let (disk, _) = self.bdos.into_parts();
        Played {
            end,
            turns: self.turns,
            pc: self.cpu.pc,
            disk,
            arrivals: self.arrivals,
        }
    }

    /// Shows what was put last, if the run has ended. Answers how the session ended.
    fn close<K: Station>(&mut self, station: &mut K, end: PlayEnd) -> PlayEnd
        ensures others { OnlyShows self.old self.new }
        ensures looks { (start : PlayState S) (before : Seat) → HasStopped S.sectors S.faults end start before self.old (K.seat station.old) → HasEnded S.sectors S.faults result start before self.old (K.seat station.new) }
        ensures ended { (limit : ℕ) (start : PlayState S) (before : Seat) → Ends S.sectors S.faults limit end start before self.old (K.seat station.old) → HasStopped S.sectors S.faults end start before self.old (K.seat station.old)
            → (shown : List ℕ) × PlayEnds S.sectors S.faults limit start result (state_of self.old shown) × Arrives before self.old.arrivals.items × Sees result before (K.seat station.new) (state_of self.old shown)
            × ((reason : Why) → result ≡ play.Run reason → CameBefore self.old.turns self.old.arrivals.items) }
    {
        match end {
            PlayEnd::Run(why) => match self.show(station) {
                Ok(()) => PlayEnd::Run(why),
                Err(_) => PlayEnd::Failed,
            },
            other => other,
        }
    }
}

/// What is left of a program that cannot be started.
pub(crate) fn unplayed<S: Sectors>(alloc: Global, fault: StartFault, disk: Disk<S>) -> Played<S>
    ensures end { result.end ≡ play.Run (unstarted fault) }
    ensures turns { result.turns ≡ 0 }
    ensures pc { result.pc ≡ 0x0100 }
    ensures disk { result.disk ≡ disk }
    ensures arrivals { result.arrivals.items ≡ [] }
{
    Played {
        end: PlayEnd::Run(unstarted(fault)),
        turns: 0,
        pc: 0x0100,
        disk,
        arrivals: Vec::new(alloc),
    }
}

/// Runs a program from 0100H with its words, on a disk, which is drive A, for somebody at a keyboard, for at most `limit` steps.
///
/// A step is that of [`crate::run`]. Bytes come between steps: before a step that asks whether a byte is there, before one that takes a
/// byte or a line, and from time to time. A step that takes a byte or a line is made only when it has what it takes, or when no byte will
/// come any more. Meanwhile the echo of the line is shown.
pub fn play<S: Sectors, K: Station>(
    alloc: Global,
    com: &[u8],
    words: &[&[u8]],
    disk: Disk<S>,
    station: &mut K,
    limit: u64,
) -> Played<S>
    ensures { IsPlayed S.sectors S.faults «com».now (map (λ w. w.now) words.now) disk limit (K.seat station.old) result.end result.turns result.pc result.disk result.arrivals.items (K.seat station.new) }
{
    let (cpu, memory) = match start(alloc, com, words) {
        Ok(state) => state,
        Err(fault) => return unplayed(alloc, fault, disk),
    };
    let mut playing = Playing::new(alloc, cpu, memory, disk);
    let end = playing.play(alloc, station, limit);
    let end = playing.close(station, end);
    playing.into_played(end)
}
