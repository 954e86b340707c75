//! Runs a program again as in an earlier session, with the bytes of its record.

ghost use Rattle.std.specs.Prelude.{◌≡◌, ◌≢◌, ◌≤◌, ◌<◌, [], ℕ, Err, IfOk, List, OnOk, map, max, true};
ghost use Rattle.cpm_run.specs.declared.arriving.PlayEnd.TheVariants as play;
ghost use Rattle.cpm_run.specs.Play.{FollowsRecord, IsReplayed, IsShownAgain, NextIsDue, PlayState, ReplayEnds, due_from, last_due};
ghost use Rattle.cpm_console.specs.Seat.{Seat};
ghost use Rattle.cpm_run.specs.Private.Playing.{EndsTold, HasReached, IsQuiet, IsUnasked, OnlyShows, Repeats, RepeatsTo, Stands, ToldOn, state_of};

use crate::arriving::{Arrival, PlayEnd};
use crate::ending::Why;
use crate::places::is_finished;
use crate::playing::state::Playing;
use crate::playing::{Played, SLICE, unplayed};
use crate::starting::start;
use cpm_console::Station;
use cpm_disk::Disk;
use cpm_image::Sectors;
use std::alloc::Global;

impl<S: Sectors> Playing<S> {
    /// Makes steps up to an address of the system, and the step there, but not more than `target` steps in all. Answers whether these are made.
    fn go_towards<K: Station>(
        &mut self,
        station: &mut K,
        target: u64,
        limit: u64,
    ) -> Result<bool, PlayEnd>
        requires bound { self.old.turns ≤ limit }
        requires within { target ≤ limit }
        ensures bound { self.new.turns ≤ limit }
        ensures target { self.new.turns ≤ max self.old.turns target }
        ensures least { self.old.turns ≤ self.new.turns }
        ensures arrivals { self.new.arrivals.items ≡ self.old.arrivals.items }
        ensures reached { IfOk result (λ done. HasReached target limit done self.old self.new) }
        ensures ending { result ≢ Err play.Left }
        ensures memory { result ≢ Err play.NoMemory }
        ensures told { (before : Seat) → IsQuiet before self.old (K.seat station.old) → ToldOn result before self.new (K.seat station.new) }
        ensures keys { IsUnasked (K.seat station.old) (K.seat station.new) }
        ensures stands { (start : PlayState S) (before : Seat) → Stands S.sectors S.faults start before self.old (K.seat station.old) → Repeats S.sectors S.faults limit result start before self.new (K.seat station.new) }
    {
        if let Some(why) = self.compute(target.saturating_sub(self.turns).min(SLICE)) {
            return Err(PlayEnd::Run(why));
        }
        if is_finished(self.cpu.pc) {
            return Err(PlayEnd::Run(Why::Finished));
        }
        if self.turns == limit {
            return Err(PlayEnd::Run(Why::TurnLimit));
        }
        if self.turns >= target {
            return Ok(true);
        }
        if let Some(why) = self.take_turn() {
            return Err(PlayEnd::Run(why));
        }
        match self.show_much(station) {
            Ok(()) => Ok(false),
            Err(_) => Err(PlayEnd::Failed),
        }
    }

    /// Makes steps until `target` are made in all, or the run ends.
    fn go_to<K: Station>(&mut self, station: &mut K, target: u64, limit: u64) -> Result<(), PlayEnd>
        requires bound { self.old.turns ≤ limit }
        requires within { target ≤ limit }
        ensures bound { self.new.turns ≤ limit }
        ensures target { self.new.turns ≤ max self.old.turns target }
        ensures least { self.old.turns ≤ self.new.turns }
        ensures arrivals { self.new.arrivals.items ≡ self.old.arrivals.items }
        ensures reached { OnOk result (HasReached target limit true self.old self.new) }
        ensures ending { result ≢ Err play.Left }
        ensures memory { result ≢ Err play.NoMemory }
        ensures told { (before : Seat) → IsQuiet before self.old (K.seat station.old) → ToldOn result before self.new (K.seat station.new) }
        ensures keys { IsUnasked (K.seat station.old) (K.seat station.new) }
        ensures stands { (start : PlayState S) (before : Seat) → Stands S.sectors S.faults start before self.old (K.seat station.old) → Repeats S.sectors S.faults limit result start before self.new (K.seat station.new) }
    {
        loop {
            match self.go_towards(station, target, limit) {
                Ok(true) => return Ok(()),
                Ok(false) => {}
                Err(end) => return Err(end),
            }
        }
    }

    /// Lets each byte of a record come after its number of steps, and then makes steps until `last` are made. Answers how the session ends.
    fn repeat<K: Station>(
        &mut self,
        alloc: Global,
        station: &mut K,
        recorded: &[Arrival],
        last: u64,
        limit: u64,
    ) -> PlayEnd
        requires bound { self.old.turns ≤ limit }
        ensures bound { self.new.turns ≤ limit }
        ensures follows { self.old.arrivals.items ≡ [] → self.old.turns ≡ 0 → FollowsRecord (due_from 0 recorded.now) (last_due 0 recorded.now last) self.new.turns self.new.arrivals.items × (result ≡ play.Left → self.new.arrivals.items ≡ due_from 0 recorded.now) }
        ensures short { self.old.arrivals.items ≡ [] → result ≡ play.NoMemory → NextIsDue recorded.now self.new.turns self.new.arrivals.items }
        ensures told { (before : Seat) → IsQuiet before self.old (K.seat station.old) → EndsTold result before self.new (K.seat station.new) }
        ensures keys { IsUnasked (K.seat station.old) (K.seat station.new) }
        ensures stands { (start : PlayState S) (before : Seat) → Stands S.sectors S.faults start before self.old (K.seat station.old) → RepeatsTo S.sectors S.faults limit last result start before self.new (K.seat station.new) }
    {
        for arrival in recorded {
            if let Err(end) = self.go_to(station, arrival.turn.min(limit), limit) {
                return end;
            }
            if self.take_in(alloc, &[arrival.byte]).is_err() {
                return PlayEnd::NoMemory;
            }
        }
        match self.go_to(station, last.min(limit), limit) {
            Ok(()) => PlayEnd::Left,
            Err(end) => end,
        }
    }

    /// Shows what was put last, unless the screen failed. Answers how the session ended.
    fn finish<K: Station>(&mut self, station: &mut K, end: PlayEnd) -> PlayEnd
        ensures others { OnlyShows self.old self.new }
        ensures left { result ≡ play.Left → end ≡ play.Left }
        ensures short { result ≡ play.NoMemory → end ≡ play.NoMemory }
        ensures ended { (limit last : ℕ) (start : PlayState S) (before : Seat) → RepeatsTo S.sectors S.faults limit last end start before self.old (K.seat station.old) → IsUnasked before (K.seat station.old) → EndsTold end before self.old (K.seat station.old)
            → (shown : List ℕ) × ReplayEnds S.sectors S.faults limit last start result (state_of self.old shown) × IsShownAgain result before (K.seat station.new) (state_of self.old shown) }
    {
        match end {
            PlayEnd::Failed => PlayEnd::Failed,
            PlayEnd::NoMemory => match self.show(station) {
                Ok(()) => PlayEnd::NoMemory,
                Err(_) => PlayEnd::Failed,
            },
            PlayEnd::Left => match self.show(station) {
                Ok(()) => PlayEnd::Left,
                Err(_) => PlayEnd::Failed,
            },
            PlayEnd::Run(why) => match self.show(station) {
                Ok(()) => PlayEnd::Run(why),
                Err(_) => PlayEnd::Failed,
            },
        }
    }
}

/// Runs a program as in an earlier session, for at most `limit` steps: each byte of its record comes after the number of steps that the record
/// says. If the run has not ended when `last` steps are made, the session ends there as if the person left.
///
/// The station is only shown what the program puts; it is not listened to. With the file, the words and the disk of the earlier session, each
/// step is the same as then.
pub fn replay<S: Sectors, K: Station>(
    alloc: Global,
    com: &[u8],
    words: &[&[u8]],
    disk: Disk<S>,
    recorded: &[Arrival],
    last: u64,
    station: &mut K,
    limit: u64,
) -> Played<S>
    ensures { IsReplayed S.sectors S.faults «com».now (map (λ w. w.now) words.now) disk limit recorded.now last (K.seat station.old) result.end result.turns result.pc result.disk result.arrivals.items (K.seat station.new) }
{
    let (cpu, memory) = match start(alloc, com, words) {
        Ok(state) => state,
        Err(fault) => return unplayed(alloc, fault, disk),
    };
    let mut playing = Playing::new(alloc, cpu, memory, disk);
    let end = playing.repeat(alloc, station, recorded, last, limit);
    let end = playing.finish(station, end);
    playing.into_played(end)
}
