//! The history of a run.

ghost use Rattle.std.specs.Prelude.{◌≡◌, ◌+◌, ◌-◌, ◌<◌, ◌^◌, option_map, true};
ghost use Rattle.std.specs.Option.{option_or};

use crate::calls::{open_call, shown_place};
use crate::kept::Keeper;
use crate::point::Point;
use crate::snapshot::Snapshot;
use crate::stops::{Goal, Hit, Stops, watched_addresses};
use cpm_console::MemoryConsole;
use cpm_disk::Disk;
use cpm_image::MemoryImage;
use cpm_run::{Arrival, StartFault, Why, start};
use std::alloc::{AllocError, Global};
use std::marker::Model;

/// How going forward ended.
#[derive(Clone, Copy, Debug, PartialEq, Eq)]
pub enum Outcome {
    /// This holds at the last turn that was made, and nothing at the turns before it.
    Held(Hit),
    /// The run has ended.
    Ended,
    /// All turns that were allowed are made.
    Limit,
}

/// A run that can show its state after any number of turns. States are kept at distances that double, so that going back takes
/// no more turns than there are between two of them.
#[derive(Drop)]
pub struct History<'a> {
    start: Snapshot<'a>,
    kept: Keeper<'a>,
    turn: u64,
    point: Point<'a>,
}

impl<'a> Model for History<'a> {
    ghost use Rattle.machine_history.specs.Walk.{Shown};

    ghost Value = { Shown };

    ghost use Rattle.machine_history.specs.Private.Kept.{IsHistory};

    ghost view = { λ h. record { start = h.start; turn = h.turn; point = h.point } };

    ghost invariant = { λ h. IsHistory h.start h.kept.states.items h.turn h.point };
}

/// The last turn at which something held, after one turn more: that one, or the last before.
fn later(last: Option<(u64, Hit)>, held: Option<Hit>, number: u64) -> Option<(u64, Hit)>
    requires { number < 2 ^ 64 - 1 }
    ensures { result ≡ option_or (option_map (λ hit. (number + 1, hit)) held) last }
{
    match held {
        Some(hit) => Some((number + 1, hit)),
        None => last,
    }
}

/// Whether two runs end for the same reason, or both go on.
fn is_same_end(one: Option<Why>, other: Option<Why>) -> bool
    ensures { result ≡ true → one ≡ other }
{
    one == other
}

impl<'a> History<'a> {
    ghost use Rattle.std.specs.Prelude.{◌≡◌, ◌+◌, ◌-◌, ◌<◌, ◌≤◌, ◌^◌, Err, IfErr, IfOk, None, OnErr, false, map, true};
    ghost use Rattle.cpm_run.specs.Start.{IsStart};
    ghost use Rattle.machine_history.specs.Calls.{IsCallBefore, shown_place};
    ghost use Rattle.machine_history.specs.Stops.{IsLast, end_at, hit_at, watched_addresses};
    ghost use Rattle.machine_history.specs.Walk.{IsAfter, IsNextPoint, IsTrue_of_run};
    ghost use Rattle.machine_history.specs.Going.{IsFirstShown, MakesTurns, RanUntil, ShowsTurn};

    /// Shows the state in which a program begins with its words on a disk and a console. The bytes of the record come later, each after its
    /// number of turns.
    ///
    /// # Errors
    ///
    /// Those of [`cpm_run::start`].
    pub fn new(
        alloc: Global,
        com: &[u8],
        words: &[&[u8]],
        disk: Disk<MemoryImage>,
        console: MemoryConsole,
        recorded: &'a [Arrival],
    ) -> Result<History<'a>, StartFault>
        ensures begins { IfOk result (IsFirstShown «com».now (map (λ w. w.now) words.now) disk console recorded.now) }
        ensures refused { IfErr result (λ fault. IsStart «com».now (map (λ w. w.now) words.now) (Err fault)) }
    {
        let (cpu, memory) = start(alloc, com, words)?;
        let start = Snapshot::new(cpu, memory, disk, console, recorded);
        let point = Point::first(start.copied(alloc)?);
        Ok(History {
            start,
            kept: Keeper::new(alloc),
            turn: 0,
            point,
        })
    }

    /// The number of turns before the state that is shown.
    pub fn turn(&self) -> u64
        ensures turn { result ≡ self.now.turn }
        ensures after { IsTrue_of_run self.now }
    {
        self.turn
    }

    /// The state that is shown, and why the run ends in it, if it does.
    pub fn point(&self) -> &Point<'a>
        ensures point { result.now ≡ self.now.point }
        ensures after { IsTrue_of_run self.now }
    {
        &self.point
    }

    /// Makes one turn.
    fn advance(&mut self, alloc: Global)
        requires going { self.old.point.end ≡ None }
        requires room { self.old.turn < 2 ^ 64 - 1 }
        ensures start { self.new.start ≡ self.old.start }
        ensures turn { self.new.turn ≡ self.old.turn + 1 }
    {
        self.point.advance(alloc);
        self.turn += 1;
        self.kept.keep(alloc, self.turn, &self.point);
    }

    /// Makes one turn, and answers what holds at it: a breakpoint, a watched byte, or the goal. `watched` has the addresses of the watched
    /// bytes.
    fn step(
        &mut self,
        alloc: Global,
        goal: Option<Goal>,
        stops: &Stops,
        watched: &[u16],
    ) -> Result<Option<Hit>, AllocError>
        requires watched { watched.now ≡ watched_addresses stops.now.watches.items }
        requires going { self.old.point.end ≡ None }
        requires room { self.old.turn < 2 ^ 64 - 1 }
        ensures start { self.new.start ≡ self.old.start }
        ensures turn { IfOk result (λ _. self.new.turn ≡ self.old.turn + 1) }
        ensures next { IfOk result (λ _. IsNextPoint self.old.point self.new.point) }
        ensures held { IfOk result (λ held. held ≡ hit_at goal stops.now self.old.point.state self.new.point.state) }
        ensures stopped { OnErr result (self.new ≡ self.old) }
    {
        let held = stops.advance(alloc, goal, watched, &mut self.point)?;
        self.turn += 1;
        self.kept.keep(alloc, self.turn, &self.point);
        Ok(held)
    }

    /// The latest point that is kept up to a number of turns, and its number; or the first one.
    fn kept_point(&self, alloc: Global, turn: u64) -> Result<(u64, Point<'a>), AllocError>
        ensures within { IfOk result (λ found. found.0 ≤ turn) }
        ensures after { IfOk result (λ found. IsAfter self.now.start found.0 found.1) }
    {
        match self.kept.latest(turn) {
            Some(kept) => Ok((kept.turn, Point::going(kept.snapshot.copied(alloc)?))),
            None => Ok((0, Point::first(self.start.copied(alloc)?))),
        }
    }

    /// Whether the point after a number of turns is reached sooner from one that is kept than from the one that is shown.
    fn is_jump(&self, turn: u64) -> bool
        ensures { result ≡ false → self.now.turn ≤ turn }
    {
        let latest = self.kept.latest(turn);
        turn < self.turn || latest.is_some_and(|kept| kept.turn > self.turn)
    }

    /// Shows the latest point that is kept up to a number of turns, or the first one.
    fn jump(&mut self, alloc: Global, turn: u64) -> Result<(), AllocError>
        ensures start { self.new.start ≡ self.old.start }
        ensures within { IfOk result (λ _. self.new.turn ≤ turn) }
        ensures stopped { OnErr result (self.new ≡ self.old) }
    {
        let (number, point) = self.kept_point(alloc, turn)?;
        self.turn = number;
        self.point = point;
        Ok(())
    }

    /// Makes turns up to a number of them, or to the end of the run.
    fn forward(&mut self, alloc: Global, turn: u64)
        requires { self.old.turn ≤ turn }
        ensures start { self.new.start ≡ self.old.start }
        ensures after { IsTrue_of_run self.new }
        ensures reached { ShowsTurn turn self.new }
    {
        while self.turn < turn && self.point.end().is_none() {
            self.advance(alloc);
        }
        let _ = &self.start;
    }

    /// Shows the point after this number of turns from the start, or the last one of the run if it ends before.
    ///
    /// # Errors
    ///
    /// [`AllocError`] if memory runs out. Then the same point is shown as before.
    pub fn go_to(&mut self, alloc: Global, turn: u64) -> Result<(), AllocError>
        ensures start { self.new.start ≡ self.old.start }
        ensures after { IsTrue_of_run self.new }
        ensures reached { IfOk result (λ _. ShowsTurn turn self.new) }
        ensures stopped { OnErr result (self.new ≡ self.old) }
    {
        let _ = &self.start;
        if self.is_jump(turn) {
            self.jump(alloc, turn)?;
        }
        self.forward(alloc, turn);
        Ok(())
    }

    /// Whether the run that is shown ends after this number of turns as it does in a point, or goes on as there.
    fn ends_so(&self, turn: u64, point: &Point<'_>) -> bool
        ensures { result ≡ true → point.now.end ≡ end_at turn self.now }
    {
        if turn == self.turn {
            is_same_end(point.end(), self.point.end())
        } else {
            point.end().is_none()
        }
    }

    /// The last turn at which a breakpoint or a watched byte holds, among the first turns of the run: its number, and what holds. All
    /// turns are made again from the start.
    ///
    /// # Errors
    ///
    /// [`AllocError`] if memory runs out.
    pub fn last(
        &self,
        alloc: Global,
        stops: &Stops,
        turn: u64,
    ) -> Result<Option<(u64, Hit)>, AllocError>
        requires { turn ≤ self.now.turn }
        ensures { IfOk result (IsLast stops.now self.now turn) }
    {
        let watched = watched_addresses(alloc, &stops.watches)?;
        let mut point = Point::first(self.start.copied(alloc)?);
        let mut last = None;
        for number in 0..turn {
            // These turns were made before, so this run ends early only if memory has run out for its output.
            if point.end().is_some() {
                return Err(AllocError);
            }
            let held = stops.advance(alloc, None, &watched, &mut point)?;
            last = later(last, held, number);
        }
        if self.ends_so(turn, &point) {
            Ok(last)
        } else {
            Err(AllocError)
        }
    }

    /// The call over which `next` leads to the state that is shown, if there is one: the number of turns before it. All turns are made again
    /// from the start.
    ///
    /// # Errors
    ///
    /// [`AllocError`] if memory runs out.
    pub fn call_before(&self, alloc: Global) -> Result<Option<u64>, AllocError>
        ensures { IfOk result (IsCallBefore (shown_place self.now.point.state) self.now.start self.now.turn) }
    {
        let place = shown_place(self.point.snapshot());
        let mut point = Point::first(self.start.copied(alloc)?);
        let mut call = None;
        for number in 0..self.turn {
            // These turns were made before, so this run ends early only if memory has run out for its output.
            if point.end().is_some() {
                return Err(AllocError);
            }
            call = open_call(call, place, number, point.snapshot());
            point.advance(alloc);
        }
        Ok(call)
    }

    /// Makes turns until a breakpoint or a watched byte holds, the goal is reached, the run has ended, or this number of turns is made. At
    /// least one turn is made if the run has one and the limit allows it.
    ///
    /// # Errors
    ///
    /// [`AllocError`] if memory runs out. The turns until then are made, and nothing held at them.
    pub fn run(
        &mut self,
        alloc: Global,
        goal: Option<Goal>,
        stops: &Stops,
        limit: u64,
    ) -> Result<Outcome, AllocError>
        requires { self.old.turn + limit < 2 ^ 64 }
        ensures start { self.new.start ≡ self.old.start }
        ensures after { IsTrue_of_run self.new }
        ensures ran { IfOk result (RanUntil goal stops.now limit self.old self.new) }
        ensures stopped { OnErr result (MakesTurns goal stops.now limit self.old self.new) }
    {
        let _ = &self.start;
        let watched = watched_addresses(alloc, &stops.watches)?;
        for _ in 0..limit {
            if self.point.end().is_some() {
                return Ok(Outcome::Ended);
            }
            if let Some(hit) = self.step(alloc, goal, stops, &watched)? {
                return Ok(Outcome::Held(hit));
            }
        }
        match self.point.end() {
            Some(_) => Ok(Outcome::Ended),
            None => Ok(Outcome::Limit),
        }
    }
}
