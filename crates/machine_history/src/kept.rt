//! The states that a history keeps.

ghost use Rattle.std.specs.Prelude.{◌≡◌, IfSome, None};

use crate::point::Point;
use crate::snapshot::Snapshot;
use std::alloc::Global;

/// The most states that are kept. Their memories have 4 MB together.
const MOST_KEPT: usize = 64;

/// The distance of the first states that are kept. It is doubled whenever they have become too many.
const FIRST_DISTANCE: u64 = 1_024;

/// A state in which a run has not ended, with its number.
#[derive(Drop)]
pub(crate) struct Kept<'a> {
    pub turn: u64,
    pub snapshot: Snapshot<'a>,
}

/// A copy of the state of a point in which the run has not ended, if there is memory for it.
fn going_copy<'a>(alloc: Global, point: &Point<'a>) -> Option<Snapshot<'a>>
    ensures { IfSome result (λ snapshot. (snapshot ≡ point.now.state) × (point.now.end ≡ None)) }
{
    match point.end() {
        Some(_) => None,
        None => point.snapshot().copied(alloc).ok(),
    }
}

/// The next multiple of a distance.
fn next_multiple(turn: u64, distance: u64) -> u64 {
    let over = turn.checked_rem(distance).unwrap_or(0);
    turn.saturating_sub(over).saturating_add(distance)
}

/// States of one run, in their order.
#[derive(Drop)]
pub(crate) struct Keeper<'a> {
    pub states: Vec<Kept<'a>>,
    distance: u64,
    /// The number of the next state to keep. It is stored, since a division at each turn would slow a run down.
    next: u64,
}

impl<'a> Keeper<'a> {
    ghost use Rattle.std.specs.Prelude.{◌≡◌, ◌≤◌, [], All, IfSome, length};
    ghost use Rattle.machine_history.specs.Private.Kept.{IsKept};
    ghost use Rattle.machine_history.specs.Walk.{IsAfter, MemoryState};

    /// A keeper of no states.
    pub(crate) fn new(alloc: Global) -> Keeper<'a>
        ensures { result.states.items ≡ [] }
    {
        Keeper {
            states: Vec::new(alloc),
            distance: FIRST_DISTANCE,
            next: FIRST_DISTANCE,
        }
    }

    /// Leaves out every second state.
    fn thin(&mut self)
        ensures few { length self.new.states.items ≤ length self.old.states.items }
        ensures known { (start : MemoryState) → All (IsKept start) self.old.states.items → All (IsKept start) self.new.states.items }
    {
        let distance = self.distance.saturating_mul(2);
        self.distance = distance;
        self.states
            .retain(|kept| kept.turn.checked_rem(distance) == Some(0));
    }

    /// Leaves out every second state if there are too many for one more.
    fn make_room(&mut self)
        ensures few { length self.new.states.items ≤ length self.old.states.items }
        ensures known { (start : MemoryState) → All (IsKept start) self.old.states.items → All (IsKept start) self.new.states.items }
    {
        if self.states.len() >= MOST_KEPT {
            self.thin();
        }
    }

    /// Keeps a copy of a state, if one is to be kept and there is memory for it. Without it, going back takes longer.
    pub(crate) fn keep(&mut self, alloc: Global, turn: u64, point: &Point<'a>)
        ensures few { length self.old.states.items ≤ 64 → length self.new.states.items ≤ 64 }
        ensures known { (start : MemoryState) → All (IsKept start) self.old.states.items → IsAfter start turn point.now → All (IsKept start) self.new.states.items }
    {
        if turn < self.next {
            return;
        }
        self.next = next_multiple(turn, self.distance);
        let Some(snapshot) = going_copy(alloc, point) else {
            return;
        };
        self.make_room();
        if self.states.len() < MOST_KEPT {
            let _ = self.states.push(Kept { turn, snapshot });
        }
    }

    /// The latest state that is kept up to this number.
    pub(crate) fn latest(&self, turn: u64) -> Option<&Kept<'a>>
        ensures within { IfSome result (λ kept. kept.now.turn ≤ turn) }
        ensures known { (start : MemoryState) → All (IsKept start) self.now.states.items → IfSome result (λ kept. IsKept start kept.now) }
    {
        let mut latest = None;
        for kept in &self.states {
            if kept.turn <= turn {
                latest = Some(kept);
            }
        }
        latest
    }
}
