//! A state of a run with its end.

use crate::snapshot::Snapshot;
use cpm_run::{Why, is_finished};
use std::alloc::Global;
use std::marker::Model;

/// A state of a run, and why the run ends in it, if it does.
#[derive(Drop)]
pub struct Point<'a> {
    snapshot: Snapshot<'a>,
    end: Option<Why>,
}

impl<'a> Model for Point<'a> {
    ghost use Rattle.machine_history.specs.Walk.{Point as Value_of_point};

    ghost Value = { Value_of_point };

    ghost view = { λ p. record { state = p.snapshot; end = p.end } };
}

ghost use Rattle.std.specs.Prelude.{◌≡◌};
ghost use Rattle.machine_history.specs.Walk.{end_after};

/// Why a run ends in a state, given why the turn before it ended the run, if it did.
fn end_after(by: Option<Why>, snapshot: &Snapshot<'_>) -> Option<Why>
    ensures { result ≡ end_after by snapshot.now }
{
    match by {
        Some(why) => Some(why),
        None => {
            if is_finished(snapshot.cpu().pc) {
                Some(Why::Finished)
            } else {
                None
            }
        }
    }
}

impl<'a> Point<'a> {
    ghost use Rattle.std.specs.Prelude.{◌≡◌, ◌-◌, ◌<◌, ◌^◌, None};
    ghost use Rattle.machine_history.specs.Walk.{IsNextPoint, first_point};

    /// The point at which a run begins.
    pub(crate) fn first(snapshot: Snapshot<'a>) -> Point<'a>
        ensures { result ≡ first_point snapshot.entry }
    {
        let end = end_after(None, &snapshot);
        Point { snapshot, end }
    }

    /// A point in which the run has not ended.
    pub(crate) fn going(snapshot: Snapshot<'a>) -> Point<'a>
        ensures { result ≡ record { state = snapshot.entry; end = None } }
    {
        Point {
            snapshot,
            end: None,
        }
    }

    /// Makes one turn.
    pub(crate) fn advance(&mut self, alloc: Global)
        requires going { self.old.end ≡ None }
        requires room { self.old.state.turns < 2 ^ 64 - 1 }
        ensures { IsNextPoint self.old self.new }
    {
        let by = self.snapshot.turn(alloc);
        self.end = end_after(by, &self.snapshot);
    }

    /// The state.
    pub fn snapshot(&self) -> &Snapshot<'a>
        ensures { result.now ≡ self.now.state }
    {
        &self.snapshot
    }

    /// Why the run ends in this state; `None` if it has a next turn.
    pub fn end(&self) -> Option<Why>
        ensures { result ≡ self.now.end }
    {
        self.end
    }
}
