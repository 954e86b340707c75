//! One walk over all definitions, from each to those that it names.

ghost use Rattle.std.specs.Prelude.{◌≡◌, ◌<◌, ◌≤◌, ◌+◌, ◌*◌, ◌-◌, ◌≢◌, ◌↔◌, true, MatchOption, [], ℕ, OnOk, IfOk, All, length, reverse, slice_index, List};
ghost use Rattle.std.specs.List.{Contains, push};
ghost use Rattle.asm_names.specs.declared.walk.Seen.{Seen};
ghost use Rattle.asm_names.specs.Orders.Order.{NameOnlyDefinitions, named_by};
ghost use Rattle.asm_names.specs.Private.Standing.{AreOnCircle, Closing, IsDraining, Keeps, Turned, IsFinished, IsTop, Reaches, lowered, work, Standing, Visited, left, seen_at, IsFollowed, low_of};

use std::alloc::{AllocError, Global};

/// One entry of the order in which definitions are settled.
#[derive(Clone, Copy, Debug, PartialEq, Eq)]
pub struct Turn {
    pub definition: u32,
    /// Whether the definition leads back to itself, directly or through others.
    pub on_circle: bool,
}

/// How far the walk has come with a definition.
#[derive(Clone, Copy, Debug, PartialEq, Eq)]
pub(crate) enum Seen {
    Not,
    /// It is on the path, at this index.
    Open(usize),
    /// It is in the order already.
    Done,
}

/// A definition on the path whose names are still being followed.
#[derive(Clone, Copy, Debug)]
pub(crate) struct Frame {
    /// Its index on the path.
    start: usize,
    /// The lowest index on the path to which it leads, or to which a definition after it and before the next frame leads.
    low: usize,
}

/// Tarjan's walk for strongly connected components. A definition stays on the path until all that it leads to has been followed. If
/// none of that is before it on the path, then it and all after it lead to one another, and go into the order together.
#[derive(Drop)]
pub(crate) struct Walk {
    seen: Vec<Seen>,
    /// For each definition, how many of the names that it uses have been followed.
    followed: Vec<usize>,
    path: Vec<u32>,
    frames: Vec<Frame>,
    turns: Vec<Turn>,
}

/// The definitions that a definition names.
pub(crate) fn named_by(uses: &[Vec<u32>], definition: u32) -> &[u32]
    ensures { result.now ≡ named_by uses.now definition }
{
    match uses.get(definition as usize) {
        Some(named) => named.as_slice(),
        None => &[],
    }
}

/// Whether a definition names itself directly.
fn names_itself(uses: &[Vec<u32>], definition: u32) -> bool
    ensures { (result ≡ true) ↔ Contains (named_by uses.now definition) definition }
{
    named_by(uses, definition).contains(&definition)
}

impl Walk {
    /// A walk that has seen no definition yet.
    pub(crate) fn new(alloc: Global, uses: &[Vec<u32>]) -> Result<Walk, AllocError>
        ensures standing { IfOk result (Standing uses.now) }
        ensures empty { IfOk result (λ w. w.path.items ≡ []) }
    {
        Ok(Walk {
            seen: vec![in alloc; Seen::Not; uses.len()]?,
            followed: vec![in alloc; 0; uses.len()]?,
            path: Vec::new(alloc),
            frames: Vec::new(alloc),
            turns: Vec::new(alloc),
        })
    }

    /// Whether the walk has not seen a definition yet.
    fn is_new(&self, definition: u32) -> bool
        requires { definition < length self.now.seen.items }
        ensures { (result ≡ true) ↔ (seen_at self.now.seen.items definition ≡ Seen.Not) }
    {
        self.seen[definition as usize] == Seen::Not
    }

    /// Puts a new definition on the path, with a frame of its own.
    fn open(&mut self, uses: &[Vec<u32>], definition: u32) -> Result<(), AllocError>
        requires standing { Standing uses.now self.old }
        requires few { definition < length uses.now }
        requires new { seen_at self.old.seen.items definition ≡ Seen.Not }
        requires led { (p : ℕ) → p < length self.old.path.items → Reaches (named_by uses.now) (slice_index self.old.path.items p) definition }
        ensures standing { OnOk result (Standing uses.now self.new) }
        ensures there { OnOk result (seen_at self.new.seen.items definition ≡ Seen.Open (length self.old.path.items)) }
        ensures seen { OnOk result (Keeps self.old.seen.items self.new.seen.items) }
        ensures path { OnOk result (self.new.path.items ≡ push self.old.path.items definition) }
        ensures kept { OnOk result (self.new.followed.items ≡ self.old.followed.items) }
        ensures frames { OnOk result (length self.new.frames.items ≡ length self.old.frames.items + 1) }
    {
        let place = self.path.len();
        self.path.push(definition)?;
        self.frames.push(Frame {
            start: place,
            low: place,
        })?;
        self.seen[definition as usize] = Seen::Open(place);
        Ok(())
    }

    /// Notes that the last frame leads to index `place` of the path.
    fn lower(&mut self, place: usize)
        ensures frames { reverse self.new.frames.items ≡ lowered place (reverse self.old.frames.items) }
        ensures kept { self.new ≡ record self.old { frames = self.new.frames } }
    {
        if let Some(top) = self.frames.last_mut() {
            top.low = top.low.min(place);
        }
    }

    /// Follows one name, from the definition of the last frame, at index `start` of the path, to the definition `to`.
    fn visit(&mut self, uses: &[Vec<u32>], start: usize, to: u32) -> Result<(), AllocError>
        requires standing { Standing uses.now self.old }
        requires few { to < length uses.now }
        requires top { IsTop start (reverse self.old.frames.items) }
        requires named { Contains (named_by uses.now (slice_index self.old.path.items start)) to }
        ensures { OnOk result (Visited uses.now start to self.old self.new) }
    {
        match self.seen[to as usize] {
            Seen::Not => {
                self.open(uses, to)?;
                Ok(())
            }
            Seen::Open(place) => {
                self.lower(place);
                Ok(())
            }
            Seen::Done => Ok(()),
        }
    }

    /// Moves the last definition of the path to the end of the order.
    fn turn(&mut self, on_circle: bool) -> Result<(), AllocError>
        requires some { 0 < length self.old.path.items }
        requires within { All (λ k. k < length self.old.seen.items) self.old.path.items }
        ensures { OnOk result (Turned on_circle self.old self.new) }
    {
        if let Some(definition) = self.path.pop() {
            self.turns.push(Turn {
                definition,
                on_circle,
            })?;
            self.seen[definition as usize] = Seen::Done;
        }
        Ok(())
    }

    /// Moves the definition at index `start`, the last of the path, to the order. It leads to no other on the path, so it is on a
    /// circle only if it names itself.
    fn close_one(&mut self, uses: &[Vec<u32>], start: usize) -> Result<(), AllocError>
        requires closing { Closing uses.now start self.old }
        requires one { length self.old.path.items ≡ start + 1 }
        ensures standing { OnOk result (Standing uses.now self.new) }
        ensures seen { OnOk result (Keeps self.old.seen.items self.new.seen.items) }
        ensures followed { OnOk result (self.new.followed.items ≡ self.old.followed.items) }
        ensures frames { OnOk result (self.new.frames.items ≡ self.old.frames.items) }
    {
        let definition = self.path[start];
        self.turn(names_itself(uses, definition))?;
        Ok(())
    }

    /// Moves all definitions of the path from index `start` on to the order. They lead to one another, so each is on a circle.
    fn close_circle(&mut self, uses: &[Vec<u32>], start: usize) -> Result<(), AllocError>
        requires draining { IsDraining uses.now start self.old }
        requires circle { AreOnCircle uses.now start self.old.path.items }
        ensures standing { OnOk result (Standing uses.now self.new) }
        ensures seen { OnOk result (Keeps self.old.seen.items self.new.seen.items) }
        ensures followed { OnOk result (self.new.followed.items ≡ self.old.followed.items) }
        ensures frames { OnOk result (self.new.frames.items ≡ self.old.frames.items) }
    {
        while self.path.len() > start {
            self.turn(true)?;
        }
        Ok(())
    }

    /// Moves all definitions of the path from index `start` on to the order. The last frame began there, and leads to nothing
    /// before it.
    fn close(&mut self, uses: &[Vec<u32>], start: usize) -> Result<(), AllocError>
        requires { Closing uses.now start self.old }
        ensures standing { OnOk result (Standing uses.now self.new) }
        ensures seen { OnOk result (Keeps self.old.seen.items self.new.seen.items) }
        ensures followed { OnOk result (self.new.followed.items ≡ self.old.followed.items) }
        ensures frames { OnOk result (self.new.frames.items ≡ self.old.frames.items) }
    {
        if self.path.len() - 1 == start {
            self.close_one(uses, start)
        } else {
            self.close_circle(uses, start)
        }
    }

    /// Removes the last frame, all of whose names have been followed. If it leads to something before it, its definitions stay on
    /// the path.
    fn leave(&mut self, uses: &[Vec<u32>]) -> Result<(), AllocError>
        requires standing { Standing uses.now self.old }
        requires finished { (start : ℕ) → IsTop start (reverse self.old.frames.items) → IsFinished uses.now self.old.followed.items self.old.path.items start }
        ensures standing { OnOk result (Standing uses.now self.new) }
        ensures seen { OnOk result (Keeps self.old.seen.items self.new.seen.items) }
        ensures followed { OnOk result (self.new.followed.items ≡ self.old.followed.items) }
        ensures frames { OnOk result (length self.new.frames.items ≡ length self.old.frames.items - 1) }
    {
        let Some(frame) = self.frames.pop() else {
            return Ok(());
        };
        if frame.low < frame.start {
            self.lower(frame.low);
            Ok(())
        } else {
            self.close(uses, frame.start)
        }
    }

    /// Follows one more name of the last frame's definition, or leaves the frame if there is none.
    fn step(&mut self, uses: &[Vec<u32>], start: usize) -> Result<(), AllocError>
        requires standing { Standing uses.now self.old }
        requires defined { NameOnlyDefinitions uses.now }
        requires top { IsTop start (reverse self.old.frames.items) }
        ensures standing { OnOk result (Standing uses.now self.new) }
        ensures seen { OnOk result (Keeps self.old.seen.items self.new.seen.items) }
        ensures less { OnOk result (work uses.now self.new < work uses.now self.old) }
    {
        let definition = self.path[start];
        let followed = self.followed[definition as usize];
        match named_by(uses, definition).get(followed) {
            Some(to) => {
                self.visit(uses, start, *to)?;
                self.followed[definition as usize] = followed + 1;
                Ok(())
            }
            None => self.leave(uses),
        }
    }

    /// The index of the path at which the last frame begins, if there is a frame.
    fn top(&self) -> Option<usize>
        ensures { MatchOption result (reverse self.now.frames.items ≡ []) (λ start. IsTop start (reverse self.now.frames.items)) }
    {
        Some(self.frames.last()?.start)
    }

    /// Continues the walk until the path is empty.
    fn finish(&mut self, uses: &[Vec<u32>]) -> Result<(), AllocError>
        requires standing { Standing uses.now self.old }
        requires defined { NameOnlyDefinitions uses.now }
        ensures standing { OnOk result (Standing uses.now self.new) }
        ensures seen { OnOk result (Keeps self.old.seen.items self.new.seen.items) }
        ensures empty { OnOk result (self.new.path.items ≡ []) }
    {
        while let Some(start) = self.top() {
            self.step(uses, start)?;
        }
        Ok(())
    }

    /// Puts a definition into the order, and before it or with it all definitions that it leads to.
    pub(crate) fn begin(&mut self, uses: &[Vec<u32>], definition: u32) -> Result<(), AllocError>
        requires standing { Standing uses.now self.old }
        requires defined { NameOnlyDefinitions uses.now }
        requires few { definition < length uses.now }
        requires empty { self.old.path.items ≡ [] }
        ensures standing { OnOk result (Standing uses.now self.new) }
        ensures seen { OnOk result (Keeps self.old.seen.items self.new.seen.items) }
        ensures there { OnOk result (seen_at self.new.seen.items definition ≢ Seen.Not) }
        ensures empty { OnOk result (self.new.path.items ≡ []) }
    {
        if self.is_new(definition) {
            self.open(uses, definition)?;
            self.finish(uses)?;
        }
        Ok(())
    }

    /// The order of the definitions that were walked.
    pub(crate) fn into_turns(self) -> Vec<Turn>
        ensures { result ≡ self.turns }
    {
        self.turns
    }
}
