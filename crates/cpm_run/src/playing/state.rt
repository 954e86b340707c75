//! The state of a session, and what changes it.

ghost use Rattle.std.specs.Prelude.{◌≡◌, ◌≢◌, ◌≤◌, ◌<◌, ◌+◌, ◌^◌, ◌-◌, ◌++◌, [], ℕ, false, IfOk, List, MatchOption, None, OnErr, OnOk, Option, Some, length};
ghost use Rattle.cpm_bdos.specs.System.{with_console};
ghost use Rattle.cpm_console.specs.Dialog.{output_cleared, typed_in};
ghost use Rattle.cpm_run.specs.Play.{Attends, IsEcho, PlayState, PlaysOn, arrived, first_state};
ghost use Rattle.cpm_console.specs.Seat.{Seat};
ghost use Rattle.cpm_run.specs.Turns.{IsTurn, is_finished};
ghost use Rattle.cpm_run.specs.Looks.{Attention, HoldsFew, MayLook, MayStep, TakesLine};
ghost use Rattle.cpm_run.specs.Private.Playing.{AfterLook, AfterShowing, EchoGrows, HasShown, IsPut, IsQuiet, IsStill, IsTold, IsUnasked, MakesNoStep, OnlyShows, ShownOn, ShowsRest, Stands, StepsTo, Waits, WaitsOn, Watched, Went, state_of, taken};

use crate::arriving::{Arrival, PlayEnd};
use crate::ending::Why;
use crate::places::{BDOS, BIOS};
use crate::turning::turn;
use cpm_bdos::Bdos;
use cpm_console::{Came, MemoryConsole, Patience, Station, StationFault};
use cpm_disk::Disk;
use cpm_image::Sectors;
use std::alloc::{AllocError, Global};
use z80_machine::{Cpu, Memory, Stop, Watch};

/// The addresses at which a step is not one of the machine, so the machine stops there.
const SYSTEM: Watch = Watch {
    from: BIOS,
    at: BDOS,
};

/// At most this number of bytes are put before they are shown.
const MOST_HELD: usize = 4_096;

/// Once this number of bytes are shown, the session looks at the keyboard before the next call of the system. One call may put 65,536
/// bytes, which are 524,288 once tabs are expanded, so gigabytes may be shown before the number of steps makes a look due.
const MOST_UNSEEN: u64 = 1_048_576;

/// A session.
#[derive(Drop)]
pub(crate) struct Playing<S: Sectors> {
    pub(crate) cpu: Cpu,
    pub(crate) memory: Memory,
    pub(crate) bdos: Bdos<S, MemoryConsole>,
    /// The number of steps so far.
    pub(crate) turns: u64,
    /// The bytes that came.
    pub(crate) arrivals: Vec<Arrival>,
    /// The echo of a line that is being typed. It is shown, but the console has not put it yet.
    pub(crate) ahead: Vec<u8>,
    /// Whether no byte will come any more.
    pub(crate) ended: bool,
    /// The number of steps when the keyboard was looked at last.
    pub(crate) looked: u64,
    /// How many more bytes may be shown before the keyboard is looked at again.
    pub(crate) allowance: u64,
}

/// The bytes that came after this number of steps.
fn arrived(alloc: Global, turns: u64, bytes: &[u8]) -> Result<Vec<Arrival>, AllocError>
    ensures { IfOk result (λ list. list.items ≡ arrived turns bytes.now) }
{
    let mut list = Vec::with_capacity(alloc, bytes.len())?;
    for byte in bytes {
        list.push(Arrival {
            turn: turns,
            byte: *byte,
        })?;
    }
    Ok(list)
}

/// What follows the bytes that are shown already, if the bytes that were put begin with them.
pub(crate) fn behind<'a>(ahead: &[u8], put: &'a [u8]) -> Option<&'a [u8]>
    ensures { MatchOption result ((rest : List ℕ) → put.now ≢ ahead.now ++ rest) (λ rest. put.now ≡ ahead.now ++ rest.now) }
{
    put.strip_prefix(ahead)
}

impl<S: Sectors> Playing<S> {
    /// The session at the start of a program.
    pub(crate) fn new(alloc: Global, cpu: Cpu, memory: Memory, disk: Disk<S>) -> Playing<S>
        ensures state { state_of result [] ≡ first_state cpu memory disk }
        ensures ahead { result.ahead.items ≡ [] }
        ensures ended { result.ended ≡ false }
        ensures looked { result.looked ≡ 0 }
        ensures allowance { result.allowance ≡ 1048576 }
    {
        let console = MemoryConsole::new(alloc, Vec::new(alloc));
        Playing {
            cpu,
            memory,
            bdos: Bdos::new(disk, console),
            turns: 0,
            arrivals: Vec::new(alloc),
            ahead: Vec::new(alloc),
            ended: false,
            looked: 0,
            allowance: MOST_UNSEEN,
        }
    }

    /// Makes at most `most` steps of the machine, up to an address of the system. Answers why one of them ended the run, if it did.
    pub(crate) fn compute(&mut self, most: u64) -> Option<Why>
        requires room { self.old.turns + most < 2 ^ 64 }
        ensures bound { self.new.turns ≤ self.old.turns + most }
        ensures least { self.old.turns ≤ self.new.turns }
        ensures ahead { self.new.ahead.items ≡ self.old.ahead.items }
        ensures arrivals { self.new.arrivals.items ≡ self.old.arrivals.items }
        ensures ended { self.new.ended ≡ self.old.ended }
        ensures looked { self.new.looked ≡ self.old.looked }
        ensures allowance { self.new.allowance ≡ self.old.allowance }
        ensures bdos { self.new.bdos ≡ self.old.bdos }
        ensures goes { (start : PlayState S) (shown : List ℕ) → PlaysOn S.sectors S.faults start (state_of self.old shown) → Went S.sectors S.faults result start (state_of self.new shown) }
        ensures looks { (start : PlayState S) (shown : List ℕ) (a : Attention) → Attends S.sectors S.faults start (state_of self.old shown) a → a.here ≡ false → self.old.turns + most ≤ a.last + 4000000
            → HoldsFew (state_of self.old []).run → StepsTo S.sectors S.faults result start (state_of self.new shown) a }
    {
        let (made, stop) = z80_machine::run(&mut self.cpu, &mut self.memory, SYSTEM, most);
        self.turns += made;
        match stop {
            Stop::Halted => {
                self.turns += 1;
                Some(Why::Halted)
            }
            Stop::Undocumented => {
                self.turns += 1;
                Some(Why::Undocumented)
            }
            _ => None,
        }
    }

    /// Makes one step. Answers why it ended the run, if it did.
    pub(crate) fn take_turn(&mut self) -> Option<Why>
        requires running { is_finished self.old.cpu.pc ≡ false }
        requires room { self.old.turns < 2 ^ 64 - 1 }
        ensures turns { self.new.turns ≡ self.old.turns + 1 }
        ensures turn { IsTurn S.sectors S.faults (λ d. d) (state_of self.old []).run result (state_of self.new []).run }
        ensures ahead { self.new.ahead.items ≡ self.old.ahead.items }
        ensures arrivals { self.new.arrivals.items ≡ self.old.arrivals.items }
        ensures ended { self.new.ended ≡ self.old.ended }
        ensures looked { self.new.looked ≡ self.old.looked }
        ensures allowance { self.new.allowance ≡ self.old.allowance }
        ensures goes { (start : PlayState S) (shown : List ℕ) → PlaysOn S.sectors S.faults start (state_of self.old shown) → Went S.sectors S.faults result start (state_of self.new shown) }
        ensures looks { (start : PlayState S) (shown : List ℕ) (a : Attention) → Attends S.sectors S.faults start (state_of self.old shown) a → MayStep (state_of self.old []).run self.old.turns a
            → StepsTo S.sectors S.faults result start (state_of self.new shown) a }
    {
        let end = turn(&mut self.cpu, &mut self.memory, &mut self.bdos);
        self.turns += 1;
        end
    }

    /// Takes bytes that came. If memory runs out, none of them came. No bytes need no memory.
    pub(crate) fn take_in(&mut self, alloc: Global, bytes: &[u8]) -> Result<(), AllocError>
        ensures still { IsStill self.old self.new }
        ensures allowance { self.new.allowance ≡ self.old.allowance }
        ensures some { OnErr result (0 < length bytes.now) }
        ensures ahead { self.new.ahead.items ≡ self.old.ahead.items }
        ensures ended { self.new.ended ≡ self.old.ended }
        ensures output { self.new.bdos.terminal.console.output ≡ self.old.bdos.terminal.console.output }
        ensures memory { self.new.memory ≡ self.old.memory }
        ensures untyped { OnErr result (self.new.bdos ≡ self.old.bdos) }
        ensures typed { OnOk result (self.new.bdos ≡ with_console (typed_in bytes.now self.old.bdos.terminal.console) self.old.bdos) }
        ensures arrivals { self.new.arrivals.items ≡ taken self.old.turns bytes.now result self.old.arrivals.items }
        ensures came { (start : PlayState S) (shown : List ℕ) → PlaysOn S.sectors S.faults start (state_of self.old shown) → PlaysOn S.sectors S.faults start (state_of self.new shown) }
    {
        if bytes.is_empty() {
            return Ok(());
        }
        let known = self.arrivals.len();
        let list = arrived(alloc, self.turns, bytes)?;
        self.arrivals.extend_from_slice(&list)?;
        match self.bdos.type_in(bytes) {
            Ok(()) => Ok(()),
            Err(error) => {
                self.arrivals.truncate(known);
                Err(error)
            }
        }
    }

    /// Asks the keyboard, and takes what came.
    pub(crate) fn listen<K: Station>(
        &mut self,
        alloc: Global,
        station: &mut K,
        patience: Patience,
    ) -> Result<(), PlayEnd>
        ensures still { MakesNoStep self.old self.new }
        ensures ahead { self.new.ahead.items ≡ self.old.ahead.items }
        ensures output { self.new.bdos.terminal.console.output ≡ self.old.bdos.terminal.console.output }
        ensures looked { OnOk result (self.new.looked ≡ self.new.turns) }
        ensures allowance { OnOk result (self.new.allowance ≡ 1048576) }
        ensures grows { TakesLine self.old.cpu → OnOk result (EchoGrows self.old self.new) }
        ensures waits { (limit : ℕ) (start : PlayState S) (before : Seat) → Waits S.sectors S.faults limit start before self.old (K.seat station.old) → IsEcho (state_of self.old []).run self.old.ahead.items
            → WaitsOn S.sectors S.faults limit result start before self.new (K.seat station.new) }
        ensures looks { (start : PlayState S) (before : Seat) (a : Attention) → Watched S.sectors S.faults start before self.old (K.seat station.old) a → MayLook patience (state_of self.old []).run self.old.turns a
            → AfterLook S.sectors S.faults patience result start before self.new (K.seat station.new) a }
    {
        let mut buffer = [0; 256];
        match station.listen(self.turns, patience, &mut buffer)? {
            Came::Bytes(count) => {
                self.take_in(alloc, &buffer[..count.min(256)])?;
                self.looked = self.turns;
                self.allowance = MOST_UNSEEN;
                // What the keyboard says last counts: it may give keys again after it said that none would come.
                self.ended = false;
            }
            Came::End => {
                self.looked = self.turns;
                self.allowance = MOST_UNSEEN;
                self.ended = true;
            }
            Came::Leave => return Err(PlayEnd::Left),
        }
        Ok(())
    }

    /// Shows what the program has put, without what was shown ahead of it.
    pub(crate) fn show<K: Station>(&mut self, station: &mut K) -> Result<(), StationFault>
        ensures others { OnlyShows self.old self.new }
        ensures failed { OnErr result (self.new ≡ self.old) }
        ensures keys { IsUnasked (K.seat station.old) (K.seat station.new) }
        ensures cleared { OnOk result (self.new.bdos ≡ with_console (output_cleared self.old.bdos.terminal.console) self.old.bdos) }
        ensures events { ShowsRest result self.old (K.seat station.old) (K.seat station.new) }
        ensures spent { OnOk result ((rest : List ℕ) → self.old.bdos.terminal.console.output ≡ Some (self.old.ahead.items ++ rest) → self.new.allowance ≡ self.old.allowance - length rest) }
        ensures all { OnOk result ((before : Seat) (shown : List ℕ) → HasShown before (K.seat station.old) shown self.old.ahead.items
            → (bytes : List ℕ) × (self.old.bdos.terminal.console.output ≡ Some bytes) × HasShown before (K.seat station.new) shown bytes) }
        ensures rest { OnOk result ((self.new.ahead.items ≡ []) × (self.new.bdos.terminal.console.output ≡ Some []) × ((start : PlayState S) (shown bytes : List ℕ) → self.old.bdos.terminal.console.output ≡ Some bytes → PlaysOn S.sectors S.faults start (state_of self.old shown) → PlaysOn S.sectors S.faults start (state_of self.new (shown ++ bytes)))) }
    {
        let put = self.bdos.console().output();
        let Some(rest) = behind(&self.ahead, put) else {
            return Err(StationFault);
        };
        station.show(rest)?;
        self.allowance = self.allowance.saturating_sub(rest.len() as u64);
        self.ahead.clear();
        self.bdos.clear_output();
        Ok(())
    }

    /// Shows what was put, so that nothing is hidden while somebody is asked.
    pub(crate) fn show_all<K: Station>(&mut self, station: &mut K) -> Result<(), StationFault>
        ensures still { IsStill self.old self.new }
        ensures arrivals { self.new.arrivals.items ≡ self.old.arrivals.items }
        ensures ended { self.new.ended ≡ self.old.ended }
        ensures keys { IsUnasked (K.seat station.old) (K.seat station.new) }
        ensures less { self.new.allowance ≤ self.old.allowance }
        ensures looks { (start : PlayState S) (before : Seat) (a : Attention) → Watched S.sectors S.faults start before self.old (K.seat station.old) a → IsPut None self.old
            → ShownOn S.sectors S.faults result start before self.new (K.seat station.new) a }
        ensures told { (before : Seat) → IsQuiet before self.old (K.seat station.old) → IsTold result before self.new (K.seat station.new) }
        ensures ahead { OnOk result (self.new.ahead.items ≡ []) }
        ensures all { OnOk result (self.new.bdos.terminal.console.output ≡ Some []) }
        ensures so_far { (start : PlayState S) (before : Seat) → Stands S.sectors S.faults start before self.old (K.seat station.old) → AfterShowing S.sectors S.faults result start before self.new (K.seat station.new) }
    {
        match self.show(station) {
            Ok(()) => Ok(()),
            Err(fault) => Err(fault),
        }
    }

    /// Shows what was put, if it is much, or if a part of it is shown already.
    pub(crate) fn show_much<K: Station>(&mut self, station: &mut K) -> Result<(), StationFault>
        ensures still { IsStill self.old self.new }
        ensures held { OnOk result (HoldsFew (state_of self.new []).run) }
        ensures told { (before : Seat) → IsQuiet before self.old (K.seat station.old) → IsTold result before self.new (K.seat station.new) }
        ensures arrivals { self.new.arrivals.items ≡ self.old.arrivals.items }
        ensures ended { self.new.ended ≡ self.old.ended }
        ensures keys { IsUnasked (K.seat station.old) (K.seat station.new) }
        ensures ahead { OnOk result (self.new.ahead.items ≡ []) }
        ensures looks { (start : PlayState S) (before : Seat) (a : Attention) → Watched S.sectors S.faults start before self.old (K.seat station.old) a → IsPut None self.old
            → ShownOn S.sectors S.faults result start before self.new (K.seat station.new) a }
        ensures so_far { (start : PlayState S) (before : Seat) → Stands S.sectors S.faults start before self.old (K.seat station.old) → AfterShowing S.sectors S.faults result start before self.new (K.seat station.new) }
    {
        if !self.ahead.is_empty() || self.bdos.console().output().len() >= MOST_HELD {
            return self.show_all(station);
        }
        Ok(())
    }
}
