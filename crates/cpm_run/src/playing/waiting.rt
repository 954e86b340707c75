//! What a session does before a step that asks for input.

ghost use Rattle.std.specs.Prelude.{◌≡◌, ◌≢◌, ◌<◌, ◌≤◌, ◌+◌, ◌⊎◌, [], IfOk, List, OnErr, OnOk, Option, Some, false, length, true, ℕ};
ghost use Rattle.cpm_console.specs.Dialog.{dialog_of, put_by};
ghost use Rattle.cpm_console.specs.Line.{NoInput, line_transcript, typed_line};
ghost use Rattle.cpm_console.specs.Screen.{screen};
ghost use Rattle.cpm_run.specs.Looks.{Attention, HoldsFew, IsLookDue, MayHaveEcho, TakesLine, line_room, next_echo, patience_of};
ghost use Rattle.cpm_run.specs.Play.{PlayState};
ghost use Rattle.cpm_console.specs.Seat.{Seat};
ghost use Rattle.cpm_console.specs.declared.station.Patience.TheVariants as how;
ghost use Rattle.cpm_run.specs.Private.Playing.{AfterLook, Attended, BeginsEcho, Continues, IsBetween, IsStill, LooksOn, MakesNoStep, SoFar, Waits, WaitsOn, Watched, WatchedOn, state_of};

use crate::arriving::PlayEnd;
use crate::asking::{patience_of, takes_line};
use crate::playing::state::{Playing, behind};
use cpm_console::{ConsoleError, MemoryConsole, Patience, Station, Terminal};
use cpm_image::Sectors;
use std::alloc::{AllocError, Global};

/// How often the keyboard is asked for a byte before a session gives up. At ten times a second that takes 13 years.
const MOST_WAITS: u32 = u32::MAX;

/// Once the last look at the keyboard is this number of steps ago, `attend` looks whatever the next step is, so that a person can leave every
/// program.
const LONGEST_UNSEEN: u64 = 2_000_000;

/// What function 10 has put so far, and whether the line is whole.
#[derive(Drop)]
struct Echo {
    bytes: Vec<u8>,
    is_whole: bool,
}

/// What function 10 puts for these bytes. If none are typed into a line with room, it puts nothing yet, and that takes no memory.
fn echo_of(alloc: Global, typed: &[u8], column: u16, room: u8) -> Result<Echo, AllocError>
    ensures whole { IfOk result (λ echo. echo.is_whole ≡ true → (line_transcript room (record { bytes = []; start = column; column = column }) typed.now).ending ≢ NoInput) }
    ensures part { IfOk result (λ echo. (line_transcript room (record { bytes = []; start = column; column = column }) typed.now).ending ≢ NoInput → echo.is_whole ≡ true) }
    ensures bytes { IfOk result (λ echo. echo.bytes.items ≡ put_by (line_transcript room (record { bytes = []; start = column; column = column }) typed.now).events) }
    ensures due { OnErr result ((0 < length typed.now) ⊎ (room ≡ 0)) }
{
    if room > 0 && typed.is_empty() {
        return Ok(Echo {
            bytes: Vec::new(alloc),
            is_whole: false,
        });
    }
    let mut input = Vec::with_capacity(alloc, typed.len())?;
    input.extend_from_slice(typed)?;
    let mut terminal = Terminal {
        console: MemoryConsole::new(alloc, input),
        column,
    };
    let mut line = [0; 255];
    let is_whole = match terminal.read_line(room, &mut line) {
        Ok(_) => true,
        Err(ConsoleError::EndOfInput) => false,
        Err(ConsoleError::ConsoleFault) => return Err(AllocError),
    };
    let mut bytes = Vec::new(alloc);
    bytes.extend_from_slice(terminal.console.output())?;
    Ok(Echo { bytes, is_whole })
}

impl<S: Sectors> Playing<S> {
    /// Whether a byte is there, or no byte will come.
    fn has_byte(&self) -> bool
        ensures yes { result ≡ true → self.now.bdos.terminal.console.input ≡ [] → self.now.ended ≡ true }
        ensures open { result ≡ false → self.now.ended ≡ false }
        ensures none { result ≡ false → self.now.bdos.terminal.console.input ≡ [] }
    {
        self.ended || !self.bdos.console().typed().is_empty()
    }

    /// Waits until a byte is there, or no byte will come.
    fn await_byte<K: Station>(&mut self, alloc: Global, station: &mut K) -> Result<(), PlayEnd>
        requires byte { patience_of self.old.cpu ≡ how.Wait }
        requires other { ¬ TakesLine self.old.cpu }
        ensures still { MakesNoStep self.old self.new }
        ensures looks { (start : PlayState S) (before : Seat) (a : Attention) → Watched S.sectors S.faults start before self.old (K.seat station.old) a → self.old.bdos.terminal.console.output ≡ Some [] → self.old.ahead.items ≡ []
            → self.old.turns < self.old.looked + 2000000 → Attended S.sectors S.faults result start before self.new (K.seat station.new) }
        ensures waits { (limit : ℕ) (start : PlayState S) (before : Seat) → Waits S.sectors S.faults limit start before self.old (K.seat station.old) → self.old.ahead.items ≡ []
            → WaitsOn S.sectors S.faults limit result start before self.new (K.seat station.new) }
    {
        for look in 0..MOST_WAITS {
            if self.has_byte() {
                return Ok(());
            }
            if let Err(end) = self.listen(alloc, station, Patience::Wait) {
                return Err(end);
            }
        }
        Err(PlayEnd::Failed)
    }

    /// What function 10 would put for the bytes that are there.
    fn echo_so_far(&self, alloc: Global) -> Result<Echo, AllocError>
        requires line { TakesLine self.now.cpu }
        ensures whole { IfOk result (λ echo. echo.is_whole ≡ true → (typed_line (line_room (state_of self.now []).run) (screen (λ d. d) self.now.bdos.terminal)).ending ≢ NoInput) }
        ensures part { IfOk result (λ echo. (typed_line (line_room (state_of self.now []).run) (screen (λ d. d) self.now.bdos.terminal)).ending ≢ NoInput → echo.is_whole ≡ true) }
        ensures bytes { IfOk result (λ echo. echo.bytes.items ≡ next_echo (state_of self.now []).run) }
        ensures due { OnErr result (MayHaveEcho (state_of self.now []).run) }
    {
        let room = self.memory.get(self.cpu.main.de());
        echo_of(alloc, self.bdos.console().typed(), self.bdos.column(), room)
    }

    /// Shows the echo of the line that is being typed, as far as it is not shown yet. Answers whether the line is whole.
    fn echo<K: Station>(&mut self, alloc: Global, station: &mut K) -> Result<bool, PlayEnd>
        requires line { TakesLine self.old.cpu }
        ensures still { IsStill self.old self.new }
        ensures ended { self.new.ended ≡ self.old.ended }
        ensures output { self.new.bdos.terminal.console.output ≡ self.old.bdos.terminal.console.output }
        ensures looks { (start : PlayState S) (before : Seat) (a : Attention) → Watched S.sectors S.faults start before self.old (K.seat station.old) a → self.old.bdos.terminal.console.output ≡ Some [] → BeginsEcho self.old
            → WatchedOn S.sectors S.faults result start before self.new (K.seat station.new) a }
        ensures whole { IfOk result (λ whole. whole ≡ true → (typed_line (line_room (state_of self.new []).run) (screen (λ d. d) self.new.bdos.terminal)).ending ≢ NoInput) }
        ensures part { IfOk result (λ whole. (typed_line (line_room (state_of self.new []).run) (screen (λ d. d) self.new.bdos.terminal)).ending ≢ NoInput → whole ≡ true) }
        ensures echo { OnOk result (self.new.ahead.items ≡ next_echo (state_of self.new []).run) }
        ensures waits { (limit : ℕ) (start : PlayState S) (before : Seat) → Waits S.sectors S.faults limit start before self.old (K.seat station.old) → WaitsOn S.sectors S.faults limit result start before self.new (K.seat station.new) }
    {
        let echo = self.echo_so_far(alloc)?;
        let Some(more) = behind(&self.ahead, &echo.bytes) else {
            return Err(PlayEnd::Failed);
        };
        if more.is_empty() {
            return Ok(echo.is_whole);
        }
        self.ahead.extend_from_slice(more)?;
        match station.show(more) {
            Ok(()) => {
                self.allowance = self.allowance.saturating_sub(more.len() as u64);
                Ok(echo.is_whole)
            }
            Err(_) => Err(PlayEnd::Failed),
        }
    }

    /// Waits until a line is whole, or no byte will come. Shows what is typed meanwhile.
    fn await_line<K: Station>(&mut self, alloc: Global, station: &mut K) -> Result<(), PlayEnd>
        requires line { TakesLine self.old.cpu }
        ensures still { MakesNoStep self.old self.new }
        ensures looks { (start : PlayState S) (before : Seat) (a : Attention) → Watched S.sectors S.faults start before self.old (K.seat station.old) a → self.old.bdos.terminal.console.output ≡ Some [] → self.old.ahead.items ≡ []
            → self.old.turns < self.old.looked + 2000000 → Attended S.sectors S.faults result start before self.new (K.seat station.new) }
        ensures waits { (limit : ℕ) (start : PlayState S) (before : Seat) → Waits S.sectors S.faults limit start before self.old (K.seat station.old) → WaitsOn S.sectors S.faults limit result start before self.new (K.seat station.new) }
    {
        for look in 0..MOST_WAITS {
            if self.echo(alloc, station)? {
                return Ok(());
            }
            if self.ended {
                return Ok(());
            }
            if let Err(end) = self.listen(alloc, station, Patience::Wait) {
                return Err(end);
            }
        }
        Err(PlayEnd::Failed)
    }

    /// Waits until the next step has the byte or the line that it takes, or no byte will come. All that was put is shown before.
    fn await_input<K: Station>(&mut self, alloc: Global, station: &mut K) -> Result<(), PlayEnd>
        requires waits { patience_of self.old.cpu ≡ how.Wait }
        ensures still { MakesNoStep self.old self.new }
        ensures looks { (start : PlayState S) (before : Seat) (a : Attention) → Watched S.sectors S.faults start before self.old (K.seat station.old) a → self.old.ahead.items ≡ [] → self.old.turns < self.old.looked + 2000000
            → Attended S.sectors S.faults result start before self.new (K.seat station.new) }
        ensures so_far { (limit : ℕ) (start : PlayState S) (before : Seat) → SoFar S.sectors S.faults start before self.old (K.seat station.old) → IsBetween limit self.old → Continues S.sectors S.faults limit result start before self.new (K.seat station.new) }
    {
        self.show_all(station)?;
        if takes_line(&self.cpu) {
            self.await_line(alloc, station)
        } else {
            self.await_byte(alloc, station)
        }
    }

    /// Shows all that was put, so that nothing is hidden from the person, and asks the keyboard once.
    fn look<K: Station>(
        &mut self,
        alloc: Global,
        station: &mut K,
        patience: Patience,
    ) -> Result<(), PlayEnd>
        requires quick { patience ≢ how.Wait }
        ensures still { MakesNoStep self.old self.new }
        ensures looked { OnOk result (self.new.looked ≡ self.new.turns) }
        ensures allowance { OnOk result (self.new.allowance ≡ 1048576) }
        ensures output { OnOk result (self.new.bdos.terminal.console.output ≡ Some []) }
        ensures ahead { OnOk result (self.new.ahead.items ≡ []) }
        ensures looks { (start : PlayState S) (before : Seat) (a : Attention) → Watched S.sectors S.faults start before self.old (K.seat station.old) a → self.old.ahead.items ≡ [] → IsLookDue patience (state_of self.old []).run self.old.turns a
            → AfterLook S.sectors S.faults patience result start before self.new (K.seat station.new) a }
        ensures so_far { (limit : ℕ) (start : PlayState S) (before : Seat) → SoFar S.sectors S.faults start before self.old (K.seat station.old) → IsBetween limit self.old → Continues S.sectors S.faults limit result start before self.new (K.seat station.new) }
    {
        self.show_all(station)?;
        self.listen(alloc, station, patience)
    }

    /// Whether the next step has to wait for another look at the keyboard: 2,000,000 steps were made since the last one, or 1,048,576 bytes shown.
    fn is_look_overdue(&self) -> bool
        ensures yes { result ≡ true → (self.now.looked + 2000000 ≤ self.now.turns) ⊎ (self.now.allowance ≡ 0) }
        ensures no { result ≡ false → self.now.turns < self.now.looked + 2000000 }
        ensures allowed { result ≡ false → 0 < self.now.allowance }
    {
        self.allowance == 0 || self.turns.saturating_sub(self.looked) >= LONGEST_UNSEEN
    }

    /// Looks at the keyboard once if the next step takes what has come, and otherwise if a look is overdue. This includes a step that waits,
    /// since it may have its input already: a program that only takes lines without room for a byte never has to wait.
    fn look_in_time<K: Station>(
        &mut self,
        alloc: Global,
        station: &mut K,
        patience: Patience,
    ) -> Result<(), PlayEnd>
        requires patience { patience ≡ patience_of self.old.cpu }
        ensures still { MakesNoStep self.old self.new }
        ensures looks { (start : PlayState S) (before : Seat) (a : Attention) → Watched S.sectors S.faults start before self.old (K.seat station.old) a → a.here ≡ false → HoldsFew (state_of self.old []).run → self.old.ahead.items ≡ []
            → LooksOn S.sectors S.faults result start before self.new (K.seat station.new) }
        ensures so_far { (limit : ℕ) (start : PlayState S) (before : Seat) → SoFar S.sectors S.faults start before self.old (K.seat station.old) → IsBetween limit self.old → Continues S.sectors S.faults limit result start before self.new (K.seat station.new) }
    {
        match patience {
            Patience::Poll => return self.look(alloc, station, Patience::Poll),
            _ => {}
        }
        if self.is_look_overdue() {
            return self.look(alloc, station, Patience::Glance);
        }
        Ok(())
    }

    /// Sees that the next step has the input that it takes, and that the keyboard is looked at from time to time.
    pub(crate) fn attend<K: Station>(
        &mut self,
        alloc: Global,
        station: &mut K,
    ) -> Result<(), PlayEnd>
        ensures cpu { self.new.cpu ≡ self.old.cpu }
        ensures turns { self.new.turns ≡ self.old.turns }
        ensures looks { (start : PlayState S) (before : Seat) (a : Attention) → Watched S.sectors S.faults start before self.old (K.seat station.old) a → a.here ≡ false → HoldsFew (state_of self.old []).run → self.old.ahead.items ≡ []
            → Attended S.sectors S.faults result start before self.new (K.seat station.new) }
        ensures so_far { (limit : ℕ) (start : PlayState S) (before : Seat) → SoFar S.sectors S.faults start before self.old (K.seat station.old) → IsBetween limit self.old → Continues S.sectors S.faults limit result start before self.new (K.seat station.new) }
    {
        let patience = patience_of(&self.cpu);
        if let Err(end) = self.look_in_time(alloc, station, patience) {
            return Err(end);
        }
        match patience {
            Patience::Wait => return self.await_input(alloc, station),
            _ => {}
        }
        Ok(())
    }
}
