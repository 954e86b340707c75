//! Somebody at standard input and standard output.

ghost use Rattle.std.specs.Prelude.{◌≡◌, ◌<◌, ◌≤◌, ◌≢◌, ◌++◌, ℕ, List, EachIndex, Ok, false, if◌then◌else◌, length, slice_index, true};
ghost use Rattle.cpm_console.specs.Seat.{Hears, SeatEvent, TriesToShow, shown_event};
ghost use Rattle.cpm_console.specs.declared.station.Came.TheVariants as came;
ghost use Rattle.cpm_console.specs.declared.codes.Pending.TheVariants.{Nothing};
ghost use Rattle.z80dev_run.specs.Desk.{as_keys, desk_seat, has_left, leaves_by, line_key};
ghost use Rattle.z80dev_run.specs.Rhythm.{HasRead, rhythm_after_asking, rhythm_after_look, rhythm_after_showing, is_read_due};
ghost use Rattle.z80dev_run.specs.Owing.{DeskOwes, LookOwes, counts_of};
ghost use Rattle.z80dev_run.specs.declared.desk.InputState.TheVariants as state;
ghost use Rattle.z80dev_run.specs.declared.desk.Keys.TheVariants as keys;

use crate::input::{CR, LF};
use crate::rhythm::Rhythm;
use cpm_console::{Codes, Screen};
use cpm_run::{Came, Patience, Station, StationFault};
use host::{Input, ReadFault, Sink, print};
use std::alloc::Global;
use std::marker::Model;

/// At most this number of times standard input is read: ten times a second for 13 years.
const MOST_LISTENS: u64 = 4_294_967_296;

/// The key Ctrl-\. A person leaves by pressing it twice.
const LEAVE: u8 = 0x1C;

/// How keys come.
#[derive(Clone, Copy, Debug, PartialEq, Eq)]
pub enum Keys {
    /// Each as it is pressed. A read that gives nothing says that none was pressed.
    Raw,
    /// By lines. A read that gives nothing says that no more will come, and an LF is the key RETURN.
    Lines,
}

/// What is known of standard input.
#[derive(Clone, Copy)]
pub(crate) enum InputState {
    /// It can be read.
    Open,
    /// Nothing is left.
    Ended,
    /// A read has failed.
    Failed,
}

/// Standard input and standard output, with the terminal for which the program was made.
#[derive(Drop)]
pub struct Desk<I: Input, S: Sink> {
    input: I,
    output: S,
    screen: Screen,
    keys: Keys,
    /// What is shown for the bytes that the program puts.
    text: Vec<u8>,
    /// How often standard input was read.
    reads: u64,
    state: InputState,
    rhythm: Rhythm,
    /// Whether the last key is the first half of leaving.
    is_leaving: bool,
}

impl<I: Input, S: Sink> Model for Desk<I, S> {
    ghost use Rattle.std.specs.Io.KnownBytes.{IsAtEnd};
    ghost use Rattle.std.specs.Prelude.{◌≡◌, ◌≢◌, ◌≤◌, false, true};
    ghost use Rattle.z80dev_run.specs.Desk.{DeskState};
    ghost use Rattle.z80dev_run.specs.declared.desk.Keys.TheVariants.{Raw};
    ghost use Rattle.z80dev_run.specs.declared.desk.InputState.TheVariants.{Open, Ended, Failed};
    ghost use Rattle.z80dev_run.specs.declared.desk.TheConstants.{MOST_LISTENS};

    ghost Value = { DeskState I S };

    ghost view = { λ d. record { input = d.input; output = d.output; screen = d.screen; keys = d.keys; rhythm = d.rhythm; state = d.state; is_leaving = d.is_leaving } };

    ghost invariant = { λ d. (d.state ≡ Open → I.failed d.input ≡ false) × (d.state ≡ Failed → I.failed d.input ≡ true) × (d.state ≡ Ended → IsAtEnd (I.remaining d.input)) × (d.keys ≡ Raw → d.state ≢ Ended) × (I.reads d.input ≡ d.reads) × (d.reads ≤ MOST_LISTENS) × (d.rhythm.allowance ≤ 1048576) };
}

/// Whether the key Ctrl-\ is pressed twice, given whether it was the last key before these.
fn has_left(is_leaving: bool, bytes: &[u8]) -> bool
    ensures { result ≡ has_left is_leaving bytes.now }
{
    let mut was = is_leaving;
    for byte in bytes {
        if was && *byte == LEAVE {
            return true;
        }
        was = *byte == LEAVE;
    }
    false
}

/// What a byte of a line is as a key: LF is the key RETURN.
fn line_key(byte: u8) -> u8
    ensures { result ≡ line_key byte }
{
    if byte == LF { CR } else { byte }
}

/// Makes each LF the key RETURN.
fn make_returns(bytes: &mut [u8])
    ensures { EachIndex bytes.new (λ k. slice_index bytes.new k ≡ line_key (slice_index bytes.old k)) }
{
    for byte in bytes.iter_mut() {
        *byte = line_key(*byte);
    }
}

impl<I: Input, S: Sink> Desk<I, S> {
    /// Somebody at these streams. Standard input was not read before.
    pub fn new(alloc: Global, input: I, output: S, codes: Codes, keys: Keys) -> Desk<I, S>
        requires sound { I.failed input ≡ false }
        requires unread { I.reads input ≡ 0 }
        ensures input { result.input ≡ input }
        ensures output { result.output ≡ output }
        ensures screen { result.screen ≡ record { codes = codes; pending = Nothing } }
        ensures keys { result.keys ≡ keys }
        ensures rhythm { result.rhythm ≡ record { paused = 0; heard = 0; is_busy = true; allowance = 1048576 } }
        ensures state { result.state ≡ state.Open }
        ensures half { result.is_leaving ≡ false }
    {
        Desk {
            input,
            output,
            screen: Screen::new(codes),
            keys,
            text: Vec::new(alloc),
            reads: 0,
            state: InputState::Open,
            rhythm: Rhythm::new(),
            is_leaving: false,
        }
    }

    /// The streams.
    pub fn into_streams(self) -> (I, S)
        ensures input { result.0 ≡ self.input }
        ensures output { result.1 ≡ self.output }
        ensures reads { I.reads result.0 ≤ 4294967296 }
    {
        (self.input, self.output)
    }

    /// Whether the keyboard is to be looked at now.
    fn is_due(&mut self, turns: u64, patience: Patience) -> bool
        ensures due { result ≡ is_read_due self.old.keys self.old.rhythm turns patience }
        ensures next { self.new ≡ record self.old { rhythm = rhythm_after_asking self.old.keys self.old.rhythm turns patience } }
    {
        self.rhythm.is_due(self.keys, turns, patience)
    }

    /// What bytes that were read mean. Those of lines become keys.
    fn hear(&mut self, bytes: &mut [u8]) -> Came
        ensures bytes { bytes.new ≡ as_keys self.old.keys bytes.old }
        ensures came { result ≡ (if leaves_by self.old.keys self.old.is_leaving bytes.old then came.Leave else came.Bytes (length bytes.old)) }
        ensures leaves { result ≢ came.Leave → (more : List ℕ) → leaves_by self.new.keys self.new.is_leaving more ≡ leaves_by self.old.keys self.old.is_leaving (bytes.old ++ more) }
        ensures input { self.new.input ≡ self.old.input }
        ensures output { self.new.output ≡ self.old.output }
        ensures screen { self.new.screen ≡ self.old.screen }
        ensures keys { self.new.keys ≡ self.old.keys }
        ensures rhythm { self.new.rhythm ≡ self.old.rhythm }
        ensures state { self.new.state ≡ self.old.state }
    {
        if self.keys == Keys::Lines {
            make_returns(bytes);
            return Came::Bytes(bytes.len());
        }
        if has_left(self.is_leaving, bytes) {
            return Came::Leave;
        }
        if let Some(last) = bytes.last() {
            self.is_leaving = *last == LEAVE;
        }
        Came::Bytes(bytes.len())
    }

    /// Reads standard input once, after this number of steps.
    fn look(&mut self, turns: u64, buffer: &mut [u8]) -> Result<Came, StationFault>
        requires room { 0 < length buffer.old }
        ensures raw { self.old.keys ≡ keys.Raw → result ≢ Ok came.End }
        ensures hears { Hears (desk_seat self.old (I.remaining self.old.input) (S.stream self.old.output).bytes) (desk_seat self.new (I.remaining self.new.input) (S.stream self.new.output).bytes) result buffer.new }
        ensures reads { HasRead result (I.reads self.old.input) (I.reads self.new.input) }
        ensures rhythm { self.new.rhythm ≡ rhythm_after_look turns result }
        ensures keys { self.new.keys ≡ self.old.keys }
        ensures screen { self.new.screen ≡ self.old.screen }
        ensures output { self.new.output ≡ self.old.output }
        ensures owed { LookOwes (counts_of self.old (I.reads self.old.input) (I.interruptions self.old.input) (I.failed self.old.input) (I.remaining self.old.input) (S.stream self.old.output)) (counts_of self.new (I.reads self.new.input) (I.interruptions self.new.input) (I.failed self.new.input) (I.remaining self.new.input) (S.stream self.new.output)) result }
    {
        self.rhythm.read_at(turns);
        match self.state {
            InputState::Ended => return Ok(Came::End),
            InputState::Failed => return Err(StationFault),
            InputState::Open => {}
        }
        if self.reads == MOST_LISTENS {
            return Err(StationFault);
        }
        self.reads += 1;
        match self.input.read(buffer) {
            Ok(0) if self.keys == Keys::Raw => Ok(Came::Bytes(0)),
            Ok(0) => {
                self.state = InputState::Ended;
                Ok(Came::End)
            }
            Ok(count) => {
                self.rhythm.work();
                Ok(self.hear(&mut buffer[..count]))
            }
            Err(ReadFault::Interrupted) => Ok(Came::Bytes(0)),
            Err(ReadFault::Failed) => {
                self.state = InputState::Failed;
                Err(StationFault)
            }
        }
    }

    /// Reads what comes into a buffer, if the keyboard is to be looked at now.
    fn look_if_due(
        &mut self,
        turns: u64,
        patience: Patience,
        buffer: &mut [u8],
    ) -> Result<Came, StationFault>
        ensures hears { Hears (desk_seat self.old (I.remaining self.old.input) (S.stream self.old.output).bytes) (desk_seat self.new (I.remaining self.new.input) (S.stream self.new.output).bytes) result buffer.new }
        ensures no_room { length buffer.old ≡ 0 → (result ≡ Ok (came.Bytes 0)) × (self.new ≡ self.old) }
        ensures not_due { 0 < length buffer.old → is_read_due self.old.keys self.old.rhythm turns patience ≡ false
            → (result ≡ Ok (came.Bytes 0)) × (self.new ≡ record self.old { rhythm = rhythm_after_asking self.old.keys self.old.rhythm turns patience }) }
        ensures due { 0 < length buffer.old → is_read_due self.old.keys self.old.rhythm turns patience ≡ true
            → (self.new.rhythm ≡ rhythm_after_look turns result) × HasRead result (I.reads self.old.input) (I.reads self.new.input) }
        ensures owed { 0 < length buffer.old → DeskOwes (counts_of self.old (I.reads self.old.input) (I.interruptions self.old.input) (I.failed self.old.input) (I.remaining self.old.input) (S.stream self.old.output)) (counts_of self.new (I.reads self.new.input) (I.interruptions self.new.input) (I.failed self.new.input) (I.remaining self.new.input) (S.stream self.new.output)) (SeatEvent.asked turns patience result) }
    {
        // A read into a buffer without room gives nothing, which would look like the end of the input.
        if buffer.is_empty() || !self.is_due(turns, patience) {
            return Ok(Came::Bytes(0));
        }
        self.look(turns, buffer)
    }

    /// Shows bytes.
    fn show_bytes(&mut self, bytes: &[u8]) -> Result<(), StationFault>
        ensures shows { TriesToShow bytes.now (desk_seat self.old (I.remaining self.old.input) (S.stream self.old.output).bytes) (desk_seat self.new (I.remaining self.new.input) (S.stream self.new.output).bytes) result }
        ensures rhythm { self.new.rhythm ≡ rhythm_after_showing bytes.now self.old.rhythm }
        ensures owed { DeskOwes (counts_of self.old (I.reads self.old.input) (I.interruptions self.old.input) (I.failed self.old.input) (I.remaining self.old.input) (S.stream self.old.output)) (counts_of self.new (I.reads self.new.input) (I.interruptions self.new.input) (I.failed self.new.input) (I.remaining self.new.input) (S.stream self.new.output)) (shown_event bytes.now result) }
    {
        if bytes.is_empty() {
            return Ok(());
        }
        self.rhythm.show(bytes.len() as u64);
        if self.screen.codes == Codes::Plain {
            return match print(&mut self.output, bytes) {
                Ok(()) => Ok(()),
                Err(_) => Err(StationFault),
            };
        }
        self.text.clear();
        match self.screen.show(bytes, &mut self.text) {
            Ok(()) => match print(&mut self.output, &self.text) {
                Ok(()) => Ok(()),
                Err(_) => Err(StationFault),
            },
            Err(_) => Err(StationFault),
        }
    }
}

impl<I: Input, S: Sink> Station for Desk<I, S> {
    ghost use Rattle.z80dev_run.specs.Desk.{seat_of};
    ghost use Rattle.z80dev_run.specs.Owing.{DeskOwes, counts_of};

    ghost seat = { λ d. seat_of d.screen.codes d.screen.pending d.keys d.is_leaving (I.remaining d.input) (S.stream d.output).bytes };

    ghost owes = { λ old new event. DeskOwes (counts_of old (I.reads old.input) (I.interruptions old.input) (I.failed old.input) (I.remaining old.input) (S.stream old.output)) (counts_of new (I.reads new.input) (I.interruptions new.input) (I.failed new.input) (I.remaining new.input) (S.stream new.output)) event };

    fn listen(
        &mut self,
        turns: u64,
        patience: Patience,
        buffer: &mut [u8],
    ) -> Result<Came, StationFault> {
        self.look_if_due(turns, patience, buffer)
    }

    fn show(&mut self, bytes: &[u8]) -> Result<(), StationFault> {
        self.show_bytes(bytes)
    }
}
