//! Where somebody sits while a program runs: a keyboard and a screen.

ghost use Rattle.std.specs.Prelude.{◌<◌, length};
ghost use Rattle.cpm_console.specs.Seat.{Listens, Seat, SeatEvent, TriesToShow, shown_event};

/// Why a keyboard is asked: for what has come, or for what will come.
#[derive(Clone, Copy, Debug, PartialEq, Eq)]
pub enum Patience {
    /// In case the person wants to leave: the program has asked for nothing.
    Glance,
    /// For the bytes that have come. There may be none.
    Poll,
    /// Until a byte comes. A keyboard may answer no byte all the same, so that it is asked again.
    Wait,
}

/// What came from a keyboard.
#[derive(Clone, Copy, Debug, PartialEq, Eq)]
pub enum Came {
    /// This number of bytes, at the front of the buffer.
    Bytes(usize),
    /// No byte is left, and the keyboard expects none.
    End,
    /// The person wants to leave.
    Leave,
}

/// A keyboard could not be read, or a screen takes no bytes.
#[derive(Clone, Copy, Debug, PartialEq, Eq)]
pub struct StationFault;

/// A keyboard and a screen.
pub trait Station {
    /// What the screen has got, which keys will come, and what has happened, where that is known; and by which keys the person leaves.
    ghost seat: { Self → Seat };

    /// To what an answer is owed: what has to have happened between two states of the station so that it may answer so.
    ghost owes: { Self → Self → SeatEvent → Type 0 };

    /// Reads what comes into a buffer. The program has made `turns` steps.
    ///
    /// # Errors
    ///
    /// [`StationFault`] if the keyboard cannot be read.
    fn listen(
        &mut self,
        turns: u64,
        patience: Patience,
        buffer: &mut [u8],
    ) -> Result<Came, StationFault>
        ensures seat { Listens turns patience (seat self.old) (seat self.new) result buffer.new }
        ensures owed { 0 < length buffer.old → owes self.old self.new (SeatEvent.asked turns patience result) };

    /// Shows bytes.
    ///
    /// # Errors
    ///
    /// [`StationFault`] if the screen does not take them all.
    fn show(&mut self, bytes: &[u8]) -> Result<(), StationFault>
        ensures seat { TriesToShow bytes.now (seat self.old) (seat self.new) result }
        ensures owed { owes self.old self.new (shown_event bytes.now result) };
}
