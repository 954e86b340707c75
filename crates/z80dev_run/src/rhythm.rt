//! How often the keyboard is looked at.

ghost use Rattle.std.specs.Prelude.{◌≡◌, ◌-◌, false, true};
ghost use Rattle.z80dev_run.specs.Rhythm.{rhythm_after_asking, is_read_due, is_loud, is_put_off, pause};

use crate::desk::Keys;
use cpm_run::Patience;

/// How many steps a program makes between two looks at the keyboard, if it has shown something or got a byte since the last. A look may take a
/// tenth of a second, so a program that looks for a key all the time runs at about 40 times the speed of a Z80 of 4 MHz.
const BUSY: u64 = 2_000_000;

/// The same if it has not. Then nearly all the time is spent in waiting, so that a program that only looks for a key leaves the processor free.
const IDLE: u64 = 200_000;

/// Once this number of bytes are shown since the last look, the next one is made at once, if keys come as they are pressed. One call of the
/// system may put 65,536 bytes, which are 524,288 once tabs are expanded, so by steps alone a person who wants to leave would wait for gigabytes.
const MOST_UNSEEN: u64 = 1_048_576;

/// By lines, a look is put off only until this number of steps after the last read, so that a program that shows something all the time is given
/// what has come. Then it may have to wait until a line comes, so these steps take half a second and more.
const LONGEST_BUSY: u64 = 100_000_000;

/// When the keyboard was looked at, and whether something has happened since.
#[derive(Clone, Copy)]
pub(crate) struct Rhythm {
    /// How many steps were made before the present pause: at the last look, or when the look after it was put off.
    paused: u64,
    /// How many steps were made before the last look, whether it gave a key, gave none, or was interrupted.
    heard: u64,
    /// Whether something was shown in the present pause, or came in the look before it.
    is_busy: bool,
    /// How many more bytes may be shown before a look is due.
    allowance: u64,
}

impl Rhythm {
    /// Before the first step of a program, which counts as busy.
    pub(crate) fn new() -> Rhythm
        ensures { result ≡ record { paused = 0; heard = 0; is_busy = true; allowance = 1048576 } }
    {
        Rhythm {
            paused: 0,
            heard: 0,
            is_busy: true,
            allowance: MOST_UNSEEN,
        }
    }

    /// Notes that a byte came.
    pub(crate) fn work(&mut self)
        ensures { self.new ≡ record self.old { is_busy = true } }
    {
        self.is_busy = true;
    }

    /// Notes that this number of bytes is shown.
    pub(crate) fn show(&mut self, count: u64)
        ensures { self.new ≡ record self.old { is_busy = true; allowance = self.old.allowance - count } }
    {
        self.is_busy = true;
        self.allowance = self.allowance.saturating_sub(count);
    }

    /// Notes a look after this number of steps.
    pub(crate) fn read_at(&mut self, turns: u64)
        ensures { self.new ≡ record { paused = turns; heard = turns; is_busy = false; allowance = 1048576 } }
    {
        self.paused = turns;
        self.heard = turns;
        self.is_busy = false;
        self.allowance = MOST_UNSEEN;
    }

    /// Whether a look by lines is put off, since it may last until a line comes and the program does something meanwhile.
    fn is_put_off(self, keys: Keys, turns: u64) -> bool
        ensures { result ≡ is_put_off keys self turns }
    {
        keys == Keys::Lines && self.is_busy && turns.saturating_sub(self.heard) < LONGEST_BUSY
    }

    /// Whether so much was shown since the last look that the next one is made at once. By lines it might last until a line comes.
    fn is_loud(self, keys: Keys) -> bool
        ensures { result ≡ is_loud keys self }
    {
        keys == Keys::Raw && self.allowance == 0
    }

    /// How many steps the present pause has.
    fn pause(self) -> u64
        ensures { result ≡ pause self }
    {
        if self.is_busy { BUSY } else { IDLE }
    }

    /// Whether the keyboard is to be looked at now. If keys come by lines, a look may last until a line comes. So the desk does not look then for
    /// a person who wants to leave, which lines cannot say; and if the program asks for keys, it looks only if the program is idle, or has been
    /// busy for long.
    pub(crate) fn is_due(&mut self, keys: Keys, turns: u64, patience: Patience) -> bool
        ensures due { result ≡ is_read_due keys self.old turns patience }
        ensures next { self.new ≡ rhythm_after_asking keys self.old turns patience }
    {
        match patience {
            Patience::Wait => return true,
            Patience::Glance if keys == Keys::Lines => return false,
            Patience::Glance | Patience::Poll => {}
        }
        if self.is_put_off(keys, turns) {
            self.paused = turns;
            self.is_busy = false;
            return false;
        }
        self.is_loud(keys) || turns.saturating_sub(self.paused) >= self.pause()
    }
}
