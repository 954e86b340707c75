//! Laws of what is printed, and of when the keyboard is read, as functions that do nothing.

ghost use Rattle.std.specs.Prelude.{◌≡◌, ◌<◌, ◌≤◌, ◌+◌, ◌^◌, ℕ, true, All, List, length, sum};
ghost use Rattle.std.specs.List.{concat};
ghost use Rattle.cpm_run.specs.Records.{CountsAre};
ghost use Rattle.cpm_run.specs.declared.arriving.Arrival.{Arrival};
ghost use Rattle.cpm_run.specs.declared.recording.TraceStep.{TraceStep};
ghost use Rattle.cpm_console.specs.declared.station.Patience.{Patience};
ghost use Rattle.cpm_console.specs.declared.station.Patience.TheVariants as how;
ghost use Rattle.machine_history.specs.Recorded.{HasWidths, IsRecord};
ghost use Rattle.z80dev_run.specs.Rhythm.{is_read_due, rhythm_after_all, rhythm_after_asking};
ghost use Rattle.z80dev_run.specs.declared.desk.Keys.TheVariants as keys;
ghost use Rattle.z80dev_run.specs.declared.rhythm.Rhythm.{Rhythm};

/// A text is the record of one session at most. So a session that is played again from its file gets the very bytes of that session.
pub fn one_record()
    ensures { (text : List ℕ) (a b : List Arrival) (m n : ℕ) → All HasWidths a → All HasWidths b → m < 2 ^ 64 → n < 2 ^ 64 → IsRecord text a m → IsRecord text b n → (a ≡ b) × (m ≡ n) }
{}

/// The counts of a run's steps by address add up to the number of its steps.
pub fn counts_add_up()
    ensures { (steps : List TraceStep) (counts : List ℕ) → All (λ s. s.before.pc < 65536) steps → CountsAre true steps counts → sum counts ≡ length steps }
{}

/// Whenever a session glances at the keyboard because it has shown 1,048,576 bytes since its last look, a desk whose keys come as they are
/// pressed reads it. A look for which the desk did not read leaves the rhythm as it was, so at least as much was shown since the desk's own
/// last read.
pub fn loud_glance_reads()
    ensures reads { (r : Rhythm) (shown : List (List ℕ)) (turns : ℕ) → r.allowance ≤ 1048576 → 1048576 ≤ length (concat shown) → is_read_due keys.Raw (rhythm_after_all shown r) turns how.Glance ≡ true }
    ensures between { (r : Rhythm) (turns : ℕ) (patience : Patience) → rhythm_after_asking keys.Raw r turns patience ≡ r }
{}

/// Whenever a session glances at the keyboard 2,000,000 steps after its last look, a desk whose keys come as they are pressed reads it, if the
/// desk's own last read was no later than that look.
pub fn late_glance_reads()
    ensures { (r : Rhythm) (last turns : ℕ) → r.paused ≤ last → last + 2000000 ≤ turns → is_read_due keys.Raw r turns how.Glance ≡ true }
{}
