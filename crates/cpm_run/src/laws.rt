//! Laws of runs, as functions that do nothing.

ghost use Rattle.std.specs.Prelude.{◌≡◌, ◌⊎◌, ℕ, List, [], Option, Some};
ghost use Rattle.z80_cpu.specs.State.{machine};
ghost use Rattle.z80_cpu.specs.declared.registers.Cpu.{Cpu};
ghost use Rattle.cpm_console.specs.Dialog.{Dialog, dialog_of};
ghost use Rattle.cpm_disk.specs.Calls.{Mounted};
ghost use Rattle.cpm_bdos.specs.Alike.{AlikeDialogs, AlikeDisks, seen_nothing};
ghost use Rattle.cpm_bdos.specs.System.{new_system};
ghost use Rattle.cpm_run.specs.declared.arriving.Arrival.{Arrival};
ghost use Rattle.cpm_run.specs.declared.arriving.PlayEnd.{PlayEnd};
ghost use Rattle.cpm_run.specs.declared.ending.Why.{Why};
ghost use Rattle.cpm_disk.specs.declared.control.stop.Stop.TheVariants as stop;
ghost use Rattle.cpm_run.specs.declared.ending.Why.TheVariants as why;
ghost use Rattle.cpm_run.specs.AlikeSessions.{AlikeSessions, IsEchoAfter, SameShown};
ghost use Rattle.cpm_run.specs.Looks.{LacksInput};
ghost use Rattle.cpm_run.specs.Play.{EndsBy, IsInOrder, IsPlayed, IsReplayed, PlayState, PlayedRunEnds, PlaysOn, arrived, first_state};
ghost use Rattle.cpm_run.specs.Run.{IsRun, TurnsEnd};
ghost use Rattle.cpm_console.specs.Seat.{Seat};
ghost use Rattle.cpm_run.specs.Turns.{IsTurn, RunState};
ghost use Rattle.cpm_run.specs.Undisturbed.{EndsUndisturbed, IsUndisturbed};

use cpm_console::Console;
use cpm_image::Sectors;

/// A program has one run. Two runs of one file with the same words and limit, on disks that look alike and with the same input, end for the
/// same reason after the same number of steps with the same PC, and leave disks that look alike and the same input. If the output was known
/// at the beginning, they have the same output too. This does not hold of a run that ended because memory ran out, or because its disk or
/// its console failed.
pub fn one_run<S: Sectors, C: Console>()
    ensures { (file : List ℕ) (words : List (List ℕ)) (disk other left there : Mounted S) (console second kept held : C) (limit turns steps pc address : ℕ) (end cause : Why) →
        AlikeDisks S.sectors disk other → C.dialog second ≡ C.dialog console → IsUndisturbed end → IsUndisturbed cause →
        IsRun S.sectors S.faults C.dialog file words disk console limit end turns pc left kept →
        IsRun S.sectors S.faults C.dialog file words other second limit cause steps address there held →
        (cause ≡ end) × (steps ≡ turns) × (address ≡ pc) × AlikeDisks S.sectors left there × AlikeDialogs (seen_nothing (C.dialog console).output) (C.dialog kept) (C.dialog held) }
{
    z80_machine::laws::one_turn();
}

/// A run on a console in memory is a session: all its input came before the first step, and nothing was shown.
pub fn run_is_session<S: Sectors>()
    ensures { (cpu : Cpu) (memory : List ℕ) (disk : Mounted S) (typed : List ℕ) (limit turns : ℕ) (end : Why) (new : RunState S Dialog) →
        TurnsEnd S.sectors S.faults (λ d. d) limit (record { machine = machine cpu memory; system = new_system disk (dialog_of typed (Some []) 0) }) end turns new →
        PlayedRunEnds S.sectors S.faults limit (first_state cpu memory disk) end (record { run = new; turns = turns; arrivals = arrived 0 typed; shown = [] }) }
{}

/// When the output is shown makes no difference to a session. Take two sessions of one program from the same registers and memory, on disks
/// that look alike, with the same bytes after the same steps. After the same number of steps they have the same registers and memory, disks
/// that look alike, and the same input. What was shown, followed by what was put and is not shown yet, is the same in both. If a last step
/// ends both runs, they end for the same reason, unless memory ran out, or the disk or the console failed.
pub fn one_session<S: Sectors>()
    ensures between { (cpu : Cpu) (memory : List ℕ) (disk other : Mounted S) (a b : PlayState S) → AlikeDisks S.sectors disk other →
        PlaysOn S.sectors S.faults (first_state cpu memory disk) a → PlaysOn S.sectors S.faults (first_state cpu memory other) b →
        b.arrivals ≡ a.arrivals → b.turns ≡ a.turns → AlikeSessions S.sectors a b }
    ensures at_end { (cpu : Cpu) (memory : List ℕ) (disk other : Mounted S) (a b : PlayState S) (end cause : Why) → AlikeDisks S.sectors disk other →
        IsUndisturbed end → IsUndisturbed cause →
        EndsBy S.sectors S.faults (first_state cpu memory disk) end a → EndsBy S.sectors S.faults (first_state cpu memory other) cause b →
        b.arrivals ≡ a.arrivals → b.turns ≡ a.turns → (cause ≡ end) × AlikeSessions S.sectors a b }
{
    z80_machine::laws::one_turn();
}

/// The bytes that come in a session are in order: none came after fewer steps than the one before it, and none after more steps than were
/// made.
pub fn bytes_in_order<S: Sectors>()
    ensures { (file : List ℕ) (words : List (List ℕ)) (disk left : Mounted S) (limit turns pc : ℕ) (before after : Seat) (end : PlayEnd) (arrivals : List Arrival) →
        IsPlayed S.sectors S.faults file words disk limit before end turns pc left arrivals after → IsInOrder arrivals turns }
{}

/// A session that is played again from its own record ends as it did: for the same reason, after the same number of steps, with the same PC
/// and a disk that looks alike. The same bytes came, and the same bytes were shown, except the echo of a line that was not finished when the
/// person left. This is not said if memory ran out, or if the disk, the console, the keyboard or the screen failed, in either of the two.
pub fn replayed_alike<S: Sectors>()
    ensures { (file : List ℕ) (words : List (List ℕ)) (disk other left there : Mounted S) (limit turns steps pc address : ℕ) (before after seat screen : Seat) (end cause : PlayEnd) (arrivals came : List Arrival) →
        AlikeDisks S.sectors disk other → EndsUndisturbed end → EndsUndisturbed cause →
        IsPlayed S.sectors S.faults file words disk limit before end turns pc left arrivals after →
        IsReplayed S.sectors S.faults file words other limit arrivals turns seat cause steps address there came screen →
        (cause ≡ end) × (steps ≡ turns) × (address ≡ pc) × AlikeDisks S.sectors left there × (came ≡ arrivals) × SameShown (IsEchoAfter S.sectors S.faults file words disk turns arrivals) end before after seat screen }
{
    z80_machine::laws::one_turn();
}

/// A step that lacks its input stops the run for want of it, unless the console fails. No other step stops a run for want of input.
pub fn step_lacking_input<S: Sectors>()
    ensures stops { (old new : RunState S Dialog) (end : Option Why) → LacksInput old → IsTurn S.sectors S.faults (λ d. d) old end new →
        (end ≡ Some (why.Stopped stop.EndOfInput)) ⊎ (end ≡ Some (why.Stopped stop.ConsoleFault)) }
    ensures only { (old new : RunState S Dialog) → IsTurn S.sectors S.faults (λ d. d) old (Some (why.Stopped stop.EndOfInput)) new → LacksInput old }
{}
