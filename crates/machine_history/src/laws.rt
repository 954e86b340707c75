//! Laws of a debugged run, as functions that do nothing.

ghost use Rattle.std.specs.Prelude.{◌≡◌, ℕ, [], List, Ok, Option, Some};
ghost use Rattle.cpm_bdos.specs.Alike.{AlikeDisks};
ghost use Rattle.cpm_disk.specs.Calls.{Mounted};
ghost use Rattle.cpm_disk.specs.Image.{Image};
ghost use Rattle.cpm_console.specs.Dialog.{dialog_of};
ghost use Rattle.cpm_run.specs.Play.{IsInOrder, PlayedRunEnds, first_state};
ghost use Rattle.cpm_run.specs.Run.{TurnsEnd};
ghost use Rattle.cpm_run.specs.Start.{IsStart};
ghost use Rattle.cpm_run.specs.declared.arriving.Arrival.{Arrival};
ghost use Rattle.z80_cpu.specs.declared.registers.Cpu.{Cpu};
ghost use Rattle.machine_history.specs.Alike.{AlikePoints, AlikeStates, IsCalm, ShowsRun};
ghost use Rattle.machine_history.specs.Coming.{came_before};
ghost use Rattle.machine_history.specs.Going.{IsFirstShown, RanUntil};
ghost use Rattle.machine_history.specs.Stops.{IsLast};
ghost use Rattle.machine_history.specs.declared.history.Outcome.{Outcome};
ghost use Rattle.machine_history.specs.declared.stops.Goal.{Goal};
ghost use Rattle.machine_history.specs.declared.stops.Hit.{Hit};
ghost use Rattle.machine_history.specs.declared.stops.Stops.{Stops};
ghost use Rattle.machine_history.specs.Walk.{IsAfter, Point, MemoryState, Shown, limit_end, run_of};

/// If no bytes of a record come, what is shown after n turns is what a run leaves that may make n turns: it ends with this state after n turns,
/// because the run ends there or because of its limit.
pub fn as_run()
    ensures { (start : MemoryState) (n : ℕ) (p : Point) → start.coming ≡ [] → IsAfter start n p →
        TurnsEnd (λ image. image) (λ image. 0) (λ dialog. dialog) n (run_of start) (limit_end p.end) n (run_of p.state) }
{}

/// If the bytes of a record come, what is shown after n turns is what a session leaves that may make n turns, with the same program, words and
/// disk, to which the bytes of the record came that were to come before. So by [`cpm_run::laws::one_session`] a debugger shows what the
/// program does when it is played again.
pub fn is_session()
    ensures { (file : List ℕ) (words : List (List ℕ)) (disk : Mounted Image) (recorded : List Arrival) (last : ℕ) (shown : Shown) (n : ℕ) (p : Point) →
        IsFirstShown file words disk (dialog_of [] (Some []) 0) recorded shown → IsInOrder recorded last → IsCalm p → IsAfter shown.start n p →
        (cpu : Cpu) × (memory : List ℕ) × IsStart file words (Ok (cpu, memory))
        × PlayedRunEnds (λ image. image) (λ image. 0) n (first_state cpu memory disk) (limit_end p.end) (record { run = run_of p.state; turns = n; arrivals = came_before n recorded; shown = [] }) }
{}

/// A run has one state after each number of turns. Two runs that begin in states that look alike are, after as many turns, in states that
/// look alike: with the same registers, memory, input and output, the same files on their disks, and the same bytes still to come. They go on
/// there, or end for the same reason. A state in which memory has run out for what the program printed, or for a byte that came, is left out.
pub fn one_state()
    ensures { (printed : List ℕ) (start beginning : MemoryState) (n : ℕ) (p q : Point) →
        AlikeStates printed start beginning → IsCalm p → IsCalm q → IsAfter start n p → IsAfter beginning n q → AlikePoints printed p q }
{
    z80_machine::laws::one_turn();
}

/// What a debugger shows is a function of the program, its words, its disk, its input, the bytes of the record, and the number of the turn that
/// it was to show. It does not matter which commands led there, and which states were kept on the way.
pub fn one_session()
    ensures { (file : List ℕ) (words : List (List ℕ)) (disk other : Mounted Image) (input : List ℕ) (recorded : List Arrival) (turn : ℕ) (one two : Shown) →
        AlikeDisks (λ image. image) disk other → ShowsRun file words disk input recorded turn one → ShowsRun file words other input recorded turn two →
        (two.turn ≡ one.turn) × AlikePoints [] one.point two.point }
{
    z80_machine::laws::one_turn();
}

/// `run`, `next` and `finish` stop in one place. From points that look alike, with the same goal, breakpoints, watched bytes and limit, they
/// lead to points that look alike, after as many turns and for the same reason.
pub fn one_stop()
    ensures { (printed : List ℕ) (goal : Option Goal) (stops : Stops) (limit : ℕ) (old other new there : Shown) (outcome reason : Outcome) →
        AlikePoints printed old.point other.point → other.turn ≡ old.turn → IsCalm new.point → IsCalm there.point →
        RanUntil goal stops limit old new outcome → RanUntil goal stops limit other there reason →
        (reason ≡ outcome) × (there.turn ≡ new.turn) × AlikePoints printed new.point there.point }
{
    z80_machine::laws::one_turn();
}

/// `who` and `back-run` have one answer: in two histories of runs that begin alike, the same turn is the last of the first n at which
/// something held, and the same held at it.
pub fn one_last()
    ensures { (printed : List ℕ) (stops : Stops) (shown other : Shown) (n : ℕ) (last found : Option (ℕ × Hit)) →
        AlikeStates printed shown.start other.start → IsCalm shown.point → IsCalm other.point → IsLast stops shown n last → IsLast stops other n found → found ≡ last }
{
    z80_machine::laws::one_turn();
}
