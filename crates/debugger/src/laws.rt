//! Laws of a debugged run, as functions that do nothing.

ghost use Rattle.std.specs.Prelude.{◌≡◌, ℕ, List, Option};
ghost use Rattle.cpm_disk.specs.Calls.{Mounted};
ghost use Rattle.cpm_disk.specs.Image.{Image};
ghost use Rattle.cpm_console.specs.Dialog.{Dialog};
ghost use Rattle.cpm_run.specs.declared.arriving.Arrival.{Arrival};
ghost use Rattle.machine_history.specs.Alike.{AlikeHistories, IsCalm};
ghost use Rattle.debugger.specs.Conversation.{SessionState, Talks};
ghost use Rattle.machine_history.specs.Going.{IsFirstShown};
ghost use Rattle.state_text.specs.Labelled.{Known};
ghost use Rattle.debugger.specs.Session.{IsSameRun, Moves};
ghost use Rattle.debugger_commands.specs.Help.{EachHasOneLine, FitsTerminal, ListsVerbs};
ghost use Rattle.debugger_commands.specs.Typed.{every_verb};
ghost use Rattle.debugger_commands.specs.declared.command.Command.{Command};
ghost use Rattle.machine_history.specs.declared.history.Outcome.{Outcome};
ghost use Rattle.debugger_commands.specs.declared.help.TheConstants.{HELP};
ghost use Rattle.machine_history.specs.declared.stops.Stops.{Stops};
ghost use Rattle.machine_history.specs.Walk.{IsTrue_of_run, Shown};

pub use machine_history::laws::{as_run, is_session, one_last, one_session, one_state, one_stop};

/// Whatever lines are obeyed, what a session shows is a point of the one run that it began with, after its number of turns.
pub fn same_run()
    ensures { (file : List ℕ) (words : List (List ℕ)) (disk : Mounted Image) (console : Dialog) (recorded : List Arrival) (known : Known) (listing : List ℕ) (lines : List (List ℕ)) (said : List ℕ) (old new : SessionState) →
        IsFirstShown file words disk console recorded old.shown → Talks known listing old lines said new → IsSameRun old.shown new.shown }
{}

/// A command has one answer. Histories of runs that begin alike, and that show the same, show the same after it, and it ends for the same
/// reason.
pub fn one_move()
    ensures { (printed : List ℕ) (command : Command) (stops : Stops) (old other new there : Shown) (told said : Option Outcome) →
        AlikeHistories printed old other → IsTrue_of_run new → IsTrue_of_run there → new.start ≡ old.start → there.start ≡ other.start → IsCalm old.point → IsCalm new.point → IsCalm there.point →
        Moves command stops old new told → Moves command stops other there said → (said ≡ told) × AlikeHistories printed new there }
{
    z80_machine::laws::one_turn();
}

/// The list that `help` prints has each command in its form, in the order in which a shortened word is looked for among them, and fits on a
/// terminal of 24 lines of 80 columns. `help` with a command prints one line of it.
pub fn help_is_in_order()
    ensures order { ListsVerbs every_verb HELP.now }
    ensures fits { FitsTerminal HELP.now }
    ensures each { EachHasOneLine every_verb }
{}
