//! Debugs a program.

ghost use Rattle.std.specs.Prelude.{◌≡◌, ◌≤◌, ℕ, List, false, map};
ghost use Rattle.debugger.specs.Conversation.{Debugs};
ghost use Rattle.debugger.specs.declared.conversation.TheConstants.{MOST_READS};
ghost use Rattle.state_text.specs.Labelled.{symbol_parts};
ghost use Rattle.z80dev_run.specs.Program.{IsDebuggedRun, IsReadyToRun};

use crate::running::Ready;
use cpm_run::Arrival;
use debugger::{DebugFault, Program, Symbol};
use host::{Input, Sink};
use std::alloc::Global;

impl Ready<'_, '_> {
    /// Debugs the program: reads commands, a line each, and prints each answer before more is read. The bytes of a record come after their
    /// numbers of steps; there may be none. An address may be given and is printed by its symbol; `where` shows its line of the listing, unless
    /// that is empty. The disk is not kept.
    ///
    /// # Errors
    ///
    /// Those of [`debugger::debug`].
    pub fn debug<I: Input, O: Sink>(
        self,
        alloc: Global,
        recorded: &[Arrival],
        symbols: &[Symbol<'_>],
        listing: &[u8],
        commands: &mut I,
        output: &mut O,
    ) -> Result<(), DebugFault>
        requires sound { I.failed commands.old ≡ false }
        requires unread { I.reads commands.old ≡ 0 }
        ensures debugs { (program : List ℕ) (words : List (List ℕ)) (image input : List ℕ) → IsReadyToRun program words image input self.entry
            → Debugs program words (O.stream output.old) (O.stream output.new) (I.failed commands.new) (I.reads commands.new) result }
        ensures reads { I.reads commands.new ≤ MOST_READS }
        ensures debugged { (program : List ℕ) (words : List (List ℕ)) (image input : List ℕ) → IsReadyToRun program words image input self.entry
            → IsDebuggedRun program words image input recorded.now (map symbol_parts symbols.now) listing.now (I.remaining commands.old) (I.remaining commands.new) (O.stream output.old) (O.stream output.new) result }
    {
        let Ready {
            program: file,
            words,
            disk,
            typed,
        } = self;
        let program = Program {
            file,
            words: &words,
            disk,
            typed,
            recorded,
            listing,
        };
        debugger::debug(alloc, program, symbols, commands, output)
    }
}
