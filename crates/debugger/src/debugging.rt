//! Debugs a program.

ghost use Rattle.std.specs.Prelude.{◌≡◌, ◌≤◌, Err, IfOk, false, length, map};
ghost use Rattle.debugger.specs.Conversation.{Debugs, DebugsSoFar, DebugsTo};
ghost use Rattle.debugger.specs.declared.conversation.Broken.TheVariants as broken;
ghost use Rattle.debugger.specs.declared.debugging.DebugFault.TheVariants as debug;
ghost use Rattle.state_text.specs.Labelled.{symbol_parts};

use crate::conversation::{Broken, MOST_READS, converse};
use crate::session::Session;
use cpm_console::MemoryConsole;
use cpm_disk::Disk;
use cpm_image::MemoryImage;
use cpm_run::{Arrival, StartFault};
use host::{Input, Sink};
use machine_history::History;
use state_text::{Labels, Symbol};
use std::alloc::Global;

/// A program with its words, its disk, what is typed before it starts, the bytes of a record, and its listing, empty if there is none. Each
/// byte of the record comes after its number of turns.
#[derive(Drop)]
pub struct Program<'a> {
    pub file: &'a [u8],
    pub words: &'a [&'a [u8]],
    pub disk: Disk<MemoryImage>,
    pub typed: Vec<u8>,
    pub recorded: &'a [Arrival],
    pub listing: &'a [u8],
}

/// Why a program was not debugged to the end of the commands.
#[derive(Clone, Copy, Debug, PartialEq, Eq)]
pub enum DebugFault {
    /// The program cannot be started. No command was read.
    Start(StartFault),
    /// The conversation broke.
    Broken(Broken),
}

/// Starts a program, reads commands, a line each, to `quit` or to the end of the input, and prints each answer before more is read. The
/// disk and its copies are in memory.
///
/// # Errors
///
/// [`DebugFault::Start`] with the error of [`cpm_run::start`]; then [`DebugFault::Broken`] as [`converse`] answers it.
pub fn debug<I: Input, O: Sink>(
    alloc: Global,
    program: Program<'_>,
    symbols: &[Symbol<'_>],
    commands: &mut I,
    output: &mut O,
) -> Result<(), DebugFault>
    requires sound { I.failed commands.old ≡ false }
    requires unread { I.reads commands.old ≡ 0 }
    ensures debugs { Debugs program.entry.file.now (map (λ w. w.now) program.entry.words.now) (O.stream output.old) (O.stream output.new) (I.failed commands.new) (I.reads commands.new) result }
    ensures reads { I.reads commands.new ≤ MOST_READS }
    ensures debugged { IfOk result (λ _. DebugsTo program.entry.file.now (map (λ w. w.now) program.entry.words.now) program.entry.disk program.entry.typed.items program.entry.recorded.now (record { labels = map symbol_parts symbols.now; size = length program.entry.file.now }) program.entry.listing.now (I.remaining commands.old) (I.remaining commands.new) (O.stream output.old) (O.stream output.new)) }
    ensures so_far { result ≡ Err (debug.Broken broken.Input) → DebugsSoFar program.entry.file.now (map (λ w. w.now) program.entry.words.now) program.entry.disk program.entry.typed.items program.entry.recorded.now (record { labels = map symbol_parts symbols.now; size = length program.entry.file.now }) program.entry.listing.now (I.remaining commands.old) (I.remaining commands.new) (O.stream output.old) (O.stream output.new) }
{
    let Program {
        file,
        words,
        disk,
        typed,
        recorded,
        listing,
    } = program;
    let console = MemoryConsole::new(alloc, typed);
    let history = match History::new(alloc, file, words, disk, console, recorded) {
        Ok(history) => history,
        Err(fault) => return Err(DebugFault::Start(fault)),
    };
    let labels = match Labels::new(alloc, symbols, file.len()) {
        Ok(labels) => labels,
        Err(_) => return Err(DebugFault::Broken(Broken::NoMemory)),
    };
    let mut session = Session::new(alloc, history, labels).with_listing(listing);
    match converse(alloc, &mut session, commands, output) {
        Ok(()) => Ok(()),
        Err(broken) => Err(DebugFault::Broken(broken)),
    }
}
