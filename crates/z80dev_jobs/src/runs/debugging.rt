//! The command `debug`.

ghost use Rattle.std.specs.Prelude.{◌≡◌, ◌≤◌, IfOk, false, map, option_map};
ghost use Rattle.debugger.specs.declared.conversation.TheConstants.{MOST_READS};
ghost use Rattle.z80dev_jobs.specs.Runs.Debugging.{DebugEnds, DebugEndsBy, IsDebugEnd, IsReadOrNone, IsStartEnd, ReadsDebugged, ReadsRecorded, arrivals_in};
ghost use Rattle.host.specs.Ending.{ended};
ghost use Rattle.z80dev_jobs.specs.Private.Debugging.{AreSymbols, ReadsOrNone};
ghost use Rattle.host.specs.Reading.{reader_of};
ghost use Rattle.host.specs.Streams.Stream.{Stream};
ghost use Rattle.host.specs.World.{world_of};

use crate::runs::playing::recorded_of;
use crate::runs::running::{Inputs, ready_of};
use disassembler::{DisassemblyFault, fault_text, read_labels};
use host::{End, Files, Input, Sink, read, read_if_given, report_any};
use std::alloc::{AllocError, Global};
use z80dev_commands::Debugging;
use z80dev_run::{Arrival, Broken, DebugFault, Recorded, StartFault, Symbol};

/// The bytes of a file, if its path is given; otherwise no bytes.
fn read_or_none<'a, F: Files>(
    alloc: Global,
    path: Option<&'a str>,
    files: &mut F,
) -> Result<Vec<u8>, End<'a>>
    ensures { ReadsOrNone path.entry (F.folder files.old) (F.folder files.new) result }
{
    match path {
        Some(path) => read(alloc, path, files),
        None => Ok(Vec::new(alloc)),
    }
}

/// Reads what `debug` needs, in this order: the image, the program, its labels, its listing, and what is typed.
fn debugged_of<'a, F: Files>(
    alloc: Global,
    job: &Debugging<'a>,
    files: &mut F,
) -> Result<Inputs, End<'a>>
    ensures { ReadsDebugged job.now (F.folder files.old) (F.folder files.new) result }
{
    let image = read_or_none(alloc, job.disk, files)?;
    let program = read(alloc, job.program, files)?;
    let labels = read_if_given(alloc, job.labels, files)?;
    let list = read_if_given(alloc, job.list, files)?;
    let typed = read_or_none(alloc, job.input, files)?;
    Ok(Inputs {
        image,
        warnings: None,
        program,
        labels,
        list,
        typed,
    })
}

/// Reads what `debug` needs, and then the record of a session, if its path is given.
fn recorded_session_of<'a, F: Files>(
    alloc: Global,
    job: &Debugging<'a>,
    files: &mut F,
) -> Result<(Inputs, Option<Recorded>), End<'a>>
    ensures { ReadsRecorded job.now (F.folder files.old) (F.folder files.new) result }
{
    let inputs = debugged_of(alloc, job, files)?;
    match recorded_of(alloc, job.replay, files) {
        Ok(recorded) => Ok((inputs, recorded)),
        Err(end) => Err(end),
    }
}

/// The bytes of a record; without one there are none.
fn arrivals_in(recorded: &Option<Recorded>) -> &[Arrival]
    ensures { result.now ≡ arrivals_in recorded.now }
{
    match recorded {
        Some(recorded) => &recorded.arrivals,
        None => &[],
    }
}

/// The symbols of a file of labels, if there is one, or how the command ends because they are refused.
fn symbols_of(alloc: Global, text: Option<&[u8]>) -> Result<Vec<Symbol<'_>>, End<'static>>
    ensures { AreSymbols (option_map (λ bytes. bytes.now) text.entry) result }
{
    let mut symbols = Vec::new(alloc);
    let Some(text) = text else {
        return Ok(symbols);
    };
    let labels = match read_labels(alloc, text) {
        Ok(labels) => labels,
        Err(DisassemblyFault::NoMemory) => return Err(End::NoMemory),
        Err(why) => return Err(End::Refused(fault_text(alloc, why)?)),
    };
    for label in &labels {
        let symbol = Symbol {
            address: label.address,
            name: label.name,
        };
        let Ok(()) = symbols.push(symbol) else {
            return Err(End::NoMemory);
        };
    }
    Ok(symbols)
}

/// How the command ends if the program cannot be started.
fn start_end(alloc: Global, fault: StartFault) -> Result<End<'static>, AllocError>
    ensures { IfOk result (IsStartEnd fault) }
{
    match fault {
        StartFault::ComTooLong => Ok(End::Refused(String::from_str(alloc, "ComTooLong")?)),
        StartFault::TailTooLong => Ok(End::Refused(String::from_str(alloc, "TailTooLong")?)),
        StartFault::NoMemory => Ok(End::NoMemory),
    }
}

/// How the command ends if the program was debugged, or could not be.
fn debug_end(alloc: Global, ended: Result<(), DebugFault>) -> End<'static>
    ensures { IsDebugEnd ended result }
{
    match ended {
        Ok(()) => End::Done,
        Err(DebugFault::Start(fault)) => match start_end(alloc, fault) {
            Ok(end) => end,
            Err(_) => End::NoMemory,
        },
        Err(DebugFault::Broken(Broken::NoMemory)) => End::NoMemory,
        Err(DebugFault::Broken(_)) => End::Stream,
    }
}

/// Debugs a program by the commands on standard input.
fn debugged<'a, F: Files, I: Input, W: Sink>(
    alloc: Global,
    job: &Debugging<'a>,
    files: &mut F,
    input: &mut I,
    output: &mut W,
) -> Result<End<'a>, End<'a>>
    requires sound { I.failed input.old ≡ false }
    requires unread { I.reads input.old ≡ 0 }
    ensures ends { (errors : Stream) → DebugEndsBy job.now (world_of (F.folder files.old) (reader_of (I.remaining input.old) (I.failed input.old) (I.reads input.old) (I.interruptions input.old)) (W.stream output.old) errors) (world_of (F.folder files.new) (reader_of (I.remaining input.new) (I.failed input.new) (I.reads input.new) (I.interruptions input.new)) (W.stream output.new) errors) (ended result) }
    ensures reads { I.reads input.new ≤ MOST_READS }
{
    let read = recorded_session_of(alloc, job, files)?;
    let (inputs, recorded) = (&read.0, &read.1);
    let ready = ready_of(alloc, inputs, &job.words)?;
    let symbols = symbols_of(alloc, inputs.labels.as_deref())?;
    let listing = inputs.list.as_deref().unwrap_or(&[]);
    let arrivals = arrivals_in(recorded);
    let debugged = ready.debug(alloc, arrivals, &symbols, listing, input, output);
    Ok(debug_end(alloc, debugged))
}

/// Debugs a program by the commands on standard input, and gives the exit status. No file is written.
pub fn debug_job<F: Files, I: Input, W: Sink, E: Sink>(
    alloc: Global,
    job: &Debugging<'_>,
    files: &mut F,
    input: &mut I,
    output: &mut W,
    errors: &mut E,
) -> u8
    requires sound { I.failed input.old ≡ false }
    requires unread { I.reads input.old ≡ 0 }
    ensures ends { DebugEnds job.now (world_of (F.folder files.old) (reader_of (I.remaining input.old) (I.failed input.old) (I.reads input.old) (I.interruptions input.old)) (W.stream output.old) (E.stream errors.old)) (world_of (F.folder files.new) (reader_of (I.remaining input.new) (I.failed input.new) (I.reads input.new) (I.interruptions input.new)) (W.stream output.new) (E.stream errors.new)) result }
    ensures reads { I.reads input.new ≤ MOST_READS }
{
    let end = debugged(alloc, job, files, input, output);
    report_any(end, errors)
}
