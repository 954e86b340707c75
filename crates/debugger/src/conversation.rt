//! Reads commands and prints their answers.

ghost use Rattle.std.specs.Prelude.{◌≡◌, ◌+◌, ◌<◌, ◌≤◌, ◌∷◌, [], Err, IfOk, List, ℕ, false};
ghost use Rattle.std.specs.Io.KnownBytes.{Appends, Consumes};
ghost use Rattle.debugger.specs.declared.conversation.Broken.TheVariants as broken;
ghost use Rattle.debugger.specs.Conversation.{Converses, HasNoEnd, PrintsOrFails, ReadsOn, TalksSoFar, TalksThrough};
ghost use Rattle.debugger.specs.Private.Lines.{GetsLines, TakesAllLines, TakesLines};
ghost use Rattle.debugger.specs.Session.{Obeys};
ghost use Rattle.machine_history.specs.Walk.{IsTrue_of_run};

use crate::session::Session;
use host::{Input, ReadFault, Sink, print};
use std::alloc::{AllocError, AllocFailed, Global};

/// The most reads of the commands.
pub const MOST_READS: u64 = 4_294_967_296;

/// How many bytes are asked for at once.
const CHUNK: usize = 512;

/// Why a conversation ended before the session was quit or the commands had ended.
#[derive(Clone, Copy, Debug, PartialEq, Eq)]
pub enum Broken {
    /// The commands could not be read.
    Input,
    /// An answer could not be printed.
    Output,
    /// Memory ran out.
    NoMemory,
}

impl From<AllocError> for Broken {
    ghost use Rattle.std.specs.Prelude.{◌≡◌};
    ghost use Rattle.debugger.specs.declared.conversation.Broken.TheVariants as broken;

    ghost from_gives = { λ _ e. e ≡ broken.NoMemory };

    fn from(_: AllocError) -> Broken {
        Broken::NoMemory
    }
}

impl<T: Drop> From<AllocFailed<T>> for Broken {
    ghost use Rattle.std.specs.Prelude.{◌≡◌};
    ghost use Rattle.debugger.specs.declared.conversation.Broken.TheVariants as broken;

    ghost from_gives = { λ _ e. e ≡ broken.NoMemory };

    fn from(_: AllocFailed<T>) -> Broken {
        Broken::NoMemory
    }
}

/// Obeys a line and prints the answer.
fn answer_line<O: Sink>(
    session: &mut Session<'_>,
    line: &[u8],
    output: &mut O,
) -> Result<(), Broken>
    ensures start { session.new.history.start ≡ session.old.history.start }
    ensures after { IsTrue_of_run session.new.history }
    ensures prints { PrintsOrFails (O.stream output.old) (O.stream output.new) result }
    ensures labels { session.new.labels ≡ session.old.labels }
    ensures listing { session.new.listing ≡ session.old.listing }
    ensures obeys { IfOk result (λ _. (text : List ℕ) × Obeys session.old.labels session.old.listing.now line.now session.old.history session.old.stops session.old.is_over session.new.history session.new.stops session.new.is_over text
        × Appends (O.stream output.old).bytes (O.stream output.new).bytes text) }
    ensures handed { IfOk result (λ _. (O.stream output.new).held ≡ false) }
{
    let answer = session.answer(line)?;
    match print(output, &answer) {
        Ok(()) => Ok(()),
        Err(_) => Err(Broken::Output),
    }
}

/// Obeys the line that ends with this byte, and prints the answer; or adds the byte to what was read of the line.
fn take_byte<O: Sink>(
    session: &mut Session<'_>,
    byte: u8,
    line: &mut Vec<u8>,
    output: &mut O,
) -> Result<(), Broken>
    requires after { IsTrue_of_run session.old.history }
    requires going { session.old.is_over ≡ false }
    requires line { HasNoEnd line.old.items }
    ensures start { session.new.history.start ≡ session.old.history.start }
    ensures after { IsTrue_of_run session.new.history }
    ensures prints { PrintsOrFails (O.stream output.old) (O.stream output.new) result }
    ensures labels { session.new.labels ≡ session.old.labels }
    ensures listing { session.new.listing ≡ session.old.listing }
    ensures talks { IfOk result (λ _. TakesAllLines session.old.labels session.old.listing.now line.old.items (byte ∷ []) line.new.items (record { shown = session.old.history; stops = session.old.stops; is_over = session.old.is_over }) (record { shown = session.new.history; stops = session.new.stops; is_over = session.new.is_over }) (O.stream output.old) (O.stream output.new)) }
{
    if byte != b'\n' {
        line.push(byte)?;
        return Ok(());
    }
    answer_line(session, line, output)?;
    line.clear();
    Ok(())
}

/// Obeys the lines that end in these bytes, and prints each answer. `line` is what was read of the next line. Nothing after `quit` is
/// obeyed.
fn take_bytes<O: Sink>(
    session: &mut Session<'_>,
    bytes: &[u8],
    line: &mut Vec<u8>,
    output: &mut O,
) -> Result<(), Broken>
    requires after { IsTrue_of_run session.old.history }
    requires line { HasNoEnd line.old.items }
    ensures start { session.new.history.start ≡ session.old.history.start }
    ensures after { IsTrue_of_run session.new.history }
    ensures prints { PrintsOrFails (O.stream output.old) (O.stream output.new) result }
    ensures labels { session.new.labels ≡ session.old.labels }
    ensures listing { session.new.listing ≡ session.old.listing }
    ensures talks { IfOk result (λ _. TakesLines session.old.labels session.old.listing.now line.old.items bytes.now line.new.items (record { shown = session.old.history; stops = session.old.stops; is_over = session.old.is_over }) (record { shown = session.new.history; stops = session.new.stops; is_over = session.new.is_over }) (O.stream output.old) (O.stream output.new)) }
{
    for byte in bytes {
        if session.is_over() {
            return Ok(());
        }
        take_byte(session, *byte, line, output)?;
    }
    Ok(())
}

/// Reads some bytes, obeys the lines that end in them, and prints each answer. At the end of the input the rest is the last line. Answers
/// whether the input has ended.
fn read_some<I: Input, O: Sink>(
    session: &mut Session<'_>,
    input: &mut I,
    line: &mut Vec<u8>,
    output: &mut O,
) -> Result<bool, Broken>
    requires sound { I.failed input.old ≡ false }
    requires room { I.reads input.old < MOST_READS }
    requires after { IsTrue_of_run session.old.history }
    requires going { session.old.is_over ≡ false }
    requires line { HasNoEnd line.old.items }
    ensures start { session.new.history.start ≡ session.old.history.start }
    ensures after { IsTrue_of_run session.new.history }
    ensures labels { session.new.labels ≡ session.old.labels }
    ensures listing { session.new.listing ≡ session.old.listing }
    ensures reads { I.reads input.new ≡ I.reads input.old + 1 }
    ensures ends { ReadsOn (O.stream output.old) (O.stream output.new) (I.failed input.new) result }
    ensures unread { result ≡ Err broken.Input → (session.new ≡ session.old) × (output.new ≡ output.old) × Consumes (I.remaining input.old) (I.remaining input.new) [] }
    ensures talks { IfOk result (λ ended. GetsLines session.old.labels session.old.listing.now (I.remaining input.old) (I.remaining input.new) line.old.items line.new.items (record { shown = session.old.history; stops = session.old.stops; is_over = session.old.is_over }) (record { shown = session.new.history; stops = session.new.stops; is_over = session.new.is_over }) (O.stream output.old) (O.stream output.new) ended) }
{
    let mut chunk = [0; CHUNK];
    match input.read(&mut chunk) {
        Ok(0) => {
            answer_line(session, line, output)?;
            Ok(true)
        }
        Ok(count) => {
            take_bytes(session, &chunk[..count], line, output)?;
            Ok(false)
        }
        Err(ReadFault::Interrupted) => Ok(false),
        Err(ReadFault::Failed) => Err(Broken::Input),
    }
}

/// Reads commands, a line each, to `quit` or to the end of the input, and prints each answer before more is read.
///
/// # Errors
///
/// [`Broken::Input`] if the input fails, or has not ended after [`MOST_READS`] reads; [`Broken::Output`] if the output fails;
/// [`Broken::NoMemory`].
pub fn converse<I: Input, O: Sink>(
    alloc: Global,
    session: &mut Session<'_>,
    input: &mut I,
    output: &mut O,
) -> Result<(), Broken>
    requires sound { I.failed input.old ≡ false }
    requires unread { I.reads input.old ≡ 0 }
    ensures start { session.new.history.start ≡ session.old.history.start }
    ensures after { IsTrue_of_run session.new.history }
    ensures converses { Converses (O.stream output.old) (O.stream output.new) (I.failed input.new) (I.reads input.new) result }
    ensures reads { I.reads input.new ≤ MOST_READS }
    ensures so_far { result ≡ Err broken.Input → TalksSoFar session.old.labels session.old.listing.now (I.remaining input.old) (I.remaining input.new) (record { shown = session.old.history; stops = session.old.stops; is_over = session.old.is_over }) (record { shown = session.new.history; stops = session.new.stops; is_over = session.new.is_over }) (O.stream output.old) (O.stream output.new) }
    ensures talks { IfOk result (λ _. TalksThrough session.old.labels session.old.listing.now (I.remaining input.old) (I.remaining input.new) (record { shown = session.old.history; stops = session.old.stops; is_over = session.old.is_over }) (record { shown = session.new.history; stops = session.new.stops; is_over = session.new.is_over }) (O.stream output.old) (O.stream output.new)) }
{
    let mut line = Vec::new(alloc);
    let mut reads = 0;
    session.knows();
    while !session.is_over() {
        if reads == MOST_READS {
            return Err(Broken::Input);
        }
        if read_some(session, input, &mut line, output)? {
            return Ok(());
        }
        reads += 1;
    }
    Ok(())
}
