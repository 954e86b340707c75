//! The commands of a session.

ghost use Rattle.std.specs.Prelude.{◌≡◌, IfOk, Ok, map};
ghost use Rattle.debugger_commands.specs.Typed.{address, address_and_number, no_arguments, breakpoint, typed_condition, conditional_breakpoint, fitting_value, info, is_listed, line_meaning, typed_number, one_address, read_as, shown_reading, some_address, some_bytes, typed_count, typed_turns, typed_as, typed_help, usage};
ghost use Rattle.debugger_commands.specs.declared.command.Command.TheVariants as command;
ghost use Rattle.debugger_commands.specs.declared.verb.Verb.TheVariants as verb;

use crate::refusal::{Refusal, Refused};
use crate::verb::{Verb, verb_named};
use crate::words::{address_of, cut, number_of, turns_of, words_of};
use state_text::{
    Breakpoint, Condition, Labels, RegisterName, is_same_name, register_limit, register_named,
};
use std::alloc::{AllocError, Global};
use z80_cpu::Cpu;

/// What a line asks for.
#[derive(Clone, Copy, Debug, PartialEq, Eq)]
pub enum Command {
    /// Make this number of turns.
    Step(u64),
    /// Go back by this number of turns.
    Back(u64),
    /// Go to the state after this number of turns.
    Turn(u64),
    /// Go on to a breakpoint, a watched byte, this address, or the end.
    Run(Option<u16>),
    /// Go on by one turn, or to the return from the call at PC.
    Next,
    /// Go on to the first return after which SP is above its value now.
    Finish,
    /// Go back to the last turn at which a breakpoint or a watched byte held.
    BackRun,
    /// Go back by one turn, or over the call that has returned to PC.
    BackNext,
    /// Stop at an address from now on.
    Break(Breakpoint),
    /// Stop at turns that change one of these bytes.
    Watch(u16, u16),
    /// Forget the breakpoints and the watched bytes at an address, or all.
    Delete(Option<u16>),
    /// List the breakpoints and the watched bytes.
    Info,
    /// Show the registers, the DMA address and the user.
    Registers,
    /// Show bytes of memory.
    Memory(u16, u16),
    /// Show what the program has printed.
    Output,
    /// Show instructions.
    Disassemble(u16, u16),
    /// Show the words on top of the stack.
    Stack,
    /// Show the last turn that changed a byte.
    Who(u16),
    /// Show the files of the disk.
    Files,
    /// Show PC with its label, and its line of the listing.
    Where,
    /// Show the commands, or the lines of one.
    Help(Option<Verb>),
    /// End the session.
    Quit,
}

/// The bytes that `mem` shows without a number.
const SHOWN_BYTES: u16 = 16;

/// The instructions that `dis` shows without a number.
const SHOWN_INSTRUCTIONS: u16 = 8;

/// What the words of a command are read as, or why they are refused.
pub type Reading<'a, T> = Result<T, Refused<'a>>;

/// The refusal of a command that has another form.
fn usage<'a>(verb: Verb) -> Refused<'a>
    ensures { (result.0.now, result.1) ≡ usage verb }
{
    (verb.name(), Refusal::Usage(verb))
}

/// A command without further words.
fn alone<'a>(verb: Verb, command: Command, words: &[&'a [u8]]) -> Reading<'a, Command>
    ensures { shown_reading result ≡ no_arguments verb command (map (λ w. w.now) words.now) }
{
    match words {
        [] => Ok(command),
        _ => Err(usage(verb)),
    }
}

/// `[N]`, a number of turns; `N` without a default.
fn turns<'a>(verb: Verb, default: Option<u64>, words: &[&'a [u8]]) -> Reading<'a, u64>
    ensures { shown_reading result ≡ typed_turns verb default (map (λ w. w.now) words.now) }
{
    match words {
        [] => match default {
            Some(count) => Ok(count),
            None => Err(usage(verb)),
        },
        [word] => match turns_of(word) {
            Some(count) => Ok(count),
            None => Err((*word, Refusal::Turns)),
        },
        _ => Err(usage(verb)),
    }
}

/// Whether this word may follow `info`.
fn is_listed(word: &[u8]) -> bool
    ensures { result ≡ is_listed word.now }
{
    is_same_name(word, b"break")
        || is_same_name(word, b"breakpoints")
        || is_same_name(word, b"watch")
        || is_same_name(word, b"watchpoints")
}

/// `[break|breakpoints|watch|watchpoints]`, which all mean the same.
fn info<'a>(words: &[&'a [u8]]) -> Reading<'a, Command>
    ensures { shown_reading result ≡ info (map (λ w. w.now) words.now) }
{
    match words {
        [] => Ok(Command::Info),
        [word] => if is_listed(word) {
            Ok(Command::Info)
        } else {
            Err(usage(Verb::Info))
        },
        _ => Err(usage(Verb::Info)),
    }
}

/// `ADDR`
fn address<'a>(
    alloc: Global,
    labels: &Labels,
    cpu: &Cpu,
    word: &'a [u8],
) -> Result<Reading<'a, u16>, AllocError>
    ensures { IfOk result (λ read. shown_reading read ≡ address labels.now cpu.now word.now) }
{
    match address_of(alloc, labels, Some(cpu), word)? {
        Some(address) => Ok(Ok(address)),
        None => Ok(Err((word, Refusal::Address))),
    }
}

/// `ADDR` and no more words.
fn one_address<'a>(
    alloc: Global,
    labels: &Labels,
    cpu: &Cpu,
    verb: Verb,
    words: &[&'a [u8]],
) -> Result<Reading<'a, u16>, AllocError>
    ensures { IfOk result (λ read. shown_reading read ≡ one_address labels.now cpu.now verb (map (λ w. w.now) words.now)) }
{
    match words {
        [] => Ok(Err(usage(verb))),
        [word] => address(alloc, labels, cpu, word),
        _ => Ok(Err(usage(verb))),
    }
}

/// `[ADDR]`
fn some_address<'a>(
    alloc: Global,
    labels: &Labels,
    cpu: &Cpu,
    verb: Verb,
    words: &[&'a [u8]],
) -> Result<Reading<'a, Option<u16>>, AllocError>
    ensures { IfOk result (λ read. shown_reading read ≡ some_address labels.now cpu.now verb (map (λ w. w.now) words.now)) }
{
    if words.is_empty() {
        return Ok(Ok(None));
    }
    match one_address(alloc, labels, cpu, verb, words)? {
        Ok(address) => Ok(Ok(Some(address))),
        Err(why) => Ok(Err(why)),
    }
}

/// A number after an address.
fn number<'a>(alloc: Global, word: &'a [u8]) -> Result<Reading<'a, u16>, AllocError>
    ensures { IfOk result (λ read. shown_reading read ≡ typed_number word.now) }
{
    match number_of(alloc, word)? {
        Some(number) => Ok(Ok(number)),
        None => Ok(Err((word, Refusal::Number))),
    }
}

/// A number of bytes that may not be 0.
fn some_bytes<'a>(word: &'a [u8], number: u16) -> Reading<'a, u16>
    ensures { shown_reading result ≡ some_bytes word.now (Ok number) }
{
    if number == 0 {
        return Err((word, Refusal::NoBytes));
    }
    Ok(number)
}

/// The number after the address of this command. A watch is of at least one byte.
fn count<'a>(alloc: Global, verb: Verb, word: &'a [u8]) -> Result<Reading<'a, u16>, AllocError>
    ensures { IfOk result (λ read. shown_reading read ≡ typed_count verb word.now) }
{
    match verb {
        Verb::Watch => match number(alloc, word)? {
            Ok(number) => Ok(some_bytes(word, number)),
            Err(why) => Ok(Err(why)),
        },
        _ => number(alloc, word),
    }
}

/// `ADDR [N]`
fn address_and_number<'a>(
    alloc: Global,
    labels: &Labels,
    cpu: &Cpu,
    verb: Verb,
    default: u16,
    words: &[&'a [u8]],
) -> Result<Reading<'a, (u16, u16)>, AllocError>
    ensures { IfOk result (λ read. shown_reading read ≡ address_and_number labels.now cpu.now verb default (map (λ w. w.now) words.now)) }
{
    let (first, second) = match words {
        [] => return Ok(Err(usage(verb))),
        [first] => (first, None),
        [first, second] => (first, Some(second)),
        _ => return Ok(Err(usage(verb))),
    };
    let from = match address(alloc, labels, cpu, first)? {
        Ok(from) => from,
        Err(why) => return Ok(Err(why)),
    };
    match second {
        None => Ok(Ok((from, default))),
        Some(word) => match count(alloc, verb, word)? {
            Ok(count) => Ok(Ok((from, count))),
            Err(why) => Ok(Err(why)),
        },
    }
}

/// The condition of a register and a value that fits into it.
fn fitting<'a>(word: &'a [u8], register: RegisterName, value: u16) -> Reading<'a, Condition>
    ensures { shown_reading result ≡ fitting_value word.now (Ok (register, value)) }
{
    if value <= register_limit(register) {
        Ok(Condition { register, value })
    } else {
        Err((word, Refusal::OneByte))
    }
}

/// `REG=VALUE`
fn condition<'a>(
    alloc: Global,
    labels: &Labels,
    word: &'a [u8],
) -> Result<Reading<'a, Condition>, AllocError>
    ensures { IfOk result (λ read. shown_reading read ≡ typed_condition labels.now word.now) }
{
    let Some((name, value)) = cut(word, b'=') else {
        return Ok(Err(usage(Verb::Break)));
    };
    let Some(register) = register_named(name) else {
        return Ok(Err((word, Refusal::Register)));
    };
    match address_of(alloc, labels, None, value)? {
        Some(value) => Ok(fitting(word, register, value)),
        None => Ok(Err((word, Refusal::Value))),
    }
}

/// `ADDR if REG=VALUE`
fn conditional<'a>(
    alloc: Global,
    labels: &Labels,
    cpu: &Cpu,
    word: &'a [u8],
    test: &'a [u8],
) -> Result<Reading<'a, Breakpoint>, AllocError>
    ensures { IfOk result (λ read. shown_reading read ≡ conditional_breakpoint labels.now cpu.now word.now test.now) }
{
    let address = match address(alloc, labels, cpu, word)? {
        Ok(address) => address,
        Err(why) => return Ok(Err(why)),
    };
    match condition(alloc, labels, test)? {
        Ok(condition) => Ok(Ok(Breakpoint {
            address,
            condition: Some(condition),
        })),
        Err(why) => Ok(Err(why)),
    }
}

/// `ADDR [if REG=VALUE]`
fn breakpoint<'a>(
    alloc: Global,
    labels: &Labels,
    cpu: &Cpu,
    words: &[&'a [u8]],
) -> Result<Reading<'a, Breakpoint>, AllocError>
    ensures { IfOk result (λ read. shown_reading read ≡ breakpoint labels.now cpu.now (map (λ w. w.now) words.now)) }
{
    match words {
        [] => Ok(Err(usage(Verb::Break))),
        [word] => match address(alloc, labels, cpu, word)? {
            Ok(address) => Ok(Ok(Breakpoint {
                address,
                condition: None,
            })),
            Err(why) => Ok(Err(why)),
        },
        [_, _] => Ok(Err(usage(Verb::Break))),
        [word, between, test] => {
            if is_same_name(between, b"if") {
                conditional(alloc, labels, cpu, word, test)
            } else {
                Ok(Err(usage(Verb::Break)))
            }
        }
        _ => Ok(Err(usage(Verb::Break))),
    }
}

/// `step [N]`
fn step<'a>(words: &[&'a [u8]]) -> Reading<'a, Command>
    ensures { shown_reading result ≡ read_as command.Step (typed_turns verb.Step (Some 1) (map (λ w. w.now) words.now)) }
{
    match turns(Verb::Step, Some(1), words) {
        Ok(count) => Ok(Command::Step(count)),
        Err(why) => Err(why),
    }
}

/// `back [N]`
fn back<'a>(words: &[&'a [u8]]) -> Reading<'a, Command>
    ensures { shown_reading result ≡ read_as command.Back (typed_turns verb.Back (Some 1) (map (λ w. w.now) words.now)) }
{
    match turns(Verb::Back, Some(1), words) {
        Ok(count) => Ok(Command::Back(count)),
        Err(why) => Err(why),
    }
}

/// `turn N`
fn turn<'a>(words: &[&'a [u8]]) -> Reading<'a, Command>
    ensures { shown_reading result ≡ read_as command.Turn (typed_turns verb.Turn None (map (λ w. w.now) words.now)) }
{
    match turns(Verb::Turn, None, words) {
        Ok(number) => Ok(Command::Turn(number)),
        Err(why) => Err(why),
    }
}

/// `run [ADDR]`
fn run<'a>(
    alloc: Global,
    labels: &Labels,
    cpu: &Cpu,
    words: &[&'a [u8]],
) -> Result<Reading<'a, Command>, AllocError>
    ensures { IfOk result (λ read. shown_reading read ≡ typed_as labels.now cpu.now verb.Run (map (λ w. w.now) words.now)) }
{
    match some_address(alloc, labels, cpu, Verb::Run, words)? {
        Ok(address) => Ok(Ok(Command::Run(address))),
        Err(why) => Ok(Err(why)),
    }
}

/// `delete [ADDR]`
fn delete<'a>(
    alloc: Global,
    labels: &Labels,
    cpu: &Cpu,
    words: &[&'a [u8]],
) -> Result<Reading<'a, Command>, AllocError>
    ensures { IfOk result (λ read. shown_reading read ≡ typed_as labels.now cpu.now verb.Delete (map (λ w. w.now) words.now)) }
{
    match some_address(alloc, labels, cpu, Verb::Delete, words)? {
        Ok(address) => Ok(Ok(Command::Delete(address))),
        Err(why) => Ok(Err(why)),
    }
}

/// `break ADDR [if REG=VALUE]`
fn break_at<'a>(
    alloc: Global,
    labels: &Labels,
    cpu: &Cpu,
    words: &[&'a [u8]],
) -> Result<Reading<'a, Command>, AllocError>
    ensures { IfOk result (λ read. shown_reading read ≡ typed_as labels.now cpu.now verb.Break (map (λ w. w.now) words.now)) }
{
    match breakpoint(alloc, labels, cpu, words)? {
        Ok(breakpoint) => Ok(Ok(Command::Break(breakpoint))),
        Err(why) => Ok(Err(why)),
    }
}

/// `watch ADDR [N]`
fn watch<'a>(
    alloc: Global,
    labels: &Labels,
    cpu: &Cpu,
    words: &[&'a [u8]],
) -> Result<Reading<'a, Command>, AllocError>
    ensures { IfOk result (λ read. shown_reading read ≡ typed_as labels.now cpu.now verb.Watch (map (λ w. w.now) words.now)) }
{
    match address_and_number(alloc, labels, cpu, Verb::Watch, 1, words)? {
        Ok((from, count)) => Ok(Ok(Command::Watch(from, count))),
        Err(why) => Ok(Err(why)),
    }
}

/// `mem ADDR [N]`
fn memory<'a>(
    alloc: Global,
    labels: &Labels,
    cpu: &Cpu,
    words: &[&'a [u8]],
) -> Result<Reading<'a, Command>, AllocError>
    ensures { IfOk result (λ read. shown_reading read ≡ typed_as labels.now cpu.now verb.Memory (map (λ w. w.now) words.now)) }
{
    match address_and_number(alloc, labels, cpu, Verb::Memory, SHOWN_BYTES, words)? {
        Ok((from, count)) => Ok(Ok(Command::Memory(from, count))),
        Err(why) => Ok(Err(why)),
    }
}

/// `dis ADDR [N]`
fn disassemble<'a>(
    alloc: Global,
    labels: &Labels,
    cpu: &Cpu,
    words: &[&'a [u8]],
) -> Result<Reading<'a, Command>, AllocError>
    ensures { IfOk result (λ read. shown_reading read ≡ typed_as labels.now cpu.now verb.Disassemble (map (λ w. w.now) words.now)) }
{
    match address_and_number(
        alloc,
        labels,
        cpu,
        Verb::Disassemble,
        SHOWN_INSTRUCTIONS,
        words,
    )? {
        Ok((from, count)) => Ok(Ok(Command::Disassemble(from, count))),
        Err(why) => Ok(Err(why)),
    }
}

/// `who ADDR`
fn who<'a>(
    alloc: Global,
    labels: &Labels,
    cpu: &Cpu,
    words: &[&'a [u8]],
) -> Result<Reading<'a, Command>, AllocError>
    ensures { IfOk result (λ read. shown_reading read ≡ typed_as labels.now cpu.now verb.Who (map (λ w. w.now) words.now)) }
{
    match one_address(alloc, labels, cpu, Verb::Who, words)? {
        Ok(address) => Ok(Ok(Command::Who(address))),
        Err(why) => Ok(Err(why)),
    }
}

/// `help [COMMAND]`
fn help<'a>(words: &[&'a [u8]]) -> Reading<'a, Command>
    ensures { shown_reading result ≡ typed_help (map (λ w. w.now) words.now) }
{
    match words {
        [] => Ok(Command::Help(None)),
        [word] => match verb_named(word) {
            Some(verb) => Ok(Command::Help(Some(verb))),
            None => Err((*word, Refusal::Command)),
        },
        _ => Err(usage(Verb::Help)),
    }
}

/// The command with this name and these words after it.
fn typed_as<'a>(
    alloc: Global,
    labels: &Labels,
    cpu: &Cpu,
    verb: Verb,
    words: &[&'a [u8]],
) -> Result<Reading<'a, Command>, AllocError>
    ensures { IfOk result (λ read. shown_reading read ≡ typed_as labels.now cpu.now verb (map (λ w. w.now) words.now)) }
{
    match verb {
        Verb::Step => Ok(step(words)),
        Verb::Back => Ok(back(words)),
        Verb::Turn => Ok(turn(words)),
        Verb::Run => run(alloc, labels, cpu, words),
        Verb::Next => Ok(alone(verb, Command::Next, words)),
        Verb::Finish => Ok(alone(verb, Command::Finish, words)),
        Verb::BackRun => Ok(alone(verb, Command::BackRun, words)),
        Verb::BackNext => Ok(alone(verb, Command::BackNext, words)),
        Verb::Break => break_at(alloc, labels, cpu, words),
        Verb::Watch => watch(alloc, labels, cpu, words),
        Verb::Delete => delete(alloc, labels, cpu, words),
        Verb::Info => Ok(info(words)),
        Verb::Registers => Ok(alone(verb, Command::Registers, words)),
        Verb::Memory => memory(alloc, labels, cpu, words),
        Verb::Disassemble => disassemble(alloc, labels, cpu, words),
        Verb::Stack => Ok(alone(verb, Command::Stack, words)),
        Verb::Output => Ok(alone(verb, Command::Output, words)),
        Verb::Who => who(alloc, labels, cpu, words),
        Verb::Files => Ok(alone(verb, Command::Files, words)),
        Verb::Where => Ok(alone(verb, Command::Where, words)),
        Verb::Help => Ok(help(words)),
        Verb::Quit => Ok(alone(verb, Command::Quit, words)),
    }
}

/// What a line means: nothing, if it is blank; a command; or why it is refused. A register in it stands for its value in `cpu`.
///
/// # Errors
///
/// [`AllocError`] if memory runs out.
pub fn command_of<'a>(
    alloc: Global,
    line: &'a [u8],
    labels: &Labels,
    cpu: &Cpu,
) -> Result<Reading<'a, Option<Command>>, AllocError>
    ensures { IfOk result (λ read. shown_reading read ≡ line_meaning labels.now cpu.now line.now) }
{
    let words = words_of(alloc, line)?;
    let Some((first, more)) = words.split_first() else {
        return Ok(Ok(None));
    };
    let Some(verb) = verb_named(first) else {
        return Ok(Err((*first, Refusal::Command)));
    };
    match typed_as(alloc, labels, cpu, verb, more)? {
        Ok(command) => Ok(Ok(Some(command))),
        Err(why) => Ok(Err(why)),
    }
}
