//! What a session prints.

ghost use Rattle.std.specs.Prelude.{◌≡◌, ◌==◌, ◌≤◌, ◌++◌, IfOk, OnOk, codes, filter, length, map, not, option_map};
ghost use Rattle.bstr.specs.Text.{lines_of, without_terminator};
ghost use Rattle.std.specs.List.{flat_map, list_all, position_or_len};
ghost use Rattle.z80_cpu.specs.State.{machine, up_by};
ghost use Rattle.debugger.specs.Instructions.{bios_entry_at, code_text, decoded_at, decoded_text, instruction_at, instruction_line, instruction_size, label_note, relative_note, target_note};
ghost use Rattle.state_text.specs.Labelled.{label_after};
ghost use Rattle.debugger.specs.Addresses.{address_with_label};
ghost use Rattle.state_text.specs.Printing.Instructions.{byte_number};
ghost use Rattle.debugger.specs.Text.{are_as_listed, begins_at, breakpoint_line, breakpoint_lines, call_text, change_line, changer_text, condition_after, count_after, has_address, is_as_listed, is_further_row, listed_character, listed_columns, listed_digits, listing_note, listing_text, missed_text, outcome_text, output_text, point_line, point_text, printed_line, rows_from, stack_word_line, stack_text, stops_text, unchanged_line, values_text, watch_line, watch_lines, where_text, who_text};

use crate::session::MOST_TURNS;
use bstr::ByteSlice;
use cpm_disk::Disk;
use cpm_image::MemoryImage;
use cpm_run::{BDOS, BIOS, bios_entry, is_finished};
use machine_history::{Change, Hit, Outcome, Point, Snapshot, Stops, Watch};
use state_text::{
    Breakpoint, Condition, Labels, put_byte, put_byte_number, put_characters, put_instr, put_label,
    put_word, shown_character,
};
use std::alloc::{AllocError, Global};
use z80_cpu::{Cpu, Memory, displaced};
use z80_table::{DecodeFault, Instr, decode};

/// The bytes of a name before its type.
const NAME_BYTES: usize = 8;

/// How many columns a row of a listing has before the text of its line.
const ROW_BYTES: usize = 16;

/// How many columns of a listing's row are before its bytes.
const DIGITS_FROM: usize = 6;

/// The most digits of bytes in a listing's row.
const MOST_DIGITS: usize = 8;

/// What is said of a line of the listing if memory has other bytes.
const CHANGED_SINCE: &[u8] = b"memory differs from this line: dis PC shows what is there now\n";

/// The instruction at an address, with the number of its bytes. After FFFFH comes address 0.
fn decoded_at(memory: &Memory, address: u16) -> Result<(Instr, u8), DecodeFault>
    ensures { result ≡ decoded_at memory.now address }
{
    decode(&[
        memory.get(address),
        memory.get(address.wrapping_add(1)),
        memory.get(address.wrapping_add(2)),
        memory.get(address.wrapping_add(3)),
    ])
}

/// The number of bytes of the instruction at an address; 1 if no documented instruction is there.
fn instruction_size(memory: &Memory, address: u16) -> u16
    ensures { result ≡ instruction_size (decoded_at memory.now address) }
{
    match decoded_at(memory, address) {
        Ok((_, size)) => u16::from(size),
        Err(_) => 1,
    }
}

/// The number of the entry of the BIOS at an address, from 0, the cold start, to 16; `None` if there is none.
fn bios_entry_at(address: u16) -> Option<u8>
    ensures { result ≡ bios_entry_at address }
{
    if is_finished(address) {
        return Some(u8::from(address != BIOS));
    }
    bios_entry(address)
}

/// A byte that begins no documented instruction, as DB has it.
fn put_undocumented(alloc: Global, byte: u8, text: &mut Vec<u8>) -> Result<(), AllocError>
    ensures { OnOk result (text.new.items ≡ text.old.items ++ codes "DB " ++ byte_number byte) }
{
    text.extend_from_slice(b"DB ")?;
    put_byte_number(alloc, text, byte)
}

/// Appends the target of a relative jump, whose text has only the distance.
fn put_relative_note(
    alloc: Global,
    labels: &Labels,
    target: u16,
    text: &mut Vec<u8>,
) -> Result<(), AllocError>
    ensures { OnOk result (text.new.items ≡ text.old.items ++ relative_note labels.now target) }
{
    text.extend_from_slice(b" ; ")?;
    put_address(alloc, labels, target, text)
}

/// Appends the label of a target, if there is one.
fn put_label_note(
    alloc: Global,
    label: Option<(&[u8], u16)>,
    text: &mut Vec<u8>,
) -> Result<(), AllocError>
    ensures { OnOk result (text.new.items ≡ text.old.items ++ label_note (option_map (λ found. (found.0.now, found.1)) label.entry)) }
{
    let Some((name, offset)) = label else {
        return Ok(());
    };
    text.extend_from_slice(b" ; ")?;
    put_label(alloc, text, name, offset)
}

/// Appends where a jump, a call or RST goes, given the address of the next instruction.
fn put_target(
    alloc: Global,
    labels: &Labels,
    next: u16,
    instr: Instr,
    text: &mut Vec<u8>,
) -> Result<(), AllocError>
    ensures { OnOk result (text.new.items ≡ text.old.items ++ target_note labels.now next instr) }
{
    match instr {
        Instr::JumpRelative(e) => put_relative_note(alloc, labels, displaced(next, e), text),
        Instr::JumpRelativeIf(_, e) => put_relative_note(alloc, labels, displaced(next, e), text),
        Instr::Djnz(e) => put_relative_note(alloc, labels, displaced(next, e), text),
        Instr::Jump(nn) => put_label_note(alloc, labels.target(nn), text),
        Instr::JumpIf(_, nn) => put_label_note(alloc, labels.target(nn), text),
        Instr::Call(nn) => put_label_note(alloc, labels.target(nn), text),
        Instr::CallIf(_, nn) => put_label_note(alloc, labels.target(nn), text),
        Instr::Restart(t) => {
            put_label_note(alloc, labels.target(8 * u16::from(t.number())), text)
        }
        _ => Ok(()),
    }
}

/// The instruction that was read at an address, and where it goes; the byte there if none was read.
fn put_decoded(
    alloc: Global,
    labels: &Labels,
    address: u16,
    byte: u8,
    found: Result<(Instr, u8), DecodeFault>,
    text: &mut Vec<u8>,
) -> Result<(), AllocError>
    ensures { OnOk result (text.new.items ≡ text.old.items ++ decoded_text labels.now address byte found) }
{
    match found {
        Ok((instr, size)) => {
            put_instr(alloc, text, instr)?;
            let next = address.wrapping_add(u16::from(size));
            put_target(alloc, labels, next, instr, text)
        }
        Err(_) => put_undocumented(alloc, byte, text),
    }
}

/// The system call at an address, with the number of its function or entry; or the instruction.
fn put_instruction(
    alloc: Global,
    labels: &Labels,
    cpu: &Cpu,
    memory: &Memory,
    address: u16,
    text: &mut Vec<u8>,
) -> Result<(), AllocError>
    ensures { OnOk result (text.new.items ≡ text.old.items ++ instruction_at labels.now (machine cpu.now memory.now) address) }
{
    if address == BDOS {
        let function = cpu.main.c;
        return text.extend_from_slice(format!(in alloc; "BDOS {function}")?.as_bytes());
    }
    if let Some(entry) = bios_entry_at(address) {
        return text.extend_from_slice(format!(in alloc; "BIOS {entry}")?.as_bytes());
    }
    put_decoded(
        alloc,
        labels,
        address,
        memory.get(address),
        decoded_at(memory, address),
        text,
    )
}

/// Appends a blank and a label with the distance from it, if there is one.
fn put_label_after(
    alloc: Global,
    label: Option<(&[u8], u16)>,
    text: &mut Vec<u8>,
) -> Result<(), AllocError>
    ensures { OnOk result (text.new.items ≡ text.old.items ++ label_after (option_map (λ found. (found.0.now, found.1)) label.entry)) }
{
    let Some((name, offset)) = label else {
        return Ok(());
    };
    text.extend_from_slice(b" ")?;
    put_label(alloc, text, name, offset)
}

/// An address in four hexadecimal digits, with its label.
pub(crate) fn put_address(
    alloc: Global,
    labels: &Labels,
    address: u16,
    text: &mut Vec<u8>,
) -> Result<(), AllocError>
    ensures { OnOk result (text.new.items ≡ text.old.items ++ address_with_label labels.now address) }
{
    put_word(alloc, text, address)?;
    put_label_after(alloc, labels.target(address), text)
}

/// Why the run has ended, or the instruction at PC.
fn put_what(
    alloc: Global,
    labels: &Labels,
    point: &Point<'_>,
    text: &mut Vec<u8>,
) -> Result<(), AllocError>
    ensures { OnOk result (text.new.items ≡ text.old.items ++ point_text point.now.end labels.now point.now.state.machine) }
{
    let snapshot = point.snapshot();
    match point.end() {
        Some(why) => text.extend_from_slice(format!(in alloc; "{why}")?.as_bytes()),
        None => {
            let cpu = snapshot.cpu();
            put_instruction(alloc, labels, cpu, snapshot.memory(), cpu.pc, text)
        }
    }
}

/// The line of the point that is shown: the number of turns, PC and its label, and the instruction there or the end of the run.
pub(crate) fn put_point(
    alloc: Global,
    labels: &Labels,
    turn: u64,
    point: &Point<'_>,
    text: &mut Vec<u8>,
) -> Result<(), AllocError>
    ensures { OnOk result (text.new.items ≡ text.old.items ++ point_line labels.now turn point.now.end point.now.state.machine) }
{
    let pc = point.snapshot().cpu().pc;
    text.extend_from_slice(format!(in alloc; "turn {turn} at ")?.as_bytes())?;
    put_address(alloc, labels, pc, text)?;
    text.extend_from_slice(b": ")?;
    put_what(alloc, labels, point, text)?;
    text.extend_from_slice(b"\n")
}

/// Appends the values of a changed byte before and after.
fn put_values(alloc: Global, change: Change, text: &mut Vec<u8>) -> Result<(), AllocError>
    ensures { OnOk result (text.new.items ≡ text.old.items ++ values_text change) }
{
    text.extend_from_slice(b": ")?;
    put_byte(alloc, text, change.before)?;
    text.extend_from_slice(b" -> ")?;
    put_byte(alloc, text, change.after)
}

/// Appends the function of a system call, if the address is the one that calls the system.
fn put_call(alloc: Global, address: u16, function: u8, text: &mut Vec<u8>) -> Result<(), AllocError>
    ensures { OnOk result (text.new.items ≡ text.old.items ++ call_text address function) }
{
    if address != BDOS {
        return Ok(());
    }
    text.extend_from_slice(format!(in alloc; ": BDOS {function}")?.as_bytes())
}

/// Appends the instruction that changed a byte, or the system call.
fn put_changer(
    alloc: Global,
    labels: &Labels,
    change: Change,
    text: &mut Vec<u8>,
) -> Result<(), AllocError>
    ensures { OnOk result (text.new.items ≡ text.old.items ++ changer_text labels.now change) }
{
    put_address(alloc, labels, change.by, text)?;
    put_call(alloc, change.by, change.function, text)
}

/// A changed byte: its address, its values before and after, and what changed it.
pub(crate) fn put_change(
    alloc: Global,
    labels: &Labels,
    change: Change,
    text: &mut Vec<u8>,
) -> Result<(), AllocError>
    ensures { OnOk result (text.new.items ≡ text.old.items ++ change_line labels.now change) }
{
    put_address(alloc, labels, change.address, text)?;
    put_values(alloc, change, text)?;
    text.extend_from_slice(b" by ")?;
    put_changer(alloc, labels, change, text)?;
    text.extend_from_slice(b"\n")
}

/// The line that says that no turn has changed the byte at an address.
fn put_unchanged(
    alloc: Global,
    labels: &Labels,
    address: u16,
    text: &mut Vec<u8>,
) -> Result<(), AllocError>
    ensures { OnOk result (text.new.items ≡ text.old.items ++ unchanged_line labels.now address) }
{
    text.extend_from_slice(b"no turn has changed ")?;
    put_address(alloc, labels, address, text)?;
    text.extend_from_slice(b"\n")
}

/// The line of the last turn that changed the byte at an address; or that none has.
pub(crate) fn put_who(
    alloc: Global,
    labels: &Labels,
    address: u16,
    last: Option<(u64, Hit)>,
    text: &mut Vec<u8>,
) -> Result<(), AllocError>
    ensures { OnOk result (text.new.items ≡ text.old.items ++ who_text labels.now address last) }
{
    match last {
        Some((turn, Hit::Changed(change))) => {
            text.extend_from_slice(format!(in alloc; "turn {turn} changed ")?.as_bytes())?;
            put_change(alloc, labels, change, text)
        }
        _ => put_unchanged(alloc, labels, address, text),
    }
}

/// Why a command has stopped before the end of the run, unless it has reached what it was to reach.
pub(crate) fn put_outcome(
    alloc: Global,
    labels: &Labels,
    none: &[u8],
    told: Option<Outcome>,
    text: &mut Vec<u8>,
) -> Result<(), AllocError>
    ensures { OnOk result (text.new.items ≡ text.old.items ++ outcome_text labels.now none.now told) }
{
    match told {
        Some(Outcome::Held(Hit::Breakpoint(address))) => {
            text.extend_from_slice(b"breakpoint ")?;
            put_address(alloc, labels, address, text)?;
            text.extend_from_slice(b"\n")
        }
        Some(Outcome::Held(Hit::Changed(change))) => {
            text.extend_from_slice(b"watch ")?;
            put_change(alloc, labels, change, text)
        }
        Some(Outcome::Limit) => {
            let line = format!(in alloc; "limit of {MOST_TURNS} turns\n")?;
            text.extend_from_slice(line.as_bytes())
        }
        Some(Outcome::Held(Hit::Goal)) => Ok(()),
        Some(Outcome::Ended) => text.extend_from_slice(none),
        None => text.extend_from_slice(none),
    }
}

/// Appends that no step of a command led to its address, if it has one.
pub(crate) fn put_missed(
    alloc: Global,
    labels: &Labels,
    address: Option<u16>,
    text: &mut Vec<u8>,
) -> Result<(), AllocError>
    ensures { OnOk result (text.new.items ≡ text.old.items ++ missed_text labels.now address) }
{
    let Some(address) = address else {
        return Ok(());
    };
    put_address(alloc, labels, address, text)?;
    text.extend_from_slice(b" was not reached\n")
}

/// Appends the condition of a breakpoint, if it has one.
fn put_condition(
    alloc: Global,
    condition: Option<Condition>,
    text: &mut Vec<u8>,
) -> Result<(), AllocError>
    ensures { OnOk result (text.new.items ≡ text.old.items ++ condition_after condition) }
{
    let Some(condition) = condition else {
        return Ok(());
    };
    text.extend_from_slice(b" if ")?;
    text.extend_from_slice(condition.register.name().as_bytes())?;
    text.extend_from_slice(b"=")?;
    put_word(alloc, text, condition.value)
}

/// The line of a breakpoint.
pub(crate) fn put_breakpoint(
    alloc: Global,
    labels: &Labels,
    breakpoint: Breakpoint,
    text: &mut Vec<u8>,
) -> Result<(), AllocError>
    ensures { OnOk result (text.new.items ≡ text.old.items ++ breakpoint_line labels.now breakpoint) }
{
    text.extend_from_slice(b"break ")?;
    put_address(alloc, labels, breakpoint.address, text)?;
    put_condition(alloc, breakpoint.condition, text)?;
    text.extend_from_slice(b"\n")
}

/// Appends how many bytes are watched, unless it is one.
fn put_count(alloc: Global, count: u16, text: &mut Vec<u8>) -> Result<(), AllocError>
    ensures { OnOk result (text.new.items ≡ text.old.items ++ count_after count) }
{
    if count == 1 {
        return Ok(());
    }
    text.extend_from_slice(format!(in alloc; ", {count} bytes")?.as_bytes())
}

/// The line of watched bytes that follow each other.
pub(crate) fn put_watch(
    alloc: Global,
    labels: &Labels,
    from: u16,
    count: u16,
    text: &mut Vec<u8>,
) -> Result<(), AllocError>
    ensures { OnOk result (text.new.items ≡ text.old.items ++ watch_line labels.now from count) }
{
    text.extend_from_slice(b"watch ")?;
    put_address(alloc, labels, from, text)?;
    put_count(alloc, count, text)?;
    text.extend_from_slice(b"\n")
}

/// The lines of watches, each after some text.
fn put_watches(
    alloc: Global,
    labels: &Labels,
    before: &[u8],
    watches: &[Watch],
    text: &mut Vec<u8>,
) -> Result<(), AllocError>
    ensures { OnOk result (text.new.items ≡ text.old.items ++ watch_lines before.now labels.now watches.now) }
{
    for watch in watches {
        text.extend_from_slice(before)?;
        put_watch(alloc, labels, watch.from, watch.count, text)?;
    }
    Ok(())
}

/// The lines of breakpoints, each after some text.
fn put_breakpoints(
    alloc: Global,
    labels: &Labels,
    before: &[u8],
    breakpoints: &[Breakpoint],
    text: &mut Vec<u8>,
) -> Result<(), AllocError>
    ensures { OnOk result (text.new.items ≡ text.old.items ++ breakpoint_lines before.now labels.now breakpoints.now) }
{
    for breakpoint in breakpoints {
        text.extend_from_slice(before)?;
        put_breakpoint(alloc, labels, *breakpoint, text)?;
    }
    Ok(())
}

/// The lines of the breakpoints and of the watches, in the order in which they were set, each after some text; or `none`, if there are
/// none.
pub(crate) fn put_stops(
    alloc: Global,
    labels: &Labels,
    none: &[u8],
    before: &[u8],
    stops: &Stops,
    text: &mut Vec<u8>,
) -> Result<(), AllocError>
    ensures { OnOk result (text.new.items ≡ text.old.items ++ stops_text none.now before.now labels.now stops.now.breakpoints.items stops.now.watches.items) }
{
    if stops.breakpoints.is_empty() && stops.watches.is_empty() {
        return text.extend_from_slice(none);
    }
    put_breakpoints(alloc, labels, before, &stops.breakpoints, text)?;
    put_watches(alloc, labels, before, &stops.watches, text)
}

/// The bytes that are no CR.
fn without_returns(alloc: Global, bytes: &[u8]) -> Result<Vec<u8>, AllocError>
    ensures { IfOk result (λ kept. kept.items ≡ filter (λ byte. not (byte == 0x0D)) bytes.now) }
{
    let mut kept = Vec::new(alloc);
    for byte in bytes {
        if *byte != b'\r' {
            kept.push(*byte)?;
        }
    }
    Ok(kept)
}

/// A line that the program has printed, after `| `.
fn put_printed_line(line: &[u8], text: &mut Vec<u8>) -> Result<(), AllocError>
    ensures { OnOk result (text.new.items ≡ text.old.items ++ printed_line line.now) }
{
    text.extend_from_slice(b"| ")?;
    put_characters(line, text)?;
    text.extend_from_slice(b"\n")
}

/// Bytes that the program has printed, each line of them after `| `. CR is left out, and other bytes that are no characters are full stops.
pub(crate) fn put_output(alloc: Global, output: &[u8], text: &mut Vec<u8>) -> Result<(), AllocError>
    ensures { OnOk result (text.new.items ≡ text.old.items ++ output_text output.now) }
{
    let kept = without_returns(alloc, output)?;
    for line in kept.as_slice().lines() {
        put_printed_line(line, text)?;
    }
    Ok(())
}

/// The line of an instruction: the address and its label, and the instruction.
fn put_instruction_line(
    alloc: Global,
    labels: &Labels,
    snapshot: &Snapshot<'_>,
    address: u16,
    text: &mut Vec<u8>,
) -> Result<(), AllocError>
    ensures { OnOk result (text.new.items ≡ text.old.items ++ instruction_line labels.now snapshot.now.machine address) }
{
    put_address(alloc, labels, address, text)?;
    text.extend_from_slice(b": ")?;
    let cpu = snapshot.cpu();
    put_instruction(alloc, labels, cpu, snapshot.memory(), address, text)?;
    text.extend_from_slice(b"\n")
}

/// The lines of instructions.
pub(crate) fn put_instructions(
    alloc: Global,
    labels: &Labels,
    snapshot: &Snapshot<'_>,
    from: u16,
    count: u16,
    text: &mut Vec<u8>,
) -> Result<(), AllocError>
    ensures { OnOk result (text.new.items ≡ text.old.items ++ code_text labels.now snapshot.now.machine from «count») }
{
    let mut address = from;
    for _ in 0..count {
        put_instruction_line(alloc, labels, snapshot, address, text)?;
        address = address.wrapping_add(instruction_size(snapshot.memory(), address));
    }
    Ok(())
}

/// The line of a word on the stack: its address, and the word as an address with its label.
fn put_stack_line(
    alloc: Global,
    labels: &Labels,
    memory: &Memory,
    address: u16,
    text: &mut Vec<u8>,
) -> Result<(), AllocError>
    ensures { OnOk result (text.new.items ≡ text.old.items ++ stack_word_line labels.now memory.now address) }
{
    put_word(alloc, text, address)?;
    text.extend_from_slice(b": ")?;
    put_address(alloc, labels, memory.word(address), text)?;
    text.extend_from_slice(b"\n")
}

/// The lines of the words that are so far from SP.
fn put_words(
    alloc: Global,
    labels: &Labels,
    memory: &Memory,
    sp: u16,
    offsets: &[u16],
    text: &mut Vec<u8>,
) -> Result<(), AllocError>
    ensures { OnOk result (text.new.items ≡ text.old.items ++ flat_map (λ offset. stack_word_line labels.now memory.now (up_by offset sp)) offsets.now) }
{
    for offset in offsets {
        put_stack_line(alloc, labels, memory, sp.wrapping_add(*offset), text)?;
    }
    Ok(())
}

/// The lines of the eight words on top of the stack.
pub(crate) fn put_stack(
    alloc: Global,
    labels: &Labels,
    snapshot: &Snapshot<'_>,
    text: &mut Vec<u8>,
) -> Result<(), AllocError>
    ensures { OnOk result (text.new.items ≡ text.old.items ++ stack_text labels.now snapshot.now.machine.memory snapshot.now.machine.cpu.sp) }
{
    let sp = snapshot.cpu().sp;
    let offsets = [0, 2, 4, 6, 8, 10, 12, 14];
    put_words(alloc, labels, snapshot.memory(), sp, &offsets, text)
}

/// Bytes of a name, without the blanks at their end.
fn put_part(bytes: &[u8], text: &mut Vec<u8>) -> Result<(), AllocError> {
    put_characters(bytes.trim_ascii_end(), text)
}

/// A name as `dir` prints it: NAME.TYP, or NAME if it has no type.
fn put_name(name: &[u8; 11], text: &mut Vec<u8>) -> Result<(), AllocError> {
    let (stem, kind) = name[..].split_at(NAME_BYTES);
    put_part(stem, text)?;
    if !kind.trim_ascii_end().is_empty() {
        text.push(b'.')?;
        put_part(kind, text)?;
    }
    Ok(())
}

/// The lines of the files of a disk, by user and name: the user, the name, and the number of records.
pub(crate) fn put_files(
    alloc: Global,
    disk: &Disk<MemoryImage>,
    text: &mut Vec<u8>,
) -> Result<(), AllocError> {
    let Ok(files) = disk.list(alloc) else {
        return Err(AllocError);
    };
    for file in &files {
        let user = file.user;
        text.extend_from_slice(format!(in alloc; "{user} ")?.as_bytes())?;
        put_name(&file.name.bytes(), text)?;
        let records = file.records;
        text.extend_from_slice(format!(in alloc; " {records}\n")?.as_bytes())?;
    }
    Ok(())
}

/// Whether a row of a listing begins with an address.
fn has_address(row: &[u8]) -> bool
    ensures { result ≡ has_address row.now }
{
    !row.is_empty() && row[0] != b' '
}

/// Whether these bytes are blanks.
fn are_blanks(bytes: &[u8]) -> bool
    ensures { result ≡ list_all (λ byte. byte == 0x20) bytes.now }
{
    bytes.iter().all(|byte| *byte == b' ')
}

/// Whether a row of a listing has further bytes of the line before it. Many editors cut off the blanks at its end.
fn is_further_row(row: &[u8]) -> bool
    ensures { result ≡ is_further_row row.now }
{
    has_address(row) && are_blanks(row.get(ROW_BYTES..).unwrap_or(&[]))
}

/// Whether a row of a listing is the first of a line at the address with these digits.
fn begins_at(digits: &[u8], row: &[u8]) -> bool
    ensures { result ≡ begins_at digits.now row.now }
{
    row.starts_with(digits) && !is_further_row(row)
}

/// The first row of a listing that begins a line at the address with these digits, and the further rows of that line.
fn rows_from<'a>(
    alloc: Global,
    listing: &'a [u8],
    digits: &[u8],
) -> Result<Vec<&'a [u8]>, AllocError>
    ensures { IfOk result (λ rows. map (λ row. row.now) rows.items ≡ rows_from digits.now (map without_terminator (lines_of listing.now))) }
{
    let mut rows = Vec::new(alloc);
    for line in listing.lines() {
        if rows.is_empty() {
            if begins_at(digits, line) {
                rows.push(line)?;
            }
        } else if is_further_row(line) {
            rows.push(line)?;
        } else {
            return Ok(rows);
        }
    }
    Ok(rows)
}

/// The columns of a row that its bytes are in.
fn listed_columns(row: &[u8]) -> &[u8]
    ensures { result.now ≡ listed_columns row.now }
{
    let after = row.get(DIGITS_FROM..).unwrap_or(&[]);
    let (columns, _) = after.split_at(MOST_DIGITS.min(after.len()));
    columns
}

/// How many bytes are before the first blank.
fn unblank_len(columns: &[u8]) -> usize
    ensures len { result ≡ position_or_len (λ byte. byte == 0x20) columns.now }
    ensures within { result ≤ length columns.now }
{
    columns.iter().take_while(|byte| **byte != b' ').count()
}

/// The digits of the bytes in a row of a listing.
fn listed_digits(row: &[u8]) -> &[u8]
    ensures { result.now ≡ listed_digits row.now }
{
    let columns = listed_columns(row);
    let (digits, _) = columns.split_at(unblank_len(columns));
    digits
}

/// Whether the bytes in memory are those in a row of a listing.
fn is_as_listed(
    alloc: Global,
    memory: &Memory,
    address: u16,
    row: &[u8],
) -> Result<bool, AllocError>
    ensures { IfOk result (λ same. same ≡ is_as_listed memory.now address row.now) }
{
    let bytes = [
        memory.get(address),
        memory.get(address.wrapping_add(1)),
        memory.get(address.wrapping_add(2)),
        memory.get(address.wrapping_add(3)),
    ];
    let digits = hex::encode_upper(alloc, &bytes[..])?;
    Ok(digits.as_bytes().starts_with(listed_digits(row)))
}

/// Whether the bytes in memory are those in all rows of a line.
fn are_as_listed(
    alloc: Global,
    memory: &Memory,
    address: u16,
    rows: &[&[u8]],
) -> Result<bool, AllocError>
    ensures { IfOk result (λ same. same ≡ are_as_listed memory.now address (map (λ row. row.now) rows.now)) }
{
    let mut from = address;
    for row in rows {
        if !is_as_listed(alloc, memory, from, row)? {
            return Ok(false);
        }
        from = from.wrapping_add(4);
    }
    Ok(true)
}

/// Says so if memory has other bytes than a line of the listing.
fn put_note(are_as_listed: bool, text: &mut Vec<u8>) -> Result<(), AllocError>
    ensures { OnOk result (text.new.items ≡ text.old.items ++ listing_note are_as_listed) }
{
    if are_as_listed {
        return Ok(());
    }
    text.extend_from_slice(CHANGED_SINCE)
}

/// A byte of a listing as it is printed: a tab stays as it is.
fn listed_character(byte: u8) -> u8
    ensures { result ≡ listed_character byte }
{
    if byte == b'\t' {
        byte
    } else {
        shown_character(byte)
    }
}

/// Appends a row of a listing.
fn put_row(row: &[u8], text: &mut Vec<u8>) -> Result<(), AllocError>
    ensures { OnOk result (text.new.items ≡ text.old.items ++ map listed_character row.now) }
{
    for byte in row {
        text.push(listed_character(*byte))?;
    }
    Ok(())
}

/// Appends the first of the rows of a line of the listing, if there is one, and says so if memory has other bytes than all of them.
fn put_listed(
    alloc: Global,
    memory: &Memory,
    address: u16,
    rows: &[&[u8]],
    text: &mut Vec<u8>,
) -> Result<(), AllocError>
    ensures { OnOk result (text.new.items ≡ text.old.items ++ listing_text memory.now address (map (λ row. row.now) rows.now)) }
{
    let Some((first, _)) = rows.split_first() else {
        return Ok(());
    };
    put_row(first, text)?;
    text.extend_from_slice(b"\n")?;
    put_note(are_as_listed(alloc, memory, address, rows)?, text)
}

/// An address with its label, and its line of the listing.
pub(crate) fn put_where(
    alloc: Global,
    labels: &Labels,
    listing: &[u8],
    memory: &Memory,
    address: u16,
    text: &mut Vec<u8>,
) -> Result<(), AllocError>
    ensures { OnOk result (text.new.items ≡ text.old.items ++ where_text labels.now listing.now memory.now address) }
{
    put_address(alloc, labels, address, text)?;
    text.extend_from_slice(b"\n")?;
    let mut digits = Vec::new(alloc);
    put_word(alloc, &mut digits, address)?;
    let rows = rows_from(alloc, listing, &digits)?;
    put_listed(alloc, memory, address, &rows, text)
}
