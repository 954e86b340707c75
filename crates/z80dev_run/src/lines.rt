//! Prints the steps of a run as lines.

ghost use Rattle.std.specs.Prelude.{◌≡◌, ◌≤◌, ◌++◌, IfOk, OnOk, take};
ghost use Rattle.cpm_run.specs.Turns.{place_at_pc};
ghost use Rattle.hex.specs.Hex.{encode_upper};
ghost use Rattle.z80dev_run.specs.Labelled.{nearest_label, nearest_text};
ghost use Rattle.state_text.specs.Printing.Columns.{word_text};
ghost use Rattle.z80dev_run.specs.Lines.{IsTrace, IsTraceLine, ShowsAt, change_text, changes, done_text, index_changes, main_changes, other_changes, place_text, shadow_changes, shown_size};

use crate::labels::Labels;
use cpm_run::{BDOS, TraceStep, bios_entry};
use state_text::{put_blanks, put_column, put_instr, put_label, put_number, put_word};
use std::alloc::{AllocError, Global};
use z80_cpu::Cpu;
use z80_table::decode;

/// How many bytes of a step are shown: those of its instruction, or all if there is none, and none if it is a call of the system.
fn shown_size(step: &TraceStep) -> usize
    ensures size { result ≡ shown_size (place_at_pc step.now.before.pc) step.now.bytes }
    ensures most { result ≤ 4 }
{
    let pc = step.before.pc;
    if pc == BDOS || bios_entry(pc).is_some() {
        return 0;
    }
    match decode(&step.bytes) {
        Ok((_, size)) => size as usize,
        Err(_) => 4,
    }
}

/// What a step does: a call of the system with its number, or an instruction, or `?` if there is none.
fn shown(alloc: Global, step: &TraceStep) -> Result<Vec<u8>, AllocError>
    ensures { IfOk result (λ text. ShowsAt (place_at_pc step.now.before.pc) step.now text.items) }
{
    let pc = step.before.pc;
    let function = step.before.main.c;
    if pc == BDOS {
        return Ok(format!(in alloc; "BDOS {function}")?.into_bytes());
    }
    if let Some(entry) = bios_entry(pc) {
        return Ok(format!(in alloc; "BIOS {entry}")?.into_bytes());
    }
    let Ok((instr, _)) = decode(&step.bytes) else {
        return Vec::from_slice(alloc, b"?");
    };
    let mut text = Vec::new(alloc);
    put_instr(alloc, &mut text, instr)?;
    Ok(text)
}

/// Answers the label of an address with its offset.
pub(crate) fn label_of(alloc: Global, labels: &Labels, address: u16) -> Result<Vec<u8>, AllocError>
    ensures { IfOk result (λ text. text.items ≡ nearest_text (nearest_label labels.now address)) }
{
    let Some((name, offset)) = labels.find(address) else {
        return Vec::from_slice(alloc, b"-");
    };
    let mut text = Vec::new(alloc);
    put_label(alloc, &mut text, name, offset)?;
    Ok(text)
}

/// Appends a register if its value has changed.
fn put_change(
    alloc: Global,
    out: &mut Vec<u8>,
    name: &[u8],
    before: u16,
    after: u16,
) -> Result<(), AllocError>
    ensures { OnOk result (out.new.items ≡ out.old.items ++ change_text name.now before after) }
{
    if before == after {
        return Ok(());
    }
    put_blanks(out, 1)?;
    out.extend_from_slice(name)?;
    out.push(b'=')?;
    put_word(alloc, out, after)
}

fn put_main_changes(
    alloc: Global,
    out: &mut Vec<u8>,
    old: &Cpu,
    new: &Cpu,
) -> Result<(), AllocError>
    ensures { OnOk result (out.new.items ≡ out.old.items ++ main_changes old.now new.now) }
{
    put_change(alloc, out, b"AF", old.main.af(), new.main.af())?;
    put_change(alloc, out, b"BC", old.main.bc(), new.main.bc())?;
    put_change(alloc, out, b"DE", old.main.de(), new.main.de())?;
    put_change(alloc, out, b"HL", old.main.hl(), new.main.hl())
}

fn put_index_changes(
    alloc: Global,
    out: &mut Vec<u8>,
    old: &Cpu,
    new: &Cpu,
) -> Result<(), AllocError>
    ensures { OnOk result (out.new.items ≡ out.old.items ++ index_changes old.now new.now) }
{
    put_change(alloc, out, b"IX", old.ix, new.ix)?;
    put_change(alloc, out, b"IY", old.iy, new.iy)?;
    put_change(alloc, out, b"SP", old.sp, new.sp)
}

fn put_shadow_changes(
    alloc: Global,
    out: &mut Vec<u8>,
    old: &Cpu,
    new: &Cpu,
) -> Result<(), AllocError>
    ensures { OnOk result (out.new.items ≡ out.old.items ++ shadow_changes old.now new.now) }
{
    put_change(alloc, out, b"AF'", old.shadow.af(), new.shadow.af())?;
    put_change(alloc, out, b"BC'", old.shadow.bc(), new.shadow.bc())?;
    put_change(alloc, out, b"DE'", old.shadow.de(), new.shadow.de())?;
    put_change(alloc, out, b"HL'", old.shadow.hl(), new.shadow.hl())
}

/// Appends the registers that a step has changed.
fn put_changes(alloc: Global, out: &mut Vec<u8>, old: &Cpu, new: &Cpu) -> Result<(), AllocError>
    ensures { OnOk result (out.new.items ≡ out.old.items ++ changes old.now new.now) }
{
    put_main_changes(alloc, out, old, new)?;
    put_index_changes(alloc, out, old, new)?;
    put_shadow_changes(alloc, out, old, new)?;
    put_change(alloc, out, b"I", u16::from(old.i), u16::from(new.i))?;
    put_change(alloc, out, b"R", u16::from(old.r), u16::from(new.r))
}

/// Answers a word as four hexadecimal digits.
fn word_digits(alloc: Global, word: u16) -> Result<Vec<u8>, AllocError>
    ensures { IfOk result (λ digits. digits.items ≡ word_text word) }
{
    Ok(hex::encode_upper(alloc, &word.to_be_bytes()[..])?.into_bytes())
}

/// Answers the shown bytes of a step as hexadecimal digits.
fn byte_digits(alloc: Global, step: &TraceStep) -> Result<Vec<u8>, AllocError>
    ensures { IfOk result (λ digits. digits.items ≡ encode_upper (take (shown_size (place_at_pc step.now.before.pc) step.now.bytes) step.now.bytes)) }
{
    let size = shown_size(step);
    Ok(hex::encode_upper(alloc, &step.bytes[..size])?.into_bytes())
}

/// Appends the place of a step: its number, its address, the label of the address, and its bytes.
fn put_place(
    alloc: Global,
    out: &mut Vec<u8>,
    step: &TraceStep,
    labels: &Labels,
) -> Result<(), AllocError>
    ensures { OnOk result (out.new.items ≡ out.old.items ++ place_text labels.now step.now) }
{
    let pc = step.before.pc;
    put_number(alloc, out, 8, step.number)?;
    put_blanks(out, 1)?;
    put_column(out, 4, &word_digits(alloc, pc)?)?;
    put_column(out, 12, &label_of(alloc, labels, pc)?)?;
    put_column(out, 8, &byte_digits(alloc, step)?)
}

/// Appends what a step does, and the registers that it has changed, if any, in a column of their own.
fn put_done(out: &mut Vec<u8>, text: &[u8], changes: &[u8]) -> Result<(), AllocError>
    ensures { OnOk result (out.new.items ≡ out.old.items ++ done_text text.now changes.now) }
{
    match changes {
        [] => out.extend_from_slice(text),
        [_, ..] => {
            put_column(out, 16, text)?;
            out.extend_from_slice(changes)
        }
    }
}

/// Answers the line of a step.
fn line_of(alloc: Global, step: &TraceStep, labels: &Labels) -> Result<Vec<u8>, AllocError>
    ensures { IfOk result (λ line. IsTraceLine labels.now step.now line.items) }
{
    let text = shown(alloc, step)?;
    let mut changes = Vec::new(alloc);
    put_changes(alloc, &mut changes, &step.before, &step.after)?;
    let mut line = Vec::new(alloc);
    put_place(alloc, &mut line, step, labels)?;
    put_done(&mut line, &text, &changes)?;
    line.push(b'\n')?;
    Ok(line)
}

/// Answers the lines of steps, one after the other. A label has its offset in decimal after it.
pub fn trace_lines(
    alloc: Global,
    steps: &[TraceStep],
    labels: &Labels,
) -> Result<Vec<u8>, AllocError>
    ensures { IfOk result (λ text. IsTrace labels.now steps.now text.items) }
{
    let mut text = Vec::new(alloc);
    for step in steps {
        text.extend_from_slice(&line_of(alloc, step, labels)?)?;
    }
    Ok(text)
}
