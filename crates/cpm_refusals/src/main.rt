//! Makes calls of disks and of the machine that allocate memory, each twice in a row, and prints what each answers. A test runs it and
//! refuses each allocation in turn.
//!
//! A line of standard input has the name of a call and its subject. The program prints the line and both answers.
#![tactic(auto)]

mod disks;
mod runs;

use anyhow::Context;
use cpm_image::DiskKind;
use std::alloc::Global;
use std::io::Write;
use z80_cpu::Memory;

fn kind_of(word: &str) -> DiskKind {
    if word == "mega" {
        DiskKind::Megabyte
    } else {
        DiskKind::EightInch
    }
}

/// Writes the last byte of a new memory.
fn answer_memory<W: Write>(alloc: Global, out: &mut W) -> Result<(), anyhow::Error> {
    match Memory::new(alloc) {
        Ok(memory) => Ok(write!(out, "{}", memory.get(0xFFFF))?),
        Err(_) => Ok(write!(out, "NoMemory")?),
    }
}

/// Writes what one call answers.
fn answer<W: Write>(alloc: Global, out: &mut W, call: &str, of: &str) -> Result<(), anyhow::Error> {
    if call == "image" {
        disks::answer_image(alloc, out, kind_of(of))
    } else if call == "mount" {
        disks::answer_mount(alloc, out, kind_of(of))
    } else if call == "run" {
        runs::answer_run(alloc, out, of)
    } else {
        answer_memory(alloc, out)
    }
}

fn report<W: Write>(alloc: Global, out: &mut W, line: &str) -> Result<(), anyhow::Error> {
    let (call, of) = line.split_once(' ').context("no second word")?;
    write!(out, "{line} => ")?;
    answer(alloc, out, call, of)?;
    write!(out, " | ")?;
    answer(alloc, out, call, of)?;
    Ok(writeln!(out)?)
}

fn main(rt: HostRuntime) -> Result<(), anyhow::Error> {
    let alloc = rt.alloc();
    let mut out = rt.stdout();
    for line in rt.lines(alloc) {
        report(alloc, &mut out, line?.as_str())?;
    }
    Ok(())
}
