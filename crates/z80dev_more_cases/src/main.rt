//! Tries random programs, and prints which of them differ. The first word of the command line is the first seed, and the second how many
//! to try.
#![tactic(auto)]

use anyhow::Context;
use std::env;
use std::io::Write;
use z80dev_case_checks::{Tally, try_program};

/// A word as a number.
fn number_of(word: Option<String>) -> Result<u64, anyhow::Error> {
    let word = word.context("two words are wanted: the first seed, and how many")?;
    Ok(word.as_str().parse::<u64>()?)
}

fn main(rt: HostRuntime) -> Result<(), anyhow::Error> {
    let mut words = env::args(&rt)?;
    let _name = words.next();
    let first = number_of(words.next())?;
    let count = number_of(words.next())?;
    let mut out = rt.stdout();
    let mut tally = Tally::new();
    let mut differ: u64 = 0;
    for number in 0..count {
        let seed = first.wrapping_add(number);
        if let Err(missed) = try_program(rt.alloc(), seed, &mut tally) {
            differ = differ.saturating_add(1);
            writeln!(out, "seed {seed}: {missed:?}")?;
        }
    }
    writeln!(out, "{count} cases, {differ} differ")?;
    Ok(())
}
