//! Reads rows, one on each line of standard input, and prints each with the answer of the call that it names.
//!
//! The head of `stdin` lists the calls and the columns of each; a line that begins with `;` is a remark.
#![tactic(auto)]

mod call;
mod disks;
mod images;
mod lists;
mod short;
mod shown;
mod state;
mod stops;

use call::{Alone, Call};
use row_text::Row;
use state::State;
use std::io::Write;

/// Makes calls that use nothing.
fn answer_alone(row: &mut Row, call: Alone) {
    match call {
        Alone::Image => images::answer_image(row),
        Alone::Kind => images::answer_kind(row),
        Alone::SectorOf => images::answer_sector(row),
        Alone::Tracks => images::answer_track(row),
        Alone::Texts => images::answer_texts(row),
        Alone::Short => short::answer_short(row),
        Alone::ShortFaults => short::answer_short_faults(row),
    }
}

/// Makes any call.
fn answer(row: &mut Row, call: Call, state: &mut State) {
    match call {
        Call::Alone(call) => answer_alone(row, call),
        Call::Any(call) => state::answer_any(row, call, state),
        Call::Image(call) => state::answer_image(row, call, state),
        Call::Disk(call) => state::answer_disk(row, call, state),
        Call::Change(call) => state::answer_change(row, call, state),
        Call::Last(call) => lists::answer_last(row, call, &state.list),
        Call::Entries(call) => lists::answer_list(row, call, &state.list),
        Call::NewLast(call) => lists::change_list(row, call, &mut state.list),
    }
}

fn main(rt: HostRuntime) -> Result<(), anyhow::Error> {
    let alloc = rt.alloc();
    let mut out = rt.stdout();
    let mut state = State::new(alloc);
    for line in rt.lines(alloc) {
        let line = line?;
        write!(out, "{line}")?;
        if !line.is_empty() && !line.as_str().starts_with(';') {
            write!(out, " =>")?;
            let mut row = Row::new(alloc, &line);
            match call::call_named(row.word()) {
                Some(call) => answer(&mut row, call, &mut state),
                None => row.refuse("no such call"),
            }
            row.print(&mut out)?;
        }
        writeln!(out)?;
    }
    Ok(())
}
