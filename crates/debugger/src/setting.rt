//! Sets and forgets breakpoints and watched bytes.

ghost use Rattle.std.specs.Prelude.{◌≡◌, IfOk};
ghost use Rattle.debugger.specs.Session.{Sets};
ghost use Rattle.debugger.specs.Text.{breakpoints_at, covers, is_chosen, watches_at};

use debugger_commands::Command;
use machine_history::{Stops, Watch};
use state_text::Breakpoint;
use std::alloc::{AllocError, Global};

/// Whether something is asked for: that which is there, or that which is not.
fn is_chosen(there: bool, is_there: bool) -> bool
    ensures { result ≡ is_chosen there is_there }
{
    is_there == there
}

/// Whether the byte at an address is one of those of a watch.
fn covers(address: u16, watch: Watch) -> bool
    ensures { result ≡ covers address watch }
{
    address.wrapping_sub(watch.from) < watch.count
}

/// The breakpoints at an address, or those elsewhere.
fn breakpoints_at(
    alloc: Global,
    breakpoints: &[Breakpoint],
    address: u16,
    there: bool,
) -> Result<Vec<Breakpoint>, AllocError>
    ensures { IfOk result (λ found. found.items ≡ breakpoints_at address there breakpoints.now) }
{
    let mut found = Vec::new(alloc);
    for breakpoint in breakpoints {
        if is_chosen(there, breakpoint.address == address) {
            found.push(*breakpoint)?;
        }
    }
    Ok(found)
}

/// The watches of bytes among which the one at an address is, or those without it.
fn watches_at(
    alloc: Global,
    watches: &[Watch],
    address: u16,
    there: bool,
) -> Result<Vec<Watch>, AllocError>
    ensures { IfOk result (λ found. found.items ≡ watches_at address there watches.now) }
{
    let mut found = Vec::new(alloc);
    for watch in watches {
        if is_chosen(there, covers(address, *watch)) {
            found.push(*watch)?;
        }
    }
    Ok(found)
}

/// The breakpoints at an address and the watches of its byte, or the others.
pub(crate) fn chosen(
    alloc: Global,
    stops: &Stops,
    address: u16,
    there: bool,
) -> Result<Stops, AllocError>
    ensures breakpoints { IfOk result (λ found. found.breakpoints.items ≡ breakpoints_at address there stops.now.breakpoints.items) }
    ensures watches { IfOk result (λ found. found.watches.items ≡ watches_at address there stops.now.watches.items) }
{
    let mut found = Stops::new(alloc);
    found.breakpoints = breakpoints_at(alloc, &stops.breakpoints, address, there)?;
    found.watches = watches_at(alloc, &stops.watches, address, there)?;
    Ok(found)
}

/// Sets or forgets breakpoints and watched bytes, as a command asks; or leaves them.
pub(crate) fn set(alloc: Global, stops: &mut Stops, command: Command) -> Result<(), AllocError>
    ensures { IfOk result (λ _. Sets command stops.old stops.new) }
{
    match command {
        Command::Break(breakpoint) => stops.breakpoints.push(breakpoint)?,
        Command::Watch(from, count) => stops.watches.push(Watch { from, count })?,
        Command::Delete(None) => *stops = Stops::new(alloc),
        Command::Delete(Some(address)) => *stops = chosen(alloc, stops, address, false)?,
        _ => {}
    }
    Ok(())
}
