//! Calls and the places that they return to.

ghost use Rattle.std.specs.Prelude.{◌≡◌, Some, None, if◌then◌else◌};
ghost use Rattle.cpm_run.specs.Turns.{place_at_pc};
ghost use Rattle.machine_history.specs.Calls.{call_place, call_size, calls, is_at, is_of_system, is_same_place, shown_place};

use crate::snapshot::Snapshot;
use cpm_run::{BDOS, bios_entry};

/// A place in a program: PC and SP.
#[derive(Clone, Copy, Debug, PartialEq, Eq)]
pub struct ReturnPlace {
    pub address: u16,
    pub sp: u16,
}

/// The number of bytes of a call, by its first byte; 0 for another instruction.
fn call_size(opcode: u8) -> u16
    ensures { result ≡ call_size opcode }
{
    if opcode >= 0xC0 && (opcode % 8 == 4 || opcode == 0xCD) {
        3
    } else if opcode >= 0xC0 && opcode % 8 == 7 {
        1
    } else {
        0
    }
}

/// Whether the system acts at this address, so that no instruction of the program is carried out there.
pub(crate) fn is_of_system(pc: u16) -> bool
    ensures { result ≡ is_of_system (place_at_pc pc) }
{
    pc == BDOS || bios_entry(pc).is_some()
}

/// Where the call at PC returns to, if one is there.
pub fn call_place(snapshot: &Snapshot<'_>) -> Option<ReturnPlace>
    ensures { result ≡ call_place snapshot.now }
{
    let cpu = snapshot.cpu();
    let size = call_size(snapshot.memory().get(cpu.pc));
    if is_of_system(cpu.pc) || size == 0 {
        None
    } else {
        Some(ReturnPlace {
            address: cpu.pc.wrapping_add(size),
            sp: cpu.sp,
        })
    }
}

/// PC and SP in a state.
pub(crate) fn shown_place(snapshot: &Snapshot<'_>) -> ReturnPlace
    ensures { result ≡ shown_place snapshot.now }
{
    let cpu = snapshot.cpu();
    ReturnPlace {
        address: cpu.pc,
        sp: cpu.sp,
    }
}

fn is_same_place(a: ReturnPlace, b: ReturnPlace) -> bool
    ensures { result ≡ is_same_place a b }
{
    a.address == b.address && a.sp == b.sp
}

/// Whether a call is at PC that returns to this place.
fn calls(place: ReturnPlace, snapshot: &Snapshot<'_>) -> bool
    ensures { result ≡ calls place snapshot.now }
{
    match call_place(snapshot) {
        Some(there) => is_same_place(there, place),
        None => false,
    }
}

/// The call that is to return to a place, after a turn that begins in this state: one that is made there; none if the place is reached
/// there; otherwise the one before.
pub(crate) fn open_call(
    call: Option<u64>,
    place: ReturnPlace,
    number: u64,
    snapshot: &Snapshot<'_>,
) -> Option<u64>
    ensures { result ≡ (if calls place snapshot.now then Some number else if is_at place snapshot.now then None else call) }
{
    if calls(place, snapshot) {
        Some(number)
    } else if is_same_place(shown_place(snapshot), place) {
        None
    } else {
        call
    }
}
