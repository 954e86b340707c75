//! Breakpoints and watched bytes.

ghost use Rattle.std.specs.Prelude.{◌≡◌, ◌++◌, ℕ, IfOk, List, None, Some, if◌then◌else◌, length, map, option_map};
ghost use Rattle.std.specs.Option.{option_or};
ghost use Rattle.cpm_run.specs.Turns.{place_at_pc};
ghost use Rattle.z80_cpu.specs.State.{byte_at};
ghost use Rattle.z80_cpu.specs.declared.registers.Cpu.{Cpu as TheCpu};
ghost use Rattle.machine_history.specs.Stops.{addresses, breaks, broken, changed, condition_is_met, has_returned, is_reached, is_return_code, may_return, sp_returned, watched_addresses};
ghost use Rattle.machine_history.specs.declared.stops.Hit.TheVariants as hit;

use crate::calls::is_of_system;
use crate::point::Point;
use crate::snapshot::Snapshot;
use state_text::{Breakpoint, Condition};
use std::alloc::{AllocError, Global};
use z80_cpu::{Cpu, Memory};

/// Whether a condition is met.
fn is_met(condition: Option<Condition>, cpu: &Cpu) -> bool
    ensures { result ≡ condition_is_met condition cpu.now }
{
    match condition {
        Some(condition) => condition.register.value(cpu) == condition.value,
        None => true,
    }
}

/// What a command runs to.
#[derive(Clone, Copy, Debug, PartialEq, Eq)]
pub enum Goal {
    /// PC is at an address, and its condition is met.
    At(Breakpoint),
    /// A return has left SP above this value.
    ReturnAbove(u16),
}

/// A byte that a turn has changed.
#[derive(Clone, Copy, Debug, PartialEq, Eq)]
pub struct Change {
    pub address: u16,
    pub before: u8,
    pub after: u8,
    /// PC before the turn: the address of the instruction or the system call that changed the byte.
    pub by: u16,
    /// C before the turn: the function, if the turn is a system call.
    pub function: u8,
}

/// What holds at a turn.
#[derive(Clone, Copy, Debug, PartialEq, Eq)]
pub enum Hit {
    /// A breakpoint with this address.
    Breakpoint(u16),
    /// A watched byte has changed.
    Changed(Change),
    /// The goal of the command is reached.
    Goal,
}

/// Whether a breakpoint holds in a state with these registers.
fn breaks(breakpoint: &Breakpoint, cpu: &Cpu) -> bool
    ensures { result ≡ breaks cpu.now breakpoint.now }
{
    cpu.pc == breakpoint.address && is_met(breakpoint.condition, cpu)
}

/// Whether an instruction that begins with these bytes is RET, RET with a condition, RETN or RETI.
fn is_return_code(first: u8, second: u8) -> bool
    ensures { result ≡ is_return_code first second }
{
    first == 0xC9
        || (first >= 0xC0 && first % 8 == 0)
        || (first == 0xED && (second == 0x45 || second == 0x4D))
}

/// Whether a turn at this address may return: at a return, and at a call of the system.
fn may_return(pc: u16, first: u8, second: u8) -> bool
    ensures { result ≡ may_return (place_at_pc pc) first second }
{
    is_of_system(pc) || is_return_code(first, second)
}

/// SP after the return, if a turn that begins in this state may be one.
fn sp_returned(snapshot: &Snapshot<'_>) -> Option<u16>
    ensures { result ≡ sp_returned snapshot.now }
{
    let cpu = snapshot.cpu();
    let memory = snapshot.memory();
    let first = memory.get(cpu.pc);
    let second = memory.get(cpu.pc.wrapping_add(1));
    if may_return(cpu.pc, first, second) {
        Some(cpu.sp.wrapping_add(2))
    } else {
        None
    }
}

/// SP after the return, if that decides whether the goal is reached by a turn that begins in this state. Other goals do not ask for it, and
/// most turns have none, so memory is not read for them.
fn return_for(goal: Option<Goal>, snapshot: &Snapshot<'_>) -> Option<u16>
    ensures { (cpu : TheCpu) → is_reached goal result cpu ≡ is_reached goal (sp_returned snapshot.now) cpu }
{
    match goal {
        Some(Goal::ReturnAbove(_)) => sp_returned(snapshot),
        Some(Goal::At(_)) => None,
        None => None,
    }
}

/// Whether SP has this value by a return, and lies above another value.
fn has_returned(above: u16, returned: Option<u16>, sp: u16) -> bool
    ensures { result ≡ has_returned above returned sp }
{
    match returned {
        Some(returned) => sp == returned && above < sp,
        None => false,
    }
}

/// Whether a goal is reached in a state with these registers, if there is one. `returned` is SP after the turn if that was a return.
fn is_reached(goal: Option<Goal>, returned: Option<u16>, cpu: &Cpu) -> bool
    ensures { result ≡ is_reached goal returned cpu.now }
{
    match goal {
        Some(Goal::At(breakpoint)) => breaks(&breakpoint, cpu),
        Some(Goal::ReturnAbove(sp)) => has_returned(sp, returned, cpu.sp),
        None => false,
    }
}

/// The first breakpoint that holds with these registers.
fn broken(breakpoints: &[Breakpoint], cpu: &Cpu) -> Option<Hit>
    ensures { result ≡ broken cpu.now breakpoints.now }
{
    for breakpoint in breakpoints {
        if breaks(breakpoint, cpu) {
            return Some(Hit::Breakpoint(breakpoint.address));
        }
    }
    None
}

/// The bytes at these addresses.
fn bytes_at(alloc: Global, addresses: &[u16], memory: &Memory) -> Result<Vec<u8>, AllocError>
    ensures { IfOk result (λ bytes. bytes.items ≡ map (λ address. byte_at address memory.now) addresses.now) }
{
    let mut bytes = Vec::new(alloc);
    for address in addresses {
        bytes.push(memory.get(*address))?;
    }
    Ok(bytes)
}

/// The first of these bytes that has changed, given what they were, and PC and C before the turn.
fn changed(
    addresses: &[u16],
    bytes: &[u8],
    memory: &Memory,
    by: u16,
    function: u8,
) -> Option<Change>
    requires { length bytes.now ≡ length addresses.now }
    ensures { (old : List ℕ) → bytes.now ≡ map (λ address. byte_at address old) addresses.now → result ≡ changed old memory.now by function addresses.now }
{
    for (index, address) in addresses.iter().enumerate() {
        let before = bytes[index];
        let after = memory.get(*address);
        if after != before {
            return Some(Change {
                address: *address,
                before,
                after,
                by,
                function,
            });
        }
    }
    None
}

/// What holds at a turn: a breakpoint, otherwise a watched byte, otherwise the goal.
fn first_of(broken: Option<Hit>, change: Option<Change>, is_reached: bool) -> Option<Hit>
    ensures { result ≡ option_or broken (option_or (option_map hit.Changed change) (if is_reached then Some hit.Goal else None)) }
{
    match (broken, change) {
        (Some(hit), _) => Some(hit),
        (None, Some(change)) => Some(Hit::Changed(change)),
        (None, None) => { if is_reached { Some(Hit::Goal) } else { None } }
    }
}

/// Bytes that are watched, by the address of the first one. After FFFFH comes address 0.
#[derive(Clone, Copy, Debug, PartialEq, Eq)]
pub struct Watch {
    pub from: u16,
    pub count: u16,
}

/// Adds the addresses of the bytes of a watch.
fn push_addresses(found: &mut Vec<u16>, watch: Watch) -> Result<(), AllocError>
    ensures { IfOk result (λ _. found.new.items ≡ found.old.items ++ addresses watch) }
{
    for offset in 0..watch.count {
        found.push(watch.from.wrapping_add(offset))?;
    }
    Ok(())
}

/// The addresses of all watched bytes.
pub(crate) fn watched_addresses(alloc: Global, watches: &[Watch]) -> Result<Vec<u16>, AllocError>
    ensures { IfOk result (λ found. found.items ≡ watched_addresses watches.now) }
{
    let mut found = Vec::new(alloc);
    for watch in watches {
        push_addresses(&mut found, *watch)?;
    }
    Ok(found)
}

/// Where a run is to stop: at breakpoints, and at turns that change a watched byte.
#[derive(Drop)]
pub struct Stops {
    pub breakpoints: Vec<Breakpoint>,
    pub watches: Vec<Watch>,
}

impl Stops {
    ghost use Rattle.std.specs.Prelude.{◌≡◌, ◌-◌, ◌<◌, ◌^◌, [], None, IfOk, OnErr};
    ghost use Rattle.machine_history.specs.Stops.{hit_at, watched_addresses};
    ghost use Rattle.machine_history.specs.Walk.{IsNextPoint};

    /// No breakpoints, and no watched bytes.
    pub fn new(alloc: Global) -> Stops
        ensures breakpoints { result.breakpoints.items ≡ [] }
        ensures watches { result.watches.items ≡ [] }
    {
        Stops {
            breakpoints: Vec::new(alloc),
            watches: Vec::new(alloc),
        }
    }

    /// Makes one turn, and answers what holds at it: a breakpoint, a watched byte, or the goal. `watched` has the addresses of the watched
    /// bytes, so that they are not counted out at each turn.
    ///
    /// # Errors
    ///
    /// [`AllocError`] if memory runs out. Then no turn is made.
    pub(crate) fn advance(
        &self,
        alloc: Global,
        goal: Option<Goal>,
        watched: &[u16],
        point: &mut Point<'_>,
    ) -> Result<Option<Hit>, AllocError>
        requires watched { watched.now ≡ watched_addresses self.now.watches.items }
        requires going { point.old.end ≡ None }
        requires room { point.old.state.turns < 2 ^ 64 - 1 }
        ensures next { IfOk result (λ _. IsNextPoint point.old point.new) }
        ensures held { IfOk result (λ held. held ≡ hit_at goal self.now point.old.state point.new.state) }
        ensures kept { OnErr result (point.new ≡ point.old) }
    {
        let bytes = bytes_at(alloc, watched, point.snapshot().memory())?;
        let returned = return_for(goal, point.snapshot());
        let by = point.snapshot().cpu().pc;
        let function = point.snapshot().cpu().main.c;
        point.advance(alloc);
        let snapshot = point.snapshot();
        let cpu = snapshot.cpu();
        let change = changed(watched, &bytes, snapshot.memory(), by, function);
        Ok(first_of(
            broken(&self.breakpoints, cpu),
            change,
            is_reached(goal, returned, cpu),
        ))
    }
}
