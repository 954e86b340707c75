//! How the keyboard is asked before the next step.

ghost use Rattle.std.specs.Prelude.{◌≡◌, false, true};
ghost use Rattle.cpm_bdos.specs.Functions.{function_of};
ghost use Rattle.cpm_run.specs.Looks.{TakesLine, call_patience, patience_of};

use crate::places::{BDOS, bios_entry};
use cpm_bdos::{BiosEntry, ConsoleCall, Function};
use cpm_console::Patience;
use z80_cpu::Cpu;

/// With this in E, function 6 takes a byte.
const ANY_INPUT: u8 = 0xFF;

/// How the keyboard is asked before a call of the BDOS.
fn patience_of_call(cpu: &Cpu) -> Patience
    ensures { result ≡ call_patience (function_of cpu.now.main.c) cpu.now.main.e }
{
    match Function::of(cpu.main.c) {
        Some(Function::Console(ConsoleCall::Input)) => Patience::Wait,
        Some(Function::Console(ConsoleCall::ReadLine)) => Patience::Wait,
        Some(Function::Console(ConsoleCall::Status)) => Patience::Poll,
        Some(Function::Console(ConsoleCall::Direct)) if cpu.main.e == ANY_INPUT => Patience::Poll,
        _ => Patience::Glance,
    }
}

/// How the keyboard is asked before the next step.
pub(crate) fn patience_of(cpu: &Cpu) -> Patience
    ensures { result ≡ patience_of cpu.now }
{
    if cpu.pc == BDOS {
        return patience_of_call(cpu);
    }
    let Some(entry) = bios_entry(cpu.pc) else {
        return Patience::Glance;
    };
    match BiosEntry::of(entry) {
        Some(BiosEntry::ConsoleStatus) => Patience::Poll,
        Some(BiosEntry::ConsoleInput) => Patience::Wait,
        _ => Patience::Glance,
    }
}

/// Whether the next step takes a line.
pub(crate) fn takes_line(cpu: &Cpu) -> bool
    ensures line { result ≡ true → TakesLine cpu.now }
    ensures other { result ≡ false → ¬ TakesLine cpu.now }
{
    if cpu.pc != BDOS {
        return false;
    }
    matches!(
        Function::of(cpu.main.c),
        Some(Function::Console(ConsoleCall::ReadLine))
    )
}
