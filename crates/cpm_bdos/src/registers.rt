//! The answer of a system call, and the registers that get it.

ghost use Rattle.std.specs.Prelude.{◌≡◌};
ghost use Rattle.cpm_bdos.specs.Answer.{answered, nothing_answered, with_value};

use crate::console::Reply;
use cpm_disk::Stop;
use z80_cpu::Cpu;

/// Writes the value of a call to HL, and L to A and H to B.
pub(crate) fn put_value(cpu: &mut Cpu, value: u16)
    ensures { cpu.new ≡ with_value value cpu.old }
{
    let [high, low] = value.to_be_bytes();
    cpu.main.h = high;
    cpu.main.l = low;
    cpu.main.b = high;
    cpu.main.a = low;
}

/// The answer of a call that has a value.
pub(crate) fn answered(outcome: Result<u16, Stop>) -> Result<Reply, Stop>
    ensures { result ≡ answered outcome }
{
    match outcome {
        Ok(value) => Ok(Reply::Value(value)),
        Err(stop) => Err(stop),
    }
}

/// The answer of a call that has a byte.
pub(crate) fn byte_answered(outcome: Result<u8, Stop>) -> Result<Reply, Stop>
    ensures { result ≡ answered outcome }
{
    match outcome {
        Ok(byte) => Ok(Reply::Value(u16::from(byte))),
        Err(stop) => Err(stop),
    }
}

/// The answer of a call that has no value: 0.
pub(crate) fn nothing_answered(outcome: Result<(), Stop>) -> Result<Reply, Stop>
    ensures { result ≡ nothing_answered outcome }
{
    match outcome {
        Ok(()) => Ok(Reply::Value(0)),
        Err(stop) => Err(stop),
    }
}
