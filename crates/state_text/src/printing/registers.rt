//! Prints the registers, and what the system calls have set.

ghost use Rattle.std.specs.Prelude.{◌≡◌, ◌++◌, OnOk};
ghost use Rattle.z80_cpu.specs.State.{af, bc, de, hl};
ghost use Rattle.state_text.specs.Printing.Registers.{flag_letter, flags_text, index_text, main_line, pairs_text, registers_text, shadow_line, shadow_pairs_text, system_line, value_column, value_text};

use super::columns::{put_blanks, put_word};
use std::alloc::{AllocError, Global};
use z80_cpu::{Cpu, Flags};

/// Appends a register and its value, as in `BC=0009`.
fn put_value(alloc: Global, out: &mut Vec<u8>, name: &[u8], value: u16) -> Result<(), AllocError>
    ensures { OnOk result (out.new.items ≡ out.old.items ++ value_text name.now value) }
{
    out.extend_from_slice(name)?;
    out.push(b'=')?;
    put_word(alloc, out, value)
}

/// Appends the same with a blank after it.
fn put_value_column(
    alloc: Global,
    out: &mut Vec<u8>,
    name: &[u8],
    value: u16,
) -> Result<(), AllocError>
    ensures { OnOk result (out.new.items ≡ out.old.items ++ value_column name.now value) }
{
    put_value(alloc, out, name, value)?;
    put_blanks(out, 1)
}

/// A letter, or `-` if the flag is not set.
fn flag_letter(is_set: bool, letter: u8) -> u8
    ensures { result ≡ flag_letter is_set letter }
{
    if is_set { letter } else { b'-' }
}

/// The flags as letters.
fn flags_text(flags: Flags) -> [u8; 8]
    ensures { result ≡ flags_text flags }
{
    [
        flag_letter(flags.sign, b'S'),
        flag_letter(flags.zero, b'Z'),
        b'-',
        flag_letter(flags.half_carry, b'H'),
        b'-',
        flag_letter(flags.parity_overflow, b'P'),
        flag_letter(flags.subtract, b'N'),
        flag_letter(flags.carry, b'C'),
    ]
}

fn put_pairs(alloc: Global, out: &mut Vec<u8>, cpu: &Cpu) -> Result<(), AllocError>
    ensures { OnOk result (out.new.items ≡ out.old.items ++ pairs_text (af cpu.now.main) (bc cpu.now.main) (de cpu.now.main) (hl cpu.now.main)) }
{
    put_value_column(alloc, out, b"AF", cpu.main.af())?;
    put_value_column(alloc, out, b"BC", cpu.main.bc())?;
    put_value_column(alloc, out, b"DE", cpu.main.de())?;
    put_value_column(alloc, out, b"HL", cpu.main.hl())
}

fn put_shadow_pairs(alloc: Global, out: &mut Vec<u8>, cpu: &Cpu) -> Result<(), AllocError>
    ensures { OnOk result (out.new.items ≡ out.old.items ++ shadow_pairs_text (af cpu.now.shadow) (bc cpu.now.shadow) (de cpu.now.shadow) (hl cpu.now.shadow)) }
{
    put_value_column(alloc, out, b"AF'", cpu.shadow.af())?;
    put_value_column(alloc, out, b"BC'", cpu.shadow.bc())?;
    put_value_column(alloc, out, b"DE'", cpu.shadow.de())?;
    put_value_column(alloc, out, b"HL'", cpu.shadow.hl())
}

fn put_index(alloc: Global, out: &mut Vec<u8>, cpu: &Cpu) -> Result<(), AllocError>
    ensures { OnOk result (out.new.items ≡ out.old.items ++ index_text cpu.now) }
{
    put_value_column(alloc, out, b"IX", cpu.ix)?;
    put_value_column(alloc, out, b"IY", cpu.iy)?;
    put_value_column(alloc, out, b"SP", cpu.sp)?;
    put_value_column(alloc, out, b"PC", cpu.pc)
}

/// Appends the line of the registers and the flags.
fn put_main_line(alloc: Global, out: &mut Vec<u8>, cpu: &Cpu) -> Result<(), AllocError>
    ensures { OnOk result (out.new.items ≡ out.old.items ++ main_line cpu.now) }
{
    put_pairs(alloc, out, cpu)?;
    put_index(alloc, out, cpu)?;
    out.extend_from_slice(&flags_text(cpu.main.flags))?;
    out.extend_from_slice(b"\n")
}

/// Appends the line of the other set of registers, I and R.
fn put_shadow_line(alloc: Global, out: &mut Vec<u8>, cpu: &Cpu) -> Result<(), AllocError>
    ensures { OnOk result (out.new.items ≡ out.old.items ++ shadow_line cpu.now) }
{
    put_shadow_pairs(alloc, out, cpu)?;
    put_value_column(alloc, out, b"I", u16::from(cpu.i))?;
    put_value(alloc, out, b"R", u16::from(cpu.r))?;
    out.extend_from_slice(b"\n")
}

/// Appends the line of what the system calls have set.
fn put_system_line(alloc: Global, out: &mut Vec<u8>, dma: u16, user: u8) -> Result<(), AllocError>
    ensures { OnOk result (out.new.items ≡ out.old.items ++ system_line dma user) }
{
    put_value_column(alloc, out, b"DMA", dma)?;
    let user = format!(in alloc; "user={user}\n")?;
    out.extend_from_slice(user.as_bytes())
}

/// Appends the lines of the registers and the flags, and the line of the address of the buffer for records and the user.
pub fn put_registers(
    alloc: Global,
    out: &mut Vec<u8>,
    cpu: &Cpu,
    dma: u16,
    user: u8,
) -> Result<(), AllocError>
    ensures { OnOk result (out.new.items ≡ out.old.items ++ registers_text cpu.now dma user) }
{
    put_main_line(alloc, out, cpu)?;
    put_shadow_line(alloc, out, cpu)?;
    put_system_line(alloc, out, dma, user)
}
