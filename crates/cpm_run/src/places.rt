//! Addresses of the system in memory.

ghost use Rattle.std.specs.Prelude.{◌≡◌};
ghost use Rattle.cpm_run.specs.Turns.{bios_entry, is_finished};

/// The address at which a step is a call of the BDOS; the jump at address 5 goes there.
pub const BDOS: u16 = 0xFE06;

/// The address of the first entry of the BIOS. Each entry has three bytes.
pub const BIOS: u16 = 0xFF00;

/// Whether a program with this PC has finished: it is at the cold or the warm start of the BIOS.
pub fn is_finished(pc: u16) -> bool
    ensures { result ≡ is_finished pc }
{
    pc == BIOS || pc == BIOS + 3
}

/// The number of the BIOS entry at this address, from 2 to 16; `None` if there is none.
pub fn bios_entry(pc: u16) -> Option<u8>
    ensures { result ≡ bios_entry pc }
{
    if pc >= BIOS + 6 && pc <= BIOS + 48 && (pc - BIOS) % 3 == 0 {
        Some(((pc - BIOS) / 3) as u8)
    } else {
        None
    }
}
