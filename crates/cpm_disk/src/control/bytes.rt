//! Reads and writes bytes in a memory whose addresses wrap around: after FFFFH comes 0000H.

ghost use Rattle.std.specs.Prelude.{◌≡◌, ◌≤◌, ◌+◌, length};
ghost use Rattle.cpm_disk.specs.Control.Bytes.{bytes_at, with_bytes};

use z80_cpu::Memory;

/// N bytes from an address on.
pub fn bytes_at<const N: usize>(memory: &Memory, address: u16) -> [u8; N]
    requires { N ≤ 65536 }
    ensures { result ≡ bytes_at address N memory.now }
{
    let mut bytes = [0; N];
    for i in 0..N {
        bytes[i] = memory.get(address.wrapping_add(i as u16));
    }
    bytes
}

/// Writes bytes from an address on.
pub fn put_bytes(memory: &mut Memory, address: u16, bytes: &[u8])
    requires { length bytes.now ≤ 65536 }
    ensures { memory.new ≡ with_bytes address bytes.now memory.old }
{
    let mut next = address;
    for byte in bytes {
        memory.set(next, *byte);
        next = next.wrapping_add(1);
    }
}

/// Writes the bytes of a field that begins `offset` bytes after an address.
pub fn put_field(memory: &mut Memory, address: u16, offset: u16, bytes: &[u8])
    requires { length bytes.now ≤ 65536 }
    ensures { memory.new ≡ with_bytes (address + offset) bytes.now memory.old }
{
    put_bytes(memory, address.wrapping_add(offset), bytes);
}
