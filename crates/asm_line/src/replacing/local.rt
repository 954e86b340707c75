//! Makes the names for LOCAL.

ghost use Rattle.std.specs.Prelude.{◌≡◌, ◌++◌, OnOk};
ghost use Rattle.asm_line.specs.Replacing.Replaced.{local_name};

use itoa::Buffer;
use std::alloc::AllocError;

/// Appends `??` and the number in at least five decimal digits.
pub(crate) fn put_local_name(number: u64, out: &mut Vec<u8>) -> Result<(), AllocError>
    ensures { OnOk result (out.new.items ≡ out.old.items ++ local_name number) }
{
    let mut buffer = Buffer::new();
    let digits = buffer.format(number).as_bytes();
    out.extend_from_slice(b"??")?;
    out.extend_from_slice(b"00000".get(digits.len()..).unwrap_or(&[]))?;
    out.extend_from_slice(digits)
}
