//! Finds the end of a string.

ghost use Rattle.std.specs.Prelude.{◌≡◌, ◌≤◌, length, IfOk};
ghost use Rattle.asm_line.specs.Private.Reading.{string_len};

use crate::classes::is_control;
use crate::fault::ScanFault;

/// How many bytes a string takes after its first quote, with its last quote, or the error of the string.
pub(crate) fn string_len(quote: u8, bytes: &[u8]) -> Result<usize, ScanFault>
    ensures len { result ≡ string_len quote bytes.now }
    ensures within { IfOk result (λ len. len ≤ length bytes.now) }
{
    let mut len = 0;
    while len < bytes.len() {
        if bytes[len] == quote {
            // A quote ends the string, unless it is doubled.
            if len + 1 == bytes.len() || bytes[len + 1] != quote {
                return Ok(len + 1);
            }
            len += 2;
        } else if is_control(bytes[len]) {
            return Err(ScanFault::BadByte);
        } else {
            len += 1;
        }
    }
    Err(ScanFault::OpenString)
}
