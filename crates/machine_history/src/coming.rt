//! Bytes of a record that are still to come.

ghost use Rattle.std.specs.Prelude.{◌≡◌, IfOk, length, map};
ghost use Rattle.machine_history.specs.Coming.{due};

use cpm_run::Arrival;
use std::alloc::{AllocError, Global};

/// The bytes that are due after this number of turns.
pub(crate) fn due_bytes(
    alloc: Global,
    turns: u64,
    coming: &[Arrival],
) -> Result<Vec<u8>, AllocError>
    ensures { IfOk result (λ bytes. bytes.items ≡ map (λ arrival. arrival.byte) (due turns coming.now)) }
{
    let mut bytes = Vec::new(alloc);
    for arrival in coming {
        if arrival.turn > turns {
            return Ok(bytes);
        }
        bytes.push(arrival.byte)?;
    }
    Ok(bytes)
}
