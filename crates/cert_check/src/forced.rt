//! Follows a forcing order, one member after the other.

ghost use Rattle.std.specs.Prelude.{◌≡◌, ◌<◌, ◌≤◌, All, MatchBool, length, slice_index, sum, take};
ghost use Rattle.cert_check.specs.Choice.{IsNear, IsShape};
ghost use Rattle.cert_check.specs.Private.Following.{IsFollowed, IsSize};

use crate::Statement;
use crate::fault::CheckFault;
use crate::layout::{LONG, reaches, sizes_of};
use std::alloc::Global;

/// Whether a jump has to be long if statements have these sizes: it would not reach its target as a short jump.
fn is_forced(sizes: &[u32], k: usize, target: usize) -> bool
    requires bytes { All IsSize sizes.now }
    requires jump { k < length sizes.now }
    requires short { slice_index sizes.now k ≡ 2 }
    requires target { target ≤ length sizes.now }
    ensures { MatchBool result (¬ IsNear (sum (take k sizes.now)) (sum (take target sizes.now)))
        (IsNear (sum (take k sizes.now)) (sum (take target sizes.now))) }
{
    !reaches(sizes, k, target)
}

/// Answers a flag for each statement, which is set if the statement is in the order; or the first line of the order
/// that is wrong.
pub(crate) fn follow(
    alloc: Global,
    statements: &[Statement],
    order: &[u32],
) -> Result<Vec<bool>, CheckFault>
    requires { IsShape statements.now }
    ensures { IsFollowed statements.now order.now result }
{
    let mut long = vec![in alloc; false; statements.len()]?;
    let mut sizes = sizes_of(alloc, statements, &long)?;
    for i in 0..order.len() {
        let line = i + 2;
        let k = order[i] as usize;
        let Some(Statement::Jump(target)) = statements.get(k) else {
            return Err(CheckFault::NotAJump(line));
        };
        if long[k] {
            return Err(CheckFault::Repeated(line));
        }
        if !is_forced(&sizes, k, *target as usize) {
            return Err(CheckFault::NotForced(line));
        }
        long[k] = true;
        sizes[k] = LONG;
    }
    Ok(long)
}
