//! Computes the sizes of statements, and which jumps reach their targets.

ghost use Rattle.std.specs.Prelude.{◌≡◌, ◌<◌, ◌≤◌, ◌^◌, All, IfOk, MatchBool, length, slice_index, sum, take};
ghost use Rattle.cert_check.specs.declared.layout.TheConstants.{MOST_AHEAD};
ghost use Rattle.cert_check.specs.declared.limits.TheConstants.{MOST_BYTES};
ghost use Rattle.cert_check.specs.Choice.{IsNear, IsShape, chosen, size_of, total};
ghost use Rattle.cert_check.specs.Faults.{IsStillShort};
ghost use Rattle.cert_check.specs.Private.Following.{IsFirstMiss, IsLayout, IsSize};

use crate::Statement;
use std::alloc::{AllocError, Global};

/// The most bytes between a short jump and a target after it.
const MOST_AHEAD: u32 = 127;
/// The most bytes from a target up to a short jump that comes after it; the jump takes two more.
const MOST_BEHIND: u32 = 126;

/// The bytes of a long jump.
pub(crate) const LONG: u32 = 3;

/// Answers how many bytes a statement takes, given whether it is long.
fn size(statement: Statement, long: bool) -> u32
    ensures value { result ≡ size_of long statement }
    ensures bound { result ≤ MOST_BYTES }
{
    match statement {
        Statement::Fixed(bytes) => u32::from(bytes),
        Statement::Jump(_) if long => LONG,
        Statement::Jump(_) | Statement::Short(_) => 2,
    }
}

/// Answers how many bytes each statement takes if these jumps are long.
pub(crate) fn sizes_of(
    alloc: Global,
    statements: &[Statement],
    long: &[bool],
) -> Result<Vec<u32>, AllocError>
    requires shape { IsShape statements.now }
    requires flags { length long.now ≡ length statements.now }
    ensures { IfOk result (λ sizes. IsLayout statements.now long.now sizes.items) }
{
    let mut sizes = Vec::with_capacity(alloc, statements.len())?;
    for k in 0..statements.len() {
        sizes.push(size(statements[k], long[k]))?;
    }
    Ok(sizes)
}

/// Answers how many bytes all statements take.
pub(crate) fn total(sizes: &[u32]) -> u32
    requires { sum sizes.now < 2 ^ 32 }
    ensures { result ≡ sum sizes.now }
{
    sizes.iter().sum()
}

/// Whether statements of these sizes take at most `limit` bytes. Each takes one at least, so no more than `limit` sizes
/// are added up.
fn take_at_most(sizes: &[u32], limit: u32) -> bool
    requires bytes { All IsSize sizes.now }
    requires limit { limit ≤ MOST_AHEAD }
    ensures { MatchBool result (sum sizes.now ≤ limit) (limit < sum sizes.now) }
{
    sizes.len() <= limit as usize && total(sizes) <= limit
}

/// Whether a jump of two bytes reaches its target.
pub(crate) fn reaches(sizes: &[u32], k: usize, target: usize) -> bool
    requires bytes { All IsSize sizes.now }
    requires jump { k < length sizes.now }
    requires short { slice_index sizes.now k ≡ 2 }
    requires target { target ≤ length sizes.now }
    ensures { MatchBool result (IsNear (sum (take k sizes.now)) (sum (take target sizes.now)))
        (¬ IsNear (sum (take k sizes.now)) (sum (take target sizes.now))) }
{
    if k < target {
        take_at_most(&sizes[k + 1..target], MOST_AHEAD)
    } else {
        take_at_most(&sizes[target..k], MOST_BEHIND)
    }
}

/// Whether a statement is a jump that is short and does not reach its target.
pub(crate) fn misses(statements: &[Statement], long: &[bool], sizes: &[u32], k: usize) -> bool
    requires layout { IsLayout statements.now long.now sizes.now }
    requires within { k < length statements.now }
    ensures { MatchBool result (IsStillShort (chosen long.now) statements.now k)
        (¬ IsStillShort (chosen long.now) statements.now k) }
{
    match statements[k] {
        Statement::Jump(target) if !long[k] => !reaches(sizes, k, target as usize),
        Statement::Short(target) => !reaches(sizes, k, target as usize),
        _ => false,
    }
}

/// Answers the lowest statement that is a short jump and does not reach its target.
pub(crate) fn first_miss(statements: &[Statement], long: &[bool], sizes: &[u32]) -> Option<u32>
    requires { IsLayout statements.now long.now sizes.now }
    ensures { IsFirstMiss (chosen long.now) statements.now result }
{
    for k in 0..statements.len() {
        if misses(statements, long, sizes, k) {
            return Some(k as u32);
        }
    }
    None
}
