//! Judges the verdict after the whole order.

ghost use Rattle.std.specs.Prelude.{◌<◌, ◌^◌, MatchBool, sum};
ghost use Rattle.cert_check.specs.Choice.{chosen};
ghost use Rattle.cert_check.specs.Accepts.{IsOutOfRange};
ghost use Rattle.cert_check.specs.Private.Following.{IsJudged, IsLayout, IsTotalChecked};

use crate::fault::CheckFault;
use crate::layout::{first_miss, misses, total};
use crate::{LONGEST_PROGRAM, Statement, Verdict};

/// Whether a statement is a jump that is always short and does not reach its target.
fn is_out_of_range(statements: &[Statement], long: &[bool], sizes: &[u32], k: usize) -> bool
    requires { IsLayout statements.now long.now sizes.now }
    ensures { MatchBool result (IsOutOfRange (chosen long.now) statements.now k)
        (¬ IsOutOfRange (chosen long.now) statements.now k) }
{
    match statements.get(k) {
        Some(Statement::Short(_)) => misses(statements, long, sizes, k),
        _ => false,
    }
}

/// Checks that the program takes as many bytes as the verdict says, and that they are at most 64,512, or more, as the
/// verdict says.
fn check_total(sizes: &[u32], verdict: Verdict) -> Result<(), CheckFault>
    requires { sum sizes.now < 2 ^ 32 }
    ensures { IsTotalChecked (sum sizes.now) verdict result }
{
    let bytes = total(sizes);
    let fits = bytes <= LONGEST_PROGRAM;
    match verdict {
        Verdict::Best(n) if bytes == n && fits => Ok(()),
        Verdict::TooLarge(n) if bytes == n && !fits => Ok(()),
        Verdict::Range(_) => Ok(()),
        _ => Err(CheckFault::WrongTotal),
    }
}

/// Judges a verdict in the choice in which these jumps are long.
pub(crate) fn judge(
    statements: &[Statement],
    long: &[bool],
    sizes: &[u32],
    verdict: Verdict,
) -> Result<(), CheckFault>
    requires { IsLayout statements.now long.now sizes.now }
    ensures { IsJudged (chosen long.now) statements.now verdict result }
{
    match verdict {
        Verdict::Best(_) => match first_miss(statements, long, sizes) {
            Some(k) => Err(CheckFault::StillShort(k)),
            None => check_total(sizes, verdict),
        },
        Verdict::Range(k) if is_out_of_range(statements, long, sizes, k as usize) => Ok(()),
        Verdict::Range(k) => Err(CheckFault::NotOutOfRange(k)),
        Verdict::TooLarge(_) => check_total(sizes, verdict),
    }
}
