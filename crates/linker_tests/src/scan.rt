//! The definition of the least-first order, followed word for word: the sizes are added up from the beginning for each
//! address, and after each growth the search begins again at statement 0.

ghost use Rattle.std.specs.Prelude.{◌<◌, length, IfSome};

use relax::{Statement, Verdict};
use std::alloc::Global;
use std::test::Fail;

/// What the scan finds.
#[derive(Debug, Drop)]
pub(crate) struct Scanned {
    pub(crate) order: Vec<u32>,
    pub(crate) verdict: Verdict,
}

/// Answers the bytes of the first `count` statements.
fn bytes(statements: &[Statement], long: &[bool], count: usize) -> i64 {
    let mut sum: i64 = 0;
    for (statement, long) in statements.iter().zip(long).take(count) {
        let size = match *statement {
            Statement::Fixed(bytes) => i64::from(bytes),
            Statement::Jump(_) if *long => 3,
            Statement::Jump(_) | Statement::Short(_) => 2,
        };
        sum = sum.wrapping_add(size);
    }
    sum
}

/// Whether statement `target` is -128 to 127 bytes from the end of a short jump at statement `k`.
fn fits(statements: &[Statement], long: &[bool], k: usize, target: u32) -> bool {
    let from = bytes(statements, long, k).wrapping_add(2);
    let to = bytes(statements, long, target as usize);
    (-128..=127).contains(&to.wrapping_sub(from))
}

/// Answers the lowest short jump that does not reach its target.
fn first_misfit(statements: &[Statement], long: &[bool]) -> Option<usize>
    ensures { IfSome result (λ k. k < length long.now) }
{
    for (k, is_long) in long.iter().enumerate() {
        if let Some(Statement::Jump(target)) = statements.get(k)
            && !*is_long
            && !fits(statements, long, k, *target)
        {
            return Some(k);
        }
    }
    None
}

/// Answers the lowest jump that is always short and does not reach its target.
fn first_short_misfit(statements: &[Statement], long: &[bool]) -> Option<usize> {
    for (k, statement) in statements.iter().enumerate() {
        if let Statement::Short(target) = *statement
            && !fits(statements, long, k, target)
        {
            return Some(k);
        }
    }
    None
}

/// Answers the least-first order of a shape and its verdict.
pub(crate) fn scan(alloc: Global, statements: &[Statement]) -> Result<Scanned, Fail> {
    let mut long = vec![in alloc; false; statements.len()]?;
    let mut order = Vec::new(alloc);
    for _ in 0..statements.len() {
        let Some(k) = first_misfit(statements, &long) else {
            break;
        };
        long[k] = true;
        order.push(u32::try_from(k)?)?;
    }
    let total = u32::try_from(bytes(statements, &long, statements.len()))?;
    let verdict = match first_short_misfit(statements, &long) {
        Some(k) => Verdict::Range(u32::try_from(k)?),
        None if total > 64_512 => Verdict::TooLarge(total),
        None => Verdict::Best(total),
    };
    Ok(Scanned { order, verdict })
}
