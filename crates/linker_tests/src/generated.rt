//! Generated shapes: compares `least` and `grow` over a counting ruler with the plain scan.

ghost use Rattle.std.specs.Prelude.{◌<◌};

use crate::compare::scanned;
use rand_core::Rng;
use rand_pcg::Pcg32;
use relax::{Growth, Statement, Verdict};
use std::alloc::Global;
use std::test::Fail;

/// Answers a number below `n`.
fn below(random: &mut Pcg32, n: u32) -> u32
    requires { 0 < n }
    ensures { result < n }
{
    random.next_u32() % n
}

/// Answers up to 40 statements: jumps to anywhere, some of them always short, among statements of up to 40 bytes, one
/// in a hundred so large that no program can hold it.
fn generated(alloc: Global, random: &mut Pcg32) -> Result<Vec<Statement>, Fail> {
    let count = below(random, 41);
    let mut statements = Vec::new(alloc);
    for _ in 0..count {
        let target = below(random, count + 1);
        let statement = match below(random, 100) {
            0 => Statement::Fixed(65_535),
            1..40 => Statement::Fixed(1 + below(random, 40) as u16),
            40..44 => Statement::Short(target),
            _ => Statement::Jump(target),
        };
        statements.push(statement)?;
    }
    Ok(statements)
}

/// How many growths of each kind there were.
#[derive(Clone, Copy, Debug)]
struct Kinds {
    grown: u32,
    best: u32,
    range: u32,
    too_large: u32,
}

impl Kinds {
    fn count(&mut self, growth: &Growth) {
        if !growth.order.is_empty() {
            self.grown = self.grown.saturating_add(1);
        }
        let kind = match growth.verdict {
            Verdict::Best(_) => &mut self.best,
            Verdict::Range(_) => &mut self.range,
            Verdict::TooLarge(_) => &mut self.too_large,
        };
        *kind = kind.saturating_add(1);
    }
}

#[test]
fn as_the_scan(rt: HostRuntime) -> Result<(), Fail> {
    let mut random = Pcg32::new(0x5eed, 2);
    let mut kinds = Kinds {
        grown: 0,
        best: 0,
        range: 0,
        too_large: 0,
    };
    for _ in 0..1000 {
        let statements = generated(rt.alloc(), &mut random)?;
        let growth = scanned(&rt, rt.alloc(), &statements)?;
        kinds.count(&growth);
    }
    // There were enough of each kind.
    assert!(rt; kinds.grown >= 500 && kinds.best >= 400, "{kinds:?}");
    assert!(rt; kinds.range >= 100 && kinds.too_large >= 50, "{kinds:?}");
    Ok(())
}
