//! Shapes of up to 20,000 statements, two of them made to take long. What is expected follows from the definition, as
//! the comment at each test says.

use crate::compare::grown;
use relax::Statement::{Fixed, Jump};
use relax::{Statement, Verdict};
use std::alloc::Global;
use std::test::Fail;

/// How many jumps a ladder has.
const STEPS: u32 = 18_999;

/// 20,000 jumps, each to itself: each is tested once and reaches its target.
#[test]
fn jumps_to_themselves(rt: HostRuntime) -> Result<(), Fail> {
    let mut statements = Vec::new(rt.alloc());
    for k in 0..20_000 {
        statements.push(Jump(k))?;
    }
    let growth = grown(&rt, rt.alloc(), &statements)?;
    assert!(rt; growth.order.is_empty());
    assert_eq!(rt; growth.verdict, Verdict::Best(40_000));
    assert_eq!(rt; growth.probes, 20_000);
    Ok(())
}

/// 20,000 jumps to the end: the last 64 reach it, since at most 63 jumps of two bytes come after each of them.
#[test]
fn jumps_to_the_end(rt: HostRuntime) -> Result<(), Fail> {
    let statements = vec![in rt.alloc(); Jump(20_000); 20_000]?;
    let growth = grown(&rt, rt.alloc(), &statements)?;
    let mut order = Vec::new(rt.alloc());
    for k in 0..19_936 {
        order.push(k)?;
    }
    assert!(rt; growth.order.as_slice() == order.as_slice());
    assert_eq!(rt; growth.verdict, Verdict::Best(59_936));
    Ok(())
}

/// Answers jumps that each go over the next 63 statements; after them one statement of `bytes` bytes and 63 of two
/// bytes.
fn ladder(alloc: Global, bytes: u16) -> Result<Vec<Statement>, Fail> {
    let mut statements = Vec::new(alloc);
    for k in 0..STEPS {
        statements.push(Jump(k + 64))?;
    }
    statements.push(Fixed(bytes))?;
    for _ in 0..63 {
        statements.push(Fixed(2))?;
    }
    Ok(statements)
}

/// If the statement after the jumps has two bytes, each jump goes 126 bytes forward; if it has three, the last 63 go
/// 127: all reach their targets.
#[test]
fn ladder_stands(rt: HostRuntime) -> Result<(), Fail> {
    for (bytes, total) in [(2, 38_126), (3, 38_127)] {
        let statements = ladder(rt.alloc(), bytes)?;
        let growth = grown(&rt, rt.alloc(), &statements)?;
        assert!(rt; growth.order.is_empty());
        assert_eq!(rt; growth.verdict, Verdict::Best(total));
        assert_eq!(rt; growth.probes, u64::from(STEPS));
    }
    Ok(())
}

/// If it has four bytes, the last 63 jumps do not reach their targets. Any two long jumps push out each jump that goes
/// over both: the first two of the 63, then the lowest that goes over these, 62 before them, and in the end all.
#[test]
fn ladder_falls(rt: HostRuntime) -> Result<(), Fail> {
    let statements = ladder(rt.alloc(), 4)?;
    let growth = grown(&rt, rt.alloc(), &statements)?;
    assert_eq!(rt; growth.order.len(), STEPS as usize);
    let first = STEPS - 63;
    assert_eq!(rt;
        growth.order.get(..3),
        Some([first, first + 1, first - 62].as_slice())
    );
    assert!(rt; growth.long.iter().take(STEPS as usize).all(|long| *long));
    assert_eq!(rt; growth.verdict, Verdict::Best(3 * STEPS + 4 + 126));
    Ok(())
}

/// Answers jumps over 43 statements each. Every 43rd statement has two bytes, and after the jumps come statements of
/// three. A jump goes 86 bytes forward, and one byte more for each of 42 that has three bytes. So it reaches its target
/// until the last of the 42 is long. The highest jump becomes long first, then the one before it, and the lowest last.
fn dominoes(alloc: Global) -> Result<Vec<Statement>, Fail> {
    let last = STEPS - 1;
    let count = last + last / 42 + 44;
    let mut statements = Vec::new(alloc);
    for k in 0..count {
        statements.push(match k {
            _ if k % 43 == 42 => Fixed(2),
            _ if k + 44 <= count => Jump(k + 44),
            _ => Fixed(3),
        })?;
    }
    Ok(statements)
}

/// All 18,999 become long one after the other. Each makes the 42 before it wait, fewer at the beginning, and all are
/// tested.
#[test]
fn dominoes_fall(rt: HostRuntime) -> Result<(), Fail> {
    let statements = dominoes(rt.alloc())?;
    let mut order = Vec::new(rt.alloc());
    for (k, statement) in statements.iter().enumerate().rev() {
        if matches!(statement, Jump(_)) {
            order.push(u32::try_from(k)?)?;
        }
    }
    assert_eq!(rt; order.len(), STEPS as usize);
    let growth = grown(&rt, rt.alloc(), &statements)?;
    assert!(rt; growth.order.as_slice() == order.as_slice());
    assert_eq!(rt; growth.verdict, Verdict::Best(3 * STEPS + 2 * 453 + 3 * 42));
    let tests_again = 41 * 42 / 2 + 42 * (u64::from(STEPS) - 42);
    assert_eq!(rt; growth.probes, u64::from(STEPS) + tests_again);
    Ok(())
}
