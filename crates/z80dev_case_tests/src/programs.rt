//! Builds six hundred random programs.

use std::test::Fail;
use z80dev_case_checks::{Missed, Tally, try_program};

/// Each program has the right answer, and there are many programs of each kind.
#[test]
fn random_programs(rt: HostRuntime) -> Result<(), Fail> {
    let mut tally = Tally::new();
    for seed in 0..600 {
        match try_program(rt.alloc(), seed, &mut tally) {
            Err(Missed::NoMemory) => return Err(Fail::from("out of memory")),
            answer => assert_eq!(rt; answer, Ok(()), "seed {seed}"),
        }
    }
    assert!(rt; tally.built >= 300 && tally.spoiled >= 50, "{tally:?}");
    assert!(rt; tally.range >= 20 && tally.size >= 3, "{tally:?}");
    assert!(rt; tally.tried >= 100 && tally.turns >= 10_000, "{tally:?}");
    Ok(())
}
