//! The end of the command `run`.

ghost use Rattle.z80dev_run.specs.Ending.{Concludes, TellsStop};

use crate::stopped::stopped_line;
use cpm_run::Why;
use host::{DONE, REFUSED, Sink, put, tell};
use std::alloc::Global;

/// Writes the line that says why a run stopped, or that memory ran out for this line. If `errors` fails, it counts that, and nothing else
/// changes.
fn tell_why<E: Sink>(alloc: Global, why: Why, pc: u16, errors: &mut E)
    ensures { TellsStop why pc (E.stream errors.old) (E.stream errors.new) }
{
    let _ = match stopped_line(alloc, why, pc) {
        Ok(line) => put(errors, &line),
        Err(_) => tell(errors, b"NoMemory"),
    };
}

/// Ends the command. The exit status is 0 if the program finished, and otherwise 1 with one line on `errors`: `stopped: WHY at PPPP`. If
/// `errors` fails, nothing else changes.
#[tactic(auto, using(crate::proofs::Told::concluded))]
pub fn conclude<E: Sink>(alloc: Global, why: Why, pc: u16, errors: &mut E) -> u8
    ensures { Concludes why pc (E.stream errors.old) (E.stream errors.new) result }
{
    match why {
        Why::Finished => DONE,
        _ => {
            tell_why(alloc, why, pc, errors);
            REFUSED
        }
    }
}
