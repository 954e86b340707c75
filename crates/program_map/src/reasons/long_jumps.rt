//! Finds the long jumps of a program, how far each is from being short, and why it is long.

ghost use Rattle.std.specs.Prelude.{◌≡◌, ◌+◌, ◌<◌, IfOk, length, nat_le, string_bytes, vec_len};
ghost use Rattle.relax.specs.Choice.{IsShape, chosen};
ghost use Rattle.relax.specs.Growth.{IsGrowth};
ghost use Rattle.program_map.specs.Reasons.Reasons.{AreLongJumps};
ghost use Rattle.program_map.specs.Private.Gathered.{AreDescribed, Describes};
ghost use Rattle.program_map.specs.Reasons.Texts.{long_jump_text};

use crate::reasons::gathering::{gather, wants_of};
use crate::reasons::places::{bytes_before, distance, farthest};
use relax::{Growth, Shape, Statement};
use std::alloc::{AllocError, Global};

/// A jump that is long in the choice of jumps that takes the fewest bytes. Statements have the numbers that they have in the program.
#[derive(Debug, Drop)]
pub struct LongJump {
    /// The statement of the jump.
    pub statement: u32,
    /// The statement that it goes to; the count of all statements is the end.
    pub target: u32,
    /// How many bytes it would go as a short jump, if all other jumps stay as they are: from its end forward to its target, or from its end
    /// back to it.
    pub distance: u32,
    /// How many of these bytes are too many. If the code in between is shorter by this number, the jump is short.
    pub excess: u32,
    /// Which of the long jumps in between are the reason: the first in the forcing order, as many as suffice. If there are none, the jump
    /// would be long even if all others were short.
    pub reason: Vec<u32>,
}

impl LongJump {
    /// Whether it goes back.
    pub fn is_back(&self) -> bool
        ensures { result ≡ nat_le self.now.target self.now.statement }
    {
        self.target <= self.statement
    }

    /// How far it is from being short, in one line, given the name of its target.
    pub fn text(&self, alloc: Global, name: &str) -> Result<String, AllocError>
        ensures { IfOk result (λ text. string_bytes text ≡ long_jump_text self.now name.now) }
    {
        let distance = self.distance;
        let excess = self.excess;
        if self.is_back() {
            return format!(in alloc;
                "`{name}` is {distance} bytes back, {excess} too many for JR (at most 128 back)"
            );
        }
        format!(in alloc;
            "`{name}` is {distance} bytes away, {excess} too many for JR (at most 127 forward)"
        )
    }
}

/// Answers what there is to say of long jump `k`.
fn describe(places: &[u32], k: usize, target: u32, reason: Vec<u32>) -> LongJump
    requires from { k + 1 < length places.now }
    requires to { target < length places.now }
    requires few { k < 65536 }
    ensures { Describes places.now k target reason.items result }
{
    let distance = distance(places, k, target as usize);
    let excess = distance.saturating_sub(farthest(k, target as usize));
    LongJump {
        statement: k as u32,
        target,
        distance,
        excess,
        reason,
    }
}

/// Answers the long jumps in their order, given how many bytes come before each statement, and the reason of each.
fn describe_all(
    alloc: Global,
    statements: &[Statement],
    long: &[bool],
    places: &[u32],
    reasons: Vec<Vec<u32>>,
) -> Result<Vec<LongJump>, AllocError>
    requires shape { IsShape statements.now }
    requires same_places { length places.now ≡ length statements.now + 1 }
    requires same_long { length long.now ≡ length statements.now }
    requires same_reasons { vec_len reasons ≡ length statements.now }
    ensures { IfOk result (λ jumps. AreDescribed (length statements.now) statements.now (chosen long.now) places.now reasons.items jumps.items) }
{
    let mut jumps = Vec::new(alloc);
    for (k, reason) in reasons.into_iter().enumerate() {
        if let Statement::Jump(target) = statements[k] {
            if long[k] {
                jumps.push(describe(places, k, target, reason))?;
            }
        }
    }
    Ok(jumps)
}

/// Answers all long jumps of a program, given the choice of jumps that takes the fewest bytes. The list begins with the
/// jumps for which the fewest bytes are missing.
pub fn long_jumps_of(
    alloc: Global,
    shape: &Shape,
    growth: &Growth,
) -> Result<Vec<LongJump>, AllocError>
    requires { IsGrowth shape.now growth.now }
    ensures { IfOk result (λ jumps. AreLongJumps shape.now growth.now.order.items jumps.items) }
{
    let statements = shape.statements();
    let none_long = vec![in alloc; false; statements.len()]?;
    let all_short = bytes_before(alloc, statements, &none_long)?;
    let wants = wants_of(alloc, statements, &all_short, &growth.long)?;
    let reasons = gather(alloc, &wants, &growth.order)?;
    let places = bytes_before(alloc, statements, &growth.long)?;
    let mut jumps = describe_all(alloc, statements, &growth.long, &places, reasons)?;
    jumps.sort_by_key(|jump| jump.excess)?;
    Ok(jumps)
}
