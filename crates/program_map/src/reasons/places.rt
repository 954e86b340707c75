//! Where statements are, and how far jumps go.

ghost use Rattle.std.specs.Prelude.{◌≡◌, ◌+◌, ◌<◌, ◌≤◌, IfOk, List, if◌then◌else◌, length, nat_lt, vec_len};
ghost use Rattle.relax.specs.declared.shape.Statement.{Statement};
ghost use Rattle.relax.specs.Choice.{Choice, IsShape, chosen};
ghost use Rattle.program_map.specs.Reasons.Distances.{farthest, jump_distance};
ghost use Rattle.program_map.specs.Private.Gathered.{AreBytesBefore};

use relax::Statement;
use std::alloc::{AllocError, Global};

/// Answers how many bytes come before each statement and before the end, given which jumps are long.
pub(crate) fn bytes_before(
    alloc: Global,
    statements: &[Statement],
    long: &[bool],
) -> Result<Vec<u32>, AllocError>
    requires shape { IsShape statements.now }
    requires same { length long.now ≡ length statements.now }
    ensures len { IfOk result (λ v. vec_len v ≡ length statements.now + 1) }
    ensures each { IfOk result (λ v. AreBytesBefore (chosen long.now) statements.now v.items) }
{
    let mut places = vec![in alloc; 0; statements.len() + 1]?;
    for k in 0..statements.len() {
        places[k + 1] = places[k] + statements[k].size(long[k]);
    }
    Ok(places)
}

/// Answers how many bytes a short jump can go.
pub(crate) fn farthest(from: usize, to: usize) -> u32
    ensures { result ≡ farthest from to }
{
    if from < to { 127 } else { 128 }
}

/// Answers how many bytes a short jump goes, from how many bytes come before each statement.
pub(crate) fn distance(places: &[u32], from: usize, to: usize) -> u32
    requires from { from + 1 < length places.now }
    requires to { to < length places.now }
    ensures { (c : Choice) (shape : List Statement) → IsShape shape → AreBytesBefore c shape places.now → from < length shape → to ≤ length shape →
        result ≡ jump_distance c shape from to }
{
    if from < to {
        places[to].saturating_sub(places[from + 1])
    } else {
        places[from].saturating_add(2).saturating_sub(places[to])
    }
}
