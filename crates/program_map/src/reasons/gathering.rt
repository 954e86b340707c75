//! Gathers the reasons of all long jumps, one long jump after the other, in the forcing order.

ghost use Rattle.std.specs.Prelude.{◌≡◌, ◌+◌, ◌<◌, ◌≤◌, ◌++◌, ◌∷◌, [], ℕ, true, IfOk, List, OnOk, length, vec_len};
ghost use Rattle.std.specs.List.{slice_index_or};
ghost use Rattle.relax.specs.declared.shape.Statement.{Statement};
ghost use Rattle.relax.specs.declared.shape.Statement.TheVariants.{Fixed};
ghost use Rattle.relax.specs.Choice.{IsShape, chosen};
ghost use Rattle.relax.specs.Growth.{after};
ghost use Rattle.program_map.specs.Reasons.Distances.{lies_between};
ghost use Rattle.program_map.specs.Private.Gathered.{AreBytesBefore, AreWants, AreNear, gathered, items_at, want_at, want_of};

use crate::reasons::places::{distance, farthest};
use relax::Statement;
use std::alloc::{AllocError, Global};

/// The most statements between a jump and another that it goes over, if it reaches its target while all jumps are short: each of them takes a
/// byte at least.
const NEAR: usize = 128;

/// How many jumps the reason of a statement has, and where the statement goes.
#[derive(Clone, Copy)]
pub(crate) struct Want {
    pub(crate) target: u32,
    pub(crate) count: u32,
}

/// Answers how many jumps the reason of statement `k` has: none, unless it is a long jump.
fn want_of(places: &[u32], k: usize, statement: Statement, long: bool) -> Want
    requires { k + 1 < length places.now }
    ensures { (shape : List Statement) → IsShape shape → AreBytesBefore (after []) shape places.now → length places.now ≡ length shape + 1 →
        slice_index_or shape k (Fixed 0) ≡ statement → result ≡ want_of long shape k statement }
{
    match statement {
        Statement::Jump(target) if long && (target as usize) < places.len() => {
            let to = target as usize;
            let count = (farthest(k, to) + 1).saturating_sub(distance(places, k, to));
            Want { target, count }
        }
        _ => Want {
            target: 0,
            count: 0,
        },
    }
}

/// Answers how many jumps the reason of each statement has, given how many bytes come before each while all jumps are short.
pub(crate) fn wants_of(
    alloc: Global,
    statements: &[Statement],
    places: &[u32],
    long: &[bool],
) -> Result<Vec<Want>, AllocError>
    requires shape { IsShape statements.now }
    requires places { AreBytesBefore (after []) statements.now places.now }
    requires same_places { length places.now ≡ length statements.now + 1 }
    requires same_long { length long.now ≡ length statements.now }
    ensures len { IfOk result (λ v. vec_len v ≡ length statements.now) }
    ensures each { IfOk result (λ v. AreWants statements.now (chosen long.now) v.items) }
{
    let mut wants = Vec::with_capacity(alloc, statements.len())?;
    for k in 0..statements.len() {
        wants.push(want_of(places, k, statements[k], long[k]))?;
    }
    Ok(wants)
}

/// Whether a jump from `from` to `to` goes over the bytes of statement `k`.
fn lies_between(from: u32, to: u32, k: u32) -> bool
    ensures { result ≡ lies_between from to k }
{
    from < k && k < to || to <= k && k < from
}

/// Appends a long jump to the reason of statement `k`, if it belongs there.
fn put_one(reason: &mut Vec<u32>, want: Want, k: u32, member: u32) -> Result<(), AllocError>
    ensures { OnOk result ((order : List ℕ) → reason.old.items ≡ gathered want k order → reason.new.items ≡ gathered want k (order ++ member ∷ [])) }
{
    if reason.len() < want.count as usize && lies_between(k, want.target, member) {
        reason.push(member)?;
    }
    Ok(())
}

/// Appends a long jump to the reasons of the statements from `low` to below `high`.
fn put_member(
    reasons: &mut [Vec<u32>],
    wants: &[Want],
    member: u32,
    low: usize,
    high: usize,
) -> Result<(), AllocError>
    requires order { low ≤ high }
    requires in_range { high ≤ length reasons.old }
    requires same { length wants.now ≡ length reasons.old }
    requires few { length wants.now < 65536 }
    ensures len { length reasons.new ≡ length reasons.old }
    ensures inside { OnOk result ((order : List ℕ) (k : ℕ) → low ≤ k → k < high → items_at reasons.old k ≡ gathered (want_at wants.now k) k order →
        items_at reasons.new k ≡ gathered (want_at wants.now k) k (order ++ member ∷ [])) }
    ensures below { OnOk result ((k : ℕ) → k < low → items_at reasons.new k ≡ items_at reasons.old k) }
    ensures above { OnOk result ((k : ℕ) → high ≤ k → items_at reasons.new k ≡ items_at reasons.old k) }
{
    for k in low..high {
        put_one(&mut reasons[k], wants[k], k as u32, member)?;
    }
    Ok(())
}

/// Answers this many empty lists.
fn empty_lists(alloc: Global, count: usize) -> Result<Vec<Vec<u32>>, AllocError>
    ensures len { IfOk result (λ v. vec_len v ≡ count) }
    ensures each { IfOk result (λ v. (k : ℕ) → items_at v.items k ≡ []) }
{
    let mut lists = Vec::with_capacity(alloc, count)?;
    for _ in 0..count {
        lists.push(Vec::new(alloc))?;
    }
    Ok(lists)
}

/// Answers the reason of each statement.
pub(crate) fn gather(
    alloc: Global,
    wants: &[Want],
    order: &[u32],
) -> Result<Vec<Vec<u32>>, AllocError>
    requires near { AreNear wants.now }
    requires few { length wants.now < 65536 }
    ensures len { IfOk result (λ v. vec_len v ≡ length wants.now) }
    ensures each { IfOk result (λ v. (k : ℕ) → k < length wants.now → items_at v.items k ≡ gathered (want_at wants.now k) k order.now) }
{
    let mut reasons = empty_lists(alloc, wants.len())?;
    for member in order {
        let at = *member as usize;
        let low = at.saturating_sub(NEAR).min(wants.len());
        let high = at.saturating_add(NEAR + 1).min(wants.len());
        put_member(&mut reasons, wants, *member, low, high)?;
    }
    Ok(reasons)
}
