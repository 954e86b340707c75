//! Keeps how far each jump of a program goes, while jumps become long.

ghost use Rattle.std.specs.Prelude.{◌≡◌, ℕ, ◌+◌, ◌<◌, ◌≤◌, true, false, length, vec_len, min, slice_index, IfOk};
ghost use Rattle.common.specs.declared.limits.TheConstants.{MOST_STATEMENTS};
ghost use Rattle.relax.specs.Choice.{IsShape};
ghost use Rattle.relax.specs.Private.Spans.{AreTargets, ArePlaces, AreSpans, Widened};

use crate::reach::span;
use crate::shape::Statement;
use std::alloc::{AllocError, Global};

/// The most statements between a jump and another that it goes over, if it reaches its target: each of them takes a
/// byte at least.
const NEAR: usize = 128;

/// Answers the target of each statement, or the statement itself if it is not a jump.
pub(crate) fn all_targets(alloc: Global, statements: &[Statement]) -> Result<Vec<u16>, AllocError>
    requires { IsShape statements.now }
    ensures len { IfOk result (λ v. vec_len v ≡ length statements.now) }
    ensures each { IfOk result (λ v. AreTargets statements.now v.items) }
{
    let mut targets = vec![in alloc; 0; statements.len()]?;
    for k in 0..statements.len() {
        let target = match statements[k] {
            Statement::Jump(target) | Statement::Short(target) => target as usize,
            Statement::Fixed(_) => k,
        };
        targets[k] = target as u16;
    }
    Ok(targets)
}

/// Answers how many bytes come before each statement and before the end, if every jump is short.
pub(crate) fn all_places(alloc: Global, statements: &[Statement]) -> Result<Vec<u32>, AllocError>
    requires { IsShape statements.now }
    ensures len { IfOk result (λ v. vec_len v ≡ length statements.now + 1) }
    ensures each { IfOk result (λ v. ArePlaces statements.now v.items) }
{
    let mut places = vec![in alloc; 0; statements.len() + 1]?;
    for k in 0..statements.len() {
        places[k + 1] = places[k] + statements[k].size(false);
    }
    Ok(places)
}

/// Answers how far the target of each statement is.
pub(crate) fn all_spans(
    alloc: Global,
    targets: &[u16],
    places: &[u32],
) -> Result<Vec<u8>, AllocError>
    requires within { (k : ℕ) → k < length targets.now → slice_index targets.now k < length places.now }
    requires len { length targets.now < length places.now }
    ensures len { IfOk result (λ v. vec_len v ≡ length targets.now) }
    ensures each { IfOk result (λ v. AreSpans targets.now places.now v.items) }
{
    let mut spans = vec![in alloc; 0; targets.len()]?;
    for k in 0..targets.len() {
        spans[k] = span(places[k], places[targets[k] as usize]);
    }
    Ok(spans)
}

/// Answers a span that has grown by a byte if the jump goes over the statement that grew.
fn widened(span: u8, over: bool) -> u8
    ensures over { over ≡ true → result ≡ min (span + 1) 255 }
    ensures apart { over ≡ false → result ≡ span }
{
    span.saturating_add(u8::from(over))
}

/// Widens the spans of the statements from `low` to below `high` whose targets are after `k`.
fn widen_ahead(targets: &[u16], spans: &mut [u8], k: u16, low: usize, high: usize)
    requires order { low ≤ high }
    requires in_range { high ≤ length targets.now }
    requires same { length spans.old ≡ length targets.now }
    ensures len { length spans.new ≡ length spans.old }
    ensures over { (j : ℕ) → low ≤ j → j < high → k < slice_index targets.now j →
        slice_index spans.new j ≡ min (slice_index spans.old j + 1) 255 }
    ensures apart { (j : ℕ) → slice_index targets.now j ≤ k → slice_index spans.new j ≡ slice_index spans.old j }
    ensures below { (j : ℕ) → j < low → slice_index spans.new j ≡ slice_index spans.old j }
    ensures above { (j : ℕ) → high ≤ j → slice_index spans.new j ≡ slice_index spans.old j }
{
    for j in low..high {
        spans[j] = widened(spans[j], targets[j] > k);
    }
}

/// Widens the spans of the statements from `low` to below `high` whose targets are `k` or before it.
fn widen_back(targets: &[u16], spans: &mut [u8], k: u16, low: usize, high: usize)
    requires order { low ≤ high }
    requires in_range { high ≤ length targets.now }
    requires same { length spans.old ≡ length targets.now }
    ensures len { length spans.new ≡ length spans.old }
    ensures over { (j : ℕ) → low ≤ j → j < high → slice_index targets.now j ≤ k →
        slice_index spans.new j ≡ min (slice_index spans.old j + 1) 255 }
    ensures apart { (j : ℕ) → k < slice_index targets.now j → slice_index spans.new j ≡ slice_index spans.old j }
    ensures below { (j : ℕ) → j < low → slice_index spans.new j ≡ slice_index spans.old j }
    ensures above { (j : ℕ) → high ≤ j → slice_index spans.new j ≡ slice_index spans.old j }
{
    for j in low..high {
        spans[j] = widened(spans[j], targets[j] <= k);
    }
}

/// Widens the span of each jump that goes over statement `k`, which grew by a byte. It leaves out jumps that do not
/// reach their targets anyway.
#[inline(never)]
pub(crate) fn widen(targets: &[u16], spans: &mut [u8], k: usize)
    requires at { k < length targets.now }
    requires few { length targets.now ≤ MOST_STATEMENTS }
    requires same { length spans.old ≡ length targets.now }
    ensures { Widened targets.now spans.old spans.new k }
{
    let end = targets.len().min(k + 1 + NEAR);
    widen_ahead(targets, spans, k as u16, k.saturating_sub(NEAR), k + 1);
    widen_back(targets, spans, k as u16, k + 1, end);
}
