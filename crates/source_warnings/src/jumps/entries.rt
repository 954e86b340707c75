//! Finds the jumps that only a computed jump reaches.

ghost use Rattle.std.specs.Prelude.{◌≡◌, ◌||◌, ◌==◌, ◌+◌, ◌<◌, ℕ, IfOk, OnOk, ◌++◌, false, is_some, length, map, not};
ghost use Rattle.std.specs.List.{enumerate_from, filter_map, list_any, slice_index_or};
ghost use Rattle.zmo_object.specs.Modules.{label_of, statement_of};
ghost use Rattle.source_warnings.specs.Private.Flat.{placed_of, sited_of};
ghost use Rattle.source_warnings.specs.Jumps.Distances.{fixed_size};
ghost use Rattle.source_warnings.specs.Jumps.Warnings.{entries_in, exits, is_cut_off, is_exit, is_labelled};

use crate::jumps::part::{Placed, Sited};
use crate::jumps::warnings::Warning;
use std::alloc::{AllocError, Global};
use zmo_object::{Branch, Label, Statement};

/// Whether these are the bytes of an instruction after which the next one is not carried out.
fn is_exit(bytes: &[u8]) -> bool
    ensures { result ≡ is_exit bytes.now }
{
    match bytes {
        [a] => *a == 0xC9 || *a == 0xE9,
        [a, b] => {
            *a == 0x18
                || *a == 0xED && (*b == 0x45 || *b == 0x4D)
                || (*a == 0xDD || *a == 0xFD) && *b == 0xE9
        }
        [a, _, _] => *a == 0xC3,
        _ => false,
    }
}

/// Whether a statement never goes on to the next one.
fn exits(statement: &Statement) -> bool
    ensures { result ≡ exits (statement_of statement.now) }
{
    match statement {
        Statement::Bytes { bytes, .. } => is_exit(bytes),
        Statement::Jump { condition, .. } => condition.is_none(),
        Statement::Short { branch, .. } => matches!(branch, Branch::Relative(None)),
        Statement::Space { .. } => false,
    }
}

/// Whether the statement before number `k` never goes on to it.
fn is_cut_off(statements: &[Sited<'_>], k: usize) -> bool
    ensures { result ≡ is_cut_off (map sited_of statements.now) k }
{
    if k == 0 {
        return false;
    }
    match statements.get(k - 1) {
        Some(before) => exits(before.statement),
        None => false,
    }
}

/// Answers the number in the program of the statement at which a label stands.
fn statement_of_label(base: u32, label: &Label) -> usize
    ensures { result ≡ base + label.now.statement }
{
    let statement = label.statement;
    base as usize + usize::from(statement)
}

/// Marks a statement, if there is one with this number.
fn mark(flags: &mut [bool], at: usize)
    ensures len { length flags.new ≡ length flags.old }
    ensures each { (k : ℕ) → k < length flags.old → slice_index_or flags.new k false ≡ (slice_index_or flags.old k false || (at == k)) }
{
    if at < flags.len() {
        flags[at] = true;
    }
}

/// Marks the statements at which labels of a module stand.
fn mark_all(flags: &mut [bool], base: u32, labels: &[Label])
    ensures len { length flags.new ≡ length flags.old }
    ensures each { (k : ℕ) → k < length flags.old → slice_index_or flags.new k false ≡ (slice_index_or flags.old k false || list_any (λ l. base + l.statement == k) (map label_of labels.now)) }
{
    for label in labels {
        mark(flags, statement_of_label(base, label));
    }
}

/// Answers for each of this many statements whether a label stands at it.
fn labelled(alloc: Global, placed: &[Placed<'_>], count: usize) -> Result<Vec<bool>, AllocError>
    ensures len { IfOk result (λ flags. length flags.items ≡ count) }
    ensures each { IfOk result (λ flags. (k : ℕ) → k < count → slice_index_or flags.items k false ≡ is_labelled (map placed_of placed.now) k) }
{
    let mut flags = vec![in alloc; false; count]?;
    for own in placed {
        mark_all(&mut flags, own.base, &own.part.module.labels);
    }
    Ok(flags)
}

/// Whether the choice of jumps says how many bytes a statement takes.
fn is_relaxable(statement: &Statement) -> bool
    ensures { result ≡ not (is_some (fixed_size (statement_of statement.now))) }
{
    matches!(statement, Statement::Jump { .. })
}

/// Appends the warnings about jumps that only a computed jump reaches.
pub(crate) fn put_entries(
    alloc: Global,
    found: &mut Vec<Warning>,
    placed: &[Placed<'_>],
    statements: &[Sited<'_>],
) -> Result<(), AllocError>
    ensures { OnOk result (found.new.items ≡ found.old.items ++ entries_in (map placed_of placed.now) (map sited_of statements.now)) }
{
    let flags = labelled(alloc, placed, statements.len())?;
    for (k, own) in statements.iter().enumerate() {
        if is_relaxable(own.statement) && is_cut_off(statements, k) && !flags[k] {
            found.push(Warning::Entry(own.site))?;
        }
    }
    Ok(())
}
