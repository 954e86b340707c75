//! Orders definitions so that each comes after those that it names.

ghost use Rattle.std.specs.Prelude.{◌<◌, ◌^◌, ◌↔◌, IsTrue, All, IfOk, length};
ghost use Rattle.asm_names.specs.Orders.Order.{NameOnlyDefinitions, IsOrder, named_by};

use crate::walk::{Turn, Walk};
use std::alloc::{AllocError, Global};

/// Whether each number is less than `count`.
fn are_below(numbers: &[u32], count: usize) -> bool
    ensures { IsTrue result ↔ All (λ n. n < count) numbers.now }
{
    numbers.iter().all(|n| (*n as usize) < count)
}

/// Whether each definition names only definitions: all numbers are less than the count of definitions.
pub fn are_defined(uses: &[Vec<u32>]) -> bool
    ensures { IsTrue result ↔ NameOnlyDefinitions uses.now }
{
    for named in uses {
        if !are_below(named, uses.len()) {
            return false;
        }
    }
    true
}

/// Orders definitions, given for each the numbers of those that it names. Each definition that does not lead back to itself comes
/// after all that it names. Those that do are marked.
pub fn order(alloc: Global, uses: &[Vec<u32>]) -> Result<Vec<Turn>, AllocError>
    requires few { length uses.now < 2 ^ 32 }
    requires defined { NameOnlyDefinitions uses.now }
    ensures { IfOk result (λ turns. IsOrder (length uses.now) (named_by uses.now) turns.items) }
{
    let mut walk = Walk::new(alloc, uses)?;
    for definition in 0..uses.len() as u32 {
        walk.begin(uses, definition)?;
    }
    Ok(walk.into_turns())
}
