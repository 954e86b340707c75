//! Tries all choices of short and long jumps of a small case.

use crate::layout::{Shape, places_of, reaches};
use std::alloc::{AllocError, Global};

/// The greatest number of jumps for which all choices are tried.
pub(crate) const FEW: usize = 8;

/// The choice with a number: bit k says whether the k-th jump that can be long is long.
fn choice_of(alloc: Global, shape: &Shape, number: u32) -> Result<Vec<bool>, AllocError> {
    let mut long = vec![in alloc; false; shape.sizes.len()]?;
    let mut bits = number;
    for jump in &shape.jumps {
        if jump.may_grow {
            if let Some(is_long) = long.get_mut(jump.statement) {
                *is_long = bits % 2 == 1;
            }
            bits /= 2;
        }
    }
    Ok(long)
}

/// Whether each short jump reaches its target.
fn fits(shape: &Shape, places: &[u32], long: &[bool]) -> bool {
    for jump in &shape.jumps {
        let is_long = matches!(long.get(jump.statement), Some(true));
        if !is_long && !reaches(places, *jump) {
            return false;
        }
    }
    true
}

/// The number of jumps that can be long.
pub(crate) fn count_of(shape: &Shape) -> usize {
    shape.jumps.iter().filter(|jump| jump.may_grow).count()
}

/// The fewest bytes of all choices that fit, if one does.
pub(crate) fn fewest(alloc: Global, shape: &Shape) -> Result<Option<u32>, AllocError> {
    let mut fewest: Option<u32> = None;
    for number in 0..256 {
        let long = choice_of(alloc, shape, number)?;
        let places = places_of(alloc, shape, &long)?;
        if fits(shape, &places, &long) {
            let total = match places.last() {
                Some(end) => end.saturating_sub(0x100),
                None => 0,
            };
            fewest = match fewest {
                Some(least) => Some(least.min(total)),
                None => Some(total),
            };
        }
    }
    Ok(fewest)
}
