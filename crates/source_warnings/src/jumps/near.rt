//! Finds the relaxable jump that is nearest to each statement.

ghost use Rattle.std.specs.Prelude.{◌≡◌, ◌∷◌, IfOk, length, map, min, reverse, take, drop};
ghost use Rattle.zmo_object.specs.Modules.{statement_of};
ghost use Rattle.source_warnings.specs.Jumps.Distances.{Sizes, fixed_size, jump_over, sizes_of};
ghost use Rattle.source_warnings.specs.Private.Flat.{sited_of};
ghost use Rattle.source_warnings.specs.Private.Near.{AreNear, IsNear, within};

use crate::jumps::part::{Site, Sited};
use std::alloc::{AllocError, Global};
use std::marker::Model;
use zmo_object::Statement;

/// How far an offset can reach.
const FAR: usize = 65_536;

/// From this offset on, the byte is before the address.
const BACK: u16 = 32_768;

/// The nearest relaxable jump.
#[derive(Clone, Copy)]
pub(crate) struct Near {
    jump: Site,
    /// How many bytes come before it, or [`FAR`] if there are more.
    bytes: usize,
}

/// Answers the nearest jump of some statements, given that of all but the first of them.
fn nearer(site: Site, size: Option<usize>, near: Option<Near>) -> Option<Near>
    ensures { (rest : Sizes) → IsNear rest near → IsNear ((site, size) ∷ rest) result }
{
    match (size, near) {
        (None, _) => Some(Near {
            jump: site,
            bytes: 0,
        }),
        (Some(size), Some(near)) => Some(Near {
            jump: near.jump,
            bytes: near.bytes.saturating_add(size).min(FAR),
        }),
        (Some(_), None) => None,
    }
}

/// Answers for each number of statements the nearest jump of that many at the front, counted back from the last of them.
fn nears(alloc: Global, sizes: &[(Site, Option<usize>)]) -> Result<Vec<Option<Near>>, AllocError>
    ensures { IfOk result (λ v. AreNear sizes.now (length sizes.now) v.items) }
{
    let mut nears = Vec::with_capacity(alloc, sizes.len())?;
    let mut near = None;
    nears.push(near)?;
    for (site, size) in sizes {
        near = nearer(*site, *size, near);
        nears.push(near)?;
    }
    Ok(nears)
}

/// Answers the jump, if it is nearer than this.
fn within(near: Option<Near>, bytes: usize) -> Option<Site>
    ensures { result ≡ within bytes near }
{
    match near {
        Some(near) if near.bytes < bytes => Some(near.jump),
        _ => None,
    }
}

/// Answers how many bytes a statement takes in every choice of jumps, or `None` for a relaxable jump.
fn fixed_size(statement: &Statement) -> Option<usize>
    ensures { result ≡ fixed_size (statement_of statement.now) }
{
    match statement {
        Statement::Bytes { bytes, .. } => Some(bytes.len()),
        Statement::Jump { .. } => None,
        Statement::Short { .. } => Some(2),
        Statement::Space { size, .. } => Some(usize::from(*size)),
    }
}

/// Answers the sizes of statements.
fn sizes_of(
    alloc: Global,
    statements: &[Sited<'_>],
) -> Result<Vec<(Site, Option<usize>)>, AllocError>
    ensures { IfOk result (λ sizes. sizes.items ≡ sizes_of (map sited_of statements.now)) }
{
    let mut sizes = Vec::with_capacity(alloc, statements.len())?;
    for own in statements {
        sizes.push((own.site, fixed_size(own.statement)))?;
    }
    Ok(sizes)
}

/// The nearest relaxable jumps before and after each statement. Clauses see the sizes of the statements.
#[derive(Drop)]
pub(crate) struct Jumps {
    sizes: Vec<(Site, Option<usize>)>,
    /// For each number of statements the nearest jump, back from the end of that many at the front.
    back: Vec<Option<Near>>,
    /// For each number of statements the nearest jump in that many at the end.
    ahead: Vec<Option<Near>>,
}

impl Model for Jumps {
    ghost use Rattle.std.specs.Prelude.{length, reverse};
    ghost use Rattle.source_warnings.specs.Jumps.Distances.{Sizes};
    ghost use Rattle.source_warnings.specs.Private.Near.{AreNear};

    ghost Value = { Sizes };

    ghost view = { λ j. j.sizes.items };

    ghost invariant = { λ j. AreNear j.sizes.items (length j.sizes.items) j.back.items × AreNear (reverse j.sizes.items) (length j.sizes.items) j.ahead.items };
}

impl Jumps {
    /// Answers the nearest jumps of statements.
    pub(crate) fn of(alloc: Global, statements: &[Sited<'_>]) -> Result<Jumps, AllocError>
        ensures { IfOk result (λ jumps. jumps ≡ sizes_of (map sited_of statements.now)) }
    {
        let mut sizes = sizes_of(alloc, statements)?;
        let back = nears(alloc, &sizes)?;
        sizes.reverse();
        let ahead = nears(alloc, &sizes)?;
        sizes.reverse();
        Ok(Jumps { sizes, back, ahead })
    }

    /// Answers the jump on whose form it depends which byte is this many bytes after statement `k`, modulo 65,536.
    pub(crate) fn over(&self, k: usize, bytes: u16) -> Option<Site>
        ensures { result ≡ jump_over self.now k bytes }
    {
        let count = self.sizes.len();
        let k = k.min(count);
        if bytes < BACK {
            within(self.ahead[count - k], usize::from(bytes))
        } else {
            within(self.back[k], FAR - usize::from(bytes))
        }
    }
}
