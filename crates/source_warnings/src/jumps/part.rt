//! The modules of a program, and where their statements are.

ghost use Rattle.std.specs.Prelude.{◌≡◌, ◌++◌, ◌+◌, IfOk, IfSome, OnOk, length, map};
ghost use Rattle.std.specs.List.{flat_map};
ghost use Rattle.source_warnings.specs.Jumps.Parts as spec;
ghost use Rattle.source_warnings.specs.Private.Flat.{placed_of, sited_of};

use std::alloc::{AllocError, Global};
use zmo_object::{Module, Statement};

/// A module of a program. The modules are in the order of the program.
#[derive(Clone, Copy, Debug)]
pub struct Part<'a> {
    pub module: &'a Module,
    /// For each of its externals the number of the statement in the program for which it stands. An external without a number is left out.
    pub externals: &'a [u32],
}

/// A statement of a program.
#[derive(Clone, Copy, Debug, PartialEq, Eq)]
pub struct Site {
    /// The number of its module, from 0.
    pub module: usize,
    /// Its number in that module, from 0.
    pub statement: usize,
}

/// A module, its number, and the number of its first statement in the program.
#[derive(Clone, Copy)]
pub(crate) struct Placed<'a> {
    pub(crate) number: usize,
    pub(crate) base: u32,
    pub(crate) part: Part<'a>,
}

/// A statement and its site.
#[derive(Clone, Copy)]
pub(crate) struct Sited<'a> {
    pub(crate) site: Site,
    pub(crate) statement: &'a Statement,
}

/// Answers how many statements come before the next module, or `None` if no number can count them.
fn next_base(base: u32, module: &Module) -> Option<u32>
    ensures { IfSome result (λ next. next ≡ base + length «module».now.statements.items) }
{
    match u32::try_from(module.statements.len()) {
        Ok(count) => base.checked_add(count),
        Err(_) => None,
    }
}

/// Answers the modules with their numbers. If no number can count their statements, they are more than memory holds.
pub(crate) fn place_all<'a>(
    alloc: Global,
    parts: &[Part<'a>],
) -> Result<Vec<Placed<'a>>, AllocError>
    ensures { IfOk result (λ v. map placed_of v.items ≡ spec.placed_modules (map spec.member_of parts.now)) }
{
    let mut placed = Vec::with_capacity(alloc, parts.len())?;
    let mut base = 0;
    for (number, part) in parts.iter().enumerate() {
        let part = *part;
        placed.push(Placed { number, base, part })?;
        match next_base(base, part.module) {
            Some(next) => base = next,
            None => return Err(AllocError),
        }
    }
    Ok(placed)
}

/// Appends the statements of a module.
fn put_sited<'a>(sited: &mut Vec<Sited<'a>>, placed: &Placed<'a>) -> Result<(), AllocError>
    ensures { OnOk result (map sited_of sited.new.items ≡ map sited_of sited.old.items ++ spec.sited (placed_of placed.now)) }
{
    let module = placed.number;
    for (number, statement) in placed.part.module.statements.iter().enumerate() {
        let site = Site {
            module,
            statement: number,
        };
        sited.push(Sited { site, statement })?;
    }
    Ok(())
}

/// Answers the statements of the program.
pub(crate) fn program<'a>(
    alloc: Global,
    placed: &[Placed<'a>],
) -> Result<Vec<Sited<'a>>, AllocError>
    ensures { IfOk result (λ v. map sited_of v.items ≡ flat_map spec.sited (map placed_of placed.now)) }
{
    let mut sited = Vec::new(alloc);
    for own in placed {
        put_sited(&mut sited, own)?;
    }
    Ok(sited)
}
