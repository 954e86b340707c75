//! Computes the shape and the addresses of a whole program.

ghost use Rattle.std.specs.Prelude.{◌≡◌, ◌&&◌, ◌≤◌, ◌<◌, ◌+◌, ◌++◌, ◌^◌, All, IfOk, None, OnOk, length, map, vec_len};
ghost use Rattle.common.specs.declared.limits.TheConstants.{MOST_STATEMENTS};
ghost use Rattle.relax.specs.Choice.{chosen};
ghost use Rattle.zmo_object.specs.Modules.{module_of, statement_of};
ghost use Rattle.zmo_object.specs.Rules.{IsModule};
ghost use Rattle.zlink.specs.Program.Faults.{first_fault};
ghost use Rattle.zlink.specs.Program.Whole.{AreLinks, program};
ghost use Rattle.zlink.specs.File.Objects.{grown, is_marked, placed_shape, sized_by};
ghost use Rattle.zlink.specs.File.Places.{ArePlaces};
ghost use Rattle.zlink.specs.Private.Marked.{marked_from};
ghost use Rattle.zlink.specs.Private.Refs.{IsSizable, stands_by};

use crate::file::refs::stands;
use crate::laws::{laid_out, within};
use crate::program::Links;
use common::FIRST_PLACE;
use relax::{Shape, Statement};
use std::alloc::{AllocError, Global};
use zmo_object::Module;

/// Answers the size and target of a statement, in a module of `count` statements.
fn sized(statement: &zmo_object::Statement, count: usize, links: &Links) -> Statement
    requires sizable { IsSizable (count + 1 + vec_len links.now.externals) (statement_of statement.now) }
    requires room { links.now.base + count < 2 ^ 32 }
    ensures { result ≡ sized_by (stands_by count links.now.base links.now.externals.items) (statement_of statement.now) }
{
    match statement {
        zmo_object::Statement::Bytes { bytes, .. } => Statement::Fixed(bytes.len() as u16),
        zmo_object::Statement::Jump { target, .. } => {
            Statement::Jump(stands(count, links, *target))
        }
        zmo_object::Statement::Short { target, .. } => {
            Statement::Short(stands(count, links, *target))
        }
        zmo_object::Statement::Space { size, .. } => Statement::Fixed(*size),
    }
}

/// Appends the sizes and targets of the statements of a module.
fn put_sizes(
    sizes: &mut Vec<Statement>,
    statements: &[zmo_object::Statement],
    links: &Links,
) -> Result<(), AllocError>
    requires sizable { All (IsSizable (length statements.now + 1 + vec_len links.now.externals)) (map statement_of statements.now) }
    requires room { links.now.base + length statements.now < 2 ^ 32 }
    ensures { OnOk result (sizes.new.items ≡ sizes.old.items
        ++ map (sized_by (stands_by (length statements.now) links.now.base links.now.externals.items)) (map statement_of statements.now)) }
{
    sizes.reserve(statements.len())?;
    for statement in statements {
        sizes.push(sized(statement, statements.len(), links))?;
    }
    Ok(())
}

/// Answers the shape of the whole program: the sizes of its statements and the targets of its jumps.
pub fn shape_of(alloc: Global, modules: &[Module], links: &[Links]) -> Result<Shape, AllocError>
    requires modules { All IsModule (map module_of modules.now) }
    requires joined { first_fault (map module_of modules.now) ≡ None }
    requires links { AreLinks (map module_of modules.now) links.now }
    ensures { IfOk result (λ s. s ≡ placed_shape (program (map module_of modules.now))) }
{
    laid_out();
    within();
    let mut sizes = Vec::new(alloc);
    for (m, module) in modules.iter().enumerate() {
        put_sizes(&mut sizes, &module.statements, &links[m])?;
    }
    Ok(Shape::new(sizes))
}

/// Answers the address of each statement, and the address of the end.
pub fn places_of(
    alloc: Global,
    statements: &[Statement],
    long: &[bool],
) -> Result<Vec<u32>, AllocError>
    requires few { length statements.now ≤ MOST_STATEMENTS }
    requires same { length long.now ≡ length statements.now }
    ensures { IfOk result (λ v. ArePlaces (chosen long.now) statements.now v.items) }
{
    let mut places = Vec::with_capacity(alloc, statements.len() + 1)?;
    let mut next = FIRST_PLACE;
    places.push(next)?;
    for (k, statement) in statements.iter().enumerate() {
        next += statement.size(long[k]);
        places.push(next)?;
    }
    Ok(places)
}

/// Whether the statement is a jump that was written as `JR` and is long.
fn is_grown(statement: &zmo_object::Statement, long: bool) -> bool
    ensures { result ≡ (is_marked (statement_of statement.now) && long) }
{
    long && matches!(statement, zmo_object::Statement::Jump { marked: true, .. })
}

/// Converts a number to 32 bits. Memory cannot hold as many statements as would need more.
fn number(k: usize) -> Result<u32, AllocError>
    ensures { IfOk result (λ n. n ≡ k) }
{
    u32::try_from(k).map_err(|_| AllocError)
}

/// Appends the numbers of a module's jumps that were written as `JR` and are long.
fn put_grown(
    numbers: &mut Vec<u32>,
    statements: &[zmo_object::Statement],
    first: usize,
    long: &[bool],
) -> Result<(), AllocError>
    requires { first + length statements.now ≤ length long.now }
    ensures { OnOk result (numbers.new.items ≡ numbers.old.items ++ marked_from (chosen long.now) first (map statement_of statements.now)) }
{
    for (k, statement) in statements.iter().enumerate() {
        if is_grown(statement, long[first + k]) {
            numbers.push(number(first + k)?)?;
        }
    }
    Ok(())
}

/// Answers the numbers of the jumps that were written as `JR` and are long, ascending.
pub fn grown(alloc: Global, modules: &[Module], long: &[bool]) -> Result<Vec<u32>, AllocError>
    requires { length long.now ≡ length (program (map module_of modules.now)) }
    ensures { IfOk result (λ v. v.items ≡ grown (program (map module_of modules.now)) (chosen long.now)) }
{
    let mut numbers = Vec::new(alloc);
    let mut first = 0;
    for module in modules {
        put_grown(&mut numbers, &module.statements, first, long)?;
        first += module.statements.len();
    }
    Ok(numbers)
}
