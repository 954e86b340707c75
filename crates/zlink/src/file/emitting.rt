//! Writes the file of a whole program.

ghost use Rattle.std.specs.Prelude.{◌≡◌, ◌≤◌, ◌+◌, All, IfOk, None, OnOk, length, map, slice_index};
ghost use Rattle.relax.specs.Choice.{IsValid, chosen};
ghost use Rattle.zmo_object.specs.Modules.{module_of, statement_of};
ghost use Rattle.zmo_object.specs.Rules.{IsModule};
ghost use Rattle.zlink.specs.Program.Faults.{first_fault};
ghost use Rattle.zlink.specs.Program.Whole.{AreLinks, program};
ghost use Rattle.zlink.specs.File.Objects.{ReadsObjects, placed_shape};
ghost use Rattle.zlink.specs.File.Places.{ArePlaces};
ghost use Rattle.zlink.specs.Private.Pieces.{Appends, AreLaid, AreReady, IsSizedPiece};

use crate::file::piece::put_statement;
use crate::file::refs::fill_table;
use crate::laws::{laid_out, within};
use crate::program::Links;
use common::FIRST_PLACE;
use std::alloc::{AllocError, Global};
use zmo_object::{Module, Statement};

/// Writes the statements of a module. The first of them has the number `first` in the whole program.
fn put_statements(
    file: &mut Vec<u8>,
    statements: &[Statement],
    first: usize,
    table: &[u16],
    places: &[u32],
    long: &[bool],
) -> Result<(), AllocError>
    requires places { first + length statements.now ≤ length places.now }
    requires long { first + length statements.now ≤ length long.now }
    requires ready { AreReady (chosen long.now) places.now table.now first (map statement_of statements.now) }
    ensures { OnOk result (Appends file.old.items file.new.items
        (AreLaid (λ k. IsSizedPiece (slice_index places.now k) (chosen long.now k) table.now) first (map statement_of statements.now))) }
{
    for (k, statement) in statements.iter().enumerate() {
        put_statement(file, statement, places[first + k], long[first + k], table)?;
    }
    Ok(())
}

/// Writes the file of the whole program under a choice that fits.
pub fn emit(
    alloc: Global,
    modules: &[Module],
    links: &[Links],
    places: &[u32],
    long: &[bool],
) -> Result<Vec<u8>, AllocError>
    requires modules { All IsModule (map module_of modules.now) }
    requires joined { first_fault (map module_of modules.now) ≡ None }
    requires links { AreLinks (map module_of modules.now) links.now }
    requires len { length long.now ≡ length (program (map module_of modules.now)) }
    requires places { ArePlaces (chosen long.now) (placed_shape (program (map module_of modules.now))) places.now }
    requires valid { IsValid (chosen long.now) (placed_shape (program (map module_of modules.now))) }
    ensures { IfOk result (λ file. ReadsObjects file.items (program (map module_of modules.now)) (chosen long.now)) }
{
    laid_out();
    within();
    let size = places[long.len()] - FIRST_PLACE;
    let mut file = Vec::with_capacity(alloc, size as usize)?;
    let mut table = Vec::new(alloc);
    for (m, module) in modules.iter().enumerate() {
        let links = &links[m];
        let statements = &module.statements;
        fill_table(&mut table, statements.len(), links, places)?;
        let first = links.base as usize;
        put_statements(&mut file, statements, first, &table, places, long)?;
    }
    Ok(file)
}
