//! Prints maps.

ghost use Rattle.std.specs.Prelude.{All, IfSome, map};
ghost use Rattle.zmo_object.specs.Modules.{module_of};
ghost use Rattle.zmo_object.specs.Rules.{IsModule};

use crate::input::{grow_of, sources_of, texts_of};
use crate::shown::show_lines;
use asm_module::assemble_with;
use program_map::{ProgramMap, map_of_built, map_of_linked, map_text};
use row_text::Row;
use std::alloc::{AllocError, Global};
use zlink::{Module, Source, build_with, link};

/// Prints the text of a map.
fn show_text(row: &mut Row, map: &ProgramMap) {
    match map_text(row.alloc(), map) {
        Ok(text) => show_lines(row, &text),
        Err(_) => row.refuse("no memory"),
    }
}

/// Prints a map.
fn show_map(row: &mut Row, made: Result<ProgramMap, AllocError>) {
    match made {
        Ok(map) => show_text(row, &map),
        Err(_) => row.refuse("no memory"),
    }
}

/// Prints the map of the program of sources.
pub(crate) fn answer_built(row: &mut Row) {
    let alloc = row.alloc();
    let grow = grow_of(row);
    let texts = texts_of(row);
    let sources = sources_of(row, &texts);
    match build_with(alloc, &sources, grow) {
        Ok(built) => show_map(row, map_of_built(alloc, &sources, &built)),
        Err(fault) => write!(row, " {fault}"),
    }
}

/// Answers the module of a source.
fn module_of_source(alloc: Global, source: Source<'_>, grow: bool) -> Option<Module>
    ensures { IfSome result (λ m. IsModule (module_of m)) }
{
    let (module, _) = assemble_with(alloc, source.name, source.text, grow).ok()?;
    Some(module)
}

/// Answers the modules of sources.
fn modules_of(alloc: Global, sources: &[Source<'_>], grow: bool) -> Option<Vec<Module>>
    ensures { IfSome result (λ modules. All IsModule (map module_of modules.items)) }
{
    let mut modules = Vec::new(alloc);
    for source in sources {
        let module = module_of_source(alloc, *source, grow)?;
        let Ok(()) = modules.push(module) else {
            return None;
        };
    }
    Some(modules)
}

/// Prints the map of a program that is linked of these modules.
fn show_linked(row: &mut Row, modules: &[Module])
    requires { All IsModule (map module_of modules.now) }
{
    let alloc = row.alloc();
    match link(alloc, modules) {
        Ok(linked) => show_map(row, map_of_linked(alloc, modules, &linked)),
        Err(fault) => write!(row, " {fault}"),
    }
}

/// Prints the map of the program that is linked of the modules of sources.
pub(crate) fn answer_linked(row: &mut Row) {
    let alloc = row.alloc();
    let grow = grow_of(row);
    let texts = texts_of(row);
    let sources = sources_of(row, &texts);
    match modules_of(alloc, &sources, grow) {
        Some(modules) => show_linked(row, &modules),
        None => row.refuse("no modules"),
    }
}
