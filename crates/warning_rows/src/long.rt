//! Prints the long jumps of programs.

ghost use Rattle.std.specs.Prelude.{All, IfSome, map};
ghost use Rattle.zmo_object.specs.Modules.{module_of};
ghost use Rattle.zmo_object.specs.Rules.{IsModule};

use asm_module::{Module, assemble};
use program_map::{JoinFault, LongJump, LongJumps, find_long_jumps};
use row_text::Row;
use std::alloc::Global;

/// Answers the module of a source.
fn module_of_source(alloc: Global, text: &[u8]) -> Option<Module>
    ensures { IfSome result (λ m. IsModule (module_of m)) }
{
    assemble(alloc, b"", text).ok()
}

/// Answers the modules of sources.
fn modules_of(alloc: Global, sources: &[Vec<u8>]) -> Option<Vec<Module>>
    ensures { IfSome result (λ modules. All IsModule (map module_of modules.items)) }
{
    let mut modules = Vec::new(alloc);
    for source in sources {
        let module = module_of_source(alloc, source)?;
        let Ok(()) = modules.push(module) else {
            return None;
        };
    }
    Some(modules)
}

/// Takes the columns that are left as sources, with `~` between them.
fn sources_of(row: &mut Row) -> Vec<Vec<u8>> {
    let mut sources = Vec::new(row.alloc());
    for text in row.rest().split('~') {
        let lines = row.lines_of(text);
        if sources.push(lines).is_err() {
            row.refuse("no memory");
        }
    }
    sources
}

/// Answers the long jumps of a row's sources.
fn found_in(row: &mut Row) -> Option<LongJumps> {
    let sources = sources_of(row);
    let Some(modules) = modules_of(row.alloc(), &sources) else {
        row.refuse("a source has an error");
        return None;
    };
    match find_long_jumps(row.alloc(), &modules) {
        Ok(found) => Some(found),
        Err(JoinFault::NoMemory) => {
            row.refuse("no memory");
            None
        }
        Err(fault) => {
            write!(row, " {fault}");
            None
        }
    }
}

/// Prints the statement with this number in the program: its module, from A on, and its number there.
fn show_site(row: &mut Row, found: &LongJumps, statement: u32) {
    let Some(site) = found.sites.get(statement as usize) else {
        return write!(row, "end");
    };
    let letter = 65_u8.saturating_add(site.module.min(25) as u8);
    row.write_text(&[letter]);
    write!(row, "{}", site.statement);
}

/// Prints a long jump.
fn show_jump(row: &mut Row, found: &LongJumps, jump: &LongJump) {
    write!(row, " ");
    show_site(row, found, jump.statement);
    write!(row, " to ");
    show_site(row, found, jump.target);
    let distance = jump.distance;
    let excess = jump.excess;
    let way = if jump.is_back() { "back" } else { "ahead" };
    write!(row, " {distance} {way} {excess} too many");
    for member in &jump.reason {
        write!(row, " ");
        show_site(row, found, *member);
    }
    write!(row, ",");
}

/// Prints the long jumps of a row's sources.
pub(crate) fn answer_long(row: &mut Row) {
    if let Some(found) = found_in(row) {
        for jump in &found.jumps {
            show_jump(row, &found, jump);
        }
    }
}

/// Prints how many long jumps a row's sources have, and how many jumps all reasons have.
pub(crate) fn answer_longest(row: &mut Row) {
    if let Some(found) = found_in(row) {
        let mut named: u64 = 0;
        for jump in &found.jumps {
            named = named.saturating_add(jump.reason.len() as u64);
        }
        write!(row, " {} long, {named} in reasons", found.jumps.len());
    }
}

/// Prints the text about the first long jump of a row's sources, with the target X.
pub(crate) fn answer_text(row: &mut Row) {
    if let Some(found) = found_in(row) {
        if let Some(jump) = found.jumps.first() {
            match jump.text(row.alloc(), "X") {
                Ok(text) => write!(row, " {text}"),
                Err(_) => row.refuse("no memory"),
            }
        }
    }
}
