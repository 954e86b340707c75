//! Assembles sources to modules, and links these.

ghost use Rattle.std.specs.Prelude.{All, IfSome, map};
ghost use Rattle.zmo_object.specs.Modules.{module_of};
ghost use Rattle.zmo_object.specs.Rules.{IsModule};

use crate::shown::show_digits;
use crate::sources::{grow_of, lines_in};
use asm_module::assemble_with;
use row_text::Row;
use std::alloc::Global;
use zlink::{Built, LinkFault, Linked, Module, Source, link};
use zmo_object::{read, write};

/// Answers the module of a source; if `is_read` is true, it is written as an object file and read again.
fn module_of_source(alloc: Global, source: Source<'_>, grow: bool, is_read: bool) -> Option<Module>
    ensures { IfSome result (λ m. IsModule (module_of m)) }
{
    let (module, _) = assemble_with(alloc, source.name, source.text, grow).ok()?;
    if is_read {
        read(alloc, &write(alloc, &module).ok()?).ok()
    } else {
        Some(module)
    }
}

/// Answers the modules of sources; if `is_read` is true, each is written as an object file and read again.
fn modules_of(
    alloc: Global,
    sources: &[Source<'_>],
    grow: bool,
    is_read: bool,
) -> Option<Vec<Module>>
    ensures { IfSome result (λ modules. All IsModule (map module_of modules.items)) }
{
    let mut modules = Vec::new(alloc);
    for source in sources {
        let module = module_of_source(alloc, *source, grow, is_read)?;
        let Ok(()) = modules.push(module) else {
            return None;
        };
    }
    Some(modules)
}

/// Answers how a linked program differs from a built one; empty if they are the same.
fn difference(linked: &Linked, built: &Built) -> &'static str {
    if linked.com != built.com {
        return "; linked: another file";
    }
    if linked.sizes != built.sizes {
        return "; linked: other sizes";
    }
    if linked.cert != built.cert {
        return "; linked: another certificate";
    }
    if linked.symbols != built.symbols {
        return "; linked: other symbols";
    }
    if linked.grown != built.grown {
        return "; linked: other jumps that grew";
    }
    ""
}

/// Prints how the program linked from the modules of sources differs from the built one.
pub(crate) fn show_difference(
    row: &mut Row,
    sources: &[Source<'_>],
    grow: bool,
    is_read: bool,
    built: &Built,
) {
    let Some(modules) = modules_of(row.alloc(), sources, grow, is_read) else {
        return row.refuse("no modules");
    };
    match link(row.alloc(), &modules) {
        Ok(linked) => write!(row, "{}", difference(&linked, built)),
        Err(_) => write!(row, "; linked: no file"),
    }
}

/// Prints whether the modules of sources, written and read again, are linked, or refused for another reason.
pub(crate) fn show_linked(row: &mut Row, sources: &[Source<'_>], grow: bool, want: &LinkFault) {
    let Some(modules) = modules_of(row.alloc(), sources, grow, true) else {
        return row.refuse("no modules");
    };
    match link(row.alloc(), &modules) {
        Ok(_linked) => write!(row, "; linked: a file"),
        Err(fault) => {
            if fault != *want {
                write!(row, "; linked: another fault");
            }
        }
    }
}

/// The object file of a source that is named A. None if it has an error.
fn object_of(alloc: Global, text: &[u8], grow: bool) -> Option<Vec<u8>> {
    let (module, _) = assemble_with(alloc, b"A", text, grow).ok()?;
    write(alloc, &module).ok()
}

/// Prints the object file of a source that is named A.
pub(crate) fn answer_object(row: &mut Row) {
    let grow = grow_of(row);
    let text = lines_in(row);
    match object_of(row.alloc(), &text, grow) {
        Some(object) => show_digits(row, &object),
        None => row.refuse("no object"),
    }
}
