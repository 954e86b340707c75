//! Collects the labels of the whole program.

ghost use Rattle.std.specs.Prelude.{◌≡◌, ◌<◌, ◌+◌, ◌++◌, All, IfOk, OnOk, length, map, slice_index};
ghost use Rattle.zmo_object.specs.Modules.{module_of};
ghost use Rattle.zmo_object.specs.Rules.{IsModule};
ghost use Rattle.zlink.specs.Program.Whole.{AreLinks, program};
ghost use Rattle.zlink.specs.Linked.{symbol_of, all_symbols, symbols_in};

use crate::laws::laid_out;
use crate::program::Links;
use std::alloc::{AllocError, Global};
use zmo_object::Module;

/// A label and its address.
#[derive(Debug, Drop, PartialEq, Eq)]
pub struct Symbol {
    pub name: Vec<u8>,
    /// The name of its module.
    pub module: Vec<u8>,
    /// The address for which it stands.
    pub place: u32,
}

/// Appends the labels of a module, whose links say where it is in the whole program.
fn put_symbols(
    alloc: Global,
    own: &Module,
    links: &Links,
    places: &[u32],
    symbols: &mut Vec<Symbol>,
) -> Result<(), AllocError>
    requires { All (λ l. links.now.base + l.statement < length places.now) own.now.labels.items }
    ensures { OnOk result (map symbol_of symbols.new.items ≡ map symbol_of symbols.old.items ++ symbols_in (λ k. slice_index places.now k) links.now.base (module_of own.now)) }
{
    symbols.reserve(own.labels.len())?;
    for label in &own.labels {
        symbols.push(Symbol {
            name: label.name.to_vec(alloc)?,
            module: own.name.to_vec(alloc)?,
            place: places[links.base as usize + usize::from(label.statement)],
        })?;
    }
    Ok(())
}

/// Answers the labels of the modules, in their order.
pub(crate) fn symbols_of(
    alloc: Global,
    modules: &[Module],
    links: &[Links],
    places: &[u32],
) -> Result<Vec<Symbol>, AllocError>
    requires modules { All IsModule (map module_of modules.now) }
    requires links { AreLinks (map module_of modules.now) links.now }
    requires places { length places.now ≡ length (program (map module_of modules.now)) + 1 }
    ensures { IfOk result (λ v. map symbol_of v.items ≡ all_symbols (λ k. slice_index places.now k) (map module_of modules.now)) }
{
    laid_out();
    let mut symbols = Vec::new(alloc);
    for (m, module) in modules.iter().enumerate() {
        put_symbols(alloc, module, &links[m], places, &mut symbols)?;
    }
    Ok(symbols)
}
