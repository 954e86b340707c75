//! Links modules to a file.

ghost use Rattle.std.specs.Prelude.{All, map};
ghost use Rattle.zmo_object.specs.Modules.{module_of};
ghost use Rattle.zmo_object.specs.Rules.{IsModule};
ghost use Rattle.zlink.specs.Linked.{IsExactLink, IsLinked};

use crate::certify::{Texts, certify};
use crate::fault::{LinkFault, Misfit};
use crate::file::{emit, grown, places_of, shape_of};
use crate::laws::laid_out;
use crate::program::join;
use crate::symbol::{Symbol, symbols_of};
use relax::{Verdict, least};
use std::alloc::Global;
use zmo_object::Module;

/// What linking modules gives.
#[derive(Debug, Drop, PartialEq, Eq)]
pub struct Linked {
    /// The .COM file, which is loaded at 0100H.
    pub com: Vec<u8>,
    /// The sizes file: what the size of the program depends on.
    pub sizes: Vec<u8>,
    /// The certificate that no choice of short and long jumps that fits takes fewer bytes.
    pub cert: Vec<u8>,
    /// The labels of all modules, in the order of the modules and of their labels.
    pub symbols: Vec<Symbol>,
    /// The address of each statement, and then the address of the end.
    pub places: Vec<u32>,
    /// The numbers of the jumps that were written as `JR` and became `JP`, ascending.
    pub grown: Vec<u32>,
}

/// Links the modules, or answers why it cannot.
fn link_modules(alloc: Global, modules: &[Module]) -> Result<Linked, LinkFault>
    requires { All IsModule (map module_of modules.now) }
    ensures { IsLinked (map module_of modules.now) result }
{
    laid_out();
    let links = join(alloc, modules)?;
    let shape = shape_of(alloc, modules, &links)?;
    let growth = least(alloc, &shape)?;
    let Texts { sizes, cert } = certify(alloc, &shape, &growth)?;
    match growth.verdict {
        Verdict::Best(_) => {
            let places = places_of(alloc, shape.statements(), &growth.long)?;
            Ok(Linked {
                com: emit(alloc, modules, &links, &places, &growth.long)?,
                sizes,
                cert,
                symbols: symbols_of(alloc, modules, &links, &places)?,
                places,
                grown: grown(alloc, modules, &growth.long)?,
            })
        }
        Verdict::Range(statement) => Err(LinkFault::NoFit {
            why: Misfit::Range(statement),
            sizes,
            cert,
        }),
        Verdict::TooLarge(total) => Err(LinkFault::NoFit {
            why: Misfit::TooLarge(total),
            sizes,
            cert,
        }),
    }
}

/// Links modules in their order to a .COM file, with each jump as short as it can be.
///
/// The file begins with the first statement and is loaded at 0100H.
///
/// # Errors
///
/// The first error of the modules together, in the order of [`LinkFault`]; [`LinkFault::NoFit`], with the reason, only if no choice of
/// short and long jumps fits; [`LinkFault::NoMemory`] if memory ran out.
pub fn link(alloc: Global, modules: &[Module]) -> Result<Linked, LinkFault>
    requires { All IsModule (map module_of modules.now) }

    // What is answered holds of the modules.
    ensures answer { IsLinked (map module_of modules.now) result }

    // What holds of the modules is answered, unless memory ran out.
    ensures exact { IsExactLink (map module_of modules.now) result }
{
    link_modules(alloc, modules)
}
