//! The command `link`: links object files to a program.

ghost use Rattle.std.specs.Prelude.{◌≡◌, IfOk, None, Ok, map};
ghost use Rattle.program_map.specs.Map.{program_map};
ghost use Rattle.program_map.specs.Text.{map_text};
ghost use Rattle.zlink.specs.Linked.{IsLinked};
ghost use Rattle.zmo_object.specs.Modules.{module_of};
ghost use Rattle.host.specs.Answers.{MemoryAside, file_of};
ghost use Rattle.z80dev_make.specs.Answers.{answer_of};
ghost use Rattle.z80dev_make.specs.Link.{IsLink, IsWholeLink, link_answer, linked_files};
ghost use Rattle.z80dev_make.specs.Products.{map_files};
ghost use Rattle.z80dev_make.specs.Private.Steps.{AreRead};

use crate::answer::{no_program, program, refused, without_memory};
use crate::products::{Products, put_map, put_symbols};
use host::{Answer, NewFile};
use program_map::{map_of_linked, map_text};
use report_texts::{Refusal, Told};
use std::alloc::{AllocError, Global};
use zlink::{LinkFault, Linked, Module, link as link_modules};
use zmo_object::{ObjectFault, read};

/// Answers the modules of object files, or the error of the first that cannot be read.
fn read_all(alloc: Global, objects: &[Vec<u8>]) -> Result<Vec<Module>, ObjectFault>
    ensures { AreRead (map (λ o. o.items) objects.now) result }
{
    let mut modules = Vec::with_capacity(alloc, objects.len())?;
    for object in objects {
        match read(alloc, object) {
            Ok(module) => modules.push(module)?,
            Err(fault) => return Err(fault),
        }
    }
    Ok(modules)
}

/// Answers the text of the map of a program that was linked of these modules, if it is wanted.
fn map_text_of(
    alloc: Global,
    wanted: bool,
    modules: &[Module],
    linked: &Linked,
) -> Result<Vec<u8>, AllocError>
    requires { IsLinked (map module_of modules.now) (Ok linked.now) }
    ensures text { IfOk result (λ text. map_files wanted text.items ≡ map_files wanted (map_text (program_map None linked.now.places.items (map module_of modules.now)))) }
    ensures whole { IfOk result (λ text. IsWholeLink wanted (map module_of modules.now) (Ok linked.now)) }
{
    if wanted {
        let map = map_of_linked(alloc, modules, linked)?;
        map_text(alloc, &map)
    } else {
        Ok(Vec::new(alloc))
    }
}

/// Answers the files of a program that was linked of these modules.
fn files_of(
    alloc: Global,
    products: Products,
    modules: &[Module],
    linked: Linked,
) -> Result<Vec<NewFile>, AllocError>
    requires { IsLinked (map module_of modules.now) (Ok linked) }
    ensures files { IfOk result (λ files. map file_of files.items ≡ linked_files products (map module_of modules.now) linked) }
    ensures whole { IfOk result (λ files. IsWholeLink products.«map» (map module_of modules.now) (Ok linked)) }
{
    let mapped = map_text_of(alloc, products.map, modules, &linked)?;
    let mut files = program(alloc, linked.sizes, linked.cert, linked.com)?;
    put_symbols(
        alloc,
        &mut files,
        false,
        products.symbols,
        Vec::new(alloc),
        &linked.symbols,
    )?;
    put_map(&mut files, products.map, mapped)?;
    Ok(files)
}

/// Answers what is to be done, given the result of linking.
fn answered(
    alloc: Global,
    products: Products,
    modules: &[Module],
    linking: Result<Linked, LinkFault>,
) -> Result<Answer<Told<'static>>, AllocError>
    requires { IsLinked (map module_of modules.now) linking }
    ensures answer { IfOk result (λ answer. answer_of answer ≡ link_answer products (map module_of modules.now) linking) }
    ensures whole { IfOk result (λ answer. IsWholeLink products.«map» (map module_of modules.now) linking) }
{
    match linking {
        Ok(linked) => {
            let files = files_of(alloc, products, modules, linked)?;
            Ok(Answer::done(files, Vec::new(alloc)))
        }
        Err(fault) => no_program(alloc, fault),
    }
}

/// Answers the program of object files, or why there is none.
fn linked(
    alloc: Global,
    objects: &[Vec<u8>],
    products: Products,
) -> Result<Answer<Told<'static>>, AllocError>
    ensures { IfOk result (λ answer. IsLink products (map (λ o. o.items) objects.now) (answer_of answer)) }
{
    let modules = match read_all(alloc, objects) {
        Ok(modules) => modules,
        Err(ObjectFault::NoMemory) => return Err(AllocError),
        Err(fault) => {
            let refusal = Refusal::Object(fault);
            return Ok(refused(alloc, Told { path: "", refusal }));
        }
    };
    let linking = link_modules(alloc, &modules);
    let answer = answered(alloc, products, &modules, linking)?;
    Ok(answer)
}

/// Links object files in their order, and answers the program with its sizes file and certificate, and with its map and its labels for a
/// debugger if they are wanted. There is no listing.
///
/// If no choice of short and long jumps fits, the sizes file and the certificate are answered, and the reason is reported. Any other error
/// is reported without files: that of the first object file that cannot be read, otherwise the first of the modules together.
pub fn link(alloc: Global, objects: &[Vec<u8>], products: Products) -> Answer<Told<'static>>
    ensures { MemoryAside (IsLink products (map (λ o. o.items) objects.now)) (answer_of result) }
{
    match linked(alloc, objects, products) {
        Ok(answer) => answer,
        Err(_) => without_memory(alloc),
    }
}
