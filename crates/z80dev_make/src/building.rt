//! The command `build`: builds a program from sources.

ghost use Rattle.std.specs.Prelude.{◌≡◌, [], IfOk, List, Ok, Option, slice_get, string_bytes};
ghost use Rattle.std.specs.List.{AllZip};
ghost use Rattle.z80dev_make.specs.Answers.{answer_of};
ghost use Rattle.report_texts.specs.Faults.Refusals.{told_text};
ghost use Rattle.z80dev_make.specs.Build.{IsAnswerOf, IsBuild, IsMade, IsRefusal, built_answer, grown_lines, line_from};
ghost use Rattle.report_texts.specs.Behind.{IsBehind};
ghost use Rattle.report_texts.specs.Front.{front_text};
ghost use Rattle.z80dev_make.specs.Jumps.{jumps_of};
ghost use Rattle.report_texts.specs.Shared.{UnlessFaulty};
ghost use Rattle.z80dev_make.specs.Warned.{AreWarnings};
ghost use Rattle.program_map.specs.declared.symbol_files.form.SymbolForm.{SymbolForm};
ghost use Rattle.z80dev_make.specs.Products.{IsMapText, listing_files, symbol_files};
ghost use Rattle.zlink.specs.Built.{IsBuilt};
ghost use Rattle.zlink.specs.Linked.{Symbol};
ghost use Rattle.program_map.specs.Listings.Listing.{listing};
ghost use Rattle.program_map.specs.Listings.Symbols.{symbols};
ghost use Rattle.zlink.specs.declared.source.Source.{Source};

use crate::answer::{no_program, program, refused, without_memory};
use crate::jumps::{Jumps, jumps_of};
use crate::products::{Products, put_listing, put_map, put_symbols};
use crate::warning::warn_built;
use host::Answer;
use program_map::{listing, map_of_built, map_text, symbols};
use report_texts::{
    Front, SourceFile, Told, fault_of_front, front_text, path_at, sources_behind, sources_of,
    texts_behind, told_behind, with_own_lines,
};
use std::alloc::{AllocError, Global};
use std::fmt;
use zlink::{BuildFault, Built, Origin, Source, build_with};

/// A jump that was written as `JR` and had to grow, as it is printed.
#[derive(Clone, Copy)]
struct Grown<'a> {
    path: &'a str,
    line: u32,
}

impl fmt::Display for Grown<'_> {
    ghost use Rattle.std.specs.Prelude.{Some};
    ghost use Rattle.z80dev_make.specs.Build.{grown_text};

    ghost output = { λ grown. Some (grown_text grown.path.now grown.line) };

    fn fmt<W: fmt::Write>(&self, f: &mut fmt::Formatter<W>) -> fmt::Result {
        let path = self.path;
        let line = self.line;
        write!(f, "grown {path}({line})")
    }
}

/// Answers the line of the jump with this number, which had to grow.
fn line_of(
    alloc: Global,
    files: &[SourceFile<'_>],
    origins: &[Origin],
    jump: u32,
) -> Result<String, AllocError>
    ensures { IfOk result (λ text. string_bytes text ≡ line_from files.now (slice_get origins.now jump)) }
{
    match origins.get(jump as usize) {
        Some(origin) => {
            let grown = Grown {
                path: path_at(files, origin.source),
                line: origin.line,
            };
            format!(in alloc; "{grown}\n")
        }
        None => Ok(String::new(alloc)),
    }
}

/// Answers these lines for all jumps that grew.
fn grown_lines(
    alloc: Global,
    files: &[SourceFile<'_>],
    built: &Built,
) -> Result<Vec<u8>, AllocError>
    ensures { IfOk result (λ lines. lines.items ≡ grown_lines files.now built.now.statements.items built.now.grown.items) }
{
    let mut lines = Vec::new(alloc);
    for jump in &built.grown {
        let line = line_of(alloc, files, &built.statements, *jump)?;
        lines.extend_from_slice(line.as_bytes())?;
    }
    Ok(lines)
}

/// Answers the listing of a program, if it is wanted.
fn listing_of(
    alloc: Global,
    wanted: bool,
    sources: &[Source<'_>],
    built: &Built,
) -> Result<Vec<u8>, AllocError>
    ensures { IfOk result (λ text. listing_files wanted text.items ≡ listing_files wanted (listing built.now sources.now)) }
{
    if wanted {
        listing(alloc, built, sources)
    } else {
        Ok(Vec::new(alloc))
    }
}

/// Answers the labels of a program as they are beside its listing, if that is wanted.
fn labels_of(alloc: Global, wanted: bool, built: &Built) -> Result<Vec<u8>, AllocError>
    ensures { (form : Option SymbolForm) (labels : List Symbol) → IfOk result (λ text. symbol_files wanted form text.items labels ≡ symbol_files wanted form (symbols built.now) labels) }
{
    if wanted {
        symbols(alloc, built)
    } else {
        Ok(Vec::new(alloc))
    }
}

/// Answers the text of the map of a program that was built of these sources, if it is wanted.
fn map_text_of(
    alloc: Global,
    wanted: bool,
    grow: bool,
    behind: &[Source<'_>],
    built: &Built,
) -> Result<Vec<u8>, AllocError>
    requires { IsBuilt grow behind.now (Ok built.now) }
    ensures { IfOk result (λ text. IsMapText wanted grow behind.now built.now text.items) }
{
    if wanted {
        let map = map_of_built(alloc, behind, built)?;
        map_text(alloc, &map)
    } else {
        Ok(Vec::new(alloc))
    }
}

/// Answers the files of a program whose lines have the numbers of their own sources, given the text of its map.
fn written<'a>(
    alloc: Global,
    files: &[SourceFile<'a>],
    sources: &[Source<'_>],
    built: Built,
    products: Products,
    mapped: Vec<u8>,
) -> Result<Answer<Told<'a>>, AllocError>
    ensures { IfOk result (λ answer. answer_of answer ≡ built_answer products files.now sources.now built mapped.items) }
{
    let printed = grown_lines(alloc, files, &built)?;
    let lines = listing_of(alloc, products.list, sources, &built)?;
    let labels = labels_of(alloc, products.list, &built)?;
    let mut made = program(alloc, built.sizes, built.cert, built.com)?;
    put_listing(&mut made, products.list, lines)?;
    put_symbols(
        alloc,
        &mut made,
        products.list,
        products.symbols,
        labels,
        &built.symbols,
    )?;
    put_map(&mut made, products.map, mapped)?;
    Ok(Answer::done(made, printed))
}

/// Answers what is to be done, given the result of building.
fn answered<'a>(
    alloc: Global,
    front: Front<'a>,
    files: &[SourceFile<'a>],
    behind: &[Source<'_>],
    sources: &[Source<'_>],
    building: Result<Built, BuildFault>,
    wanted: Wanted,
) -> Result<Answer<Told<'a>>, AllocError>
    requires { IsBuilt wanted.grow behind.now building }
    ensures { IfOk result (λ answer. IsAnswerOf front.entry wanted.grow wanted.products files.now behind.now sources.now building (answer_of answer)) }
{
    match building {
        Ok(built) => {
            let products = wanted.products;
            let mapped = map_text_of(alloc, products.map, wanted.grow, behind, &built)?;
            let own = with_own_lines(built, front);
            let answer = written(alloc, files, sources, own, products, mapped)?;
            Ok(answer)
        }
        Err(BuildFault::Asm { source, fault }) => {
            let path = path_at(files, source);
            Ok(refused(alloc, told_behind(front, path, fault)))
        }
        Err(BuildFault::Link(fault)) => no_program(alloc, fault),
    }
}

/// What is wanted of `build`.
#[derive(Clone, Copy)]
pub struct Wanted {
    /// Whether a written `JR` may become a `JP`.
    pub grow: bool,
    /// What is made besides the program.
    pub products: Products,
    /// Whether warnings are made.
    pub warn: bool,
}

/// What `build` answers.
#[derive(Debug, Drop)]
pub struct Made<'a> {
    /// What is to be done.
    pub answer: Answer<Told<'a>>,
    /// The jumps of the program, if there is one.
    pub jumps: Option<Jumps>,
    /// The lines that warn of code that relies on the length of a jump.
    pub warnings: Vec<u8>,
}

/// Answers the warnings of a program, if they are wanted and there is one.
fn warnings_of(
    alloc: Global,
    front: Front<'_>,
    files: &[SourceFile<'_>],
    building: &Result<Built, BuildFault>,
    wanted: Wanted,
) -> Result<Vec<u8>, AllocError>
    requires { (behind : List Source) × AllZip (IsBehind front) files.now behind × IsBuilt wanted.grow behind building.now }
    ensures { IfOk result (λ lines. AreWarnings wanted.warn front.entry files.now wanted.grow (jumps_of building.now) lines.items) }
{
    match building {
        Ok(built) if wanted.warn => warn_built(alloc, front, files, built),
        _ => Ok(Vec::new(alloc)),
    }
}

/// Answers the program of sources, or why there is none, given the sources after the front.
fn built<'a>(
    alloc: Global,
    front: Front<'a>,
    files: &[SourceFile<'a>],
    behind: &[Source<'_>],
    wanted: Wanted,
) -> Result<Made<'a>, AllocError>
    requires { AllZip (IsBehind front) files.now behind.now }
    ensures built { IfOk result (λ made. IsBuild front.entry files.now wanted.grow wanted.products (answer_of made.answer) made.jumps) }
    ensures warned { IfOk result (λ made. AreWarnings wanted.warn front.entry files.now wanted.grow made.jumps made.warnings.items) }
{
    let sources = sources_of(alloc, files)?;
    let building = build_with(alloc, behind, wanted.grow);
    let jumps = jumps_of(&building);
    let warnings = warnings_of(alloc, front, files, &building, wanted)?;
    let answer = answered(alloc, front, files, behind, &sources, building, wanted)?;
    Ok(Made {
        answer,
        jumps,
        warnings,
    })
}

/// Answers the program of sources after a front that has a text, or why there is none.
fn built_behind<'a>(
    alloc: Global,
    front: Front<'a>,
    before: &[u8],
    files: &[SourceFile<'a>],
    wanted: Wanted,
) -> Result<Made<'a>, AllocError>
    requires { before.now ≡ front_text front }
    ensures built { IfOk result (λ made. IsBuild front.entry files.now wanted.grow wanted.products (answer_of made.answer) made.jumps) }
    ensures warned { IfOk result (λ made. AreWarnings wanted.warn front.entry files.now wanted.grow made.jumps made.warnings.items) }
{
    let texts = texts_behind(alloc, before, files)?;
    let behind = sources_behind(alloc, front, files, &texts)?;
    built(alloc, front, files, &behind, wanted)
}

/// Answers the refusal of a front.
fn front_refused<'a>(alloc: Global, told: Told<'a>) -> Made<'a>
    ensures refused { IsRefusal (told_text told.entry) (answer_of result.answer) result.jumps }
    ensures warned { result.warnings.items ≡ [] }
{
    Made {
        answer: refused(alloc, told),
        jumps: None,
        warnings: Vec::new(alloc),
    }
}

/// Answers the program of sources after a front, or the first error.
fn made_behind<'a>(
    alloc: Global,
    front: Front<'a>,
    files: &[SourceFile<'a>],
    wanted: Wanted,
) -> Result<Made<'a>, AllocError>
    ensures made { IfOk result (λ made. UnlessFaulty front.entry (λ said. IsRefusal said (answer_of made.answer) made.jumps) (IsBuild front.entry files.now wanted.grow wanted.products (answer_of made.answer) made.jumps)) }
    ensures warned { IfOk result (λ made. AreWarnings wanted.warn front.entry files.now wanted.grow made.jumps made.warnings.items) }
{
    let before = front_text(alloc, front)?;
    if before.is_empty() {
        let sources = sources_of(alloc, files)?;
        return built(alloc, front, files, &sources, wanted);
    }
    if let Some(told) = fault_of_front(alloc, front, &before)? {
        return Ok(front_refused(alloc, told));
    }
    built_behind(alloc, front, &before, files, wanted)
}

/// Builds the program of sources after a front, in the order of the sources, and answers it with its sizes file and certificate; and with
/// its [`Products`], if they are wanted. If a written `JR` may become a `JP`, a line `grown PATH(LINE)` is printed for each that
/// did, in their order. [`Made`] also has how many jumps are short and long, and if they are wanted, the warnings.
///
/// A front that has an error is refused with its first one. The listing shows the sources without the front, and every line is named by
/// its own file and number.
///
/// If no choice of short and long jumps fits, the sizes file and the certificate are answered, and the reason is reported. Any other error
/// is reported without files.
pub fn build<'a>(
    alloc: Global,
    front: Front<'a>,
    files: &[SourceFile<'a>],
    wanted: Wanted,
) -> Made<'a>
    ensures made { IsMade front.entry files.now wanted.grow wanted.products (answer_of result.answer) result.jumps }
    ensures warned { AreWarnings wanted.warn front.entry files.now wanted.grow result.jumps result.warnings.items }
{
    match made_behind(alloc, front, files, wanted) {
        Ok(made) => made,
        Err(_) => Made {
            answer: without_memory(alloc),
            jumps: None,
            warnings: Vec::new(alloc),
        },
    }
}
