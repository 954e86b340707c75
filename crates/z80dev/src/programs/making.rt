//! The commands that make files of sources and objects, and `check`.

ghost use Rattle.std.specs.Prelude.{◌≡◌, ◌++◌, IfOk, length, map};
ghost use Rattle.z80dev.specs.Making.{AreFiles, AsmEnds, AsmWith, BuildEnds, CheckEnds, LinkEnds, LinksWith, jumps_lines};
ghost use Rattle.host.specs.Ending.{effect_of, ended, EndsWithLines};
ghost use Rattle.z80dev.specs.Products.{build_products, form_named, symbols_form, link_products};
ghost use Rattle.z80dev_make.specs.Products.{program_kinds};
ghost use Rattle.z80dev.specs.Private.FileSteps.{BuildsTexts, DoneWithLines};

use crate::programs::outputs::{base_of, refuse_overwriting};
use crate::{
    End, Files, Front, Jumps, Kind, Made, Object, Products, SharedFile, Sink, SourceFile,
    SymbolForm, Wanted, asm, build, check_texts, finish, link, program_kinds, shared_files,
};
use host::{read, read_all};
use std::alloc::{AllocError, Global};
use z80dev_commands::{Asm, Build, Link};

/// Files of source text, each with its path.
pub fn sources_of<'a>(
    alloc: Global,
    paths: &[&'a str],
    texts: &'a [Vec<u8>],
) -> Result<Vec<SourceFile<'a>>, AllocError>
    requires { length paths.now ≡ length texts.now }
    ensures { IfOk result (λ files. AreFiles (map (λ path. path.now) paths.now) (map (λ text. text.items) texts.now) files.items) }
{
    let mut sources = Vec::with_capacity(alloc, paths.len())?;
    for path in paths {
        let text = &texts[sources.len()];
        sources.push(SourceFile { path: *path, text })?;
    }
    Ok(sources)
}

/// Shared files of source text, each with its path.
pub fn shared_of<'a>(
    alloc: Global,
    paths: &[&'a str],
    texts: &'a [Vec<u8>],
) -> Result<Vec<SharedFile<'a>>, AllocError>
    requires { length paths.now ≡ length texts.now }
    ensures { IfOk result (λ files. AreFiles (map (λ path. path.now) paths.now) (map (λ text. text.items) texts.now) files.items) }
{
    let files = sources_of(alloc, paths, texts)?;
    let shared = shared_files(alloc, &files)?;
    Ok(shared)
}

/// Assembles a source to an object of this base. If all is done, the result is the lines of its warnings.
fn asm_with<'a, F: Files, W: Sink>(
    alloc: Global,
    base: &'a str,
    job: &Asm<'a>,
    files: &mut F,
    output: &mut W,
) -> Result<Vec<u8>, End<'a>>
    ensures { EndsWithLines (AsmWith base.now job.now (effect_of (F.folder files.old) (F.folder files.new) (W.stream output.old) (W.stream output.new))) result }
{
    let shared = &job.shared;
    refuse_overwriting(alloc, base, &[Kind::Object], &shared.files, &[job.source])?;
    let fronts = read_all(alloc, &shared.files, files)?;
    let text = read(alloc, job.source, files)?;
    let shared_files = shared_of(alloc, &shared.files, &fronts)?;
    let front = Front {
        defines: &shared.defines,
        files: &shared_files,
    };
    let source = SourceFile {
        path: job.source,
        text: &text,
    };
    let Object { answer, warnings } = asm(alloc, front, source, job.grow, job.warn);
    done_with_lines(finish(alloc, base, &answer, files, output), warnings)
}

/// Assembles a source to an object. If all is done, the result is the lines of its warnings.
pub(crate) fn asm_file<'a, F: Files, W: Sink>(
    alloc: Global,
    job: &Asm<'a>,
    files: &mut F,
    output: &mut W,
) -> Result<Vec<u8>, End<'a>>
    ensures { EndsWithLines (AsmEnds job.now (effect_of (F.folder files.old) (F.folder files.new) (W.stream output.old) (W.stream output.new))) result }
{
    let base = base_of(job.out, &[job.source]);
    asm_with(alloc, base, job, files, output)
}

/// The form of a file of symbols that a word names.
pub(crate) fn form_named(word: &str) -> Option<SymbolForm>
    ensures { result ≡ form_named word.now }
{
    match word {
        "zsid" => Some(SymbolForm::Sid),
        "ucsim" => Some(SymbolForm::Ucsim),
        _ => None,
    }
}

/// The form of the file of symbols, if one is wanted.
fn symbols_form(symbols: Option<&str>) -> Option<SymbolForm>
    ensures { result ≡ symbols_form symbols.entry }
{
    match symbols {
        Some(word) => form_named(word),
        None => None,
    }
}

/// What `link` makes besides the program.
fn link_products(job: &Link<'_>) -> Products
    ensures { result ≡ link_products job.now }
{
    Products {
        list: false,
        map: job.map,
        symbols: symbols_form(job.symbols),
    }
}

/// What `build` makes besides the program.
fn build_products(job: &Build<'_>) -> Products
    ensures { result ≡ build_products job.now }
{
    Products {
        list: job.list,
        map: job.map,
        symbols: symbols_form(job.symbols),
    }
}

/// The kinds of the files that `build` writes.
fn build_kinds(job: &Build<'_>) -> &'static [Kind]
    ensures { result.now ≡ program_kinds (build_products job.now) }
{
    program_kinds(build_products(job))
}

/// Links objects to a program of this base.
fn link_with<'a, F: Files, W: Sink>(
    alloc: Global,
    base: &'a str,
    job: &Link<'a>,
    files: &mut F,
    output: &mut W,
) -> Result<End<'a>, End<'a>>
    ensures { LinksWith base.now job.now (effect_of (F.folder files.old) (F.folder files.new) (W.stream output.old) (W.stream output.new)) (ended result) }
{
    let products = link_products(job);
    refuse_overwriting(alloc, base, program_kinds(products), &[], &job.objects)?;
    let objects = read_all(alloc, &job.objects, files)?;
    let answer = link(alloc, &objects, products);
    Ok(finish(alloc, base, &answer, files, output))
}

/// Links objects to a program.
pub(crate) fn link_files<'a, F: Files, W: Sink>(
    alloc: Global,
    job: &Link<'a>,
    files: &mut F,
    output: &mut W,
) -> Result<End<'a>, End<'a>>
    ensures { LinkEnds job.now (effect_of (F.folder files.old) (F.folder files.new) (W.stream output.old) (W.stream output.new)) (ended result) }
{
    let base = base_of(job.out, &job.objects);
    link_with(alloc, base, job, files, output)
}

/// Gives the lines with an end at which all is done.
fn done_with_lines<'a>(end: End<'a>, lines: Vec<u8>) -> Result<Vec<u8>, End<'a>>
    ensures { DoneWithLines end.entry lines result }
{
    match end {
        End::Done => Ok(lines),
        end => Err(end),
    }
}

/// The lines of a program: its warnings, and how many jumps are short and long, if that is wanted and there is a program.
fn lines_of(
    alloc: Global,
    verbose: bool,
    jumps: Option<Jumps>,
    warnings: Vec<u8>,
) -> Result<Vec<u8>, AllocError>
    ensures { IfOk result (λ lines. lines.items ≡ warnings.items ++ jumps_lines verbose jumps) }
{
    let mut lines = warnings;
    match jumps {
        Some(jumps) if verbose => {
            let line = format!(in alloc; "{jumps}\n")?;
            lines.extend_from_slice(line.as_bytes())?;
            Ok(lines)
        }
        _ => Ok(lines),
    }
}

/// Builds the program of sources that were read, with definitions and shared files, which were read too, before each of them.
fn build_texts<'a, 's, F: Files, W: Sink>(
    alloc: Global,
    base: &'a str,
    job: &'s Build<'s>,
    fronts: &'s [Vec<u8>],
    texts: &'s [Vec<u8>],
    files: &mut F,
    output: &mut W,
) -> Result<Vec<u8>, End<'a>>
    requires fronts { length job.now.shared.files.items ≡ length fronts.now }
    requires texts { length job.now.sources.items ≡ length texts.now }
    ensures { EndsWithLines (BuildsTexts base.now job.now (map (λ text. text.items) fronts.now) (map (λ text. text.items) texts.now) (effect_of (F.folder files.old) (F.folder files.new) (W.stream output.old) (W.stream output.new))) result }
{
    let shared_files = shared_of(alloc, &job.shared.files, fronts)?;
    let sources = sources_of(alloc, &job.sources, texts)?;
    let front = Front {
        defines: &job.shared.defines,
        files: &shared_files,
    };
    let wanted = Wanted {
        grow: job.grow,
        products: build_products(job),
        warn: job.warn,
    };
    let Made {
        answer,
        jumps,
        warnings,
    } = build(alloc, front, &sources, wanted);
    // Before a file is written, so that a command that runs out of memory for it writes none.
    let lines = lines_of(alloc, job.verbose, jumps, warnings)?;
    done_with_lines(finish(alloc, base, &answer, files, output), lines)
}

/// Builds the program of sources. If all is done, the result is the lines of its warnings and its jumps.
pub(crate) fn build_files<'a, F: Files, W: Sink>(
    alloc: Global,
    job: &Build<'a>,
    files: &mut F,
    output: &mut W,
) -> Result<Vec<u8>, End<'a>>
    ensures { EndsWithLines (BuildEnds job.now (effect_of (F.folder files.old) (F.folder files.new) (W.stream output.old) (W.stream output.new))) result }
{
    let base = base_of(job.out, &job.sources);
    let kinds = build_kinds(job);
    refuse_overwriting(alloc, base, kinds, &job.shared.files, &job.sources)?;
    let fronts = read_all(alloc, &job.shared.files, files)?;
    let texts = read_all(alloc, &job.sources, files)?;
    build_texts(alloc, base, job, &fronts, &texts, files, output)
}

/// Checks a certificate against its sizes.
pub fn check_files<'a, F: Files, W: Sink>(
    alloc: Global,
    sizes: &'a str,
    cert: &'a str,
    files: &mut F,
    output: &mut W,
) -> Result<End<'a>, End<'a>>
    ensures { CheckEnds sizes.now cert.now (effect_of (F.folder files.old) (F.folder files.new) (W.stream output.old) (W.stream output.new)) (ended result) }
{
    let sizes = read(alloc, sizes, files)?;
    let cert = read(alloc, cert, files)?;
    Ok(check_texts(alloc, &sizes, &cert, output))
}
