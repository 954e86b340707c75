//! Sources after a front: their texts, and their program with the numbers that lines have in their own source.

ghost use Rattle.std.specs.Prelude.{◌≡◌, ◌++◌, ◌-◌, ℕ, IfOk, length, map};
ghost use Rattle.std.specs.List.{AllZip};
ghost use Rattle.report_texts.specs.Behind.{HasOwnLines, IsBehind, IsSource, earlier_lines, earlier_origin};
ghost use Rattle.report_texts.specs.Front.{CountsLines, earlier, front_text};
ghost use Rattle.report_texts.specs.Private.Steps.{AreNamed};

use crate::front::{Front, SourceFile, front_lines, text_behind};
use asm_module::Lines;
use std::alloc::{AllocError, Global};
use zlink::{Built, Origin, Source};

/// Answers the sources, whose names are their paths.
pub fn sources_of<'a>(
    alloc: Global,
    files: &[SourceFile<'a>],
) -> Result<Vec<Source<'a>>, AllocError>
    ensures { IfOk result (λ sources. AllZip IsSource files.now sources.items) }
{
    let mut sources = Vec::with_capacity(alloc, files.len())?;
    for file in files {
        sources.push(Source {
            name: file.path.as_bytes(),
            text: file.text,
        })?;
    }
    Ok(sources)
}

/// Answers the texts of files after the text of a front.
pub fn texts_behind(
    alloc: Global,
    front: &[u8],
    files: &[SourceFile<'_>],
) -> Result<Vec<Vec<u8>>, AllocError>
    ensures { IfOk result (λ texts. map (λ text. text.items) texts.items ≡ map (λ file. front.now ++ file.text.now) files.now) }
{
    let mut texts = Vec::with_capacity(alloc, files.len())?;
    for file in files {
        texts.push(text_behind(alloc, front, file.text)?)?;
    }
    Ok(texts)
}

/// Answers the sources with these texts. Their names are the paths of the files.
fn named<'s>(
    alloc: Global,
    files: &'s [SourceFile<'_>],
    texts: &'s [Vec<u8>],
) -> Result<Vec<Source<'s>>, AllocError>
    requires { length texts.now ≡ length files.now }
    ensures { IfOk result (λ sources. AreNamed (map (λ file. file.path.now) files.now) (map (λ text. text.items) texts.now) sources.items) }
{
    let mut sources = Vec::with_capacity(alloc, files.len())?;
    for file in files {
        let text = &texts[sources.len()];
        sources.push(Source {
            name: file.path.as_bytes(),
            text,
        })?;
    }
    Ok(sources)
}

/// Answers sources after a front, given the texts of the front with theirs. Their names are the paths of the files.
///
/// # Errors
///
/// [`AllocError`] if memory ran out.
pub fn sources_behind<'s>(
    alloc: Global,
    front: Front<'_>,
    files: &'s [SourceFile<'_>],
    texts: &'s [Vec<u8>],
) -> Result<Vec<Source<'s>>, AllocError>
    requires { map (λ text. text.items) texts.now ≡ map (λ file. front_text front ++ file.text.now) files.now }
    ensures { IfOk result (λ sources. AllZip (IsBehind front.entry) files.now sources.items) }
{
    named(alloc, files, texts)
}

/// Answers the number that a line has in its own source, given how many lines the front has.
fn own_line(line: u32, lines: usize) -> u32
    ensures { (all : ℕ) → CountsLines lines all → result ≡ line - all }
{
    (line as usize).saturating_sub(lines) as u32
}

/// Gives origins the numbers that their lines have in their own sources.
fn number_origins(origins: &mut [Origin], lines: usize)
    ensures { (all : ℕ) → CountsLines lines all → origins.new ≡ map (earlier_origin all) origins.old }
{
    for origin in origins.iter_mut() {
        origin.line = own_line(origin.line, lines);
    }
}

/// Gives lines the numbers that they have in their own sources.
pub fn number_lines(numbers: &mut [u32], lines: usize)
    ensures { (all : ℕ) → CountsLines lines all → numbers.new ≡ map (earlier all) numbers.old }
{
    for number in numbers.iter_mut() {
        *number = own_line(*number, lines);
    }
}

/// Gives the lines of a module the numbers that they have in its source.
fn number_module(module: &mut Lines, lines: usize)
    ensures { (all : ℕ) → CountsLines lines all → («module».new.each.items, «module».new.last) ≡ earlier_lines all «module».old }
{
    number_lines(&mut module.each, lines);
    module.last = own_line(module.last, lines);
}

/// Gives the lines of modules the numbers that they have in their own sources.
fn number_modules(modules: &mut [Lines], lines: usize)
    ensures { (all : ℕ) → CountsLines lines all → map (λ l. (l.each.items, l.last)) modules.new ≡ map (earlier_lines all) modules.old }
{
    for module in modules.iter_mut() {
        number_module(module, lines);
    }
}

/// Answers the program with the lines of sources by their own numbers.
pub fn with_own_lines(mut built: Built, front: Front<'_>) -> Built
    ensures { HasOwnLines front.entry built result }
{
    let lines = front_lines(front);
    number_origins(&mut built.statements, lines);
    number_lines(&mut built.last, lines);
    number_modules(&mut built.lines, lines);
    built
}
