//! Doing what a command answers.

ghost use Rattle.std.specs.Prelude.{◌≡◌, ℕ, List, IfOk, map, option_map, string_bytes};
ghost use Rattle.host.specs.Answers.{file_of};
ghost use Rattle.host.specs.Private.Steps.{AreOutputs, Writes, end_of};
ghost use Rattle.host.specs.Finishing.{Finishes, IsWhy, path_of};
ghost use Rattle.host.specs.declared.answer.Kind.{Kind};

use crate::answer::{Answer, Kind, NewFile};
use crate::end::End;
use crate::files::Files;
use crate::{Sink, print};
use std::alloc::{AllocError, Global};
use std::fmt::Display;

/// A file of an answer, and the path under which it is written.
#[derive(Drop)]
struct Output<'a> {
    path: String,
    file: &'a NewFile,
}

/// The path of a file: the one that was given, and the file's ending.
fn path_of(alloc: Global, base: &str, kind: Kind) -> Result<String, AllocError>
    ensures { IfOk result (λ path. string_bytes path ≡ path_of base.now kind) }
{
    let mut path = String::from_str(alloc, base)?;
    path.push_str(kind.ending())?;
    Ok(path)
}

/// The files with their paths.
fn outputs_of<'a>(
    alloc: Global,
    base: &str,
    new: &'a [NewFile],
) -> Result<Vec<Output<'a>>, AllocError>
    ensures { IfOk result (λ outputs. AreOutputs base.now (map file_of new.now) outputs.items) }
{
    let mut outputs = Vec::with_capacity(alloc, new.len())?;
    for file in new {
        let path = path_of(alloc, base, file.kind)?;
        outputs.push(Output { path, file })?;
    }
    Ok(outputs)
}

/// The text of a refusal.
fn text_of<R: Display>(alloc: Global, refusal: &Option<R>) -> Result<Option<String>, AllocError>
    ensures { IfOk result (λ said. IsWhy R.output refusal.now (option_map string_bytes said)) }
{
    match refusal {
        Some(why) => Ok(Some(format!(in alloc; "{why}")?)),
        None => Ok(None),
    }
}

/// Writes files, each under its path.
fn write_files<'a, F: Files>(
    base: &'a str,
    outputs: &[Output<'_>],
    files: &mut F,
) -> Result<(), End<'a>>
    ensures { (all : List (Kind × List ℕ)) → AreOutputs base.now all outputs.now → Writes base.now all (F.folder files.old) (F.folder files.new) result }
{
    for output in outputs {
        let Ok(()) = files.write(&output.path, &output.file.bytes) else {
            return Err(End::File {
                path: base,
                ending: output.file.kind.ending(),
            });
        };
    }
    Ok(())
}

/// Writes the files of an answer, then prints its lines, and gives what is refused.
fn finish_all<'a, F: Files, W: Sink, R: Display>(
    alloc: Global,
    base: &'a str,
    answer: &Answer<R>,
    files: &mut F,
    output: &mut W,
) -> Result<(), End<'a>>
    ensures { Finishes R.output base.now answer.now (F.folder files.old) (F.folder files.new) (W.stream output.old) (W.stream output.new) (end_of result) }
{
    // All memory is taken before the first file is written, so that its want leaves no half of them.
    let refusal = text_of(alloc, &answer.refusal)?;
    let outputs = outputs_of(alloc, base, &answer.files)?;
    write_files(base, &outputs, files)?;
    let Ok(()) = print(output, &answer.printed) else {
        return Err(End::Stream);
    };
    match refusal {
        Some(text) => Err(End::Refused(text)),
        None => Ok(()),
    }
}

/// Does what a command answers: writes its files in their order, each under the path that was given and the file's ending, then prints its
/// lines on `output`. The result says how that ended.
pub fn finish<'a, F: Files, W: Sink, R: Display>(
    alloc: Global,
    base: &'a str,
    answer: &Answer<R>,
    files: &mut F,
    output: &mut W,
) -> End<'a>
    ensures { Finishes R.output base.now answer.now (F.folder files.old) (F.folder files.new) (W.stream output.old) (W.stream output.new) result }
{
    match finish_all(alloc, base, answer, files, output) {
        Ok(()) => End::Done,
        Err(end) => end,
    }
}
