//! The command `asm`: assembles a source to an object file.

ghost use Rattle.std.specs.Prelude.{◌≡◌, ◌++◌, [], IfOk};
ghost use Rattle.zmo_object.specs.Modules.{module_of};
ghost use Rattle.zmo_object.specs.Rules.{IsModule};
ghost use Rattle.asm_module.specs.Assembled.{Assembled};
ghost use Rattle.host.specs.Answers.{MemoryAside, nothing};
ghost use Rattle.z80dev_make.specs.Answers.{answer_of};
ghost use Rattle.report_texts.specs.Faults.Refusals.{told_text};
ghost use Rattle.z80dev_make.specs.Asm.{IsAsm, IsAsmBehind, object_answer};
ghost use Rattle.report_texts.specs.Front.{front_text};
ghost use Rattle.z80dev_make.specs.Warned.{AreModuleWarnings, wanted_warnings};
ghost use Rattle.report_texts.specs.declared.front.SourceFile.{SourceFile};

use crate::answer::{refused, without_memory};
use crate::warning::warn_module;
use asm_module::{Module, Why, assemble_with};
use host::{Answer, Kind, NewFile};
use report_texts::{Front, SourceFile, Told, fault_of_front, front_text, text_behind, told_behind};
use std::alloc::{AllocError, Global};
use zmo_object::write;

/// Answers the object file of a module.
fn object_of<'a>(alloc: Global, module: &Module) -> Result<Answer<Told<'a>>, AllocError>
    requires { IsModule (module_of «module».now) }
    ensures { IfOk result (λ answer. answer_of answer ≡ object_answer (module_of «module».now)) }
{
    let bytes = write(alloc, module)?;
    let mut files = Vec::with_capacity(alloc, 1)?;
    files.push(NewFile {
        kind: Kind::Object,
        bytes,
    })?;
    Ok(Answer::done(files, Vec::new(alloc)))
}

/// What `asm` answers.
#[derive(Debug, Drop)]
pub struct Object<'a> {
    /// What is to be done.
    pub answer: Answer<Told<'a>>,
    /// The lines that warn of code that relies on the length of a jump.
    pub warnings: Vec<u8>,
}

/// Answers a refusal without warnings.
fn object_refused<'a>(alloc: Global, told: Told<'a>) -> Object<'a>
    ensures answer { answer_of result.answer ≡ nothing (told_text told.entry) }
    ensures warned { result.warnings.items ≡ [] }
{
    Object {
        answer: refused(alloc, told),
        warnings: Vec::new(alloc),
    }
}

/// Answers the warnings of the module of a source after a front, if they are wanted.
fn warnings_of(
    alloc: Global,
    front: Front<'_>,
    path: &str,
    module: &Module,
    lines: Vec<u32>,
    warn: bool,
) -> Result<Vec<u8>, AllocError>
    ensures { IfOk result (λ out. (file : SourceFile) (a : Assembled) → file.path.now ≡ path.now → module_of «module».now ≡ a.holds → lines.items ≡ a.each → out.items ≡ wanted_warnings warn front.entry file a) }
{
    if warn {
        warn_module(alloc, front, path, module, lines)
    } else {
        Ok(Vec::new(alloc))
    }
}

/// Answers the object file of a source, or its first error, given the text of the front with the source after it.
fn assembled<'a>(
    alloc: Global,
    front: Front<'a>,
    file: SourceFile<'a>,
    text: &[u8],
    grow: bool,
    warn: bool,
) -> Result<Object<'a>, AllocError>
    requires { text.now ≡ front_text front ++ file.text.now }
    ensures answer { IfOk result (λ object. IsAsmBehind front.entry file.entry grow (answer_of object.answer)) }
    ensures warned { IfOk result (λ object. AreModuleWarnings warn front.entry file.entry grow (answer_of object.answer).said object.warnings.items) }
{
    match assemble_with(alloc, file.path.as_bytes(), text, grow) {
        Ok((module, lines)) => {
            let answer = object_of(alloc, &module)?;
            let warnings = warnings_of(alloc, front, file.path, &module, lines.each, warn)?;
            Ok(Object { answer, warnings })
        }
        Err(fault) => match fault.why {
            Why::NoMemory => Err(AllocError),
            _ => {
                let told = told_behind(front, file.path, fault);
                Ok(object_refused(alloc, told))
            }
        },
    }
}

/// Answers the object file of a source after a front, or the first error.
fn assembled_behind<'a>(
    alloc: Global,
    front: Front<'a>,
    file: SourceFile<'a>,
    grow: bool,
    warn: bool,
) -> Result<Object<'a>, AllocError>
    ensures answer { IfOk result (λ object. IsAsm front.entry file.entry grow (answer_of object.answer)) }
    ensures warned { IfOk result (λ object. AreModuleWarnings warn front.entry file.entry grow (answer_of object.answer).said object.warnings.items) }
{
    let before = front_text(alloc, front)?;
    if before.is_empty() {
        return assembled(alloc, front, file, file.text, grow, warn);
    }
    if let Some(told) = fault_of_front(alloc, front, &before)? {
        return Ok(object_refused(alloc, told));
    }
    let text = text_behind(alloc, &before, file.text)?;
    assembled(alloc, front, file, &text, grow, warn)
}

/// Assembles a source after a front, and answers its object file, and if they are wanted, its warnings. If `grow` is true, a written `JR` may
/// become a `JP` when it is linked.
///
/// A front that has an error is refused with its first one, and otherwise a source that has one. An error is reported with the line of the
/// file in which it is.
pub fn asm<'a>(
    alloc: Global,
    front: Front<'a>,
    file: SourceFile<'a>,
    grow: bool,
    warn: bool,
) -> Object<'a>
    ensures answer { MemoryAside (IsAsm front.entry file.entry grow) (answer_of result.answer) }
    ensures warned { AreModuleWarnings warn front.entry file.entry grow (answer_of result.answer).said result.warnings.items }
{
    match assembled_behind(alloc, front, file, grow, warn) {
        Ok(object) => object,
        Err(_) => Object {
            answer: without_memory(alloc),
            warnings: Vec::new(alloc),
        },
    }
}
