//! What a command answers.

ghost use Rattle.std.specs.Prelude.{◌≡◌, IfOk, codes, map};
ghost use Rattle.host.specs.Answers.{file_of, nothing};
ghost use Rattle.z80dev_make.specs.Answers.{answer_of, no_program, program_files, refusal_answer, text_files};

use host::{Answer, Kind, NewFile};
use report_texts::{Refusal, Told};
use std::alloc::{AllocError, Global};
use zlink::LinkFault;

/// Answers a refusal.
pub(crate) fn refused<'a>(alloc: Global, told: Told<'a>) -> Answer<Told<'a>>
    ensures { answer_of result ≡ refusal_answer told.entry }
{
    Answer::refused(alloc, told)
}

/// Answers that memory ran out.
pub(crate) fn without_memory<'a>(alloc: Global) -> Answer<Told<'a>>
    ensures { answer_of result ≡ nothing (codes "NoMemory") }
{
    refused(
        alloc,
        Told {
            path: "",
            refusal: Refusal::NoMemory,
        },
    )
}

/// Answers the sizes file and the certificate of a program, as files.
fn texts(alloc: Global, sizes: Vec<u8>, cert: Vec<u8>) -> Result<Vec<NewFile>, AllocError>
    ensures { IfOk result (λ files. map file_of files.items ≡ text_files sizes.items cert.items) }
{
    let mut files = Vec::with_capacity(alloc, 3)?;
    files.push(NewFile {
        kind: Kind::Sizes,
        bytes: sizes,
    })?;
    files.push(NewFile {
        kind: Kind::Certificate,
        bytes: cert,
    })?;
    Ok(files)
}

/// Answers the sizes file, the certificate and the .COM file of a program.
pub(crate) fn program(
    alloc: Global,
    sizes: Vec<u8>,
    cert: Vec<u8>,
    com: Vec<u8>,
) -> Result<Vec<NewFile>, AllocError>
    ensures { IfOk result (λ files. map file_of files.items ≡ program_files sizes.items cert.items «com».items) }
{
    let mut files = texts(alloc, sizes, cert)?;
    files.push(NewFile {
        kind: Kind::Com,
        bytes: com,
    })?;
    Ok(files)
}

/// Answers what is to be done if modules make no program.
pub(crate) fn no_program<'a>(
    alloc: Global,
    fault: LinkFault,
) -> Result<Answer<Told<'a>>, AllocError>
    ensures { IfOk result (λ answer. answer_of answer ≡ no_program fault) }
{
    let told = Told {
        path: "",
        refusal: Refusal::of_link(&fault),
    };
    match fault {
        LinkFault::NoFit { sizes, cert, .. } => Ok(Answer {
            files: texts(alloc, sizes, cert)?,
            printed: Vec::new(alloc),
            refusal: Some(told),
        }),
        _ => Ok(refused(alloc, told)),
    }
}
