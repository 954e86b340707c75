//! Reads and writes object files of any size, as often as a row says: for measuring, and for refusing each allocation
//! in turn.

ghost use Rattle.zmo_object.specs.Modules.{module_of};
ghost use Rattle.zmo_object.specs.Rules.{IsModule};

use crate::spelling::{Kind, Size, object_of};
use row_text::Row;
use std::alloc::{AllocError, Global};
use zmo_object::{Module, ObjectFault, read, write};

/// What a row asks for.
#[derive(Drop)]
struct Job {
    size: Size,
    reads: u32,
    writes: u32,
}

fn kind_of(word: &str) -> Kind {
    if word == "holes" {
        Kind::Holes
    } else if word == "mixed" {
        Kind::Mixed
    } else {
        Kind::Nothing
    }
}

fn job_of(row: &mut Row) -> Job {
    let kind = kind_of(row.word());
    Job {
        size: Size {
            kind,
            statements: row.short(),
            labels: row.short(),
        },
        reads: row.decimal(),
        writes: row.decimal(),
    }
}

fn read_often(alloc: Global, text: &[u8], times: u32) -> Result<(), ObjectFault> {
    for _ in 0..times {
        let _module = read(alloc, text)?;
    }
    Ok(())
}

/// Whether a module is written as this file each time.
fn write_often(alloc: Global, module: &Module, times: u32, text: &[u8]) -> Result<bool, AllocError>
    requires { IsModule (module_of «module».now) }
{
    for _ in 0..times {
        if write(alloc, module)?.as_slice() != text {
            return Ok(false);
        }
    }
    Ok(true)
}

fn is_same(alloc: Global, job: &Job) -> Result<bool, ObjectFault> {
    let text = object_of(alloc, &job.size)?;
    read_often(alloc, &text, job.reads)?;
    let module = read(alloc, &text)?;
    Ok(write_often(alloc, &module, job.writes, &text)?)
}

/// Prints whether each file that was written is the object file, or the object file's error. A refused allocation ends the program.
pub(crate) fn answer_sized(row: &mut Row) {
    let job = job_of(row);
    match is_same(row.alloc(), &job) {
        Ok(same) => write!(row, " {same}"),
        Err(ObjectFault::NoMemory) => row.refuse("no memory"),
        Err(fault) => write!(row, " {fault}"),
    }
}
