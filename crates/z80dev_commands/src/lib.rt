//! Parses the words of a `z80dev` command line: which job they ask for.
#![tactic(auto)]

mod help;
mod job;
mod jobs;
mod usage;

ghost use Rattle.std.specs.Prelude.{◌≡◌, ◌⊎◌, true, IfErr, IfOk, map, string_bytes};
ghost use Rattle.clap.specs.Words.{HasKind, fault_of, kind_of, takes};
ghost use Rattle.clap.specs.declared.error.kind.ErrorKind.{ErrorKind};
ghost use Rattle.z80dev_commands.specs.Commands.{HasRightCount, IsJob, IsMiscounted, z80dev};

use clap::Error;
pub use job::{
    Asm, Attribute, Blank, Build, Check, Debugging, Dir, Dis, DiskJob, Erase, Explain, Get, GetAll,
    Job, Link, Manner, Play, Protect, Put, PutAll, Rename, Run, Shared, Target, Telling,
};
use std::alloc::Global;

/// The job that these words ask for. The first word is the program's name.
///
/// # Errors
///
/// Those of `clap`: an error of usage, a request for help or for the version, or out of memory. `put` and `get` also refuse a number of
/// paths that fits none of their forms, as `MissingRequiredArgument` or `TooManyValues`.
pub fn commands<'a>(alloc: Global, words: &'a [String]) -> Result<Job<'a>, Error>
    ensures job { IfOk result (IsJob (map (λ word. string_bytes word) words.now)) }
    ensures refused { IfErr result (λ e. HasKind (fault_of z80dev (map (λ word. string_bytes word) words.now)) e ⊎ IsMiscounted (map (λ word. string_bytes word) words.now) (kind_of e)) }
    ensures taken { IfErr result (λ e. takes z80dev (map (λ word. string_bytes word) words.now) ≡ true → HasRightCount (map (λ word. string_bytes word) words.now) → kind_of e ≡ ErrorKind.OutOfMemory) }
{
    // Words without a command are accepted, whatever the commands are: so none is built for them.
    if words.len() <= 1 {
        return Ok(Job::Pipe);
    }
    let matches = usage::z80dev(alloc)?.try_get_matches_from(words)?;
    let Some((name, found)) = matches.subcommand() else {
        return Ok(Job::Pipe);
    };
    jobs::job(alloc, name, found)
}
