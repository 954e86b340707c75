//! Makes the job of a parsed command from the values that the parse found.

ghost use Rattle.std.specs.Prelude.{◌≡◌, ◌∷◌, [], true, IfOk, MatchResult, Some, codes, is_some, length, map, not};
ghost use Rattle.clap.specs.Words.{all_of, first_of, found_of, kind_of, rows_of};
ghost use Rattle.z80dev_commands.specs.Commands.{FindsFirst, FindsAll, FindsAny, FindsIfGiven, FindsLock, FindsManner, FindsNumber, FindsShared, FindsTarget, FindsUser, FindsUserOrZero, IsJobOf, Miscounts, FindsLast, FindsTelling, is_on, is_system_attribute, protect_name};
ghost use Rattle.z80dev_commands.specs.Private.{AreFound, HasTarget, IsFlag, IsNumber, IsRefused};

use crate::job::{
    Asm, Attribute, Blank, Build, Check, Debugging, Dir, Dis, DiskJob, Erase, Explain, Get, GetAll,
    Job, Link, Manner, Play, Protect, Put, PutAll, Rename, Run, Shared, Target, Telling,
};
use crate::usage;
use clap::error::ErrorKind;
use clap::{ArgMatches, Command, Error};
use std::alloc::{AllocError, Global};

/// The message if `put` without `--to` has a wrong number of paths.
const ONE_NAME: &str = "without --to, put takes IMG, one FILE and one NAME";

/// The message if `get` without `--all` has a wrong number of paths.
const ONE_FILE: &str = "without --all, get takes IMG, one NAME and one FILE";

/// The message if `get` with `--all` has a wrong number of paths.
const NO_FILE: &str = "with --all, get takes IMG and one FOLDER";

/// The value of an argument that is sure to have one.
fn text<'a>(found: &ArgMatches<'a>, id: &str) -> &'a str
    requires { is_some (first_of id.now (rows_of (found_of found.now))) ≡ true }
    ensures { FindsFirst id.now result (rows_of (found_of found.now)) }
{
    found.get_str(id).unwrap()
}

/// The values of an argument that is sure to have at least one.
fn texts<'a>(alloc: Global, found: &ArgMatches<'a>, id: &str) -> Result<Vec<&'a str>, AllocError>
    requires { is_some (all_of id.now (rows_of (found_of found.now))) ≡ true }
    ensures { IfOk result (λ texts. FindsAll id.now texts.items (rows_of (found_of found.now))) }
{
    found.get_strs(id).unwrap().to_vec(alloc)
}

/// The value of an argument, if it has one.
fn text_if_given<'a>(found: &ArgMatches<'a>, id: &str) -> Option<&'a str>
    ensures { FindsIfGiven id.now result (rows_of (found_of found.now)) }
{
    found.get_str(id)
}

/// The values of an argument; none if it is not given.
fn texts_if_given<'a>(
    alloc: Global,
    found: &ArgMatches<'a>,
    id: &str,
) -> Result<Vec<&'a str>, AllocError>
    ensures { IfOk result (λ texts. FindsAny id.now texts.items (rows_of (found_of found.now))) }
{
    match found.get_strs(id) {
        Some(texts) => texts.to_vec(alloc),
        None => Ok(Vec::new(alloc)),
    }
}

/// The number that an option gives, if it is given.
fn number(found: &ArgMatches, id: &str) -> Option<u64>
    requires { IsNumber id.now 18446744073709551615 (rows_of (found_of found.now)) }
    ensures { FindsNumber id.now result (rows_of (found_of found.now)) }
{
    found.get_one(id)
}

/// The user that `--user` gives, if it is given.
fn user(found: &ArgMatches) -> Option<u8>
    requires { IsNumber (codes "N") 31 (rows_of (found_of found.now)) }
    ensures { FindsUser result (rows_of (found_of found.now)) }
{
    found.get_one("N")
}

/// The user that `--user` gives, or user 0 if it is not given.
fn user_or_zero(found: &ArgMatches) -> u8
    requires { IsNumber (codes "N") 31 (rows_of (found_of found.now)) }
    ensures { FindsUserOrZero result (rows_of (found_of found.now)) }
{
    user(found).unwrap_or(0)
}

/// Whether a flag is given.
fn flag(found: &ArgMatches, id: &str) -> bool
    requires { IsFlag id.now (rows_of (found_of found.now)) }
    ensures { is_on id.now (rows_of (found_of found.now)) ≡ result }
{
    found.get_flag(id)
}

/// Whether the command locks the image: it does without `--no-lock`.
fn lock(found: &ArgMatches) -> bool
    requires { IsFlag (codes "no-lock") (rows_of (found_of found.now)) }
    ensures { FindsLock result (rows_of (found_of found.now)) }
{
    !flag(found, "no-lock")
}

/// Whether the command warns: it does without `--no-warn`.
fn warn(found: &ArgMatches) -> bool
    requires { IsFlag (codes "no-warn") (rows_of (found_of found.now)) }
    ensures { is_on (codes "no-warn") (rows_of (found_of found.now)) ≡ not result }
{
    !flag(found, "no-warn")
}

/// The image that a command changes, with the user and whether it is locked.
fn target<'a>(found: &ArgMatches<'a>) -> Target<'a>
    requires { HasTarget (rows_of (found_of found.now)) }
    ensures { FindsTarget result (rows_of (found_of found.now)) }
{
    Target {
        image: text(found, "IMG"),
        user: user_or_zero(found),
        lock: lock(found),
    }
}

/// The lines before each source.
fn shared<'a>(alloc: Global, found: &ArgMatches<'a>) -> Result<Shared<'a>, AllocError>
    ensures { IfOk result (λ shared. FindsShared shared (rows_of (found_of found.now))) }
{
    Ok(Shared {
        defines: texts_if_given(alloc, found, "NAME=VALUE")?,
        files: texts_if_given(alloc, found, "FILE")?,
    })
}

/// The path, if there is exactly one.
///
/// # Errors
///
/// `MissingRequiredArgument` if there is none, `TooManyValues` if there are more.
fn only<'a>(texts: &[&'a str]) -> Result<&'a str, ErrorKind>
    ensures { MatchResult result (λ text. texts.now ≡ text ∷ []) (Miscounts (length texts.now) 1) }
{
    match texts {
        [text] => Ok(*text),
        [] => Err(ErrorKind::MissingRequiredArgument),
        _ => Err(ErrorKind::TooManyValues),
    }
}

/// The error of a command with too few or too many paths. It shows the form that the command needs, and the usage of the command.
fn miscounted(
    command: Result<Command<'_>, AllocError>,
    kind: ErrorKind,
    form: &str,
) -> Result<Error, AllocError>
    ensures { IfOk result (λ e. kind_of e ≡ kind) }
{
    let mut command = command?;
    command.error(kind, form)
}

fn asm<'a>(alloc: Global, found: &ArgMatches<'a>) -> Result<Job<'a>, AllocError>
    requires { AreFound (codes "asm") (rows_of (found_of found.now)) }
    ensures { IfOk result (IsJobOf (Some (codes "asm", rows_of (found_of found.now)))) }
{
    Ok(Job::Asm(Asm {
        out: text_if_given(found, "BASE"),
        grow: flag(found, "grow"),
        warn: warn(found),
        shared: shared(alloc, found)?,
        source: text(found, "SRC"),
    }))
}

fn link<'a>(alloc: Global, found: &ArgMatches<'a>) -> Result<Job<'a>, AllocError>
    requires { AreFound (codes "link") (rows_of (found_of found.now)) }
    ensures { IfOk result (IsJobOf (Some (codes "link", rows_of (found_of found.now)))) }
{
    Ok(Job::Link(Link {
        out: text_if_given(found, "BASE"),
        map: flag(found, "map"),
        symbols: text_if_given(found, "FORM"),
        objects: texts(alloc, found, "OBJ")?,
    }))
}

fn build<'a>(alloc: Global, found: &ArgMatches<'a>) -> Result<Job<'a>, AllocError>
    requires { AreFound (codes "build") (rows_of (found_of found.now)) }
    ensures { IfOk result (IsJobOf (Some (codes "build", rows_of (found_of found.now)))) }
{
    Ok(Job::Build(Build {
        out: text_if_given(found, "BASE"),
        grow: flag(found, "grow"),
        list: flag(found, "list"),
        map: flag(found, "map"),
        symbols: text_if_given(found, "FORM"),
        verbose: flag(found, "verbose"),
        warn: warn(found),
        shared: shared(alloc, found)?,
        sources: texts(alloc, found, "SRC")?,
    }))
}

fn explain<'a>(alloc: Global, found: &ArgMatches<'a>) -> Result<Job<'a>, AllocError>
    requires { AreFound (codes "explain") (rows_of (found_of found.now)) }
    ensures { IfOk result (IsJobOf (Some (codes "explain", rows_of (found_of found.now)))) }
{
    Ok(Job::Explain(Explain {
        grow: flag(found, "grow"),
        jumps: flag(found, "jumps"),
        json: flag(found, "json"),
        color: text_if_given(found, "WHEN"),
        shared: shared(alloc, found)?,
        sources: texts(alloc, found, "SRC")?,
    }))
}

fn check<'a>(found: &ArgMatches<'a>) -> Job<'a>
    requires { AreFound (codes "check") (rows_of (found_of found.now)) }
    ensures { IsJobOf (Some (codes "check", rows_of (found_of found.now))) result }
{
    Job::Check(Check {
        sizes: text(found, "SIZES"),
        cert: text(found, "CERT"),
    })
}

fn dis<'a>(alloc: Global, found: &ArgMatches<'a>) -> Result<Job<'a>, AllocError>
    requires { AreFound (codes "dis") (rows_of (found_of found.now)) }
    ensures { IfOk result (IsJobOf (Some (codes "dis", rows_of (found_of found.now)))) }
{
    Ok(Job::Dis(Dis {
        labels: text_if_given(found, "SYM"),
        entries: texts_if_given(alloc, found, "ADDR")?,
        data_starts: texts_if_given(alloc, found, "DATA")?,
        program: text(found, "COM"),
    }))
}

fn dir<'a>(found: &ArgMatches<'a>) -> Job<'a>
    requires { AreFound (codes "dir") (rows_of (found_of found.now)) }
    ensures { IsJobOf (Some (codes "dir", rows_of (found_of found.now))) result }
{
    Job::Disk(DiskJob::Dir(Dir {
        image: text(found, "IMG"),
        user: user(found),
        long: flag(found, "long"),
        name: text_if_given(found, "NAME"),
    }))
}

/// Whether `put` replaces files, and whether it puts them as texts.
fn manner(found: &ArgMatches) -> Manner
    requires { AreFound (codes "put") (rows_of (found_of found.now)) }
    ensures { FindsManner result (rows_of (found_of found.now)) }
{
    Manner {
        replace: flag(found, "replace"),
        text: flag(found, "text"),
    }
}

fn put<'a>(alloc: Global, found: &ArgMatches<'a>) -> Result<Job<'a>, Error>
    requires { AreFound (codes "put") (rows_of (found_of found.now)) }
    ensures { MatchResult result (IsJobOf (Some (codes "put", rows_of (found_of found.now)))) (IsRefused (Some (codes "put", rows_of (found_of found.now)))) }
{
    let target = target(found);
    let manner = manner(found);
    let file = text(found, "FILE");
    let mut names = texts_if_given(alloc, found, "NAME")?;
    if flag(found, "to") {
        names.insert(0, file)?;
        return Ok(Job::Disk(DiskJob::PutAll(PutAll {
            target,
            manner,
            files: names,
        })));
    }
    match only(&names) {
        Ok(name) => Ok(Job::Disk(DiskJob::Put(Put {
            target,
            manner,
            file,
            name,
        }))),
        Err(kind) => Err(miscounted(usage::put(alloc), kind, ONE_NAME)?),
    }
}

/// The job of `get --all`, or an error if a second path is given.
fn get_all<'a>(alloc: Global, found: &ArgMatches<'a>, files: &[&'a str]) -> Result<Job<'a>, Error>
    requires found { AreFound (codes "get") (rows_of (found_of found.now)) }
    requires all { is_on (codes "all") (rows_of (found_of found.now)) ≡ true }
    requires files { FindsAny (codes "FILE") files.now (rows_of (found_of found.now)) }
    ensures { MatchResult result (IsJobOf (Some (codes "get", rows_of (found_of found.now)))) (IsRefused (Some (codes "get", rows_of (found_of found.now)))) }
{
    if files.is_empty() {
        Ok(Job::Disk(DiskJob::GetAll(GetAll {
            image: text(found, "IMG"),
            user: user_or_zero(found),
            text: flag(found, "text"),
            folder: text(found, "NAME"),
        })))
    } else {
        Err(miscounted(usage::get(alloc), ErrorKind::TooManyValues, NO_FILE)?)
    }
}

fn get<'a>(alloc: Global, found: &ArgMatches<'a>) -> Result<Job<'a>, Error>
    requires { AreFound (codes "get") (rows_of (found_of found.now)) }
    ensures { MatchResult result (IsJobOf (Some (codes "get", rows_of (found_of found.now)))) (IsRefused (Some (codes "get", rows_of (found_of found.now)))) }
{
    let files = texts_if_given(alloc, found, "FILE")?;
    if flag(found, "all") {
        return get_all(alloc, found, &files);
    }
    match only(&files) {
        Ok(file) => Ok(Job::Disk(DiskJob::Get(Get {
            image: text(found, "IMG"),
            user: user_or_zero(found),
            text: flag(found, "text"),
            name: text(found, "NAME"),
            file,
        }))),
        Err(kind) => Err(miscounted(usage::get(alloc), kind, ONE_FILE)?),
    }
}

fn erase<'a>(alloc: Global, found: &ArgMatches<'a>) -> Result<Job<'a>, AllocError>
    requires { AreFound (codes "erase") (rows_of (found_of found.now)) }
    ensures { IfOk result (IsJobOf (Some (codes "erase", rows_of (found_of found.now)))) }
{
    Ok(Job::Disk(DiskJob::Erase(Erase {
        target: target(found),
        names: texts(alloc, found, "NAME")?,
    })))
}

fn rename<'a>(found: &ArgMatches<'a>) -> Job<'a>
    requires { AreFound (codes "rename") (rows_of (found_of found.now)) }
    ensures { IsJobOf (Some (codes "rename", rows_of (found_of found.now))) result }
{
    Job::Disk(DiskJob::Rename(Rename {
        target: target(found),
        old: text(found, "OLD"),
        new: text(found, "NEW"),
    }))
}

/// The attribute that `protect` sets and `unprotect` clears.
fn attribute(found: &ArgMatches) -> Attribute
    requires { IsFlag (codes "system") (rows_of (found_of found.now)) }
    ensures { is_on (codes "system") (rows_of (found_of found.now)) ≡ is_system_attribute result }
{
    if flag(found, "system") {
        Attribute::System
    } else {
        Attribute::ReadOnly
    }
}

/// The job of `protect`, or of `unprotect` if `on` is false.
fn protect<'a>(alloc: Global, on: bool, found: &ArgMatches<'a>) -> Result<Job<'a>, AllocError>
    requires { AreFound (protect_name on) (rows_of (found_of found.now)) }
    ensures { IfOk result (IsJobOf (Some (protect_name on, rows_of (found_of found.now)))) }
{
    Ok(Job::Disk(DiskJob::Protect(Protect {
        target: target(found),
        attribute: attribute(found),
        on,
        names: texts(alloc, found, "NAME")?,
    })))
}

fn check_disk<'a>(found: &ArgMatches<'a>) -> Job<'a>
    requires { AreFound (codes "check-disk") (rows_of (found_of found.now)) }
    ensures { IsJobOf (Some (codes "check-disk", rows_of (found_of found.now))) result }
{
    Job::Disk(DiskJob::Check(text(found, "IMG")))
}

fn blank<'a>(found: &ArgMatches<'a>) -> Job<'a>
    requires { AreFound (codes "blank") (rows_of (found_of found.now)) }
    ensures { IsJobOf (Some (codes "blank", rows_of (found_of found.now))) result }
{
    Job::Disk(DiskJob::Blank(Blank {
        mega: flag(found, "mega"),
        keep: flag(found, "keep"),
        lock: lock(found),
        image: text(found, "IMG"),
    }))
}

/// How many of the last steps are printed, if `--last` is given.
fn last(found: &ArgMatches) -> Option<u32>
    requires { IsNumber (codes "COUNT") 1000000 (rows_of (found_of found.now)) }
    ensures { FindsLast result (rows_of (found_of found.now)) }
{
    found.get_one("COUNT")
}

/// What `run` tells about a run.
fn telling<'a>(found: &ArgMatches<'a>) -> Telling<'a>
    requires { AreFound (codes "run") (rows_of (found_of found.now)) }
    ensures { FindsTelling result (rows_of (found_of found.now)) }
{
    Telling {
        labels: text_if_given(found, "SYM"),
        registers: flag(found, "regs"),
        last: last(found),
        trace: text_if_given(found, "TRC"),
        profile: text_if_given(found, "PRF"),
        list: text_if_given(found, "LST"),
    }
}

fn run<'a>(alloc: Global, found: &ArgMatches<'a>) -> Result<Job<'a>, AllocError>
    requires { AreFound (codes "run") (rows_of (found_of found.now)) }
    ensures { IfOk result (IsJobOf (Some (codes "run", rows_of (found_of found.now)))) }
{
    Ok(Job::Run(Run {
        disk: text_if_given(found, "IMG"),
        lock: lock(found),
        steps: number(found, "N"),
        telling: telling(found),
        program: text(found, "COM"),
        words: texts_if_given(alloc, found, "WORD")?,
    }))
}

fn debug<'a>(alloc: Global, found: &ArgMatches<'a>) -> Result<Job<'a>, AllocError>
    requires { AreFound (codes "debug") (rows_of (found_of found.now)) }
    ensures { IfOk result (IsJobOf (Some (codes "debug", rows_of (found_of found.now)))) }
{
    Ok(Job::Debug(Debugging {
        disk: text_if_given(found, "IMG"),
        input: text_if_given(found, "FILE"),
        replay: text_if_given(found, "REC"),
        labels: text_if_given(found, "SYM"),
        list: text_if_given(found, "LST"),
        program: text(found, "COM"),
        words: texts_if_given(alloc, found, "WORD")?,
    }))
}

fn play<'a>(alloc: Global, found: &ArgMatches<'a>) -> Result<Job<'a>, AllocError>
    requires { AreFound (codes "play") (rows_of (found_of found.now)) }
    ensures { IfOk result (IsJobOf (Some (codes "play", rows_of (found_of found.now)))) }
{
    Ok(Job::Play(Play {
        disk: text_if_given(found, "IMG"),
        lock: lock(found),
        steps: number(found, "N"),
        raw: flag(found, "raw"),
        terminal: text_if_given(found, "CODES"),
        record: text_if_given(found, "FILE"),
        replay: text_if_given(found, "REC"),
        program: text(found, "COM"),
        words: texts_if_given(alloc, found, "WORD")?,
    }))
}

/// The job of the command with this name.
pub(crate) fn job<'a>(alloc: Global, name: &str, found: &ArgMatches<'a>) -> Result<Job<'a>, Error>
    requires { AreFound name.now (rows_of (found_of found.now)) }
    ensures { MatchResult result (IsJobOf (Some (name.now, rows_of (found_of found.now)))) (IsRefused (Some (name.now, rows_of (found_of found.now)))) }
{
    match name {
        "asm" => Ok(asm(alloc, found)?),
        "link" => Ok(link(alloc, found)?),
        "build" => Ok(build(alloc, found)?),
        "explain" => Ok(explain(alloc, found)?),
        "check" => Ok(check(found)),
        "dis" => Ok(dis(alloc, found)?),
        "dir" => Ok(dir(found)),
        "put" => put(alloc, found),
        "get" => get(alloc, found),
        "erase" => Ok(erase(alloc, found)?),
        "rename" => Ok(rename(found)),
        "protect" => Ok(protect(alloc, true, found)?),
        "unprotect" => Ok(protect(alloc, false, found)?),
        "check-disk" => Ok(check_disk(found)),
        "blank" => Ok(blank(found)),
        "run" => Ok(run(alloc, found)?),
        "debug" => Ok(debug(alloc, found)?),
        "play" => Ok(play(alloc, found)?),
        _ => unreachable!(),
    }
}
