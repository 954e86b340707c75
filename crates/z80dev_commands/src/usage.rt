//! The command for `clap`: its commands.

mod arguments;

ghost use Rattle.std.specs.Prelude.{◌≡◌, IfOk, Ok, false, codes};
ghost use Rattle.clap.specs.Words.{AddsSubcommand, app_of, new_app};
ghost use Rattle.clap.specs.declared.builder.command.Command.TheViews.{out-Command};
ghost use Rattle.z80dev_commands.specs.Commands.{asm_shape, bare, blank_shape, build_shape, check_disk_shape, check_shape, debug_shape, dir_shape, dis_shape, erase_shape, explain_shape, get_shape, link_shape, play_shape, programs, protect_shape, put_shape, rename_shape, run_shape, with_files, z80dev};
ghost use Rattle.z80dev_commands.specs.Private.{alone};

use crate::help;
use arguments::{
    any_steps, base, color, data, define, flag, grow, image, json, jumps, labels, list, map,
    name_if_given, names, no_lock, no_warn, option, path, paths, raw, steps, symbols, user,
    user_or_zero, verbose, with_file, with_target, with_telling, words,
};
use clap::Command;
use std::alloc::{AllocError, Global};

/// The version that `--version` prints after the command's name.
const VERSION: &str = "0.2.0";

/// A command without its arguments: its name, what it does, and the text at the end of its help.
fn titled<'a>(alloc: Global, name: &'a str, about: &'a str, below: &'a str) -> Command<'a>
    ensures app { app_of result ≡ new_app name.now }
    ensures local { (out-Command result).has_globals ≡ false }
{
    Command::new(alloc, name).about(about).after_help(below)
}

fn asm<'a>(alloc: Global) -> Result<Command<'a>, AllocError>
    ensures app { IfOk result (λ c. app_of c ≡ alone asm_shape) }
    ensures local { IfOk result (λ c. (out-Command c).has_globals ≡ false) }
{
    titled(
        alloc,
        "asm",
        "Assembles a source file to an object file",
        help::ASM,
    )
    .arg(base(
        alloc,
        "The path of the object file, without its ending [default: SRC without its ending]",
    ))?
    .arg(grow(alloc))?
    .arg(no_warn(alloc))?
    .arg(define(alloc))?
    .arg(with_file(alloc))?
    .arg(path(alloc, "SRC", "The source file"))
}

fn link<'a>(alloc: Global) -> Result<Command<'a>, AllocError>
    ensures app { IfOk result (λ c. app_of c ≡ alone link_shape) }
    ensures local { IfOk result (λ c. (out-Command c).has_globals ≡ false) }
{
    titled(alloc, "link", "Links object files to a program", help::LINK)
        .arg(base(
            alloc,
            "The path of the files to write, without their endings [default: the first OBJ without its ending]",
        ))?
        .arg(map(alloc))?
        .arg(symbols(alloc))?
        .arg(paths(
            alloc,
            "OBJ",
            "The object files, in the order of their code in the program",
        ))
}

fn build<'a>(alloc: Global) -> Result<Command<'a>, AllocError>
    ensures app { IfOk result (λ c. app_of c ≡ alone build_shape) }
    ensures local { IfOk result (λ c. (out-Command c).has_globals ≡ false) }
{
    titled(
        alloc,
        "build",
        "Assembles and links source files to a program",
        help::BUILD,
    )
    .arg(base(
        alloc,
        "The path of the files to write, without their endings [default: the first SRC without its ending]",
    ))?
    .arg(grow(alloc))?
    .arg(flag(
        alloc,
        "list",
        "Also writes the listing BASE.lst and the labels BASE.sym",
    ))?
    .arg(map(alloc))?
    .arg(symbols(alloc))?
    .arg(verbose(alloc))?
    .arg(no_warn(alloc))?
    .arg(define(alloc))?
    .arg(with_file(alloc))?
    .arg(paths(
        alloc,
        "SRC",
        "The source files, in the order of their code in the program",
    ))
}

fn explain<'a>(alloc: Global) -> Result<Command<'a>, AllocError>
    ensures app { IfOk result (λ c. app_of c ≡ alone explain_shape) }
    ensures local { IfOk result (λ c. (out-Command c).has_globals ≡ false) }
{
    titled(
        alloc,
        "explain",
        "Explains every error of source files, as far as it can know them",
        help::EXPLAIN,
    )
    .arg(grow(alloc))?
    .arg(jumps(alloc))?
    .arg(json(alloc))?
    .arg(color(alloc))?
    .arg(define(alloc))?
    .arg(with_file(alloc))?
    .arg(paths(
        alloc,
        "SRC",
        "The source files, in the order of their code in the program",
    ))
}

fn check<'a>(alloc: Global) -> Result<Command<'a>, AllocError>
    ensures app { IfOk result (λ c. app_of c ≡ alone check_shape) }
    ensures local { IfOk result (λ c. (out-Command c).has_globals ≡ false) }
{
    titled(
        alloc,
        "check",
        "Checks the certificate that a program has the fewest bytes",
        help::CHECK,
    )
    .arg(path(alloc, "SIZES", "The sizes: a line for each statement"))?
    .arg(path(
        alloc,
        "CERT",
        "The certificate: the jumps that have to be long, and the verdict",
    ))
}

fn dis<'a>(alloc: Global) -> Result<Command<'a>, AllocError>
    ensures app { IfOk result (λ c. app_of c ≡ alone dis_shape) }
    ensures local { IfOk result (λ c. (out-Command c).has_globals ≡ false) }
{
    titled(
        alloc,
        "dis",
        "Prints a source file that builds to a program",
        help::DIS,
    )
    .arg(labels(alloc))?
    .arg(list(
        alloc,
        "entry",
        "ADDR",
        "An address at which code begins, such as 0150H",
    ))?
    .arg(data(alloc))?
    .arg(path(alloc, "COM", "The path of the program"))
}

/// The command `z80dev` without its commands.
fn bare<'a>(alloc: Global) -> Result<Command<'a>, AllocError>
    ensures app { IfOk result (λ c. app_of c ≡ bare) }
{
    Command::new(alloc, "z80dev")
        .about("Makes Z80 programs for CP/M 2.2, puts them on disks and runs them")
        .version(VERSION)
        .after_help(help::WITHOUT_COMMAND)
        .disable_help_subcommand(true)
        .bin_name("z80dev")
}

fn dir<'a>(alloc: Global) -> Result<Command<'a>, AllocError>
    ensures app { IfOk result (λ c. app_of c ≡ alone dir_shape) }
    ensures local { IfOk result (λ c. (out-Command c).has_globals ≡ false) }
{
    titled(alloc, "dir", "Lists the files of a disk", help::DIR)
        .arg(user(alloc, "Lists the files of this user only, 0 to 31"))?
        .arg(flag(
            alloc,
            "long",
            "Also prints the room that each file takes, and what is free",
        ))?
        .arg(image(alloc))?
        .arg(name_if_given(alloc))
}

/// A command that has two forms. Its usage is written out here, because `clap` shows only one form.
fn of_two_forms<'a>(
    alloc: Global,
    name: &'a str,
    about: &'a str,
    below: &'a str,
    forms: &'a str,
) -> Command<'a>
    ensures app { app_of result ≡ new_app name.now }
    ensures local { (out-Command result).has_globals ≡ false }
{
    titled(alloc, name, about, below).override_usage(forms)
}

/// The command `put` by itself, so that an error shows the usage of `put`.
pub(crate) fn put<'a>(alloc: Global) -> Result<Command<'a>, AllocError>
    ensures app { IfOk result (λ c. app_of c ≡ alone put_shape) }
    ensures local { IfOk result (λ c. (out-Command c).has_globals ≡ false) }
{
    let command = of_two_forms(
        alloc,
        "put",
        "Puts files on a disk",
        help::PUT,
        help::PUT_FORMS,
    )
    .arg(flag(alloc, "to", "Puts each file under its own name"))?
    .arg(flag(
        alloc,
        "replace",
        "Replaces a file that has the name already",
    ))?
    .arg(flag(
        alloc,
        "text",
        "Turns each LF into CR LF, and adds 1AH at the end",
    ))?;
    with_target(alloc, command)?
        .arg(path(alloc, "FILE", "The path of the file to put on the disk"))?
        .arg(words(
            alloc,
            "NAME",
            "In the first form the file's name on the disk, such as BIG.DAT; in the second more files",
        ))
}

/// The command `get` by itself, so that an error shows the usage of `get`.
pub(crate) fn get<'a>(alloc: Global) -> Result<Command<'a>, AllocError>
    ensures app { IfOk result (λ c. app_of c ≡ alone get_shape) }
    ensures local { IfOk result (λ c. (out-Command c).has_globals ≡ false) }
{
    of_two_forms(
        alloc,
        "get",
        "Gets files from a disk",
        help::GET,
        help::GET_FORMS,
    )
    .arg(flag(alloc, "all", "Gets every file of the user"))?
    .arg(flag(
        alloc,
        "text",
        "Ends a file at its first 1AH, and turns each CR LF into LF",
    ))?
    .arg(user_or_zero(alloc))?
    .arg(image(alloc))?
    .arg(path(
        alloc,
        "NAME",
        "In the first form the file's name on the disk, such as BIG.DAT; in the second the folder to write into",
    ))?
    .arg(words(alloc, "FILE", "The path of the file to write"))
}

fn erase<'a>(alloc: Global) -> Result<Command<'a>, AllocError>
    ensures app { IfOk result (λ c. app_of c ≡ alone erase_shape) }
    ensures local { IfOk result (λ c. (out-Command c).has_globals ≡ false) }
{
    let command = titled(alloc, "erase", "Erases files of a disk", help::ERASE);
    with_target(alloc, command)?.arg(names(alloc))
}

fn rename<'a>(alloc: Global) -> Result<Command<'a>, AllocError>
    ensures app { IfOk result (λ c. app_of c ≡ alone rename_shape) }
    ensures local { IfOk result (λ c. (out-Command c).has_globals ≡ false) }
{
    let command = titled(alloc, "rename", "Renames a file of a disk", help::RENAME);
    with_target(alloc, command)?
        .arg(path(alloc, "OLD", "The file's name on the disk, such as BIG.DAT"))?
        .arg(path(alloc, "NEW", "The name that it gets"))
}

/// The command `protect` or `unprotect`; both have the same arguments.
fn protecting<'a>(
    alloc: Global,
    name: &'a str,
    about: &'a str,
    below: &'a str,
    system: &'a str,
) -> Result<Command<'a>, AllocError>
    ensures app { IfOk result (λ c. app_of c ≡ alone (protect_shape name.now)) }
    ensures local { IfOk result (λ c. (out-Command c).has_globals ≡ false) }
{
    let command = titled(alloc, name, about, below).arg(flag(alloc, "system", system))?;
    with_target(alloc, command)?.arg(names(alloc))
}

fn protect<'a>(alloc: Global) -> Result<Command<'a>, AllocError>
    ensures app { IfOk result (λ c. app_of c ≡ alone (protect_shape (codes "protect"))) }
    ensures local { IfOk result (λ c. (out-Command c).has_globals ≡ false) }
{
    protecting(
        alloc,
        "protect",
        "Makes files of a disk read-only",
        help::PROTECT,
        "Marks them as system files instead",
    )
}

fn unprotect<'a>(alloc: Global) -> Result<Command<'a>, AllocError>
    ensures app { IfOk result (λ c. app_of c ≡ alone (protect_shape (codes "unprotect"))) }
    ensures local { IfOk result (λ c. (out-Command c).has_globals ≡ false) }
{
    protecting(
        alloc,
        "unprotect",
        "Makes files of a disk writable again",
        help::UNPROTECT,
        "Takes the mark of a system file away instead",
    )
}

fn check_disk<'a>(alloc: Global) -> Result<Command<'a>, AllocError>
    ensures app { IfOk result (λ c. app_of c ≡ alone check_disk_shape) }
    ensures local { IfOk result (λ c. (out-Command c).has_globals ≡ false) }
{
    titled(
        alloc,
        "check-disk",
        "Checks the directory of a disk",
        help::CHECK_DISK,
    )
    .arg(image(alloc))
}

fn blank<'a>(alloc: Global) -> Result<Command<'a>, AllocError>
    ensures app { IfOk result (λ c. app_of c ≡ alone blank_shape) }
    ensures local { IfOk result (λ c. (out-Command c).has_globals ≡ false) }
{
    titled(
        alloc,
        "blank",
        "Makes the image of a blank disk",
        help::BLANK,
    )
    .arg(flag(
        alloc,
        "mega",
        "Makes an image of 1,048,576 bytes instead of 256,256",
    ))?
    .arg(flag(alloc, "keep", "Refuses if IMG exists"))?
    .arg(no_lock(alloc))?
    .arg(image(alloc))
}

fn run<'a>(alloc: Global) -> Result<Command<'a>, AllocError>
    ensures app { IfOk result (λ c. app_of c ≡ alone run_shape) }
    ensures local { IfOk result (λ c. (out-Command c).has_globals ≡ false) }
{
    let command = titled(alloc, "run", "Runs a CP/M program", help::RUN)
        .arg(option(
            alloc,
            "disk",
            "IMG",
            "The path of the image of drive A [default: a blank disk, which is not kept]",
        ))?
        .arg(no_lock(alloc))?
        .arg(steps(alloc))?;
    with_telling(alloc, command)?
        .arg(path(alloc, "COM", "The path of the program"))?
        .arg(words(alloc, "WORD", "The words of its command line"))
}

fn debug<'a>(alloc: Global) -> Result<Command<'a>, AllocError>
    ensures app { IfOk result (λ c. app_of c ≡ alone debug_shape) }
    ensures local { IfOk result (λ c. (out-Command c).has_globals ≡ false) }
{
    titled(
        alloc,
        "debug",
        "Debugs a CP/M program, forwards and backwards",
        help::DEBUG,
    )
    .arg(option(
        alloc,
        "disk",
        "IMG",
        "The path of the image of drive A, which is not written [default: a blank disk]",
    ))?
    .arg(option(
        alloc,
        "input",
        "FILE",
        "The path of the file with what is typed before the start [default: nothing]",
    ))?
    .arg(option(
        alloc,
        "replay",
        "REC",
        "Debugs a recorded session: what came then comes at the same steps",
    ))?
    .arg(labels(alloc))?
    .arg(option(
        alloc,
        "list",
        "LST",
        "The path of a listing, whose lines where shows",
    ))?
    .arg(path(alloc, "COM", "The path of the program"))?
    .arg(words(alloc, "WORD", "The words of its command line"))
}

fn play<'a>(alloc: Global) -> Result<Command<'a>, AllocError>
    ensures app { IfOk result (λ c. app_of c ≡ alone play_shape) }
    ensures local { IfOk result (λ c. (out-Command c).has_globals ≡ false) }
{
    titled(
        alloc,
        "play",
        "Runs a CP/M program for somebody at a keyboard",
        help::PLAY,
    )
    .arg(option(
        alloc,
        "disk",
        "IMG",
        "The path of the image of drive A [default: a blank disk, which is not kept]",
    ))?
    .arg(no_lock(alloc))?
    .arg(any_steps(alloc))?
    .arg(raw(alloc))?
    .arg(option(
        alloc,
        "terminal",
        "CODES",
        "Whose screen codes the program prints: adm3a, vt52 or none [default: adm3a]",
    ))?
    .arg(option(
        alloc,
        "record",
        "FILE",
        "Also writes each byte that came, with the number of steps before it",
    ))?
    .arg(option(
        alloc,
        "replay",
        "REC",
        "Plays a recorded session again: what came then comes at the same steps",
    ))?
    .arg(path(alloc, "COM", "The path of the program"))?
    .arg(words(alloc, "WORD", "The words of its command line"))
}

/// Adds a command to a command, unless memory ran out for one of them.
fn with_command<'a>(
    command: Result<Command<'a>, AllocError>,
    more: Result<Command<'a>, AllocError>,
) -> Result<Command<'a>, AllocError>
    ensures { IfOk result (λ new. (old : _) × (sub : _) × (command.entry ≡ Ok old) × (more.entry ≡ Ok sub) × AddsSubcommand old sub new) }
{
    command?.subcommand(more?)
}

/// The command with the commands that make programs and take them apart.
fn programs<'a>(alloc: Global) -> Result<Command<'a>, AllocError>
    ensures app { IfOk result (λ c. app_of c ≡ programs) }
{
    let command = with_command(bare(alloc), asm(alloc));
    let command = with_command(command, link(alloc));
    let command = with_command(command, build(alloc));
    let command = with_command(command, explain(alloc));
    let command = with_command(command, check(alloc));
    with_command(command, dis(alloc))
}

/// The command with those and the commands that list, copy, erase and rename the files of a disk.
fn with_files<'a>(alloc: Global) -> Result<Command<'a>, AllocError>
    ensures app { IfOk result (λ c. app_of c ≡ with_files) }
{
    let command = with_command(programs(alloc), dir(alloc));
    let command = with_command(command, put(alloc));
    let command = with_command(command, get(alloc));
    let command = with_command(command, erase(alloc));
    with_command(command, rename(alloc))
}

/// The command with all its commands.
pub(crate) fn z80dev<'a>(alloc: Global) -> Result<Command<'a>, AllocError>
    ensures app { IfOk result (λ c. app_of c ≡ z80dev) }
{
    let command = with_command(with_files(alloc), protect(alloc));
    let command = with_command(command, unprotect(alloc));
    let command = with_command(command, check_disk(alloc));
    let command = with_command(command, blank(alloc));
    let command = with_command(command, run(alloc));
    let command = with_command(command, debug(alloc));
    with_command(command, play(alloc))
}
