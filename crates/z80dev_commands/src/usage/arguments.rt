//! The arguments of the commands for `clap`.

ghost use Rattle.std.specs.Prelude.{◌≡◌, IfOk, false, codes};
ghost use Rattle.clap.specs.Words.{app_of, rule_of};
ghost use Rattle.clap.specs.declared.builder.command.Command.TheViews.{out-Command};
ghost use Rattle.z80dev_commands.specs.Commands.{base_rule, color_rule, data_rule, define_rule, flag_rule, labels_rule, last_rule, list_rule, name_rule, option_rule, path_rule, paths_rule, steps_rule, symbols_rule, user_rule, verbose_rule, with_file_rule, words_rule};
ghost use Rattle.z80dev_commands.specs.Private.{with_target, with_telling};

use clap::builder::ValueParser;
use clap::{Arg, ArgAction, Command, value_parser};
use std::alloc::{AllocError, Global};

/// A required path, with its help.
pub(super) fn path<'a>(alloc: Global, name: &'a str, help: &'a str) -> Arg<'a>
    ensures rule { rule_of result ≡ path_rule name.now }
    ensures local { result.global ≡ false }
{
    Arg::new(alloc, name)
        .required(true)
        .action(ArgAction::Set)
        .help(help)
}

/// One or more paths.
pub(super) fn paths<'a>(alloc: Global, name: &'a str, help: &'a str) -> Arg<'a>
    ensures rule { rule_of result ≡ paths_rule name.now }
    ensures local { result.global ≡ false }
{
    Arg::new(alloc, name)
        .required(true)
        .num_args(1..)
        .action(ArgAction::Append)
        .help(help)
}

/// Any number of words, even none.
pub(super) fn words<'a>(alloc: Global, name: &'a str, help: &'a str) -> Arg<'a>
    ensures rule { rule_of result ≡ words_rule name.now }
    ensures local { result.global ≡ false }
{
    paths(alloc, name, help).required(false)
}

/// `--out BASE`, or `-o BASE`, which need not be given.
pub(super) fn base<'a>(alloc: Global, help: &'a str) -> Arg<'a>
    ensures rule { rule_of result ≡ base_rule }
    ensures local { result.global ≡ false }
{
    path(alloc, "BASE", help)
        .long("out")
        .short('o')
        .required(false)
}

/// The option `--NAME ID`, which need not be given.
pub(super) fn option<'a>(alloc: Global, name: &'a str, id: &'a str, help: &'a str) -> Arg<'a>
    ensures rule { rule_of result ≡ option_rule name.now id.now }
    ensures local { result.global ≡ false }
{
    Arg::new(alloc, id)
        .long(name)
        .action(ArgAction::Set)
        .help(help)
}

/// The option `--NAME ID`, which may be given any number of times.
pub(super) fn list<'a>(alloc: Global, name: &'a str, id: &'a str, help: &'a str) -> Arg<'a>
    ensures rule { rule_of result ≡ list_rule name.now id.now }
    ensures local { result.global ≡ false }
{
    option(alloc, name, id, help).action(ArgAction::Append)
}

/// `--define NAME=VALUE`.
pub(super) fn define<'a>(alloc: Global) -> Arg<'a>
    ensures rule { rule_of result ≡ define_rule }
    ensures local { result.global ≡ false }
{
    list(
        alloc,
        "define",
        "NAME=VALUE",
        "Defines NAME as a number in each source, as EQU does",
    )
}

/// `--with FILE`.
pub(super) fn with_file<'a>(alloc: Global) -> Arg<'a>
    ensures rule { rule_of result ≡ with_file_rule }
    ensures local { result.global ≡ false }
{
    list(
        alloc,
        "with",
        "FILE",
        "A file of definitions and macros that each source uses",
    )
}

/// `--data DATA`.
pub(super) fn data<'a>(alloc: Global) -> Arg<'a>
    ensures rule { rule_of result ≡ data_rule }
    ensures local { result.global ≡ false }
{
    list(
        alloc,
        "data",
        "DATA",
        "An address at which data begins, such as a text after a CALL",
    )
}

/// `--steps N`.
pub(super) fn steps<'a>(alloc: Global) -> Arg<'a>
    ensures rule { rule_of result ≡ steps_rule }
    ensures local { result.global ≡ false }
{
    option(
        alloc,
        "steps",
        "N",
        "The most steps (instructions, repetitions, system calls) [default: 100000000]",
    )
    .value_parser(value_parser!(u64))
}

/// `--steps N` of a command whose default is no limit.
pub(super) fn any_steps<'a>(alloc: Global) -> Arg<'a>
    ensures rule { rule_of result ≡ steps_rule }
    ensures local { result.global ≡ false }
{
    option(
        alloc,
        "steps",
        "N",
        "The most steps (instructions, repetitions, system calls) [default: no limit]",
    )
    .value_parser(value_parser!(u64))
}

/// `--raw`.
pub(super) fn raw<'a>(alloc: Global) -> Arg<'a>
    ensures rule { rule_of result ≡ flag_rule (codes "raw") }
    ensures local { result.global ≡ false }
{
    flag(
        alloc,
        "raw",
        "Takes each key as it is pressed; z80dev-play puts the terminal into that mode",
    )
}

/// `--last COUNT`.
fn last<'a>(alloc: Global) -> Arg<'a>
    ensures rule { rule_of result ≡ last_rule }
    ensures local { result.global ≡ false }
{
    option(
        alloc,
        "last",
        "COUNT",
        "Prints the last COUNT steps if the run is stopped, or ends outside the program, at most 1000000",
    )
    .value_parser(ValueParser::unsigned(0, 1_000_000))
}

/// `--labels SYM`.
pub(super) fn labels<'a>(alloc: Global) -> Arg<'a>
    ensures rule { rule_of result ≡ labels_rule }
    ensures local { result.global ≡ false }
{
    option(
        alloc,
        "labels",
        "SYM",
        "A file of labels, as `build --list` writes it",
    )
}

/// Adds the options of what `run` tells about a run.
pub(super) fn with_telling<'a>(
    alloc: Global,
    command: Command<'a>,
) -> Result<Command<'a>, AllocError>
    requires { (out-Command command).has_globals ≡ false }
    ensures app { IfOk result (λ c. app_of c ≡ with_telling (app_of command.entry)) }
    ensures local { IfOk result (λ c. (out-Command c).has_globals ≡ false) }
{
    command
        .arg(labels(alloc))?
        .arg(flag(
            alloc,
            "regs",
            "Prints the registers and the stack at the end",
        ))?
        .arg(last(alloc))?
        .arg(option(
            alloc,
            "trace",
            "TRC",
            "Writes a line to TRC for each of the first 1,000,000 steps",
        ))?
        .arg(option(
            alloc,
            "profile",
            "PRF",
            "Writes to PRF how often each instruction ran",
        ))?
        .arg(option(
            alloc,
            "list",
            "LST",
            "A listing, as `build --list` writes it, for PRF",
        ))
}

/// `--no-warn`.
pub(super) fn no_warn<'a>(alloc: Global) -> Arg<'a>
    ensures rule { rule_of result ≡ flag_rule (codes "no-warn") }
    ensures local { result.global ≡ false }
{
    flag(
        alloc,
        "no-warn",
        "Does not warn of code that relies on the length of a jump",
    )
}

/// `--map`.
pub(super) fn map<'a>(alloc: Global) -> Arg<'a>
    ensures rule { rule_of result ≡ flag_rule (codes "map") }
    ensures local { result.global ≡ false }
{
    flag(
        alloc,
        "map",
        "Also writes BASE.map: modules, their sizes and public names, and jumps",
    )
}

/// `--symbols FORM`.
pub(super) fn symbols<'a>(alloc: Global) -> Arg<'a>
    ensures rule { rule_of result ≡ symbols_rule }
    ensures local { result.global ≡ false }
{
    option(
        alloc,
        "symbols",
        "FORM",
        "Also writes symbols for a debugger: zsid for BASE.sym, ucsim for BASE.ucsim",
    )
}

/// `--jumps`.
pub(super) fn jumps<'a>(alloc: Global) -> Arg<'a>
    ensures rule { rule_of result ≡ flag_rule (codes "jumps") }
    ensures local { result.global ≡ false }
{
    flag(
        alloc,
        "jumps",
        "Also says of each jump that could be short why it is long",
    )
}

/// `--json`.
pub(super) fn json<'a>(alloc: Global) -> Arg<'a>
    ensures rule { rule_of result ≡ flag_rule (codes "json") }
    ensures local { result.global ≡ false }
{
    flag(
        alloc,
        "json",
        "Prints each message as one line of JSON, for editors and scripts",
    )
}

/// `--color WHEN`.
pub(super) fn color<'a>(alloc: Global) -> Arg<'a>
    ensures rule { rule_of result ≡ color_rule }
    ensures local { result.global ≡ false }
{
    option(
        alloc,
        "color",
        "WHEN",
        "Uses colours: always, never, or auto, which means at a terminal [default: auto]",
    )
}

/// `--user N`.
pub(super) fn user<'a>(alloc: Global, help: &'a str) -> Arg<'a>
    ensures rule { rule_of result ≡ user_rule }
    ensures local { result.global ≡ false }
{
    option(alloc, "user", "N", help).value_parser(ValueParser::unsigned(0, 31))
}

/// The flag `--NAME`.
pub(super) fn flag<'a>(alloc: Global, name: &'a str, help: &'a str) -> Arg<'a>
    ensures rule { rule_of result ≡ flag_rule name.now }
    ensures local { result.global ≡ false }
{
    Arg::new(alloc, name)
        .long(name)
        .action(ArgAction::SetTrue)
        .help(help)
}

/// `--grow`.
pub(super) fn grow<'a>(alloc: Global) -> Arg<'a>
    ensures rule { rule_of result ≡ flag_rule (codes "grow") }
    ensures local { result.global ≡ false }
{
    flag(
        alloc,
        "grow",
        "Lets a JR that does not reach its label become a JP",
    )
}

/// `--verbose`, or `-v`.
pub(super) fn verbose<'a>(alloc: Global) -> Arg<'a>
    ensures rule { rule_of result ≡ verbose_rule }
    ensures local { result.global ≡ false }
{
    flag(
        alloc,
        "verbose",
        "Reports on standard error how many jumps are short and long, and the bytes saved",
    )
    .short('v')
}

/// The path of an image.
pub(super) fn image<'a>(alloc: Global) -> Arg<'a>
    ensures rule { rule_of result ≡ path_rule (codes "IMG") }
    ensures local { result.global ≡ false }
{
    path(alloc, "IMG", "The path of the disk image")
}

/// `--no-lock`.
pub(super) fn no_lock<'a>(alloc: Global) -> Arg<'a>
    ensures rule { rule_of result ≡ flag_rule (codes "no-lock") }
    ensures local { result.global ≡ false }
{
    flag(alloc, "no-lock", "Does not lock IMG")
}

/// `--user N`, which means user 0 if it is not given.
pub(super) fn user_or_zero<'a>(alloc: Global) -> Arg<'a>
    ensures rule { rule_of result ≡ user_rule }
    ensures local { result.global ≡ false }
{
    user(alloc, "The user whose files they are, 0 to 31 [default: 0]")
}

/// Adds the arguments of a command that changes an image: `--user N`, `--no-lock` and the path of the image.
pub(super) fn with_target<'a>(
    alloc: Global,
    command: Command<'a>,
) -> Result<Command<'a>, AllocError>
    requires { (out-Command command).has_globals ≡ false }
    ensures app { IfOk result (λ c. app_of c ≡ with_target (app_of command.entry)) }
    ensures local { IfOk result (λ c. (out-Command c).has_globals ≡ false) }
{
    command
        .arg(user_or_zero(alloc))?
        .arg(no_lock(alloc))?
        .arg(image(alloc))
}

/// The name of the files to list, which need not be given.
pub(super) fn name_if_given<'a>(alloc: Global) -> Arg<'a>
    ensures rule { rule_of result ≡ name_rule (codes "NAME") }
    ensures local { result.global ≡ false }
{
    path(
        alloc,
        "NAME",
        "Lists the files of this name only, such as '*.COM'",
    )
    .required(false)
}

/// One or more names of files on a disk.
pub(super) fn names<'a>(alloc: Global) -> Arg<'a>
    ensures rule { rule_of result ≡ paths_rule (codes "NAME") }
    ensures local { result.global ≡ false }
{
    paths(
        alloc,
        "NAME",
        "The files' names on the disk, such as BIG.DAT or '*.BAK'",
    )
}
