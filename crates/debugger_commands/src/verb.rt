//! The commands by name.

ghost use Rattle.std.specs.Prelude.{◌≡◌, find};
ghost use Rattle.std.specs.Str.{str_eq_ignore_ascii_case};
ghost use Rattle.debugger_commands.specs.Typed.{foreign_verb, is_short_for, verb_name, verb_named};

use state_text::is_same_name;

/// The first word of a command.
#[derive(Clone, Copy, Debug, PartialEq, Eq)]
pub enum Verb {
    Step,
    Back,
    Turn,
    Run,
    Next,
    Finish,
    BackRun,
    BackNext,
    Break,
    Watch,
    Delete,
    Info,
    Registers,
    Memory,
    Disassemble,
    Stack,
    Output,
    Who,
    Files,
    Where,
    Help,
    Quit,
}

/// The commands in the order in which `help` lists them.
const VERBS: [Verb; 22] = [
    Verb::Step,
    Verb::Next,
    Verb::Finish,
    Verb::Run,
    Verb::Back,
    Verb::BackNext,
    Verb::BackRun,
    Verb::Turn,
    Verb::Where,
    Verb::Registers,
    Verb::Memory,
    Verb::Disassemble,
    Verb::Stack,
    Verb::Output,
    Verb::Who,
    Verb::Break,
    Verb::Watch,
    Verb::Info,
    Verb::Delete,
    Verb::Files,
    Verb::Help,
    Verb::Quit,
];

impl Verb {
    ghost use Rattle.std.specs.Prelude.{◌≡◌};
    ghost use Rattle.debugger_commands.specs.Typed.{argument_forms, verb_name};

    /// The word.
    pub fn name(self) -> &'static [u8]
        ensures { result.now ≡ verb_name self }
    {
        match self {
            Verb::Step => b"step",
            Verb::Back => b"back",
            Verb::Turn => b"turn",
            Verb::Run => b"run",
            Verb::Next => b"next",
            Verb::Finish => b"finish",
            Verb::BackRun => b"back-run",
            Verb::BackNext => b"back-next",
            Verb::Break => b"break",
            Verb::Watch => b"watch",
            Verb::Delete => b"delete",
            Verb::Info => b"info",
            Verb::Registers => b"regs",
            Verb::Memory => b"mem",
            Verb::Disassemble => b"dis",
            Verb::Stack => b"stack",
            Verb::Output => b"output",
            Verb::Who => b"who",
            Verb::Files => b"files",
            Verb::Where => b"where",
            Verb::Help => b"help",
            Verb::Quit => b"quit",
        }
    }

    /// What may follow the word, as `usage` shows it.
    pub fn arguments(self) -> &'static [u8]
        ensures { result.now ≡ argument_forms self }
    {
        match self {
            Verb::Step => b" [N]",
            Verb::Back => b" [N]",
            Verb::Turn => b" N",
            Verb::Run => b" [ADDR]",
            Verb::Break => b" ADDR [if REG=VALUE]",
            Verb::Watch => b" ADDR [N]",
            Verb::Delete => b" [ADDR]",
            Verb::Memory => b" ADDR [N]",
            Verb::Disassemble => b" ADDR [N]",
            Verb::Who => b" ADDR",
            Verb::Help => b" [COMMAND]",
            _ => b"",
        }
    }
}

/// The first of these commands with this name.
fn first_named(verbs: &[Verb], word: &[u8]) -> Option<Verb>
    ensures { result ≡ find (λ it. str_eq_ignore_ascii_case (verb_name it) word.now) verbs.now }
{
    for verb in verbs {
        if is_same_name(verb.name(), word) {
            return Some(*verb);
        }
    }
    None
}

/// Whether a word is the beginning of a name.
fn is_short_for(word: &[u8], name: &[u8]) -> bool
    ensures { result ≡ is_short_for word.now name.now }
{
    let (beginning, _) = name.split_at(word.len().min(name.len()));
    is_same_name(beginning, word)
}

/// The first of these commands whose name begins with a word.
fn first_begun(verbs: &[Verb], word: &[u8]) -> Option<Verb>
    ensures { result ≡ find (λ it. is_short_for word.now (verb_name it)) verbs.now }
{
    for verb in verbs {
        if is_short_for(word, verb.name()) {
            return Some(*verb);
        }
    }
    None
}

/// The command that has this name in other debuggers and shells.
fn foreign_verb(word: &[u8]) -> Option<Verb>
    ensures { result ≡ foreign_verb word.now }
{
    if is_same_name(word, b"?") {
        Some(Verb::Help)
    } else if is_same_name(word, b"exit") {
        Some(Verb::Quit)
    } else {
        None
    }
}

/// The command with this name, or the first whose name begins so, or the one that has this name elsewhere.
pub(crate) fn verb_named(word: &[u8]) -> Option<Verb>
    ensures { result ≡ verb_named word.now }
{
    first_named(&VERBS, word)
        .or(first_begun(&VERBS, word))
        .or(foreign_verb(word))
}
