//! The calls that rows name.

/// A call, by what it works on.
#[derive(Clone, Copy)]
pub(crate) enum Call {
    Console(OnConsole),
    New(NewMachine),
    Machine(OnMachine),
}

/// Calls of a console that is not in a machine.
#[derive(Clone, Copy)]
pub(crate) enum OnConsole {
    Terminal,
    Line,
    Text,
    Stream,
    Writer,
}

/// Calls after which there is another machine.
#[derive(Clone, Copy)]
pub(crate) enum NewMachine {
    Machine,
    Device,
    Entry,
    Run,
    Output,
}

/// Calls that use a machine.
#[derive(Clone, Copy)]
pub(crate) enum OnMachine {
    Call,
    Calls,
    Bios,
    Put,
    Fcb,
    Bytes,
    Place,
    Start,
}

/// The names of all calls.
const CALLS: [(&str, Call); 18] = [
    ("terminal", Call::Console(OnConsole::Terminal)),
    ("line", Call::Console(OnConsole::Line)),
    ("text", Call::Console(OnConsole::Text)),
    ("stream", Call::Console(OnConsole::Stream)),
    ("writer", Call::Console(OnConsole::Writer)),
    ("machine", Call::New(NewMachine::Machine)),
    ("device", Call::New(NewMachine::Device)),
    ("entry", Call::New(NewMachine::Entry)),
    ("run", Call::New(NewMachine::Run)),
    ("output", Call::New(NewMachine::Output)),
    ("call", Call::Machine(OnMachine::Call)),
    ("calls", Call::Machine(OnMachine::Calls)),
    ("bios", Call::Machine(OnMachine::Bios)),
    ("put", Call::Machine(OnMachine::Put)),
    ("fcb", Call::Machine(OnMachine::Fcb)),
    ("bytes", Call::Machine(OnMachine::Bytes)),
    ("place", Call::Machine(OnMachine::Place)),
    ("start", Call::Machine(OnMachine::Start)),
];

/// The call of this name.
pub(crate) fn call_named(name: &str) -> Option<Call> {
    for (word, call) in &CALLS {
        if *word == name {
            return Some(*call);
        }
    }
    None
}
