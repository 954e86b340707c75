//! The calls that rows name.

/// A call, by what it is about.
#[derive(Clone, Copy)]
pub(crate) enum Call {
    Table(OnTable),
    Count(Count),
    Program(OnProgram),
}

/// Calls about the bytes and texts of instructions.
#[derive(Clone, Copy)]
pub(crate) enum OnTable {
    Opcode,
    Page,
    Decode,
    Law,
    Bytes,
}

/// Calls about flags.
#[derive(Clone, Copy)]
pub(crate) enum Count {
    Flags,
    Every,
}

/// Calls that set registers and memory.
#[derive(Clone, Copy)]
pub(crate) enum OnProgram {
    Halt,
    Turns,
    Run,
    Line,
}

/// The names of all calls.
const CALLS: [(&str, Call); 11] = [
    ("opcode", Call::Table(OnTable::Opcode)),
    ("page", Call::Table(OnTable::Page)),
    ("decode", Call::Table(OnTable::Decode)),
    ("law", Call::Table(OnTable::Law)),
    ("bytes", Call::Table(OnTable::Bytes)),
    ("flags", Call::Count(Count::Flags)),
    ("every", Call::Count(Count::Every)),
    ("halt", Call::Program(OnProgram::Halt)),
    ("turns", Call::Program(OnProgram::Turns)),
    ("run", Call::Program(OnProgram::Run)),
    ("line", Call::Program(OnProgram::Line)),
];

/// The call of this name.
pub(crate) fn call_named(name: &str) -> Option<Call> {
    for (word, call) in &CALLS {
        if *word == name {
            return Some(*call);
        }
    }
    None
}
