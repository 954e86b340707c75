//! The calls that rows name.

/// A call, by what it is about.
#[derive(Clone, Copy)]
pub(crate) enum Call {
    Stream(OnStreams),
    Make(Made),
    Word(OnWords),
    Disk,
}

/// Calls that read and write streams.
#[derive(Clone, Copy)]
pub(crate) enum OnStreams {
    Pipe,
    Streams,
    Check,
}

/// Calls that make files.
#[derive(Clone, Copy)]
pub(crate) enum Made {
    Asm,
    Link,
    Build,
    Define,
    Front,
}

/// Calls about the words of a command.
#[derive(Clone, Copy)]
pub(crate) enum OnWords {
    Name,
    OwnName,
    Pattern,
    Words,
    Says,
}

/// The names of all calls.
const CALLS: [(&str, Call); 14] = [
    ("pipe", Call::Stream(OnStreams::Pipe)),
    ("streams", Call::Stream(OnStreams::Streams)),
    ("check", Call::Stream(OnStreams::Check)),
    ("asm", Call::Make(Made::Asm)),
    ("link", Call::Make(Made::Link)),
    ("build", Call::Make(Made::Build)),
    ("define", Call::Make(Made::Define)),
    ("front", Call::Make(Made::Front)),
    ("disk", Call::Disk),
    ("name", Call::Word(OnWords::Name)),
    ("own-name", Call::Word(OnWords::OwnName)),
    ("pattern", Call::Word(OnWords::Pattern)),
    ("words", Call::Word(OnWords::Words)),
    ("says", Call::Word(OnWords::Says)),
];

/// The call of this name.
pub(crate) fn call_named(name: &str) -> Option<Call> {
    for (word, call) in &CALLS {
        if *word == name {
            return Some(*call);
        }
    }
    None
}
