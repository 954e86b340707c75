//! The calls that rows name.

/// A call, by what it works on.
#[derive(Clone, Copy)]
pub(crate) enum Call {
    Files(OnFiles),
    Sources(OnSources),
    Built(OnBuilt),
    Made(OnMade),
}

/// Calls that build files. `At` is about the program of the last `Program`.
#[derive(Clone, Copy)]
pub(crate) enum OnFiles {
    Program,
    At,
    Listing,
}

/// Calls that build sources, or try to.
#[derive(Clone, Copy)]
pub(crate) enum OnSources {
    Build,
    Texts,
    Judge,
    Same,
    Fault,
    Sentence,
    NoMemory,
    Object,
    ModuleName,
    Warnings,
    AsmWarnings,
}

/// Calls that print what comes with a file.
#[derive(Clone, Copy)]
pub(crate) enum OnBuilt {
    Statements,
    Symbols,
    Last,
    Grown,
}

/// Calls that print a listing or symbols of a program that the row says.
#[derive(Clone, Copy)]
pub(crate) enum OnMade {
    Listing,
    Symbols,
}

/// The names of all calls.
const CALLS: [(&str, Call); 20] = [
    ("program", Call::Files(OnFiles::Program)),
    ("at", Call::Files(OnFiles::At)),
    ("listing", Call::Files(OnFiles::Listing)),
    ("build", Call::Sources(OnSources::Build)),
    ("texts", Call::Sources(OnSources::Texts)),
    ("judge", Call::Sources(OnSources::Judge)),
    ("same", Call::Sources(OnSources::Same)),
    ("fault", Call::Sources(OnSources::Fault)),
    ("sentence", Call::Sources(OnSources::Sentence)),
    ("no-memory", Call::Sources(OnSources::NoMemory)),
    ("object", Call::Sources(OnSources::Object)),
    ("module-name", Call::Sources(OnSources::ModuleName)),
    ("warnings", Call::Sources(OnSources::Warnings)),
    ("asm-warnings", Call::Sources(OnSources::AsmWarnings)),
    ("statements", Call::Built(OnBuilt::Statements)),
    ("symbols", Call::Built(OnBuilt::Symbols)),
    ("last", Call::Built(OnBuilt::Last)),
    ("grown", Call::Built(OnBuilt::Grown)),
    ("made-listing", Call::Made(OnMade::Listing)),
    ("made-symbols", Call::Made(OnMade::Symbols)),
];

/// The call of this name.
pub(crate) fn call_named(name: &str) -> Option<Call> {
    for (word, call) in &CALLS {
        if *word == name {
            return Some(*call);
        }
    }
    None
}
