//! The calls that rows name.

/// A call.
#[derive(Clone, Copy)]
pub(crate) enum Call {
    Assemble,
    Count,
    Expand,
    Lines,
    Kept,
    Names,
    Turns,
    Meaning,
    States,
}

/// The names of all calls.
const CALLS: [(&str, Call); 9] = [
    ("assemble", Call::Assemble),
    ("count", Call::Count),
    ("expand", Call::Expand),
    ("lines", Call::Lines),
    ("kept", Call::Kept),
    ("names", Call::Names),
    ("turns", Call::Turns),
    ("meaning", Call::Meaning),
    ("states", Call::States),
];

/// The call of this name.
pub(crate) fn call_named(name: &str) -> Option<Call> {
    for (word, call) in &CALLS {
        if *word == name {
            return Some(*call);
        }
    }
    None
}
