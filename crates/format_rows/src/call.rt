//! The calls that rows name.

/// A call, by what it is about.
#[derive(Clone, Copy)]
pub(crate) enum Call {
    Object(OnObject),
    Text(OnText),
}

/// Calls about object files.
#[derive(Clone, Copy)]
pub(crate) enum OnObject {
    Object,
    Cuts,
    Changes,
    With,
    Statement,
    Sized,
}

/// Calls about sizes, certificates and choices.
#[derive(Clone, Copy)]
pub(crate) enum OnText {
    Sizes,
    Certificate,
    Check,
    Faults,
    Least,
    Shape,
}

/// The names of all calls.
const CALLS: [(&str, Call); 12] = [
    ("object", Call::Object(OnObject::Object)),
    ("cuts", Call::Object(OnObject::Cuts)),
    ("changes", Call::Object(OnObject::Changes)),
    ("with", Call::Object(OnObject::With)),
    ("statement", Call::Object(OnObject::Statement)),
    ("sized", Call::Object(OnObject::Sized)),
    ("sizes", Call::Text(OnText::Sizes)),
    ("certificate", Call::Text(OnText::Certificate)),
    ("check", Call::Text(OnText::Check)),
    ("faults", Call::Text(OnText::Faults)),
    ("least", Call::Text(OnText::Least)),
    ("shape", Call::Text(OnText::Shape)),
];

/// The call of this name.
pub(crate) fn call_named(name: &str) -> Option<Call> {
    for (word, call) in &CALLS {
        if *word == name {
            return Some(*call);
        }
    }
    None
}
