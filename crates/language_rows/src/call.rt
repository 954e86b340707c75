//! The calls that rows name.

/// A call, by what it works on.
#[derive(Clone, Copy)]
pub(crate) enum Call {
    Alone(Alone),
    Line(OnLine),
    Columns(OnColumns),
    Names(OnNames),
    Expression(OnExpression),
}

/// Calls without columns.
#[derive(Clone, Copy)]
pub(crate) enum Alone {
    Faults,
    NoLines,
}

/// Calls that cut a line into tokens or parse it.
#[derive(Clone, Copy)]
pub(crate) enum OnLine {
    Tokens,
    Count,
    Form,
    Names,
    Arguments,
    Spell,
    Source,
}

/// Calls with columns of their own.
#[derive(Clone, Copy)]
pub(crate) enum OnColumns {
    Replace,
    Body,
    Branches,
    Order,
    Chain,
    Defined,
    Many,
}

/// Calls that change or use the names of a table.
#[derive(Clone, Copy)]
pub(crate) enum OnNames {
    Table,
    Here,
    Distance,
    Piece,
    Size,
}

/// Calls that read an expression with the names of a table.
#[derive(Clone, Copy)]
pub(crate) enum OnExpression {
    Expression,
    Value,
    Kept,
    Offset,
    Constant,
    Equ,
    Items,
}

/// The names of all calls.
const CALLS: [(&str, Call); 28] = [
    ("faults", Call::Alone(Alone::Faults)),
    ("no-lines", Call::Alone(Alone::NoLines)),
    ("tokens", Call::Line(OnLine::Tokens)),
    ("count", Call::Line(OnLine::Count)),
    ("form", Call::Line(OnLine::Form)),
    ("names", Call::Line(OnLine::Names)),
    ("arguments", Call::Line(OnLine::Arguments)),
    ("spell", Call::Line(OnLine::Spell)),
    ("source", Call::Line(OnLine::Source)),
    ("replace", Call::Columns(OnColumns::Replace)),
    ("body", Call::Columns(OnColumns::Body)),
    ("branches", Call::Columns(OnColumns::Branches)),
    ("order", Call::Columns(OnColumns::Order)),
    ("chain", Call::Columns(OnColumns::Chain)),
    ("defined", Call::Columns(OnColumns::Defined)),
    ("many", Call::Columns(OnColumns::Many)),
    ("table", Call::Names(OnNames::Table)),
    ("here", Call::Names(OnNames::Here)),
    ("distance", Call::Names(OnNames::Distance)),
    ("piece", Call::Names(OnNames::Piece)),
    ("size", Call::Names(OnNames::Size)),
    ("expression", Call::Expression(OnExpression::Expression)),
    ("value", Call::Expression(OnExpression::Value)),
    ("kept", Call::Expression(OnExpression::Kept)),
    ("offset", Call::Expression(OnExpression::Offset)),
    ("constant", Call::Expression(OnExpression::Constant)),
    ("equ", Call::Expression(OnExpression::Equ)),
    ("items", Call::Expression(OnExpression::Items)),
];

/// The call of this name.
pub(crate) fn call_named(name: &str) -> Option<Call> {
    for (word, call) in &CALLS {
        if *word == name {
            return Some(*call);
        }
    }
    None
}
