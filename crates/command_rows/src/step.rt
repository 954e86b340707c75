//! The steps of rows about disks.

/// A step, by what it does.
#[derive(Clone, Copy)]
pub(crate) enum Step {
    Make(NewImage),
    User,
    Look(Look),
    Change(Change),
    Put(Put),
}

/// Steps that make an image.
#[derive(Clone, Copy)]
pub(crate) enum NewImage {
    Eight,
    Mega,
    Bytes,
    Entries,
}

/// Steps that look at an image.
#[derive(Clone, Copy)]
pub(crate) enum Look {
    Get,
    Text,
    GetAll,
    Texts,
    Dir,
    Long,
    Check,
    At,
    Whole,
    Size,
}

/// Steps that change files.
#[derive(Clone, Copy)]
pub(crate) enum Change {
    Erase,
    Rename,
    Protect,
    Unprotect,
    Hide,
    Show,
}

/// Steps that put files.
#[derive(Clone, Copy)]
pub(crate) enum Put {
    New,
    Replace,
    Two,
    Text,
    Empty,
}

/// The names of all steps.
const STEPS: [(&str, Step); 26] = [
    ("eight", Step::Make(NewImage::Eight)),
    ("mega", Step::Make(NewImage::Mega)),
    ("bytes", Step::Make(NewImage::Bytes)),
    ("entries", Step::Make(NewImage::Entries)),
    ("user", Step::User),
    ("get", Step::Look(Look::Get)),
    ("text", Step::Look(Look::Text)),
    ("get-all", Step::Look(Look::GetAll)),
    ("texts", Step::Look(Look::Texts)),
    ("dir", Step::Look(Look::Dir)),
    ("long", Step::Look(Look::Long)),
    ("check", Step::Look(Look::Check)),
    ("at", Step::Look(Look::At)),
    ("whole", Step::Look(Look::Whole)),
    ("size", Step::Look(Look::Size)),
    ("erase", Step::Change(Change::Erase)),
    ("rename", Step::Change(Change::Rename)),
    ("protect", Step::Change(Change::Protect)),
    ("unprotect", Step::Change(Change::Unprotect)),
    ("hide", Step::Change(Change::Hide)),
    ("show", Step::Change(Change::Show)),
    ("put", Step::Put(Put::New)),
    ("replace", Step::Put(Put::Replace)),
    ("put-two", Step::Put(Put::Two)),
    ("put-text", Step::Put(Put::Text)),
    ("put-empty", Step::Put(Put::Empty)),
];

/// The step of this name.
pub(crate) fn step_named(name: &str) -> Option<Step> {
    for (word, step) in &STEPS {
        if *word == name {
            return Some(*step);
        }
    }
    None
}
