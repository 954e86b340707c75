//! The calls that rows name.

/// A call, by what it works on.
#[derive(Clone, Copy)]
pub(crate) enum Call {
    Alone(Alone),
    Any(Any),
    Image(OnImage),
    Disk(OnDisk),
    Change(ChangeKind),
    Last(OnLast),
    Entries(OnList),
    NewLast(NewLast),
}

/// Calls that use nothing.
#[derive(Clone, Copy)]
pub(crate) enum Alone {
    Image,
    Kind,
    SectorOf,
    Tracks,
    Texts,
    Short,
    ShortFaults,
}

/// Calls that make an image, mount it or unmount it, compare it with what it was, or begin a list.
#[derive(Clone, Copy)]
pub(crate) enum Any {
    Disk,
    Mount,
    FaultsOf,
    Unmount,
    Changed,
    Entries,
}

/// Calls that use an image.
#[derive(Clone, Copy)]
pub(crate) enum OnImage {
    Put,
    Sector,
    Sectors,
    Records,
    Stops,
}

/// Calls that use a disk, but for those of [`ChangeKind`].
#[derive(Clone, Copy)]
pub(crate) enum OnDisk {
    Writes,
    Reads,
    Entry,
    Find,
    Extent,
    Size,
    Usage,
    Space,
    List,
}

/// Calls of a disk that a failing device may stop.
#[derive(Clone, Copy)]
pub(crate) enum ChangeKind {
    Create,
    Erase,
    Mark,
    Rename,
    Read,
    Write,
}

/// Calls that look at the last entry of a list.
#[derive(Clone, Copy)]
pub(crate) enum OnLast {
    Shape,
    RecordOf,
    BlockOf,
    IsOf,
    Matches,
}

/// Calls that look at a whole list.
#[derive(Clone, Copy)]
pub(crate) enum OnList {
    Judge,
    File,
    Free,
    Position,
    Match,
    Files,
    UsageOf,
    SpaceOf,
    Faults,
}

/// Calls that make or change the last entry of a list.
#[derive(Clone, Copy)]
pub(crate) enum NewLast {
    Add,
    AddBytes,
    With,
    Marked,
    Erased,
    Renamed,
}

/// The names of all calls.
const CALLS: [(&str, Call); 53] = [
    ("image", Call::Alone(Alone::Image)),
    ("kind", Call::Alone(Alone::Kind)),
    ("sector-of", Call::Alone(Alone::SectorOf)),
    ("tracks", Call::Alone(Alone::Tracks)),
    ("texts", Call::Alone(Alone::Texts)),
    ("short", Call::Alone(Alone::Short)),
    ("short-faults", Call::Alone(Alone::ShortFaults)),
    ("disk", Call::Any(Any::Disk)),
    ("mount", Call::Any(Any::Mount)),
    ("faults-of", Call::Any(Any::FaultsOf)),
    ("unmount", Call::Any(Any::Unmount)),
    ("changed", Call::Any(Any::Changed)),
    ("entries", Call::Any(Any::Entries)),
    ("put", Call::Image(OnImage::Put)),
    ("sector", Call::Image(OnImage::Sector)),
    ("sectors", Call::Image(OnImage::Sectors)),
    ("records", Call::Image(OnImage::Records)),
    ("stops", Call::Image(OnImage::Stops)),
    ("writes", Call::Disk(OnDisk::Writes)),
    ("reads", Call::Disk(OnDisk::Reads)),
    ("entry", Call::Disk(OnDisk::Entry)),
    ("find", Call::Disk(OnDisk::Find)),
    ("extent", Call::Disk(OnDisk::Extent)),
    ("size", Call::Disk(OnDisk::Size)),
    ("usage", Call::Disk(OnDisk::Usage)),
    ("space", Call::Disk(OnDisk::Space)),
    ("list", Call::Disk(OnDisk::List)),
    ("create", Call::Change(ChangeKind::Create)),
    ("erase", Call::Change(ChangeKind::Erase)),
    ("mark", Call::Change(ChangeKind::Mark)),
    ("rename", Call::Change(ChangeKind::Rename)),
    ("read", Call::Change(ChangeKind::Read)),
    ("write", Call::Change(ChangeKind::Write)),
    ("shape", Call::Last(OnLast::Shape)),
    ("record-of", Call::Last(OnLast::RecordOf)),
    ("block-of", Call::Last(OnLast::BlockOf)),
    ("is-of", Call::Last(OnLast::IsOf)),
    ("matches", Call::Last(OnLast::Matches)),
    ("judge", Call::Entries(OnList::Judge)),
    ("file", Call::Entries(OnList::File)),
    ("free", Call::Entries(OnList::Free)),
    ("position", Call::Entries(OnList::Position)),
    ("match", Call::Entries(OnList::Match)),
    ("files", Call::Entries(OnList::Files)),
    ("usage-of", Call::Entries(OnList::UsageOf)),
    ("space-of", Call::Entries(OnList::SpaceOf)),
    ("faults", Call::Entries(OnList::Faults)),
    ("add", Call::NewLast(NewLast::Add)),
    ("add-bytes", Call::NewLast(NewLast::AddBytes)),
    ("with", Call::NewLast(NewLast::With)),
    ("marked", Call::NewLast(NewLast::Marked)),
    ("erased", Call::NewLast(NewLast::Erased)),
    ("renamed", Call::NewLast(NewLast::Renamed)),
];

/// The call of this name.
pub(crate) fn call_named(name: &str) -> Option<Call> {
    for (word, call) in &CALLS {
        if *word == name {
            return Some(*call);
        }
    }
    None
}

/// The call of this name, if a failing device may stop it.
pub(crate) fn change_named(name: &str) -> Option<ChangeKind> {
    match call_named(name)? {
        Call::Change(change) => Some(change),
        _ => None,
    }
}
