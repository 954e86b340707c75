//! Words that name files on a disk. They are judged before any file is read.

ghost use Rattle.std.specs.Prelude.{◌≡◌, All, IfOk, false, map};
ghost use Rattle.z80dev_disk.specs.Words.{is_wild, own_name, pattern_of};
ghost use Rattle.z80dev.specs.Private.Names.{AreNames, IsBadName, IsName, IsPattern, IsPatternIfGiven, IsRefusal};

use host::End;
use std::alloc::Global;
use z80dev_disk::{Name, Refusal, file_name, own_name, pattern_of};

/// How a command ends that is refused.
pub(crate) fn refusal_end(alloc: Global, why: Refusal) -> End<'static>
    ensures { IsRefusal why result }
{
    if let Refusal::NoMemory = why {
        return End::NoMemory;
    }
    match format!(in alloc; "{why}") {
        Ok(text) => End::Refused(text),
        Err(_) => End::NoMemory,
    }
}

/// How a command ends that refuses one of several words.
fn bad_name(alloc: Global, word: &str) -> End<'static>
    ensures { IsBadName word.now result }
{
    match format!(in alloc; "BadName({word})") {
        Ok(text) => End::Refused(text),
        Err(_) => End::NoMemory,
    }
}

/// The name that a word gives.
pub(crate) fn name_of(alloc: Global, word: &str) -> Result<Name, End<'static>>
    ensures name { IsName word.now result }
    ensures plain { IfOk result (λ name. is_wild name ≡ false) }
{
    match file_name(word) {
        Some(name) => Ok(name),
        None => Err(refusal_end(alloc, Refusal::BadName)),
    }
}

/// The pattern that a word gives.
pub(crate) fn pattern_of_word(alloc: Global, word: &str) -> Result<[u8; 11], End<'static>>
    ensures { IsPattern word.now result }
{
    match pattern_of(word) {
        Some(pattern) => Ok(pattern),
        None => Err(refusal_end(alloc, Refusal::BadName)),
    }
}

/// The pattern that a word gives, if there is a word.
pub(crate) fn pattern_if_given(
    alloc: Global,
    word: Option<&str>,
) -> Result<Option<[u8; 11]>, End<'static>>
    ensures { IsPatternIfGiven word.entry result }
{
    match word {
        Some(word) => Ok(Some(pattern_of_word(alloc, word)?)),
        None => Ok(None),
    }
}

/// The patterns that words give, in their order.
pub(crate) fn patterns_of(alloc: Global, words: &[&str]) -> Result<Vec<[u8; 11]>, End<'static>>
    ensures { AreNames pattern_of (map (λ word. word.now) words.now) result }
{
    let mut patterns = Vec::with_capacity(alloc, words.len())?;
    for word in words {
        let pattern = match pattern_of(word) {
            Some(pattern) => pattern,
            None => return Err(bad_name(alloc, word)),
        };
        let Ok(()) = patterns.push(pattern) else {
            return Err(End::NoMemory);
        };
    }
    Ok(patterns)
}

/// The names that files get which are put under their own, in their order.
pub(crate) fn own_names(alloc: Global, paths: &[&str]) -> Result<Vec<Name>, End<'static>>
    ensures names { AreNames own_name (map (λ path. path.now) paths.now) result }
    ensures plain { IfOk result (λ names. All (λ name. is_wild name ≡ false) names.items) }
{
    let mut names = Vec::with_capacity(alloc, paths.len())?;
    for path in paths {
        let name = match own_name(path) {
            Some(name) => name,
            None => return Err(bad_name(alloc, path)),
        };
        let Ok(()) = names.push(name) else {
            return Err(End::NoMemory);
        };
    }
    Ok(names)
}
