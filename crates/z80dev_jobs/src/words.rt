//! The words that the program was called with.

ghost use Rattle.std.specs.Prelude.{◌≡◌, map};
ghost use Rattle.z80dev_jobs.specs.declared.words.WordsFault.TheVariants as fault;
ghost use Rattle.z80dev_jobs.specs.Words.{ReadsWord, ReadsWords};

use std::alloc::{AllocError, Global};

/// What the program calls itself.
const NAME: &str = "z80dev";

/// Why the words are not known.
#[derive(Clone, Copy, Debug, PartialEq, Eq)]
pub enum WordsFault {
    /// The word of this number is not UTF-8. The first after the program's name has the number 1.
    NotText(usize),
    /// Memory ran out.
    NoMemory,
}

impl From<AllocError> for WordsFault {
    ghost from_gives = { λ _ e. e ≡ fault.NoMemory };

    fn from(_: AllocError) -> WordsFault {
        WordsFault::NoMemory
    }
}

/// A word as text. Word 0, the path by which the program was called, is never printed, so it may have any bytes.
fn text_of(alloc: Global, number: usize, word: &[u8]) -> Result<String, WordsFault>
    ensures { ReadsWord number word.now result }
{
    match str::from_utf8(word) {
        Ok(text) => Ok(String::from_str(alloc, text)?),
        Err(_) if number == 0 => Ok(String::from_str(alloc, NAME)?),
        Err(_) => Err(WordsFault::NotText(number)),
    }
}

/// The words as text, the program's name first.
///
/// # Errors
///
/// The first word that is not UTF-8; or memory ran out.
pub fn texts_of(alloc: Global, words: &[Vec<u8>]) -> Result<Vec<String>, WordsFault>
    ensures { ReadsWords (map (λ word. word.items) words.now) result }
{
    let mut texts = Vec::with_capacity(alloc, words.len())?;
    for word in words {
        let text = text_of(alloc, texts.len(), word)?;
        let Ok(()) = texts.push(text) else {
            return Err(WordsFault::NoMemory);
        };
    }
    Ok(texts)
}
