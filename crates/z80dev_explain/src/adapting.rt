//! Changes messages of errors by what is known of the files of a program. The crates that make them know one source alone.

use common::LONGEST_TEXT;
use error_messages::{Message, Note};
use std::alloc::{AllocError, Global};

/// The help that is given if nothing else is known of a word begins so.
const UNGUESSED: &str = "a macro is defined above its first call";

/// Whether one of the notes is that help.
fn is_unguessed(notes: &[Note]) -> bool {
    notes.iter().any(|note| match note {
        Note::Help(text) => text.as_bytes().starts_with(UNGUESSED.as_bytes()),
        Note::Note(_) => false,
    })
}

/// The message about an unknown word, if there is no shared file: its macro may be in one.
pub(crate) fn with_shared(alloc: Global, message: Message) -> Result<Message, AllocError> {
    let mut message = message;
    if is_unguessed(&message.notes) {
        message.notes.push(Note::Help(String::from_str(
            alloc,
            "if it is a macro of a shared file, give that file with --with",
        )?))?;
    }
    Ok(message)
}

/// The message about a source with too many bytes. That of the error is about too many lines, which have the same name.
pub(crate) fn overlong(
    alloc: Global,
    bytes: usize,
    message: Message,
) -> Result<Message, AllocError> {
    let over = bytes.saturating_sub(LONGEST_TEXT);
    let mut notes = Vec::new(alloc);
    notes.push(Note::Help(String::from_str(alloc, "divide it into modules")?))?;
    Ok(Message {
        place: message.place,
        text: format!(in alloc;
            "the source has {bytes} bytes with its shared files, {over} too many (at most {LONGEST_TEXT})"
        )?,
        notes,
    })
}
