//! Messages about errors.

/// Where in a line something is: the first byte, counted from 0, and how many there are.
#[derive(Clone, Copy, Debug, PartialEq, Eq)]
pub struct Place {
    pub at: usize,
    pub len: usize,
}

/// What a message says besides its text.
#[derive(Debug, Drop)]
pub enum Note {
    /// What to write instead.
    Help(String),
    /// What else belongs to the error, such as another line.
    Note(String),
}

/// A message about an error. Each text is one line of printable ASCII.
#[derive(Debug, Drop)]
pub struct Message {
    pub place: Place,
    pub text: String,
    pub notes: Vec<Note>,
}
