//! What a command works on.

/// Files by their paths, standard input, standard output and standard error.
#[derive(Drop)]
pub struct Host<F, I, W, E> {
    pub files: F,
    pub input: I,
    pub output: W,
    pub errors: E,
    /// Whether standard output is a terminal.
    pub is_terminal: bool,
}

/// How the command ended.
#[derive(Drop)]
pub struct Ended<F, I, W, E> {
    /// The exit status.
    pub status: u8,
    /// What it worked on, as it is then.
    pub host: Host<F, I, W, E>,
}
