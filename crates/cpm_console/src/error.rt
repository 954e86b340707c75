//! Why a console does not answer.

use thiserror::Error;

/// Why a console does not answer.
#[derive(Clone, Copy, Debug, PartialEq, Eq, Error)]
pub enum ConsoleError {
    /// No input is left.
    #[error("no input is left")]
    EndOfInput,
    /// The console failed. A console that needs memory also fails if memory runs out.
    #[error("the console failed")]
    ConsoleFault,
}
