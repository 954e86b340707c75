//! What happens after a system call.

/// What happens after a system call: the program continues, or the run ends with a warm boot.
#[derive(Clone, Copy, Debug, PartialEq, Eq)]
pub enum After {
    Return,
    WarmBoot,
}
