//! What a system call answers.

/// What a system call answers: a value of 16 bits, or that it asks for a warm boot.
#[derive(Clone, Copy, Debug, PartialEq, Eq)]
pub enum Reply {
    Value(u16),
    WarmBoot,
}
