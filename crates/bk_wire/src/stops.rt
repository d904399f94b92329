//! Why nothing was read.

/// Why nothing was read at the front of some bytes.
#[derive(Clone, Copy, Debug, PartialEq, Eq)]
pub enum Stop {
    /// The bytes are the front of what is wanted, and not all of it.
    Short,
    /// What is wanted doesn't stand there, however the bytes go on.
    Bad,
}
