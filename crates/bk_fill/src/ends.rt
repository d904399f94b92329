//! How a fill ended.

/// How a fill ended.
#[derive(Clone, Copy, Debug, PartialEq, Eq)]
pub enum FillEnd {
    /// All pairs were put and synced, and the line that says so was written.
    Done,
    /// The last seq or the last number of a file is given out, and the line that says so was written.
    Full,
    /// A call on the disk failed, and the disk counted it.
    Disk,
    /// The line couldn't be written whole.
    Sink,
    /// An allocation was refused.
    Memory,
}
