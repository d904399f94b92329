//! A record that isn't the one that was written.

use crate::numbers::FileId;

/// A record whose bytes have another checksum than the one that was kept of it.
#[derive(Clone, Copy, Debug, PartialEq, Eq)]
pub struct Damage {
    /// Where the record begins in its file, in bytes.
    pub at: u64,
    pub file: FileId,
    /// The checksum that was kept, and the one that was found.
    pub kept: u32,
    pub found: u32,
}
