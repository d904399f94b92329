//! A write as it stands in the log, and the place of one in a file.

use crate::keys::Key;
use crate::numbers::{FileId, Moment, Seq};
use crate::values::Value;

/// What a write says of its key.
#[derive(Debug, Drop)]
pub enum Body {
    Put(Value),
    /// A tombstone: the key was deleted.
    Gone,
}

/// One write of the log.
#[derive(Debug, Drop)]
pub struct Write {
    pub seq: Seq,
    pub moment: Moment,
    pub key: Key,
    pub body: Body,
}

/// Where the record of a write stands, and what is known of it without reading it.
#[derive(Clone, Copy, Debug, PartialEq, Eq)]
pub struct Version {
    pub seq: Seq,
    pub at: u64,
    pub moment: Moment,
    pub file: FileId,
    /// The record's length in bytes.
    pub size: u32,
    /// The record's checksum.
    pub crc: u32,
    pub gone: bool,
}
