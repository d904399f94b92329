//! What a load of a directory gives, as plain data.

use crate::keydir::Keydir;
use bk_base::{FileId, Name, Row, Seq};
use bk_hint::Verdict;

/// A data file behind whose whole records `bytes` more stand, from `at` on.
#[derive(Clone, Copy, Debug, PartialEq, Eq)]
pub struct Torn {
    pub at: u64,
    pub bytes: u64,
    pub file: FileId,
}

/// What a look at the hint of a data file found.
#[derive(Debug, Drop)]
pub struct HintNote {
    pub verdict: Verdict,
    pub file: FileId,
}

/// What a load found. The lists are in order of file id.
#[derive(Debug, Drop)]
pub struct Report {
    pub torn: Vec<Torn>,
    pub hints: Vec<HintNote>,
    pub odd: Vec<Name>,
    /// How many counted files have a Good hint.
    pub hinted: u32,
    /// How many counted files have none, or a Good one that covers less than the file.
    pub scanned: u32,
}

/// The rows, the keydir and the last numbers of a directory.
#[derive(Drop)]
pub struct Loaded {
    pub keydir: Keydir,
    pub rows: Vec<Row>,
    pub report: Report,
    pub last_seq: Seq,
    pub last_file: FileId,
}
