//! A merge in work, as a history shows it.

use crate::numbers::{FileId, Seq};
use std::collections::LinkedList;

/// How far a merge is.
#[derive(Clone, Copy, Debug, PartialEq, Eq)]
pub enum Phase {
    Copying,
    Listed,
    Committed,
    Removing,
    Aborting,
}

/// Why a part of a merge was given up.
#[derive(Clone, Copy, Debug, PartialEq, Eq)]
pub enum Cause {
    Memory,
    Disk,
    Read,
    /// The scan of `file` ended at `at`, before the `total` bytes that were known to be whole.
    Cut { total: u64, at: u64, file: FileId },
    FullSeq,
    FullFiles,
}

/// Where a part of a merge is.
#[derive(Clone, Copy, Debug, PartialEq, Eq)]
pub enum PartState {
    Waiting,
    Out,
    Done,
    Settled,
    Gone,
}

/// One input of a merge, the index of the part that copies it, and whether it was removed.
#[derive(Clone, Copy, Debug, PartialEq, Eq)]
pub struct JobInput {
    pub file: FileId,
    pub part: u32,
    pub gone: bool,
}

/// One part of a merge: the inputs that name it are copied into its output, in their order.
#[derive(Drop)]
pub struct JobPart {
    pub output: FileId,
    pub state: PartState,
    pub has_records: bool,
    /// Its files were lent before, so their names may be there and are removed first.
    pub tried: bool,
}

/// The state of a merge in work.
#[derive(Drop)]
pub struct JobState {
    pub inputs: LinkedList<JobInput>,
    pub parts: LinkedList<JobPart>,
    pub cause: Option<Cause>,
    /// The last write of the log as the merge began: what it supersedes is judged there.
    pub began: Seq,
    pub id: FileId,
    pub phase: Phase,
    /// An abort of this job has answered Ok.
    pub aborted: bool,
    /// The job's list of files is lent.
    pub list_lent: bool,
    /// The list was lent before, so its name may be there and is removed first.
    pub tried: bool,
}
