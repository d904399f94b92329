//! What a history records: its opening, and of each step the entry with the counts that rose and
//! a snapshot of the files. None of it is ever made by a running program: contracts speak of it.

use crate::calls::Entry;
use crate::jobs::JobState;
use crate::keys::Key;
use crate::numbers::{FileId, Moment, Seq};
use crate::rows::Row;
use crate::writes::Write;
use std::collections::LinkedList;

/// A record and its place in its file.
#[derive(Drop)]
pub struct Placed {
    pub at: u64,
    pub write: Write,
}

/// The records of one file, in order.
#[derive(Drop)]
pub struct WrittenFile {
    pub records: LinkedList<Placed>,
    pub file: FileId,
}

/// The store's files as a step ended: the rows, the last file id and the merge in work. Where the
/// disk tells its content, `written` has the records of each input and done output of that merge.
#[derive(Drop)]
pub struct Snapshot {
    pub rows: LinkedList<Row>,
    pub written: LinkedList<WrittenFile>,
    pub job: Option<JobState>,
    pub last_file: FileId,
}

/// One step of a history: an entry, and by how much the counts of disk faults, fallible views and fallible
/// files rose in its event.
#[derive(Drop)]
pub struct Step {
    pub entry: Entry,
    pub faults: u64,
    pub views: u64,
    pub outs: u64,
    /// The disk's clock as the event ended, where the disk tells it.
    pub at: Option<u64>,
    pub snapshot: Snapshot,
    /// The step ended a merge whose inputs are gone and whose outputs hold nothing superseded.
    pub clean: bool,
}

/// A fold that is open: who opened it, at which epoch and moment, and what it has listed.
#[derive(Drop)]
pub struct OpenFold {
    pub listed: LinkedList<Key>,
    pub caller: u64,
    pub epoch: Seq,
    pub now: Moment,
    pub slot: u8,
}

/// The store's settings as plain data.
#[derive(Clone, Copy, Debug, PartialEq, Eq)]
pub struct StoreSettings {
    pub dead_bytes: u64,
    pub max_file: u32,
    pub ttl: u32,
    pub dead_percent: u32,
}

/// What a history starts from.
#[derive(Drop)]
pub struct Opening {
    pub log: LinkedList<Write>,
    pub folds: LinkedList<OpenFold>,
    pub snapshot: Snapshot,
    pub settings: StoreSettings,
    pub faults: u64,
    pub views: u64,
    pub outs: u64,
    /// The store stood for the opening in full when it was opened.
    pub whole: bool,
}
