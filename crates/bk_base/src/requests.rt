//! What a client asks, and the lines that answer it.

use crate::damages::Damage;
use crate::keys::Key;
use crate::numbers::{FileId, Seq};
use crate::values::Value;

/// One request of the wire protocol.
#[derive(Drop)]
pub enum Request {
    Get(Key),
    Put(Key, Value),
    Delete(Key),
    /// All live pairs.
    Fold,
    /// The keys of all live pairs.
    Keys,
    Sync,
    Stat,
    Quit,
}

/// What a store has no more room for.
#[derive(Clone, Copy, Debug, PartialEq, Eq)]
pub enum Full {
    Seq,
    Files,
    Folds,
    Turns,
}

/// One reply of the wire protocol.
#[derive(Drop)]
pub enum Reply {
    /// The value of a live key.
    Value(Value),
    /// The key isn't live, or a delete found nothing to delete.
    Absent,
    /// The number of the write that was made.
    Numbered(Seq),
    /// One pair of a fold.
    Pair {
        key: Key,
        value: Value,
    },
    /// One key of a listing of keys.
    Key(Key),
    /// The end of a fold or of a listing of keys, and how many lines it had.
    End(u64),
    /// All writes up to this one are synced.
    Synced(Seq),
    /// A merge is done: how many files it read, and how many it wrote that hold records.
    Merged {
        inputs: u32,
        outputs: u32,
    },
    /// So many files that a merge read are still in use.
    Held(u32),
    /// A merge is in work.
    Job(FileId),
    Stat {
        keys: u64,
        files: u64,
        total: u128,
        live: u128,
    },
    Bye,
    /// Out of memory.
    Memory,
    /// The disk failed.
    Disk,
    /// A read of a file failed.
    Read,
    /// A record has another checksum than the one that was kept of it.
    Damaged(Damage),
    /// A file of `total` bytes of whole records ended at `at` instead.
    Cut {
        file: FileId,
        total: u64,
        at: u64,
    },
    Full(Full),
    /// No request stands at this offset of the input.
    Syntax(u64),
}
