//! The lines that a drill prints.

use bk_base::{Damage, FileId, Full, Key, Seq, Value};

/// A line that a drill prints.
#[derive(Debug, Drop)]
pub enum Printed {
    /// `OK seq`: the number of the write that was made.
    Numbered(Seq),
    /// `NONE`: the key isn't live, or there was nothing to delete.
    Absent,
    /// `LOAN`: the value was located.
    Loan,
    /// `VALUE V`: the value that was located.
    Value(Value),
    /// `NOLOAN`: the actor has no value to read.
    NoLoan,
    /// `SYNCED seq`: all writes up to this one are synced.
    Synced(Seq),
    /// `FOLD slot epoch`: a fold is open.
    Fold { slot: u8, epoch: Seq },
    /// `PAIR K V`: a pair of a fold.
    Pair { key: Key, value: Value },
    /// `END n`: the fold has no more pairs than these.
    End(u64),
    /// `CLOSED`: the fold is closed.
    Closed,
    /// `REOPENED seq keys torn`: the last seq, the keys whose newest write is a put, the torn files.
    Reopened { seq: Seq, keys: u64, torn: u64 },
    /// `TORN file at bytes`: so many bytes behind the whole records of this file were cut off.
    Torn { file: FileId, at: u64, bytes: u64 },
    /// `MEMORY`: out of memory.
    Memory,
    /// `DISK`: the disk failed.
    Disk,
    /// `READ`: a read of a file failed.
    Read,
    /// `DAMAGED file at kept found`: a record has another checksum than the one that was kept of it.
    Damaged(Damage),
    /// `FULL seq`, `FULL files` or `FULL folds`: what the store has no more room for.
    Full(Full),
    /// `NOFOLD slot`: the actor has no fold in this slot.
    NoFold(u8),
    /// `SYNTAX offset`: no line of a script stands at this offset.
    Syntax(u64),
}
