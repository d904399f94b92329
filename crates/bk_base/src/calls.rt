//! Calls on the store, their answers, and an entry of the history.

use crate::keys::Key;
use crate::numbers::{Moment, Seq};
use crate::values::Value;

/// A call of the store, with the moment that it was handed.
#[derive(Drop)]
pub enum Call {
    Get { key: Key, now: Moment },
    Put { key: Key, value: Value, now: Moment },
    Delete { key: Key, now: Moment },
    /// Deletes a key whose newest put has expired.
    Reap { key: Key, now: Moment },
    FoldOpen { now: Moment },
    FoldNext { slot: u8 },
    FoldClose { slot: u8 },
    Sync,
    /// A call that changes nothing that a reply depends on.
    Quiet,
}

/// The answer to a call.
#[derive(Drop)]
pub enum Answer {
    Nothing,
    Found(Value),
    Numbered(Seq),
    Fold { epoch: Seq, slot: u8 },
    Pair { key: Key, value: Value },
    End,
    Done,
}

/// One entry of a history: who called, what, and the answer.
#[derive(Drop)]
pub struct Entry {
    pub caller: u64,
    pub call: Call,
    pub reply: Answer,
}
