//! What the store knows of each data file.

use crate::numbers::FileId;

/// What a data file is to the store.
#[derive(Clone, Copy, Debug, PartialEq, Eq)]
pub enum RowState {
    /// Appended to.
    Active,
    /// Closed for good.
    Sealed,
    /// Closed, and read by the merge in work.
    Input,
    /// Written by the merge in work.
    Output,
}

/// The row of one data file.
#[derive(Clone, Copy, Debug, PartialEq, Eq)]
pub struct Row {
    /// The file's length in bytes.
    pub len: u64,
    /// The bytes of its whole records, from the front.
    pub total: u64,
    /// The bytes of its records that are the newest put of their key.
    pub live: u64,
    /// How many kept put versions name the file.
    pub refs: u64,
    pub id: FileId,
    pub state: RowState,
}
