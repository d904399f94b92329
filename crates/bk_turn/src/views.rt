//! What a pass knows. No value of it is ever made: contracts speak of it.

use bk_base::{Opening, Step};
use std::collections::LinkedList;

/// What a pass knows of its turn's one history.
pub struct View {
    /// What the history starts from.
    pub opening: Opening,
    /// The steps that were seen: a beginning of the history.
    pub seen: LinkedList<Step>,
    /// The place of the pass's first step, once it has one.
    pub number: Option<u64>,
    /// The length of the history before the opening.
    pub first: u64,
    /// The pass's part of 4,294,967,296.
    pub weight: u64,
    /// The tickets were found used up.
    pub full: bool,
}
