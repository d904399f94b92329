//! Progress that nobody wants to see.
use crate::progress::{Progress, Stage};

/// It shows nothing.
#[derive(Clone, Copy, Debug)]
pub struct Silent;

impl Progress for Silent {
    fn reached(&mut self, _stage: Stage, _done: u64, _all: u64) {}

    fn finished(&mut self) {}
}
