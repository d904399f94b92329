//! How far a long work has come.

/// What a work does, and what is counted of it.
#[derive(Clone, Copy, Debug, PartialEq, Eq)]
pub enum Stage {
    /// Data files are read, as a directory is opened.
    Opening,
    /// Pairs are put.
    Filling,
}

/// Who hears how far a long work has come. A call means nothing to the one who makes it.
pub trait Progress {
    /// So many of all are done.
    fn reached(&mut self, stage: Stage, done: u64, all: u64);

    /// The stage is over, however it ended. It is called before anything is printed.
    fn finished(&mut self);
}
