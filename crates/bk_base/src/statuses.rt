//! How a run and how a session ended.
ghost use Rattle.std.specs.Prelude.{◌≡◌};
ghost use Rattle.bk_base.specs.Status.{code_of};

/// How a run of the program ended.
#[derive(Clone, Copy, Debug, PartialEq, Eq)]
pub enum Status {
    Done,
    Memory,
    Words,
    Disk,
    Source,
    Sink,
    Syntax,
    Settings,
    Damaged,
    Full,
    Long,
    Door = 12,
}

impl Status {
    /// The exit status of the process: 0 for `Done`, the others from 1 to 10 in their order, and 12 for `Door`; 11 is no status.
    pub fn code(&self) -> u8
        ensures { result ≡ code_of self.now }
    {
        *self as u8
    }
}

/// How a session ended.
#[derive(Clone, Copy, Debug, PartialEq, Eq)]
pub enum SessionEnd {
    Quit,
    End,
    /// No request stands at this offset of the input.
    Syntax(u64),
    Source,
    Sink,
    Long,
    Memory,
    /// Writes whose replies were not sent didn't reach the disk.
    Disk,
}
