//! Standard output.
ghost use Rattle.std.specs.Prelude.{◌≡◌, ◌<◌, ◌≤◌, length, IfOk};

use crate::faults::{Faults, Trouble};
use bk_disk::{Failed, Sink};
use std::io;
use std::io::{ErrorKind, Print, Write};

/// The process's standard output. A write is one write of the system, and nothing is kept back; one
/// that takes nothing is a fault.
#[derive(Drop)]
pub struct OsSink<R: Print + Drop> {
    rt: R,
    faults: Faults,
}

impl<R: Print + Drop> OsSink<R> {
    pub fn new(rt: R) -> OsSink<R>
        ensures { ⟦<OsSink<R> as Sink>⟧.faults result ≡ 0 }
    {
        OsSink {
            rt,
            faults: Faults::none(),
        }
    }

    fn write_some(&self, piece: &[u8]) -> Result<usize, Trouble>
        ensures within { IfOk result (λ n. n ≤ length piece.now) }
        ensures some { IfOk result (λ n. 0 < n) }
    {
        for _ in 0..u64::MAX {
            match io::writer(&self.rt).write(piece) {
                Ok(0) => return Err(Trouble::Fault),
                Ok(count) => return Ok(count),
                Err(error) if error.kind() == ErrorKind::Interrupted => {}
                Err(_) => return Err(Trouble::Fault),
            }
        }
        Err(Trouble::Fault)
    }
}

impl<R: Print + Drop> Sink for OsSink<R> {
    ghost use Rattle.std.specs.Prelude.{false, []};

    ghost tells = { false };

    ghost written = { λ _. [] };

    ghost faults = { λ s. s.faults.count };

    fn write(&mut self, piece: &[u8]) -> Result<usize, Failed> {
        if piece.is_empty() {
            return Ok(0);
        }
        let done = self.write_some(piece);
        self.faults.counted(done)
    }
}
