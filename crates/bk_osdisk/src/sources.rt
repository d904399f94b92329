//! Standard input.
ghost use Rattle.std.specs.Prelude.{◌≡◌, ◌≤◌, length, IfOk};

use crate::faults::{Faults, Trouble};
use bk_disk::{Failed, Source};
use std::io::{ErrorKind, Input, Read};

/// The process's standard input. A read is one read of the system, straight into the caller's
/// slice.
#[derive(Drop)]
pub struct OsSource<R: Input + Drop> {
    reader: R::Reader,
    faults: Faults,
}

impl<R: Input + Drop> OsSource<R> {
    pub fn new(rt: R) -> OsSource<R>
        ensures { ⟦<OsSource<R> as Source>⟧.faults result ≡ 0 }
    {
        OsSource {
            reader: rt.reader(),
            faults: Faults::none(),
        }
    }
}

impl<R: Input + Drop> Source for OsSource<R> {
    ghost use Rattle.std.specs.Prelude.{false, []};

    ghost tells = { false };

    ghost whole = { λ _. [] };

    ghost taken = { λ _. 0 };

    ghost faults = { λ s. s.faults.count };

    fn read(&mut self, into: &mut [u8]) -> Result<usize, Failed> {
        let done = read_some(&mut self.reader, into);
        self.faults.counted(done)
    }
}

// An interrupted read is tried again.
fn read_some<R: Read>(reader: &mut R, into: &mut [u8]) -> Result<usize, Trouble>
    ensures { IfOk result (λ n. n ≤ length into.new) }
{
    for _ in 0..u64::MAX {
        match reader.read(into) {
            Ok(count) => return Ok(count),
            Err(error) if error.kind() == ErrorKind::Interrupted => {}
            Err(_) => return Err(Trouble::Fault),
        }
    }
    Err(Trouble::Fault)
}
