//! A range of an open file.
ghost use Rattle.std.specs.Prelude.{◌≡◌, ◌+◌, ◌<◌, ◌≤◌, ◌^◌, length, IfOk, IsTrue};

use crate::faults::{Faults, Trouble};
use bk_disk::{Failed, View};
use std::fs::File;
use std::io::ErrorKind;
use std::os::unix::fs::FileExt;
use std::sync::Arc;

/// A range of a file. It shares the disk's open file, so it is read on after the file's name was
/// removed. A read is one positional read of the system; an early end of the file is a fault.
#[derive(Drop)]
pub struct OsView {
    file: Arc<File>,
    at: u64,
    pub(crate) left: u64,
    faults: Faults,
    ghost fits: { at + left < 2 ^ 64 },
}

impl OsView {
    pub(crate) fn new(file: Arc<File>, at: u64, left: u64) -> OsView
        requires { at + left < 2 ^ 64 }
        ensures { result.left ≡ left }
    {
        OsView {
            file,
            at,
            left,
            faults: Faults::none(),
        }
    }

    fn read_some(&self, into: &mut [u8]) -> Result<usize, Trouble>
        ensures within { IfOk result (λ n. n ≤ length into.new) }
        ensures some { IfOk result (λ n. 0 < n) }
    {
        for _ in 0..u64::MAX {
            match self.file.read_at(into, self.at) {
                Ok(0) => return Err(Trouble::Fault),
                Ok(count) => return Ok(count),
                Err(error) if error.kind() == ErrorKind::Interrupted => {}
                Err(_) => return Err(Trouble::Fault),
            }
        }
        Err(Trouble::Fault)
    }
}

impl View for OsView {
    ghost use Rattle.std.specs.Prelude.{true, false, []};
    ghost use Rattle.bk_disk.specs.Told.{untold};

    ghost tells = { false };

    ghost left = { λ _. [] };

    ghost rest = { λ v. v.left };

    ghost faults = { λ v. v.faults.count };

    ghost fallible = { λ _. true };

    ghost told_rest = { λ _ h. untold h };

    fn read(&mut self, into: &mut [u8]) -> Result<usize, Failed> {
        let want = self.left.min(into.len() as u64) as usize;
        if want == 0 {
            return Ok(0);
        }
        let done = self.read_some(&mut into[..want]);
        let count = self.faults.counted(done)?;
        self.at += count as u64;
        self.left -= count as u64;
        Ok(count)
    }
}
