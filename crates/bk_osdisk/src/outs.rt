//! A file that was lent.
ghost use Rattle.std.specs.Prelude.{◌≡◌};

use crate::faults::{Faults, Trouble};
use crate::syncs::sync_once;
use bk_base::Name;
use bk_disk::{DiskError, Failed, Out};
use std::fs::File;
use std::io::Write;

/// A new file that is written apart from its disk.
#[derive(Drop)]
pub struct OsOut {
    pub(crate) name: Name,
    file: File,
    /// Whether a sync of the file failed.
    failed: bool,
    faults: Faults,
}

impl OsOut {
    pub(crate) fn new(name: Name, file: File) -> OsOut
        ensures { result.name ≡ name }
    {
        OsOut {
            name,
            file,
            failed: false,
            faults: Faults::none(),
        }
    }
}

impl Out for OsOut {
    ghost use Rattle.std.specs.Prelude.{true, false, []};

    ghost tells = { false };

    ghost name = { λ o. o.name };

    ghost bytes = { λ _. [] };

    ghost synced = { λ _. 0 };

    ghost faults = { λ o. o.faults.count };

    ghost fallible = { λ _. true };

    fn append(&mut self, piece: &[u8]) -> Result<(), DiskError> {
        let done = self.file.write_all(piece).map_err(Trouble::from);
        Ok(self.faults.counted(done)?)
    }

    fn sync(&mut self) -> Result<(), Failed> {
        let done = sync_once(&self.file, &mut self.failed);
        self.faults.counted(done)
    }
}
