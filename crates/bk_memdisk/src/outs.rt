//! A file that a disk in memory has lent.
ghost use Rattle.std.specs.Prelude.{◌≡◌, [], length};

use bk_base::Name;
use bk_disk::{DiskError, Failed, Out};
use std::alloc::Global;
use std::marker::Model;

/// A lent file. It keeps its bytes twice, so that bringing it back takes no memory. It never fails.
#[derive(Drop)]
pub struct MemOut {
    name: Name,
    bytes: Vec<u8>,
    copy: Vec<u8>,
    synced: usize,
}

impl Model for MemOut {
    ghost use Rattle.std.specs.Prelude.{◌≡◌};
    ghost use Rattle.bk_memdisk.specs.Streams.{Written};

    ghost Value = { Written };

    ghost view = { λ o. record { name = o.name; bytes = o.bytes.items; synced = o.synced } };

    ghost invariant = { λ o. o.copy.items ≡ o.bytes.items };
}

impl MemOut {
    pub(crate) fn new(alloc: Global, name: Name) -> MemOut
        ensures { result ≡ record { name = name; bytes = []; synced = 0 } }
    {
        MemOut {
            name,
            bytes: Vec::new(alloc),
            copy: Vec::new(alloc),
            synced: 0,
        }
    }

    // The name, the bytes and their copy.
    pub(crate) fn into_parts(self) -> (Name, Vec<u8>, Vec<u8>)
        ensures name { result.0 ≡ self.name }
        ensures bytes { result.1.items ≡ self.bytes }
        ensures copy { result.2.items ≡ result.1.items }
    {
        (self.name, self.bytes, self.copy)
    }
}

impl Out for MemOut {
    ghost use Rattle.std.specs.Prelude.{true, false};

    ghost tells = { true };

    ghost name = { λ o. o.name };

    ghost bytes = { λ o. o.bytes };

    ghost synced = { λ o. o.synced };

    ghost faults = { λ _. 0 };

    ghost fallible = { λ _. false };

    fn append(&mut self, piece: &[u8]) -> Result<(), DiskError> {
        self.bytes.reserve(piece.len())?;
        self.copy.reserve(piece.len())?;
        self.bytes.extend_from_slice(piece).unwrap();
        self.copy.extend_from_slice(piece).unwrap();
        Ok(())
    }

    fn sync(&mut self) -> Result<(), Failed> {
        self.synced = self.bytes.len();
        Ok(())
    }
}
