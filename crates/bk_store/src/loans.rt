//! A record that is lent to be read.
ghost use Rattle.std.specs.Prelude.{◌≡◌, ◌≢◌, ◌≤◌, ◌+◌, ℕ, false, is_ok, length, IsTrue, IfOk, OnOk, OnErr, IfErr, IsErrOf};
ghost use Rattle.bk_base.specs.declared.limits.TheConstants.{RECORD_HEADER};
ghost use Rattle.bk_disk.specs.Calls.{viewed};
ghost use Rattle.bk_disk.specs.Causes.{Rose, bumped};
ghost use Rattle.bk_disk.specs.Told.{range_of};
ghost use Rattle.bk_files.specs.Catalog.{main};
ghost use Rattle.bk_files.specs.Files.{IsConsistent, IsFromScratch, IsSyncedIfSealed, image_of};
ghost use Rattle.bk_store.specs.Loans.{IsReadError, LendsVersion, check_of};

use crate::errors::{LocateError, ReadError};
use bk_base::limits::{CHECKSUM, RECORD_HEADER};
use bk_base::{Damage, FileId, Key, Version};
use bk_crc::crc32;
use bk_disk::{Disk, View, read_exact};
use bk_files::Files;
use std::marker::Model;

/// A record that a store has lent. It can be read after the store was called again, and after its file
/// was removed.
#[derive(Drop)]
pub struct Loan<V: View + Drop> {
    view: V,
    at: u64,
    file: FileId,
    size: u32,
    crc: u32,
    value_at: u32,
}

impl<V: View + Drop> Model for Loan<V> {
    ghost use Rattle.std.specs.Prelude.{◌≤◌};
    ghost use Rattle.bk_base.specs.declared.limits.TheConstants.{RECORD_HEADER};
    ghost use Rattle.bk_store.specs.Loans.{Lent};

    ghost Value = { Lent };

    ghost view = { λ l. record {
      left = V.left l.view;
      rest = V.rest l.view;
      faults = V.faults l.view;
      fallible = V.fallible l.view;
      file = l.file;
      at = l.at;
      size = l.size;
      crc = l.crc;
      value_at = l.value_at;
    } };

    ghost invariant = { λ l. (RECORD_HEADER ≤ l.value_at) × (l.value_at ≤ l.size) };
}

impl<V: View + Drop> Loan<V> {
    /// How many bytes the record has.
    pub fn size(&self) -> usize
        ensures { result ≡ self.now.size }
    {
        self.size as usize
    }

    /// Where in the record its value stands, up to its end. The key stands just before it.
    pub fn value_at(&self) -> usize
        ensures place { result ≡ self.now.value_at }
        ensures inside { result ≤ self.now.size }
    {
        self.value_at as usize
    }

    /// Reads the whole record, once, into a slice of its size. So a value can be read straight to where
    /// it is to go: what stands before it may then be overwritten. `Damaged` comes exactly where the
    /// bytes have another checksum than the one that was kept.
    pub fn read(&mut self, into: &mut [u8]) -> Result<(), ReadError>
        requires whole { length into.old ≡ self.old.size }
        requires unread { self.old.rest ≡ self.old.size }
        ensures text { IsTrue V.tells → OnOk result (into.new ≡ self.old.left) }
        ensures checked { OnOk result (check_of into.new ≡ self.old.crc) }
        ensures refused { IfErr result (IsReadError V.tells self.old self.new into.new) }
        ensures later { self.old.faults ≤ self.new.faults }
        ensures strong { self.old.fallible ≡ false → (IsErrOf result ReadError.Read → ⊥) }
        ensures same { self.new ≡ record self.old { left = self.new.left; rest = self.new.rest; faults = self.new.faults } }
    {
        if read_exact(&mut self.view, into).is_err() {
            return Err(ReadError::Read);
        }
        let found = crc32(&into[CHECKSUM..]);
        if found != self.crc {
            return Err(ReadError::Damaged(Damage {
                at: self.at,
                file: self.file,
                kept: self.crc,
                found,
            }));
        }
        Ok(())
    }
}

/// Lends the record of a version of this key: one view of exactly its bytes.
pub(crate) fn lend<D: Disk>(
    files: &mut Files<D>,
    key: &Key,
    version: Version,
) -> Result<Loan<D::View>, LocateError>
    requires consistent { IsTrue D.tells → IsConsistent files.old }
    requires long { RECORD_HEADER + length key.now ≤ version.size }
    ensures lent { IfOk result (LendsVersion key.now version) }
    ensures bytes { IsTrue D.tells → IfOk result (λ l. l.left
        ≡ range_of (main version.file.0) version.at version.size (image_of files.old)) }
    ensures told { IsTrue D.tells → files.new.told
        ≡ viewed (is_ok result) (main version.file.0) version.at version.size files.old.told }
    ensures catalog { files.new.catalog ≡ files.old.catalog }
    ensures consistent { IsTrue D.tells → IsConsistent files.new }
    ensures totals { IsTrue D.tells → IsFromScratch files.old → IsFromScratch files.new }
    ensures synced { IsTrue D.tells → IsSyncedIfSealed files.old → IsSyncedIfSealed files.new }
    ensures later { files.old.faults ≤ files.new.faults }
    ensures disk { IsErrOf result LocateError.Disk → Rose files.old.faults files.new.faults }
    ensures views { IfOk result (λ l. files.new.fallible_views
        ≡ bumped l.fallible files.old.fallible_views) }
    ensures no_view { OnErr result (files.new.fallible_views ≡ files.old.fallible_views) }
    ensures outs { files.new.fallible_outs ≡ files.old.fallible_outs }
{
    let value_at = RECORD_HEADER as u32 + key.bytes().len() as u32;
    let view = files.view(version.file, version.at, u64::from(version.size))?;
    Ok(Loan {
        view,
        at: version.at,
        file: version.file,
        size: version.size,
        crc: version.crc,
        value_at,
    })
}
