//! The data files of a store, over its disk.
ghost use Rattle.std.specs.Prelude.{◌≡◌, ◌<◌, ◌≤◌, ◌^◌, ◌+◌, ◌↔◌, ◌⊎◌, None, Some, [], ℕ, true, false, length, option_map, is_ok, IsTrue, IsOk, IfOk, OnOk, OnErr, IsErrOf, IsSome};
ghost use Rattle.bk_disk.specs.Calls.{Appended, viewed};
ghost use Rattle.bk_disk.specs.Causes.{IsCaused, HasCause, Rose, bumped};
ghost use Rattle.bk_disk.specs.Told.{IsAbsent, IsWithin, range_of};
ghost use Rattle.bk_base.specs.declared.names.Name.{Name};
ghost use Rattle.bk_files.specs.Catalog.{Begins, Grows, counted, main, row_of, torn};
ghost use Rattle.bk_files.specs.Rows.{AreAtRest, IsRecord};
ghost use Rattle.bk_files.specs.Files.{HalfRepaired, HalfRolled, IsConsistent, IsFromScratch, IsSyncedIfSealed, Repaired, Rolled, Settles, Synchronized, active_id, active_len, active_name, disk_shown, has_active, image_of, is_due, known_of, is_torn, last_of, rows_of};

use crate::catalog::{Catalog, name_of};
use crate::errors::RollError;
use bk_base::limits::LAST_FILE;
use bk_base::{FileId, Memory, Row};
use bk_disk::{Disk, DiskError, Failed};
use std::marker::Model;

/// The data files of a store. One of them may be active: texts are appended to it until the next
/// would pass the limit, and then the store rolls to a new one. A row of a file that isn't appended
/// to has its length; the active file's has the length of the texts appended to it.
#[derive(Drop)]
pub struct Files<D: Disk> {
    disk: D,
    catalog: Catalog,
}

impl<D: Disk> Model for Files<D> {
    ghost use Rattle.bk_files.specs.Files.{Seen, known_of, name_of};

    ghost Value = { Seen };

    ghost view = { λ f. record {
      told = (D.shown f.disk).told;
      faults = (D.shown f.disk).faults;
      fallible_views = (D.shown f.disk).views;
      fallible_outs = (D.shown f.disk).outs;
      room = D.room f.disk (name_of f.catalog.active);
      catalog = known_of f.catalog;
    } };
}

impl<D: Disk> Files<D> {
    /// The files of a disk, none of them active. The rows stand in order of id up to `last`; each
    /// file has the length that its row says.
    pub fn new(disk: D, rows: Vec<Row>, last: FileId, max_file: u32) -> Files<D>
        requires free { IsTrue D.tells → (n : Name) → last.0 < n.id → IsAbsent n (D.shown disk).told.image }
        requires rows { IsTrue D.tells → AreAtRest 1 (last.0 + 1) rows.items (D.shown disk).told }
        ensures catalog { result.catalog
            ≡ record { rows = rows.items; active = None; last = last.0; max_file = max_file } }
        ensures shown { disk_shown result ≡ D.shown disk }
        ensures consistent { IsTrue D.tells → IsConsistent result }
    {
        Files {
            disk,
            catalog: Catalog {
                rows,
                active: None,
                last,
                max_file,
            },
        }
    }

    /// The disk, and what is known of its files.
    pub fn into_parts(self) -> (D, Catalog)
        ensures shown { D.shown result.0 ≡ disk_shown self }
        ensures catalog { known_of result.1 ≡ self.catalog }
    {
        let Files { disk, catalog } = self;
        (disk, catalog)
    }

    /// The files of a disk, of which this is known.
    pub fn from_parts(disk: D, catalog: Catalog) -> Files<D>
        ensures shown { disk_shown result ≡ D.shown disk }
        ensures catalog { result.catalog ≡ known_of catalog }
    {
        Files { disk, catalog }
    }

    /// Whether a text of this many bytes needs a roll first.
    pub fn due(&self, size: u32) -> bool
        ensures { result ≡ is_due size self.now }
    {
        self.catalog.is_due(size)
    }

    /// Repairs the active file where an append has failed: cuts it to its known length, and then
    /// syncs it. After `Failed` the next repair does both again. Where nothing is torn it makes no
    /// call.
    pub fn repair(&mut self) -> Result<(), Failed>
        requires { IsTrue D.tells → IsConsistent self.old }
        ensures ok { OnOk result (Repaired D.tells self.old self.new) }
        ensures err { OnErr result (HalfRepaired D.tells self.old self.new) }
        ensures nothing { is_torn self.old ≡ false → IsOk result × (self.new ≡ self.old) }
        ensures consistent { IsTrue D.tells → IsConsistent self.new }
        ensures scratch { IsTrue D.tells → IsFromScratch self.old → IsFromScratch self.new }
        ensures synced { IsTrue D.tells → IsSyncedIfSealed self.old → IsSyncedIfSealed self.new }
        ensures rooms { self.old.room ≤ self.new.room }
        ensures cause { IsCaused self.old.faults self.new.faults result }
        ensures views { self.new.fallible_views ≡ self.old.fallible_views }
        ensures outs { self.new.fallible_outs ≡ self.old.fallible_outs }
    {
        let Some(active) = self.catalog.active else {
            return Ok(());
        };
        if !active.torn {
            return Ok(());
        }
        let name = name_of(active.id);
        self.disk.cut(name, active.len)?;
        self.disk.sync(name)?;
        self.catalog.mend();
        Ok(())
    }

    /// Makes room for a text of this many bytes in the active file, where there is one that takes it.
    pub fn ready(&mut self, size: u32) -> Result<(), Memory>
        requires { IsTrue D.tells → IsConsistent self.old }
        ensures room { OnOk result (is_due size self.old ≡ false
            → size ≤ self.new.room) }
        ensures enough { size ≤ self.old.room → IsOk result }
        ensures catalog { self.new.catalog ≡ self.old.catalog }
        ensures told { IsTrue D.tells → self.new.told ≡ self.old.told }
        ensures consistent { IsTrue D.tells → IsConsistent self.new }
        ensures rooms { self.old.room ≤ self.new.room }
        ensures faults { self.new.faults ≡ self.old.faults }
        ensures views { self.new.fallible_views ≡ self.old.fallible_views }
        ensures outs { self.new.fallible_outs ≡ self.old.fallible_outs }
    {
        if self.catalog.is_due(size) {
            return Ok(());
        }
        let name = self.catalog.active_name();
        self.disk.ready(name, u64::from(size))
    }

    /// Appends the text of one record to the active file, and gives its place in bytes. After
    /// `Failed` a first part of it may stand there, and the file is to be repaired.
    pub fn append(&mut self, text: &[u8]) -> Result<u64, Failed>
        requires consistent { IsTrue D.tells → IsConsistent self.old }
        requires whole { is_torn self.old ≡ false }
        requires due { is_due (length text.now) self.old ≡ false }
        requires room { length text.now ≤ self.old.room }
        requires text { IsRecord text.now }
        ensures place { IfOk result (λ at. at ≡ active_len self.old) }
        ensures ok { OnOk result (Grows (length text.now) self.old.catalog self.new.catalog) }
        ensures err { OnErr result (self.new.catalog ≡ torn self.old.catalog) }
        ensures appended { IsTrue D.tells → OnOk result
            (Appended (active_name self.old) (length text.now) text.now self.old.told self.new.told) }
        ensures part { IsTrue D.tells → OnErr result ((n : ℕ)
            × Appended (active_name self.old) n text.now self.old.told self.new.told) }
        ensures consistent { IsTrue D.tells → IsConsistent self.new }
        ensures scratch { IsTrue D.tells → IsFromScratch self.old → IsFromScratch self.new }
        ensures synced { IsTrue D.tells → IsSyncedIfSealed self.old → IsSyncedIfSealed self.new }
        ensures cause { IsCaused self.old.faults self.new.faults result }
        ensures views { self.new.fallible_views ≡ self.old.fallible_views }
        ensures outs { self.new.fallible_outs ≡ self.old.fallible_outs }
    {
        let name = self.catalog.active_name();
        match self.disk.append(name, text) {
            Ok(()) => Ok(self.catalog.grow(text.len() as u64)),
            Err(Failed) => {
                self.catalog.tear();
                Err(Failed)
            }
        }
    }

    /// Syncs the active file, where there is one that isn't torn.
    fn settle(&mut self) -> Result<(), Failed>
        requires consistent { IsTrue D.tells → IsConsistent self.old }
        requires whole { is_torn self.old ≡ false }
        ensures catalog { self.new.catalog ≡ self.old.catalog }
        ensures settled { IsTrue D.tells → OnOk result (Settles self.old self.new) }
        ensures err { IsTrue D.tells → OnErr result (self.new.told ≡ self.old.told) }
        ensures nothing { has_active self.old ≡ false → IsOk result × (self.new ≡ self.old) }
        ensures consistent { IsTrue D.tells → IsConsistent self.new }
        ensures scratch { IsTrue D.tells → IsFromScratch self.old → IsFromScratch self.new }
        ensures synced { IsTrue D.tells → IsSyncedIfSealed self.old → IsSyncedIfSealed self.new }
        ensures rooms { self.old.room ≤ self.new.room }
        ensures cause { IsCaused self.old.faults self.new.faults result }
        ensures views { self.new.fallible_views ≡ self.old.fallible_views }
        ensures outs { self.new.fallible_outs ≡ self.old.fallible_outs }
    {
        let Some(active) = self.catalog.active else {
            return Ok(());
        };
        self.disk.sync(name_of(active.id))
    }

    /// Repairs the active file and syncs it. Without one it makes no call. After `Failed` the file
    /// is as torn as before, and at most cut, or it was repaired.
    pub fn sync(&mut self) -> Result<(), Failed>
        requires { IsTrue D.tells → IsConsistent self.old }
        ensures ok { OnOk result (Synchronized D.tells self.old self.new) }
        ensures err { OnErr result (HalfRepaired D.tells self.old self.new
            ⊎ Repaired D.tells self.old self.new) }
        ensures nothing { has_active self.old ≡ false → IsOk result × (self.new ≡ self.old) }
        ensures consistent { IsTrue D.tells → IsConsistent self.new }
        ensures scratch { IsTrue D.tells → IsFromScratch self.old → IsFromScratch self.new }
        ensures synced { IsTrue D.tells → IsSyncedIfSealed self.old → IsSyncedIfSealed self.new }
        ensures rooms { self.old.room ≤ self.new.room }
        ensures cause { IsCaused self.old.faults self.new.faults result }
        ensures views { self.new.fallible_views ≡ self.old.fallible_views }
        ensures outs { self.new.fallible_outs ≡ self.old.fallible_outs }
    {
        self.repair()?;
        self.settle()?;
        Ok(())
    }

    /// Syncs the active file, where there is one, seals it, and makes the next file the active one.
    /// There is nothing to repair. `FullFiles` comes exactly where the last file number is given
    /// out. After an error the files are as before, but after `Disk` the next one may stand there
    /// empty.
    pub fn roll(&mut self) -> Result<(), RollError>
        requires consistent { IsTrue D.tells → IsConsistent self.old }
        requires whole { is_torn self.old ≡ false }
        ensures full { IsErrOf result RollError.FullFiles ↔ (LAST_FILE ≤ last_of self.old) }
        ensures ok { OnOk result (Begins self.old.catalog self.new.catalog) }
        ensures err { OnErr result (self.new.catalog ≡ self.old.catalog) }
        ensures rolled { IsTrue D.tells → OnOk result (Rolled self.old self.new) }
        ensures half { IsTrue D.tells → OnErr result (HalfRolled self.old self.new) }
        ensures untouched { IsErrOf result RollError.FullFiles → self.new ≡ self.old }
        ensures unmade { IsTrue D.tells → IsErrOf result RollError.Memory
            → Settles self.old self.new }
        ensures consistent { IsTrue D.tells → IsConsistent self.new }
        ensures scratch { IsTrue D.tells → IsFromScratch self.old → IsFromScratch self.new }
        ensures synced { IsTrue D.tells → IsSyncedIfSealed self.old → IsSyncedIfSealed self.new }
        ensures room { OnErr result (self.old.room ≤ self.new.room) }
        ensures later { self.old.faults ≤ self.new.faults }
        ensures disk { IsErrOf result RollError.Disk → Rose self.old.faults self.new.faults }
        ensures views { self.new.fallible_views ≡ self.old.fallible_views }
        ensures outs { self.new.fallible_outs ≡ self.old.fallible_outs }
    {
        if self.catalog.last.0 >= LAST_FILE {
            return Err(RollError::FullFiles);
        }
        self.settle()?;
        self.catalog.reserve()?;
        let next = FileId(self.catalog.last.0 + 1);
        self.disk.create(name_of(next))?;
        self.catalog.begin();
        Ok(())
    }

    /// A view of `len` bytes of a file from `at` on. A range past its end is `Failed`.
    pub fn view(&mut self, file: FileId, at: u64, len: u64) -> Result<D::View, DiskError>
        requires { IsTrue D.tells → IsConsistent self.old }
        ensures within { IsTrue D.tells → OnOk result
            (IsWithin (main file.0) at len (image_of self.old)) }
        ensures bytes { IsTrue D.tells → IfOk result
            (λ v. D.View.left v ≡ range_of (main file.0) at len (image_of self.old)) }
        ensures rest { IfOk result (λ v. D.View.rest v ≡ len) }
        ensures catalog { self.new.catalog ≡ self.old.catalog }
        ensures told { IsTrue D.tells
            → self.new.told ≡ viewed (is_ok result) (main file.0) at len self.old.told }
        ensures memory { IsTrue D.tells → IsErrOf result DiskError.Memory
            → self.new.told ≡ self.old.told }
        ensures consistent { IsTrue D.tells → IsConsistent self.new }
        ensures scratch { IsTrue D.tells → IsFromScratch self.old → IsFromScratch self.new }
        ensures synced { IsTrue D.tells → IsSyncedIfSealed self.old → IsSyncedIfSealed self.new }
        ensures rooms { self.old.room ≤ self.new.room }
        ensures cause { HasCause self.old.faults self.new.faults result }
        ensures views { IfOk result
            (λ v. self.new.fallible_views ≡ bumped (D.View.fallible v) self.old.fallible_views) }
        ensures no_view { OnErr result (self.new.fallible_views ≡ self.old.fallible_views) }
        ensures outs { self.new.fallible_outs ≡ self.old.fallible_outs }
    {
        self.disk.view(name_of(file), at, len)
    }

    /// The active file.
    pub fn active(&self) -> Option<FileId>
        ensures { result ≡ active_id self.now }
    {
        self.catalog.active.map(|active| active.id)
    }

    /// The row of a file.
    pub fn row(&self, file: FileId) -> Option<Row>
        ensures { result ≡ row_of file.0 (rows_of self.now) }
    {
        self.catalog.row(file)
    }

    /// All rows, in order of id.
    pub fn rows(&self) -> &[Row]
        ensures { result.now ≡ rows_of self.now }
    {
        self.catalog.rows.as_slice()
    }

    /// Sets the two counts of a file's row, where it has one.
    pub fn count(&mut self, file: FileId, live: u64, refs: u64)
        ensures counts { self.new ≡ record self.old { catalog = counted file.0 live refs self.old.catalog } }
        ensures consistent { IsTrue D.tells → IsConsistent self.old → IsConsistent self.new }
        ensures scratch { IsTrue D.tells → IsFromScratch self.old → IsFromScratch self.new }
        ensures synced { IsTrue D.tells → IsSyncedIfSealed self.old → IsSyncedIfSealed self.new }
    {
        self.catalog.count(file, live, refs);
    }

    /// The disk.
    pub fn into_disk(self) -> D
        ensures shown { D.shown result ≡ disk_shown self }
        ensures room { D.room result (active_name self) ≡ self.room }
    {
        let Files { disk, catalog: _ } = self;
        disk
    }
}
