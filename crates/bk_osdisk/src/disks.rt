//! The files of a folder as a disk.
ghost use Rattle.std.specs.Prelude.{◌≡◌, ◌≤◌, IfOk};
ghost use Rattle.bk_disk.specs.Causes.{most};

use crate::errors::OsRefused;
use crate::faults::Faults;
use crate::folders::Folder;
use crate::outs::OsOut;
use crate::views::OsView;
use bk_base::{Memory, Name};
use bk_disk::{Disk, DiskError, Failed, Listed};
use std::alloc::{Alloc, Global};
use std::fs::{File, Files};

/// The files of a folder, which this process has for writing. A name that is no name of the store
/// isn't there for it. Each call that changes the folder's entries also syncs the folder.
#[derive(Drop)]
pub struct OsDisk<R: Files<File = File> + Alloc<A = Global> + Clone + Drop> {
    folder: Folder<R>,
    faults: Faults,
    fallible_views: u64,
    fallible_outs: u64,
    ghost views_within: { fallible_views ≤ most },
    ghost outs_within: { fallible_outs ≤ most },
}

impl<R: Files<File = File> + Alloc<A = Global> + Clone + Drop> OsDisk<R> {
    /// The disk of a folder that is there, whose lock it takes for as long as the disk is used.
    /// The lock is an advisory one on a file of its own.
    pub fn new(rt: R, dir: &str) -> Result<OsDisk<R>, OsRefused>
        ensures { IfOk result (λ disk. (⟦<OsDisk<R> as Disk>⟧.shown disk).faults ≡ 0) }
    {
        Ok(OsDisk {
            folder: Folder::open(rt, dir)?,
            faults: Faults::none(),
            fallible_views: 0,
            fallible_outs: 0,
        })
    }
}

impl<R: Files<File = File> + Alloc<A = Global> + Clone + Drop> Disk for OsDisk<R> {
    ghost use Rattle.std.specs.Prelude.{false, []};
    ghost use Rattle.bk_disk.specs.Told.{nothing_told, untold};

    type View = OsView;

    type Out = OsOut;

    ghost tells = { false };

    ghost shown = { λ d. record {
      told = nothing_told;
      faults = d.faults.count;
      views = d.fallible_views;
      outs = d.fallible_outs;
    } };

    ghost room = { λ _ _. 18446744073709551615 };

    ghost gathers = { false };

    ghost failed_flushes = { λ _. 0 };

    ghost well = { λ _ h. untold h };

    ghost most_views = { λ d. d.views_within };

    ghost most_outs = { λ d. d.outs_within };

    ghost views_tell = { λ h. h };

    ghost outs_tell = { λ h. h };

    fn list(&mut self) -> Result<Vec<Listed>, DiskError> {
        let done = self.folder.list();
        self.faults.told_apart(done)
    }

    fn view(&mut self, name: Name, at: u64, len: u64) -> Result<OsView, DiskError> {
        let done = self.folder.view(name, at, len);
        let view = self.faults.told_apart(done)?;
        self.fallible_views = self.fallible_views.saturating_add(1);
        Ok(view)
    }

    fn create(&mut self, name: Name) -> Result<(), DiskError> {
        let done = self.folder.create(name);
        self.faults.told_apart(done)
    }

    fn ready(&mut self, _name: Name, _bytes: u64) -> Result<(), Memory> {
        Ok(())
    }

    fn append(&mut self, name: Name, piece: &[u8]) -> Result<(), Failed> {
        let done = self.folder.append(name, piece);
        self.faults.counted(done)
    }

    fn cut(&mut self, name: Name, len: u64) -> Result<(), Failed> {
        let done = self.folder.cut(name, len);
        self.faults.counted(done)
    }

    fn sync(&mut self, name: Name) -> Result<(), Failed> {
        let done = self.folder.sync(name);
        self.faults.counted(done)
    }

    fn lend(&mut self, name: Name) -> Result<OsOut, DiskError> {
        let done = self.folder.lend(name);
        let out = self.faults.told_apart(done)?;
        self.fallible_outs = self.fallible_outs.saturating_add(1);
        Ok(out)
    }

    fn adopt(&mut self, _out: OsOut) {}

    fn rename(&mut self, from: Name, to: Name) -> Result<(), DiskError> {
        let done = self.folder.rename(from, to);
        self.faults.told_apart(done)
    }

    fn remove(&mut self, name: Name) -> Result<(), DiskError> {
        let done = self.folder.remove(name);
        self.faults.told_apart(done)
    }

    fn flush(&mut self) -> Result<(), Failed> {
        Ok(())
    }
}
