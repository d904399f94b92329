//! The store.
ghost use Rattle.std.specs.Prelude.{◌≡◌, [], None, List, IsTrue};
ghost use Rattle.bk_base.specs.declared.writes.Write.{Write};
ghost use Rattle.bk_files.specs.Files.{IsConsistentWith, disk_shown};
ghost use Rattle.bk_store.specs.Standing.{StandsFor};
ghost use Rattle.bk_store.specs.Starting.{AreFilesOf, IsInOrder, IsLoadOf, opening_of};

use bk_base::Seq;
use bk_disk::Disk;
use bk_files::{Catalog, Files};
use bk_keydir::{Keydir, Loaded};
use bk_policy::Settings;
use std::alloc::Global;
use std::marker::Model;

/// A store: each call is one event, and adds one step to its history. A refused event adds a step that
/// changes nothing. An event makes no disk call before it has to, and takes no memory where its
/// errors name none.
#[derive(Drop)]
pub struct Store<D: Disk> {
    pub(crate) files: Files<D>,
    pub(crate) keydir: Keydir,
    /// The record of each write is made here.
    pub(crate) buffer: Vec<u8>,
    /// The seq of the last write.
    pub(crate) last: Seq,
    pub(crate) settings: Settings,
}

impl<D: Disk> Model for Store<D> {
    ghost use Rattle.std.specs.Vec.{vec_capacity};
    ghost use Rattle.bk_store.specs.Shown.{IsSteady, Shown};

    ghost Value = { Shown };

    ghost view = { λ s. record {
      files = s.files;
      keys = s.keydir;
      seq = s.last.0;
      settings = s.settings;
      buffer = vec_capacity s.buffer;
    } };

    ghost invariant = { λ s. IsSteady D.tells s.files s.keydir s.last.0 };
}

/// A store without its disk, as it is while a disk in memory is told which of its calls fail.
#[derive(Drop)]
pub struct Detached {
    catalog: Catalog,
    keydir: Keydir,
    buffer: Vec<u8>,
    last: Seq,
    settings: Settings,
}

impl Model for Detached {
    ghost use Rattle.std.specs.Prelude.{false};
    ghost use Rattle.std.specs.Vec.{vec_capacity};
    ghost use Rattle.bk_files.specs.Files.{known_of};
    ghost use Rattle.bk_store.specs.Shown.{DetachedShown, IsSteady, without_disk};

    ghost Value = { DetachedShown };

    ghost view = { λ s. record {
      catalog = known_of s.catalog;
      keys = s.keydir;
      seq = s.last.0;
      settings = s.settings;
      buffer = vec_capacity s.buffer;
    } };

    ghost invariant = { λ s. IsSteady false (without_disk (known_of s.catalog)) s.keydir s.last.0 };
}

impl<D: Disk> Store<D> {
    /// The store of a directory that was loaded. It makes no disk call and takes no memory. Where the
    /// disk is sound and was loaded as it is, the store stands for its log and no step.
    pub fn start(alloc: Global, disk: D, loaded: Loaded, settings: Settings) -> Store<D>
        requires order { IsInOrder loaded }
        requires files { IsTrue D.tells → AreFilesOf (D.shown disk).told loaded }
        ensures shown { disk_shown result.files ≡ D.shown disk }
        ensures catalog { result.files.catalog ≡ record {
          rows = loaded.rows.items;
          active = None;
          last = loaded.last_file.0;
          max_file = settings.max_file;
        } }
        ensures keys { result.keys ≡ loaded.keydir }
        ensures seq { result.seq ≡ loaded.last_seq.0 }
        ensures settings { result.settings ≡ settings }
        ensures stands { IsTrue D.tells → (log : List Write) → IsLoadOf (D.shown disk).told loaded log
            → StandsFor result (opening_of log result) [] [] }
    {
        let Loaded {
            keydir,
            rows,
            report: _,
            last_seq,
            last_file,
        } = loaded;
        Store {
            files: Files::new(disk, rows, last_file, settings.max_file),
            keydir,
            buffer: Vec::new(alloc),
            last: last_seq,
            settings,
        }
    }

    /// The store's disk. It makes no disk call.
    pub fn close(self) -> D
        ensures shown { D.shown result ≡ disk_shown self.files }
    {
        let Store {
            files,
            keydir: _,
            buffer: _,
            last: _,
            settings: _,
        } = self;
        files.into_disk()
    }

    /// The store's disk, and the store without it. It makes no disk call.
    pub fn detach(self) -> (D, Detached)
        ensures shown { D.shown result.0 ≡ disk_shown self.files }
        ensures rest { result.1 ≡ record {
          catalog = self.files.catalog;
          keys = self.keys;
          seq = self.seq;
          settings = self.settings;
          buffer = self.buffer;
        } }
        ensures consistent { IsTrue D.tells → IsConsistentWith result.1.catalog (D.shown result.0).told }
    {
        let Store {
            files,
            keydir,
            buffer,
            last,
            settings,
        } = self;
        let (disk, catalog) = files.into_parts();
        let detached = Detached {
            catalog,
            keydir,
            buffer,
            last,
            settings,
        };
        (disk, detached)
    }

    /// The store over a disk, of which it knows what it knew of the one that it was detached from.
    pub fn attach(disk: D, detached: Detached) -> Store<D>
        requires { IsTrue D.tells → IsConsistentWith detached.catalog (D.shown disk).told }
        ensures shown { disk_shown result.files ≡ D.shown disk }
        ensures catalog { result.files.catalog ≡ detached.catalog }
        ensures keys { result.keys ≡ detached.keys }
        ensures seq { result.seq ≡ detached.seq }
        ensures settings { result.settings ≡ detached.settings }
        ensures buffer { result.buffer ≡ detached.buffer }
    {
        let Detached {
            catalog,
            keydir,
            buffer,
            last,
            settings,
        } = detached;
        Store {
            files: Files::from_parts(disk, catalog),
            keydir,
            buffer,
            last,
            settings,
        }
    }
}
