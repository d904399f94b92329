//! A store in an empty folder.
ghost use Rattle.bk_store.specs.Starting.{IsInOrder};

use bk_base::{FileId, Seq};
use bk_keydir::{Keydir, Loaded, Report};
use bk_osdisk::OsDisk;
use bk_policy::Settings;
use bk_store::Store;
use std::alloc::Global;
use std::io;
use std::io::ErrorKind;

/// Starts a store in a folder that is empty.
pub fn started(
    rt: HostRuntime,
    dir: &str,
    max_file: u32,
) -> io::Result<Store<OsDisk<HostRuntime>>> {
    let disk = OsDisk::new(rt, dir).map_err(|_| ErrorKind::InvalidInput)?;
    let settings = Settings {
        max_file,
        ..Settings::plain()
    };
    Ok(Store::start(rt.alloc(), disk, nothing_loaded(rt.alloc()), settings))
}

/// What a load of an empty folder gives.
fn nothing_loaded(alloc: Global) -> Loaded
    ensures { IsInOrder result }
{
    Loaded {
        keydir: Keydir::new(alloc),
        rows: Vec::new(alloc),
        report: Report {
            torn: Vec::new(alloc),
            hints: Vec::new(alloc),
            odd: Vec::new(alloc),
            hinted: 0,
            scanned: 0,
        },
        last_seq: Seq(0),
        last_file: FileId(0),
    }
}
