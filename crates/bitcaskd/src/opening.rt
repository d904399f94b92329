//! The store of a directory, opened with the settings that its file says.
ghost use Rattle.std.specs.Prelude.{◌≡◌, IfErr, IfOk, IsTrue};
ghost use Rattle.bk_load.specs.Tidying.{NoneLent};
ghost use Rattle.bitcaskd.specs.Opening.{IsRefused, Opens, of_open, of_settings};

use bk_base::Status;
use bk_disk::Disk;
use bk_load::{LoadSettings, OpenError, open, settings};
use bk_progress::Progress;
use bk_store::Store;
use std::alloc::Global;

/// Opens a directory, whatever a crash left of it. After a refusal the disk comes back, with the status
/// of the run that ends so.
pub fn open_store<D: Disk, P: Progress>(
    alloc: Global,
    mut disk: D,
    progress: &mut P,
) -> Result<Store<D>, (D, Status)>
    requires { IsTrue D.tells → NoneLent (D.shown disk).told.fronts }
    ensures opens { IfOk result (λ store. Opens D.tells
        (D.shown disk)
        store) }
    ensures refused { IfErr result (λ refused. IsRefused D.tells (D.shown disk) (D.shown refused.0)
        refused.1) }
{
    let settings = match settings(alloc, &mut disk) {
        Ok(settings) => settings,
        Err(error) => return Err((disk, of_settings(error))),
    };
    match open(alloc, disk, settings, progress) {
        Ok(store) => Ok(store),
        Err((disk, error)) => Err((disk, of_open(error))),
    }
}

/// The status of a run without settings.
pub fn of_settings(error: LoadSettings) -> Status
    ensures { result ≡ of_settings error }
{
    match error {
        LoadSettings::Bad(_) => Status::Settings,
        LoadSettings::Disk | LoadSettings::Read => Status::Disk,
        LoadSettings::Memory => Status::Memory,
    }
}

/// The status of a run whose directory wasn't recovered.
fn of_open(error: OpenError) -> Status
    ensures { result ≡ of_open error }
{
    match error {
        OpenError::Disk | OpenError::Read => Status::Disk,
        OpenError::Memory => Status::Memory,
    }
}
