//! The settings of a directory.
ghost use Rattle.std.specs.Prelude.{◌≡◌, ℕ, List, Some, Ok, length, option_map, IsTrue, IfErr, IfOk};
ghost use Rattle.bk_disk.specs.Told.{at, bytes_of};
ghost use Rattle.bk_load.specs.Directory.{len_in};
ghost use Rattle.bk_load.specs.SettingsFile.{Answers, AnswersText, IsOfText, Loads, settings_file};
ghost use Rattle.bk_load.specs.Steps.{AsksOnly};

use crate::calls::{list_files, read_whole};
use crate::directory::is_named;
use crate::errors::LoadSettings;
use bk_base::limits::LONGEST_SETTINGS;
use bk_base::{Kind, Name};
use bk_disk::{Disk, Listed};
use bk_policy::{Settings, SettingsError};
use std::alloc::Global;

const FILE: Name = Name {
    id: 0,
    kind: Kind::Settings,
};

/// What `bitcask.toml` says, or the defaults where it isn't there. It changes no file.
///
/// `Disk` comes only where the disk's count of faults rose, `Read` only where that of the fallible views
/// did.
pub fn settings<D: Disk>(alloc: Global, disk: &mut D) -> Result<Settings, LoadSettings>
    ensures answers { IsTrue D.tells → Answers (at (D.shown disk.old).told.image settings_file) result }
    ensures loads { Loads (D.shown disk.old) (D.shown disk.new) result }
    ensures asked { IsTrue D.tells → AsksOnly settings_file
        (length (bytes_of settings_file (D.shown disk.old).told.image)) (D.shown disk.old).told (D.shown disk.new).told }
{
    let files = list_files(disk)?;
    match length_of(&files, FILE) {
        Some(len) => read_settings(alloc, disk, len),
        None => Ok(Settings::plain()),
    }
}

// The length of a file that is listed.
fn length_of(files: &[Listed], name: Name) -> Option<u64>
    ensures { result ≡ len_in files.now name }
{
    let mut len = None;
    for file in files {
        if is_named(file, name) {
            len = Some(file.len);
        }
    }
    len
}

// What the file of this length says.
fn read_settings<D: Disk>(alloc: Global, disk: &mut D, len: u64) -> Result<Settings, LoadSettings>
    requires { IsTrue D.tells → option_map length (at (D.shown disk.old).told.image settings_file) ≡ Some len }
    ensures answers { IsTrue D.tells → Answers (at (D.shown disk.old).told.image settings_file) result }
    ensures loads { Loads (D.shown disk.old) (D.shown disk.new) result }
    ensures asked { IsTrue D.tells → AsksOnly settings_file len (D.shown disk.old).told (D.shown disk.new).told }
{
    if len > u64::from(LONGEST_SETTINGS) {
        return Err(LoadSettings::Bad(SettingsError::TooLong { len }));
    }
    let text = read_whole(alloc, disk, FILE, len)?;
    settings_of(alloc, &text)
}

// What a text says.
fn settings_of(alloc: Global, text: &[u8]) -> Result<Settings, LoadSettings>
    ensures answers { AnswersText text.now result }
    ensures cause { IfErr result IsOfText }
{
    match Settings::read(alloc, text) {
        Ok(settings) => Ok(settings),
        Err(SettingsError::Memory) => Err(LoadSettings::Memory),
        Err(error) => Err(LoadSettings::Bad(error)),
    }
}
