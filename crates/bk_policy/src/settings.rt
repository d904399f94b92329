//! The settings of a store.
ghost use Rattle.std.specs.Prelude.{◌≡◌, ◌≤◌};
ghost use Rattle.bk_policy.specs.Settings.{defaults, greatest, with_value};

use crate::names::SettingName;
use bk_base::limits::DEFAULT_MAX_FILE;

/// The settings of a store.
#[derive(Clone, Copy, Debug, PartialEq, Eq)]
pub struct Settings {
    /// So many dead bytes of a sealed file make a merge due.
    pub dead_bytes: u64,
    /// The length of a data file in bytes past which the next one is begun.
    pub max_file: u32,
    /// How many seconds a put is live; 0 for no end.
    pub ttl: u32,
    /// So large a part of a sealed file's records makes a merge due, in percent.
    pub dead_percent: u32,
}

impl Settings {
    /// The settings where no file says others.
    pub fn plain() -> Settings
        ensures { result ≡ defaults }
    {
        Settings {
            dead_bytes: 33_554_432,
            max_file: DEFAULT_MAX_FILE,
            ttl: 0,
            dead_percent: 60,
        }
    }

    /// Gives one setting another value.
    pub(crate) fn set(&mut self, name: SettingName, value: u64)
        requires { value ≤ greatest name }
        ensures { self.new ≡ with_value self.old name value }
    {
        match name {
            SettingName::DeadBytes => self.dead_bytes = value,
            SettingName::DeadPercent => self.dead_percent = value as u32,
            SettingName::MaxFile => self.max_file = value as u32,
            SettingName::Ttl => self.ttl = value as u32,
        }
    }
}
