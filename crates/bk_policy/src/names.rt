//! The settings by name.
ghost use Rattle.std.specs.Prelude.{◌≡◌, ◌≤◌, IfOk};
ghost use Rattle.bk_policy.specs.Settings.{greatest, least, name_of};
ghost use Rattle.bk_policy.specs.Reading.{value_of};

use crate::errors::SettingsError;

/// A setting, in the order of the keys' bytes.
#[derive(Clone, Copy, Debug, PartialEq, Eq)]
pub enum SettingName {
    /// `dead_bytes`: so many dead bytes of a sealed file make a merge due; 1 to 1,099,511,627,776.
    DeadBytes,
    /// `dead_percent`: so large a part of a sealed file's records makes a merge due; 1 to 100.
    DeadPercent,
    /// `max_file`: the length of a data file past which the next one is begun; 4,096 to
    /// 1,073,741,824 bytes.
    MaxFile,
    /// `ttl`: how many seconds a put is live, 0 for no end; 0 to 4,294,967,295.
    Ttl,
}

impl SettingName {
    /// The setting of this key, or `None` where it is none of the four.
    pub fn of(key: &str) -> Option<SettingName>
        ensures { result ≡ name_of key.now }
    {
        match key {
            "dead_bytes" => Some(SettingName::DeadBytes),
            "dead_percent" => Some(SettingName::DeadPercent),
            "max_file" => Some(SettingName::MaxFile),
            "ttl" => Some(SettingName::Ttl),
            _ => None,
        }
    }

    /// The integer as this setting's value, or `OutOfRange`.
    pub fn value(self, integer: i64) -> Result<u64, SettingsError>
        ensures value { result ≡ value_of self integer }
        ensures bound { IfOk result (λ n. n ≤ greatest self) }
    {
        match u64::try_from(integer) {
            Ok(number) if self.least() <= number && number <= self.greatest() => Ok(number),
            _ => Err(SettingsError::OutOfRange {
                name: self,
                value: integer,
            }),
        }
    }

    fn least(self) -> u64
        ensures { result ≡ least self }
    {
        match self {
            SettingName::DeadBytes => 1,
            SettingName::DeadPercent => 1,
            SettingName::MaxFile => 4_096,
            SettingName::Ttl => 0,
        }
    }

    fn greatest(self) -> u64
        ensures { result ≡ greatest self }
    {
        match self {
            SettingName::DeadBytes => 1_099_511_627_776,
            SettingName::DeadPercent => 100,
            SettingName::MaxFile => 1_073_741_824,
            SettingName::Ttl => 4_294_967_295,
        }
    }
}
