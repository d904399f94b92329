//! Settings, read from the text of their file.
ghost use Rattle.std.specs.Prelude.{◌≡◌, Ok, Err, OnOk, IfOk, IfErr};
ghost use Rattle.toml.specs.View.{table_view, view};
ghost use Rattle.bk_policy.specs.Reading.{IsSettingsError, Says, after_member, settings_in};

use crate::errors::SettingsError;
use crate::names::SettingName;
use crate::settings::Settings;
use bk_base::limits::LONGEST_SETTINGS;
use std::alloc::Global;
use toml::{Table, Value};

impl Settings {
    /// The settings that the text of a settings file says: TOML of at most 65,536 bytes, whose keys
    /// are among the four and whose values are integers in range. What it doesn't name is `plain`'s.
    pub fn read(alloc: Global, text: &[u8]) -> Result<Settings, SettingsError>
        ensures read { IfOk result (λ settings. Says text.now (Ok settings)) }
        ensures refused { IfErr result (IsSettingsError text.now) }
    {
        if text.len() > LONGEST_SETTINGS as usize {
            return Err(SettingsError::TooLong {
                len: text.len() as u64,
            });
        }
        match toml::table_from_slice(alloc, text) {
            Ok(table) => Settings::of_table(&table),
            Err(error) if error.is_memory() => Err(SettingsError::Memory),
            Err(_) => Err(SettingsError::NotToml),
        }
    }

    // The settings that the members of a table say.
    fn of_table(table: &Table) -> Result<Settings, SettingsError>
        ensures { result ≡ settings_in (table_view table.now) }
    {
        let mut settings = Settings::plain();
        'members: for (key, value) in table.iter() {
            settings.take(key.as_str(), value)?;
        }
        Ok(settings)
    }

    // Takes what one member says.
    fn take(&mut self, key: &str, value: &Value) -> Result<(), SettingsError>
        ensures taken { OnOk result (after_member self.old key.now (view value.now) ≡ Ok self.new) }
        ensures refused { IfErr result (λ error.
            after_member self.old key.now (view value.now) ≡ Err error) }
    {
        let Some(name) = SettingName::of(key) else {
            return Err(SettingsError::UnknownKey);
        };
        let Some(integer) = value.as_integer() else {
            return Err(SettingsError::NotInteger(name));
        };
        let value = name.value(integer)?;
        self.set(name, value);
        Ok(())
    }
}
