//! The settings of a store, as its file `bitcask.toml` says them, and when a merge is due by them.
#![tactic(auto)]

mod dead;
mod errors;
mod names;
mod reading;
mod settings;

pub use dead::due;
pub use errors::SettingsError;
pub use names::SettingName;
pub use settings::Settings;
