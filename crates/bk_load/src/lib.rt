//! The load of a directory: its settings, and the recovery that any directory opens by, whatever a
//! crash left of it.
#![tactic(auto)]

mod calls;
mod clearing;
mod counting;
mod directory;
mod errors;
mod files;
mod hints;
mod laws;
mod learning;
mod lists;
mod opening;
mod recovery;
mod reports;
mod scanning;
mod settings_file;
mod settling;

pub use bk_keydir::{HintNote, Loaded, Report, Torn};
pub use errors::{LoadSettings, OpenError};
pub use laws::{recovery_keeps_log, synced_lends_nothing};
pub use opening::open;
pub use recovery::recover;
pub use settings_file::settings;
