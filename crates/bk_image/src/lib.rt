//! What the files of a directory say of a log: which of them count, the log that they hold, what a crash
//! leaves of it, and when a running store's files hold its log. Definitions, lemmas and the laws that
//! follow from them; there is no code that runs.
#![tactic(auto)]

mod laws;

pub use laws::{
    crash_leaves_prefix, greatest_seq_wins, image_has_map, image_has_prefix, legal_log_rises,
    one_log, sound_disk_holds, step_grows_log,
};
