//! The keydir: in memory, for each key the versions that are kept of it, newest first, and the folds
//! that are open. It keeps a version as long as it is the newest of its key or an open fold sees it.
#![tactic(auto)]

mod kept;
mod keydir;
mod loads;
mod slots;

pub use keydir::{Keydir, Swept};
pub use loads::{HintNote, Loaded, Report, Torn};
pub use slots::{FullFolds, Slot};
