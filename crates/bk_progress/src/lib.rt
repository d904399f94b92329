//! How far a long work has come, for whoever wants to show it. No promise depends on it.
#![tactic(auto)]

mod progress;
mod silent;

pub use progress::{Progress, Stage};
pub use silent::Silent;
