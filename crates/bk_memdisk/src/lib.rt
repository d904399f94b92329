//! The outside in memory: a source, a sink, a clock and a disk that tell their content, and fail
//! where they were told to.
#![tactic(auto)]

mod changes;
mod choices;
mod clocks;
mod countdown;
mod directory;
mod disks;
mod files;
mod outs;
mod plans;
mod sinks;
mod sources;
mod views;

pub use choices::Choice;
pub use clocks::ListClock;
pub use disks::MemDisk;
pub use outs::MemOut;
pub use plans::Plan;
pub use sinks::MemSink;
pub use sources::MemSource;
pub use views::MemView;
