//! The outside as the operating system gives it: a folder of files, the standard streams and the
//! clock, behind the store's traits.
//!
//! No contract says what a file or a stream holds, so these adapters tell nothing. Each passes a
//! call on and counts its fault: that `Failed` is answered only where the count rose is proved, and
//! what the system does is trusted.
#![tactic(auto)]

mod clocks;
mod disks;
mod errors;
mod faults;
mod folders;
mod openings;
mod outs;
mod sinks;
mod sources;
mod syncs;
mod views;

pub use clocks::OsClock;
pub use disks::OsDisk;
pub use errors::{OsRefused, Reason};
pub use outs::OsOut;
pub use sinks::OsSink;
pub use sources::OsSource;
pub use views::OsView;
