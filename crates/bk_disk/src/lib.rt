//! The outside as the store sees it: byte streams, a clock, and a disk of named files.
//!
//! Each object has a count of its faults, and answers `Failed` only where that count rose in the
//! call. What it holds is told by some implementations and kept to themselves by others: clauses
//! on content hold where `tells` is true.
#![tactic(auto)]

mod clocks;
mod disks;
mod errors;
mod outs;
mod polls;
mod sinks;
mod sources;
mod views;

pub use bk_base::Memory;
pub use clocks::Clock;
pub use disks::{Disk, Listed};
pub use errors::{DiskError, Failed};
pub use outs::Out;
pub use polls::{Blocking, Drained, PollSink, PollSource, Polled};
pub use sinks::{Sink, write_all};
pub use sources::Source;
pub use views::{View, read_exact};
