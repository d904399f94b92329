//! The plain data of the store: keys, values, writes, names of files, calls and their answers,
//! and what a history records of each step. Every other crate speaks in these types.
#![tactic(auto)]

mod calls;
mod damages;
mod errors;
mod histories;
mod inline_bytes;
mod jobs;
mod key_bytes;
mod keys;
pub mod limits;
mod names;
mod numbers;
mod requests;
mod rows;
mod statuses;
mod values;
mod writes;

pub use calls::{Answer, Call, Entry};
pub use damages::Damage;
pub use errors::Memory;
pub use histories::{OpenFold, Opening, Placed, Snapshot, Step, StoreSettings, WrittenFile};
pub use jobs::{Cause, JobInput, JobPart, JobState, PartState, Phase};
pub use keys::{Key, KeyLength};
pub use names::{Kind, Name, one_text};
pub use numbers::{FileId, Moment, Seq};
pub use requests::{Full, Reply, Request};
pub use rows::{Row, RowState};
pub use statuses::{SessionEnd, Status};
pub use values::{Value, ValueLength};
pub use writes::{Body, Version, Write};
