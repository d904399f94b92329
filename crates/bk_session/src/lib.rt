//! A session: requests are read from a source, served over a store, and their replies are written to a sink.
#![tactic(auto)]

mod gets;
mod inbox;
mod listings;
mod outbox;
mod puts;
mod refusals;
mod sending;
mod serving;
mod sessions;
mod syncs;

pub use outbox::{Outbox, Unread, Unsent};
pub use sessions::session;
