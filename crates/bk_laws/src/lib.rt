//! The definitions that every contract of the store speaks of: the log and what it says of a key,
//! legal replies and histories. Its functions compute the definitions.
#![tactic(auto)]

mod expiry;
mod winners;

pub use expiry::live;
pub use winners::{superseded, value_at, winner};
