//! The command `list`: the live pairs of a store, sorted by their keys.
#![tactic(auto)]

mod ending;
mod gathering;
mod lists;
mod printing;

pub use lists::{ListEnd, list};
