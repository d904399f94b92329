//! The work of `fill`: a store is filled with pairs that are made from a number, for tests and measurements.
#![tactic(auto)]

mod ends;
mod filling;
mod lines;
mod pairs;
mod putting;
mod work;

pub use ends::FillEnd;
pub use filling::fill;
