//! Drills: a script of callers, folds, faults and stops, run over a store in memory.
#![tactic(auto)]

mod drills;
mod ends;
mod faults;
mod folds;
mod gets;
mod inbox;
mod loans;
mod plans;
mod running;
mod stops;
mod tallies;
mod values;
mod writes;

pub use ends::DrillEnd;
pub use running::drill;
