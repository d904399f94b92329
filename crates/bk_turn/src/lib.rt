//! The turn: a lock whose value stands for one growing history. Each holding adds one step to the
//! history, and a pass carries what its owner has seen of it and which steps are its own.
//!
//! `specs/Pushes.antt` and `proofs/Pushing.antt`, a list of numbers under the turn, serve tests and
//! measurement alone.
#![tactic(auto)]

mod entering;
mod holdings;
mod making;
mod passes;
mod patience;
mod places;
mod plays;
mod seats;
mod sharing;
mod stands;
mod steps;
mod turns;
mod views;

pub use holdings::Holding;
pub use passes::{NoSplit, Pass, Spent, Two};
pub use places::{drop_places, empty_places, put_pass, take_pass};
pub use stands::Stands;
pub use turns::{NoTurn, Opened, Turn};
pub use views::View;
