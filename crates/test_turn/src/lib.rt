//! The tests of the turn.
#![tactic(auto)]

#[cfg(test)]
mod turn;
