//! The tests of what is done over a store: sessions, `fill`, `list` and drills.
#![tactic(auto)]

#[cfg(test)]
mod drill;
#[cfg(test)]
mod fill;
#[cfg(test)]
mod list;
#[cfg(test)]
mod session;
