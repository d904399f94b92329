//! The tests of each format: records, hints, swap lists, settings, requests, replies and drill scripts.
#![tactic(auto)]

#[cfg(test)]
mod hints;
#[cfg(test)]
mod policy;
#[cfg(test)]
mod records;
#[cfg(test)]
mod replies;
#[cfg(test)]
mod requests;
#[cfg(test)]
mod scripts;
#[cfg(test)]
mod swaps;
