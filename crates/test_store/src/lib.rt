//! The tests of one store: its data files and their scan, its keydir, its events, its load and its report.
#![tactic(auto)]

#[cfg(test)]
mod files;
#[cfg(test)]
mod keydir;
#[cfg(test)]
mod load;
#[cfg(test)]
mod report;
#[cfg(test)]
mod scans;
#[cfg(test)]
mod store;
