//! The tests of the disk's clauses, of the outside in memory and of that of the operating system.
#![tactic(auto)]

#[cfg(test)]
mod disk;
#[cfg(test)]
mod memdisk;
#[cfg(test)]
mod osdisk;
