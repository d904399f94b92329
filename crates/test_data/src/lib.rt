//! The tests of keys, values and names, of the CRC, and of the definitions over a log.
#![tactic(auto)]

#[cfg(test)]
mod base;
#[cfg(test)]
mod crc;
#[cfg(test)]
mod laws;
