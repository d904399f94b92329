//! The data files of a store: they are appended to, they roll at a size, and a failed append is
//! repaired before the next one. `Scan` gives the records of a file in order.
#![tactic(auto)]

mod catalog;
mod errors;
mod files;
mod scan;

pub use catalog::{Active, Catalog};
pub use errors::RollError;
pub use files::Files;
pub use scan::{Found, FoundKey, Scan, ScanError, first_records, records_go_on};
