//! The report of a directory: what a recovery found of each data file, as lines.
#![tactic(auto)]

mod appending;
mod directory;
mod errors;
mod lines;
mod report;

pub use directory::report_directory;
pub use errors::ReportError;
pub use report::write_report;
