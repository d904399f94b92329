//! Hint files: for each record of a data file one row that says where it stands, so that the keydir
//! can be filled without reading the values.
#![tactic(auto)]

mod headers;
mod judging;
mod laws;
mod reading;
mod rows;
mod writing;

pub use headers::Header;
pub use judging::{Verdict, judge};
pub use laws::{
    added_is_sound, good_rows, one_reading, one_verdict, rows_are_good, told_again, told_records,
    written_is_good,
};
pub use reading::HintIn;
pub use rows::HintRow;
pub use writing::HintOut;
