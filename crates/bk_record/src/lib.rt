//! The record of a write: its bytes, as they stand in a data file.
#![tactic(auto)]

mod decoding;
mod encoding;
mod header;
mod laws;

pub use decoding::{Decoded, DecodedKey, Stop, decode, decode_key};
pub use encoding::encode;
pub use header::Header;
pub use laws::{header_says, one_list_of_records, one_record, one_stop};
