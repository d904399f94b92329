//! The swap list of a merge: its bytes, written and read.
#![tactic(auto)]

mod decoding;
mod encoding;
mod laws;
mod lists;

pub use decoding::decode;
pub use encoding::encode;
pub use laws::{one_stop, one_swap_list};
pub use lists::{Swap, SwapStop};
