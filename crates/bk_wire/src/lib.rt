//! The wire protocol: a reader of requests that come in any pieces, and replies, written and read.
#![tactic(auto)]

mod appending;
mod digits;
mod fields;
mod laws;
mod numbers;
mod owned;
mod reader;
mod replies;
mod reply_reader;
mod requests;
mod stops;
mod words;

pub use appending::{NUMBER_ROOM, append, append_number, reserve};
pub use digits::{Digits, hex};
pub use laws::{one_answer, one_reading, one_reply, one_request, read_back};
pub use reader::{Next, Reader};
pub use replies::{write_pair_header, write_reply, write_value_header};
pub use reply_reader::{ReadReply, ReplyStop, read_reply};
