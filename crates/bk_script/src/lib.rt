//! Drill scripts: a reader of their lines, which come in any pieces, and the lines that a drill prints.
#![tactic(auto)]

mod actors;
mod appending;
mod flips;
mod laws;
mod limits;
mod lines;
mod operands;
mod printed;
mod reader;
mod reading;
mod unread;
mod verbs;
mod words;
mod writing;

pub use actors::Actor;
pub use flips::Flips;
pub use laws::{however_cut, one_answer, one_line};
pub use limits::{LONGEST_LINE, LONGEST_WORD, MOST_LINES};
pub use lines::{Action, Line};
pub use printed::Printed;
pub use reader::{Next, Reader};
pub use writing::write_line;
