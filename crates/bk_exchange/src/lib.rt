//! What a session with a client is: its exchanges, and how it ends. Definitions, lemmas and the laws that
//! follow from them; there is no code that runs.
#![tactic(auto)]

mod laws;

pub use laws::{
    answered, disk_lines_are_faults, end_is_whole, end_says, long_at_limit, no_false_syntax,
    ok_lines_tell_writes, only_asked, refusals_are_caused, seqs_are_true, session_log,
    shown_by_its_own_event, value_is_live,
};
