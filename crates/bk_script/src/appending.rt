//! The word of a value.
ghost use Rattle.std.specs.Prelude.{◌≡◌, ◌==◌, ◌+◌, ◌≤◌, ◌++◌, length, vec_len, vec_capacity};
ghost use Rattle.std.specs.List.{list_all};
ghost use Rattle.bk_script.specs.Printed.{value_word};

use crate::limits::LONGEST_WORD;
use bk_wire::{append, append_number};

/// Appends a value: one of nothing but `x` that is too long for a word as how many they are.
#[tactic(auto, using(std::proofs::lemmas::List::append_assoc))]
pub(crate) fn append_value(out: &mut Vec<u8>, value: &[u8])
    requires { vec_len out.old + (length value.now + 41) ≤ vec_capacity out.old }
    ensures items { out.new.items ≡ out.old.items ++ value_word value.now }
    ensures len { vec_len out.new ≤ vec_len out.old + (length value.now + 41) }
    ensures capacity { vec_capacity out.old ≤ vec_capacity out.new }
{
    if value.len() > LONGEST_WORD && is_all_x(value) {
        append_number(out, b"", value.len() as u128);
        append(out, b"*x");
    } else {
        append(out, value);
    }
}

fn is_all_x(bytes: &[u8]) -> bool
    ensures { result ≡ list_all (λ b. b == 120) bytes.now }
{
    bytes.iter().all(|byte| *byte == b'x')
}
