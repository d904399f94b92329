//! Text that grows within its capacity: room is made once, then nothing is refused.
ghost use Rattle.std.specs.Prelude.{◌≡◌, ◌+◌, ◌≤◌, ◌++◌, length, OnOk, vec_len, vec_capacity};
ghost use Rattle.std.specs.Fmt.{decimal};

use crate::digits::Digits;
use bk_base::Memory;

/// Room, in bytes, for any number and the one byte behind it.
pub const NUMBER_ROOM: usize = 40;

/// Makes room for this many more bytes. Its one error is that there is no memory for them.
pub fn reserve(out: &mut Vec<u8>, len: usize) -> Result<(), Memory>
    ensures items { out.new.items ≡ out.old.items }
    ensures ok { OnOk result (vec_len out.new + len ≤ vec_capacity out.new) }
{
    out.reserve(len).map_err(|_| Memory)
}

/// Appends some bytes, within the capacity.
pub fn append(out: &mut Vec<u8>, bytes: &[u8])
    requires { vec_len out.old + length bytes.now ≤ vec_capacity out.old }
    ensures items { out.new.items ≡ out.old.items ++ bytes.now }
    ensures len { vec_len out.new ≡ vec_len out.old + length bytes.now }
    ensures capacity { vec_capacity out.old ≤ vec_capacity out.new }
{
    out.extend_from_slice(bytes).unwrap();
}

/// Appends some bytes and the digits of a number, within the capacity.
#[tactic(auto, using(std::proofs::lemmas::List::append_assoc))]
pub fn append_number(out: &mut Vec<u8>, front: &[u8], number: u128)
    requires { vec_len out.old + (length front.now + 39) ≤ vec_capacity out.old }
    ensures items { out.new.items ≡ out.old.items ++ (front.now ++ decimal number) }
    ensures len { vec_len out.new ≤ vec_len out.old + (length front.now + 39) }
    ensures capacity { vec_capacity out.old ≤ vec_capacity out.new }
{
    append(out, front);
    append(out, Digits::of(number).as_slice());
}
