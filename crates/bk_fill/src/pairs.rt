//! The pairs that are put: one for each number from 0 on.
ghost use Rattle.std.specs.Prelude.{◌≡◌, ◌+◌, ◌≤◌, IfOk, length};
ghost use Rattle.bk_fill.specs.Pairs.{key_at, value_at};

use bk_base::{Key, Memory};
use bk_store::Prepared;
use bk_wire::Digits;
use std::alloc::Global;

/// How many keys there are; the next number after the last of them begins with the first one again.
pub const KEYS: u32 = 1_000;

/// The key of the pair with this number; only memory can refuse it.
fn key_at(alloc: Global, number: u32) -> Result<Key, Memory>
    ensures key { IfOk result (λ key. key ≡ key_at number) }
    ensures few { IfOk result (λ key. length key ≤ 40) }
{
    let mut text = Vec::new(alloc);
    text.push(b'k')?;
    text.extend_from_slice(Digits::of((number % KEYS).into()).as_slice())?;
    Key::of(alloc, text.as_slice())
}

/// The pair with this number; only memory can refuse it.
pub(crate) fn pair_at(alloc: Global, number: u32) -> Result<Prepared, Memory>
    ensures pair { IfOk result (λ pair. (pair.key ≡ key_at number) × (pair.value ≡ value_at number)) }
    ensures few { IfOk result (λ pair. length pair.key + length pair.value ≤ 79) }
{
    let key = key_at(alloc, number)?;
    // No number has so many digits that they are too long for a value.
    Prepared::new(alloc, key, Digits::of(number.into()).as_slice()).map_err(|_| Memory)
}
