//! What stands behind the word that says what a line does.
ghost use Rattle.std.specs.Prelude.{◌≡◌, ◌<◌, ◌≤◌, ◌^◌, [], ◌∷◌, map};
ghost use Rattle.std.specs.Fmt.{decimal};
ghost use Rattle.std.specs.List.{All};
ghost use Rattle.bk_base.specs.declared.limits.TheConstants.{LONGEST_VALUE};
ghost use Rattle.bk_script.specs.Lines.{FitsKeep, IsWord, keep_word};
ghost use Rattle.bk_script.specs.Words.{Reads, now_of};

use crate::flips::Flips;
use crate::unread::Unread;
use crate::words::{key, number, number_within, value};
use bk_base::limits::LONGEST_VALUE;
use bk_base::{Key, Value};
use std::alloc::Global;

/// A key.
pub(crate) fn one_key(alloc: Global, operands: &[&[u8]]) -> Result<Key, Unread>
    ensures { Reads IsWord (λ key. key ∷ []) result (now_of operands.now) }
{
    match operands {
        [word] => key(alloc, word),
        _ => Err(Unread::Bad),
    }
}

/// A key and a value.
pub(crate) fn key_and_value(alloc: Global, operands: &[&[u8]]) -> Result<(Key, Value), Unread>
    ensures { Reads (λ pair. IsWord pair.0 × IsWord pair.1) (λ pair. pair.0 ∷ pair.1 ∷ []) result
        (now_of operands.now) }
{
    match operands {
        [first, second] => Ok((key(alloc, first)?, value(alloc, second)?)),
        _ => Err(Unread::Bad),
    }
}

/// A key, and how many bytes a value has.
pub(crate) fn key_and_len(alloc: Global, operands: &[&[u8]]) -> Result<(Key, u32), Unread>
    ensures { Reads (λ pair. IsWord pair.0 × (pair.1 ≤ LONGEST_VALUE)) (λ pair. pair.0 ∷ decimal pair.1 ∷ [])
        result (now_of operands.now) }
{
    match operands {
        [first, second] => {
            let len = number_within(0, LONGEST_VALUE.into(), second)?;
            Ok((key(alloc, first)?, len as u32))
        }
        _ => Err(Unread::Bad),
    }
}

/// A number in this range.
pub(crate) fn one_number(least: u64, most: u64, operands: &[&[u8]]) -> Result<u64, Unread>
    ensures { Reads (λ n. (least ≤ n) × (n ≤ most)) (λ n. decimal n ∷ []) result (now_of operands.now) }
{
    match operands {
        [word] => number_within(least, most, word),
        _ => Err(Unread::Bad),
    }
}

/// A number of at least `least`, and a number.
pub(crate) fn two_numbers(least: u64, operands: &[&[u8]]) -> Result<(u64, u64), Unread>
    ensures { Reads (λ pair. (least ≤ pair.0) × (pair.0 < 2 ^ 64) × (pair.1 < 2 ^ 64))
        (λ pair. decimal pair.0 ∷ decimal pair.1 ∷ []) result (now_of operands.now) }
{
    match operands {
        [first, second] => Ok((number_within(least, u64::MAX, first)?, number(second)?)),
        _ => Err(Unread::Bad),
    }
}

/// How many bytes a crash leaves, `None` for all.
pub(crate) fn keep(word: &[u8]) -> Result<Option<u64>, Unread>
    ensures { Reads FitsKeep keep_word result word.now }
{
    match word {
        b"all" => Ok(None),
        _ => Ok(Some(number(word)?)),
    }
}

/// The bytes that a crash changes.
pub(crate) fn flips(alloc: Global, operands: &[&[u8]]) -> Result<Flips, Unread>
    ensures { Reads (λ flips. All (λ n. n < 2 ^ 64) flips) (λ flips. map decimal flips) result
        (now_of operands.now) }
{
    let mut offsets = Vec::new(alloc);
    for word in operands {
        offsets.push(number(word)?)?;
    }
    Ok(Flips::new(offsets))
}
