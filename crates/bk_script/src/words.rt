//! The words of a line, and what one word says.
ghost use Rattle.std.specs.Prelude.{◌≡◌, ◌==◌, ◌<◌, ◌≤◌, ◌^◌, ◌↔◌, map, IfOk, IsTrue};
ghost use Rattle.std.specs.Fmt.{decimal};
ghost use Rattle.std.specs.List.{slice_split};
ghost use Rattle.bk_script.specs.Lines.{IsWord};
ghost use Rattle.bk_script.specs.Words.{BeginsAsNumber, Reads, now_of};

use crate::limits::LONGEST_WORD;
use crate::unread::Unread;
use bk_base::{Key, Value};
use std::alloc::{AllocError, Global};
use std::str;

/// The words of a line, which spaces part.
pub(crate) fn words_of(alloc: Global, line: &[u8]) -> Result<Vec<&[u8]>, AllocError>
    ensures { IfOk result (λ words. now_of words.items ≡ slice_split (λ b. b == 32) line.now) }
{
    line.split(|byte| *byte == b' ').collect(alloc)
}

/// The number that a word writes in decimal, without leading zeros.
pub(crate) fn number(word: &[u8]) -> Result<u64, Unread>
    ensures { Reads (λ n. n < 2 ^ 64) decimal result word.now }
{
    if !begins_as_number(word) {
        return Err(Unread::Bad);
    }
    let Ok(text) = str::from_utf8(word) else {
        return Err(Unread::Bad);
    };
    match text.parse() {
        Ok(number) => Ok(number),
        Err(_) => Err(Unread::Bad),
    }
}

// It is 0 alone, or its first byte is another digit.
fn begins_as_number(word: &[u8]) -> bool
    ensures { IsTrue result ↔ BeginsAsNumber word.now }
{
    matches!(word, b"0" | [b'1'..=b'9', ..])
}

/// The number that a word writes, where it is in this range.
pub(crate) fn number_within(least: u64, most: u64, word: &[u8]) -> Result<u64, Unread>
    ensures { Reads (λ n. (least ≤ n) × (n ≤ most)) decimal result word.now }
{
    let number = number(word)?;
    if number < least || number > most {
        return Err(Unread::Bad);
    }
    Ok(number)
}

/// The key that a word spells out.
pub(crate) fn key(alloc: Global, word: &[u8]) -> Result<Key, Unread>
    ensures { Reads IsWord (λ key. key) result word.now }
{
    if !is_word(word) {
        return Err(Unread::Bad);
    }
    Ok(Key::of(alloc, word)?)
}

/// The value that a word spells out.
pub(crate) fn value(alloc: Global, word: &[u8]) -> Result<Value, Unread>
    ensures { Reads IsWord (λ value. value) result word.now }
{
    if !is_word(word) {
        return Err(Unread::Bad);
    }
    let bytes = word.to_vec(alloc)?;
    Ok(Value::new(bytes).unwrap())
}

// Whether the word may be a key or a value.
fn is_word(bytes: &[u8]) -> bool
    ensures { IsTrue result ↔ IsWord bytes.now }
{
    !bytes.is_empty()
        && bytes.len() <= LONGEST_WORD
        && bytes.iter().all(|byte| byte.is_ascii_graphic())
}
