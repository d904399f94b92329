//! The parts of requests and replies: words, numbers and pieces. Each reader gives what it read and
//! the bytes after it.
ghost use Rattle.std.specs.Prelude.{◌≡◌, ◌+◌, ◌-◌, ◌*◌, ◌≤◌, ◌<◌};
ghost use Rattle.bk_wire.specs.Reading.{Gives, goes_on, keyed_at, literal_at, number_at, paired_at, piece_at, sized_at};

use crate::stops::Stop;
use bk_base::limits::{LONGEST_KEY, LONGEST_VALUE};

/// Reads this text.
#[tactic(auto, unfolding(crate::specs::Reading::literal_at))]
pub fn literal<'a>(text: &[u8], bytes: &'a [u8]) -> Result<&'a [u8], Stop>
    ensures { Gives (λ rest. (tt, rest.now)) result (literal_at text.now bytes.now) }
{
    let mut rest = bytes;
    for expected in text {
        let Some((byte, after)) = rest.split_first() else {
            return Err(Stop::Short);
        };
        if byte != expected {
            return Err(Stop::Bad);
        }
        rest = after;
    }
    Ok(rest)
}

/// Whether a number of at most `most` goes on from `number` with this byte: a number that begins
/// with 0 has no further digit.
fn goes_on(most: u32, number: u32, byte: u8) -> bool
    requires most { most ≤ 100000000 }
    requires number { number ≤ most }
    ensures { result ≡ goes_on most number byte }
{
    number > 0 && byte.is_ascii_digit() && number * 10 + u32::from(byte - b'0') <= most
}

/// Reads a number from `least` to `most` and the byte that ends it.
#[tactic(auto, unfolding(crate::specs::Reading::number_at, crate::specs::Reading::digits_at))]
pub fn number(least: u32, most: u32, end: u8, bytes: &[u8]) -> Result<(u32, &[u8]), Stop>
    requires { most ≤ 100000000 }
    ensures { Gives (λ x. (x.0, x.1.now)) result (number_at least most end bytes.now) }
{
    let Some((first, rest)) = bytes.split_first() else {
        return Err(Stop::Short);
    };
    if !first.is_ascii_digit() {
        return Err(Stop::Bad);
    }
    let mut number = u32::from(*first - b'0');
    if number < least || number > most {
        return Err(Stop::Bad);
    }
    for (i, byte) in rest.iter().enumerate() {
        if *byte == end {
            return Ok((number, &rest[i + 1..]));
        }
        if !goes_on(most, number, *byte) {
            return Err(Stop::Bad);
        }
        number = number * 10 + u32::from(*byte - b'0');
    }
    Err(Stop::Short)
}

/// Reads this many bytes.
#[tactic(auto, unfolding(crate::specs::Reading::piece_at))]
pub fn piece(len: u32, bytes: &[u8]) -> Result<(&[u8], &[u8]), Stop>
    ensures { Gives (λ x. (x.0.now, x.1.now)) result (piece_at len bytes.now) }
{
    if bytes.len() < len as usize {
        return Err(Stop::Short);
    }
    Ok(bytes.split_at(len as usize))
}

/// Reads the length of a piece, from `least` to `most`, and the piece in a line of its own.
#[tactic(auto, unfolding(crate::specs::Reading::sized_at))]
pub fn sized(least: u32, most: u32, bytes: &[u8]) -> Result<(&[u8], &[u8]), Stop>
    requires { most ≤ 100000000 }
    ensures { Gives (λ x. (x.0.now, x.1.now)) result (sized_at least most bytes.now) }
{
    let (len, rest) = number(least, most, b'\n', bytes)?;
    let (piece, rest) = piece(len, rest)?;
    let rest = literal(b"\n", rest)?;
    Ok((piece, rest))
}

/// Reads this verb, a key's length and the key.
#[tactic(auto, unfolding(crate::specs::Reading::keyed_at))]
pub fn keyed<'a>(verb: &[u8], bytes: &'a [u8]) -> Result<(&'a [u8], &'a [u8]), Stop>
    ensures { Gives (λ x. (x.0.now, x.1.now)) result (keyed_at verb.now bytes.now) }
{
    let rest = literal(verb, bytes)?;
    sized(1, LONGEST_KEY, rest)
}

/// A key and a value, where they were found.
pub type Pair<'a> = (&'a [u8], &'a [u8]);

/// Reads this verb, the lengths of a key and of a value, and both.
#[tactic(auto, unfolding(crate::specs::Reading::paired_at))]
pub fn paired<'a>(verb: &[u8], bytes: &'a [u8]) -> Result<(Pair<'a>, &'a [u8]), Stop>
    ensures { Gives (λ x. ((x.0.0.now, x.0.1.now), x.1.now)) result (paired_at verb.now bytes.now) }
{
    let rest = literal(verb, bytes)?;
    let (key_len, rest) = number(1, LONGEST_KEY, b' ', rest)?;
    let (value_len, rest) = number(0, LONGEST_VALUE, b'\n', rest)?;
    let (key, rest) = piece(key_len, rest)?;
    let (value, rest) = piece(value_len, rest)?;
    let rest = literal(b"\n", rest)?;
    Ok(((key, value), rest))
}
