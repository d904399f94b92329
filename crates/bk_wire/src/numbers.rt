//! The numbers of replies: decimal ones of any width, and hexadecimal ones of 32 bits.
ghost use Rattle.std.specs.Prelude.{◌≡◌, ◌+◌, ◌-◌, ◌*◌, ◌≤◌, ◌<◌, cond, IfOk, Some, None};
ghost use Rattle.bk_wire.specs.Reading.{Gives, goes_on, number_at};
ghost use Rattle.bk_wire.specs.ReplyReading.{digit_at, hex_at, long_at, short_at};

use crate::fields::literal;
use crate::stops::Stop;

/// The number that goes on with this digit, where it can and is at most `most`: a number that
/// begins with 0 has no further digit.
fn grown(most: u128, number: u128, byte: u8) -> Option<u128>
    ensures { result ≡ cond (goes_on most number byte) (Some (number * 10 + (byte - 48))) None }
{
    if number == 0 || !byte.is_ascii_digit() {
        return None;
    }
    let next = number
        .checked_mul(10)?
        .checked_add(u128::from(byte - b'0'))?;
    if next > most {
        return None;
    }
    Some(next)
}

/// Reads a number of at most `most` and the byte that ends it.
#[tactic(auto, unfolding(crate::specs::Reading::number_at, crate::specs::Reading::digits_at))]
pub fn wide(most: u128, end: u8, bytes: &[u8]) -> Result<(u128, &[u8]), Stop>
    ensures read { Gives (λ x. (x.0, x.1.now)) result (number_at 0 most end bytes.now) }
    ensures most { IfOk result (λ x. x.0 ≤ most) }
{
    let Some((first, rest)) = bytes.split_first() else {
        return Err(Stop::Short);
    };
    if !first.is_ascii_digit() {
        return Err(Stop::Bad);
    }
    let mut number = u128::from(*first - b'0');
    if number > most {
        return Err(Stop::Bad);
    }
    for (i, byte) in rest.iter().enumerate() {
        if *byte == end {
            return Ok((number, &rest[i + 1..]));
        }
        let Some(next) = grown(most, number, *byte) else {
            return Err(Stop::Bad);
        };
        number = next;
    }
    Err(Stop::Short)
}

/// Reads a number of 64 bits and the byte that ends it.
pub fn long(end: u8, bytes: &[u8]) -> Result<(u64, &[u8]), Stop>
    ensures { Gives (λ x. (x.0, x.1.now)) result (long_at end bytes.now) }
{
    let (number, rest) = wide(u64::MAX.into(), end, bytes)?;
    Ok((number as u64, rest))
}

/// Reads a number of 32 bits and the byte that ends it.
pub fn short(end: u8, bytes: &[u8]) -> Result<(u32, &[u8]), Stop>
    ensures { Gives (λ x. (x.0, x.1.now)) result (short_at end bytes.now) }
{
    let (number, rest) = wide(u32::MAX.into(), end, bytes)?;
    Ok((number as u32, rest))
}

/// Reads a hexadecimal digit in lower case.
#[tactic(auto, unfolding(crate::specs::ReplyReading::digit_at))]
fn digit(bytes: &[u8]) -> Result<(u32, &[u8]), Stop>
    ensures read { Gives (λ x. (x.0, x.1.now)) result (digit_at bytes.now) }
    ensures small { IfOk result (λ x. x.0 < 16) }
{
    let Some((byte, rest)) = bytes.split_first() else {
        return Err(Stop::Short);
    };
    match *byte {
        b'0'..=b'9' => Ok((u32::from(*byte - b'0'), rest)),
        b'a'..=b'f' => Ok((u32::from(*byte - b'a') + 10, rest)),
        _ => Err(Stop::Bad),
    }
}

/// Reads a number of eight hexadecimal digits and the byte that ends it.
#[tactic(auto, unfolding(crate::specs::ReplyReading::hex_at))]
pub fn hexadecimal(end: u8, bytes: &[u8]) -> Result<(u32, &[u8]), Stop>
    ensures { Gives (λ x. (x.0, x.1.now)) result (hex_at end bytes.now) }
{
    let mut number = 0;
    let mut rest = bytes;
    for i in 0..8_usize {
        let (digit, after) = digit(rest)?;
        number = number * 16 + digit;
        rest = after;
    }
    let rest = literal(&[end], rest)?;
    Ok((number, rest))
}
