//! The digits of a number, decimal and hexadecimal.
ghost use Rattle.std.specs.Prelude.{◌≡◌, ◌≤◌, ◌<◌, ◌/◌, length, false};
ghost use Rattle.std.specs.Fmt.{decimal, digit_glyph};
ghost use Rattle.bk_laws.specs.Wire.{hex_of};

use std::marker::Model;

/// How many decimal digits the greatest number has.
const MOST_DIGITS: usize = 39;

/// The decimal digits of a number, at the end of an array. Contracts see the list of the digits.
#[derive(Drop)]
pub struct Digits {
    bytes: [u8; MOST_DIGITS],
    start: usize,
}

impl Model for Digits {
    ghost use Rattle.std.specs.Prelude.{List, ℕ, ◌≤◌, drop};
    ghost use Rattle.bk_wire.specs.declared.digits.TheConstants.{MOST_DIGITS};

    ghost Value = { List ℕ };

    ghost view = { λ digits. drop digits.start digits.bytes };

    ghost invariant = { λ digits. digits.start ≤ MOST_DIGITS };
}

impl Digits {
    /// The digits of this number.
    pub fn of(number: u128) -> Self
        ensures { result ≡ decimal number }
    {
        let mut bytes = [0; MOST_DIGITS];
        let mut rest = number;
        for i in (0..MOST_DIGITS).rev() {
            bytes[i] = b'0' + (rest % 10) as u8;
            if rest < 10 {
                return Digits { bytes, start: i };
            }
            rest = tenth(rest);
        }
        unreachable!()
    }

    /// The digits as a slice.
    pub fn as_slice(&self) -> &[u8]
        ensures value { result.now ≡ self.now }
        ensures len { length result.now ≤ MOST_DIGITS }
    {
        &self.bytes[self.start..]
    }
}

// Most numbers have 64 bits, and their division takes a tenth of the time.
fn tenth(number: u128) -> u128
    ensures { result ≡ number / 10 }
{
    if number <= u128::from(u64::MAX) {
        return u128::from(number as u64 / 10);
    }
    number / 10
}

fn hex_digit(digit: u32) -> u8
    requires { digit < 16 }
    ensures { result ≡ digit_glyph false digit }
{
    match digit {
        0..=9 => b'0' + digit as u8,
        _ => b'a' + (digit - 10) as u8,
    }
}

/// The eight hexadecimal digits of this number, in lower case.
#[tactic(auto, unfolding(bk_laws::specs::Wire::hex_of))]
pub fn hex(number: u32) -> [u8; 8]
    ensures { result ≡ hex_of 8 number }
{
    let second = number / 16;
    let third = second / 16;
    let fourth = third / 16;
    let fifth = fourth / 16;
    let sixth = fifth / 16;
    let seventh = sixth / 16;
    let eighth = seventh / 16;
    [
        hex_digit(eighth % 16),
        hex_digit(seventh % 16),
        hex_digit(sixth % 16),
        hex_digit(fifth % 16),
        hex_digit(fourth % 16),
        hex_digit(third % 16),
        hex_digit(second % 16),
        hex_digit(number % 16),
    ]
}
