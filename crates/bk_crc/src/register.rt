// The register of the CRC, and how it goes on over bytes: 16 at a time by the table, the last few one by one.

ghost use Rattle.std.specs.Prelude.{◌≡◌, ◌+◌, ◌≤◌};
ghost use Rattle.bk_crc.specs.Crc.{byte_step, register_after};
ghost use Rattle.bk_crc.specs.Slices.{after_zeros};

use crate::slices::entry;

pub(crate) const START: u32 = 0xffff_ffff;

pub(crate) const FINAL_XOR: u32 = 0xffff_ffff;

const WORD: usize = 8;

const BLOCK: usize = 2 * WORD;

// The register after one byte.
#[inline(always)]
fn after_byte(register: u32, byte: u8) -> u32
    ensures { result ≡ byte_step register byte }
{
    let [low, ..] = register.to_le_bytes();
    entry(0, low ^ byte) ^ (register >> 8)
}

// What a register of eight bytes becomes after as many zero bytes, and `zeros` more.
#[inline(always)]
fn after_word(zeros: usize, word: u64) -> u32
    requires { zeros ≤ 8 }
    ensures { result ≡ after_zeros (zeros + 8) word }
{
    let [first, second, third, fourth, fifth, sixth, seventh, eighth] = word.to_le_bytes();
    entry(zeros, eighth)
        ^ entry(zeros + 1, seventh)
        ^ entry(zeros + 2, sixth)
        ^ entry(zeros + 3, fifth)
        ^ entry(zeros + 4, fourth)
        ^ entry(zeros + 5, third)
        ^ entry(zeros + 6, second)
        ^ entry(zeros + 7, first)
}

// The register after 16 bytes. The order counts here and in `after_word`: the compiler keeps that of
// the exclusive ors, and what waits for the block before has to come last.
#[inline(always)]
fn after_block(register: u32, block: &[u8; BLOCK]) -> u32
    ensures { result ≡ register_after register block.now }
{
    let (words, _) = block.as_chunks::<WORD>();
    let first = u64::from_le_bytes(words[0]);
    let second = u64::from_le_bytes(words[1]);
    after_word(0, second) ^ after_word(8, first ^ u64::from(register))
}

/// The register after the bytes.
pub(crate) fn advance(register: u32, bytes: &[u8]) -> u32
    ensures { result ≡ register_after register bytes.now }
{
    let mut register = register;
    let mut left = bytes;
    while let Some((block, rest)) = left.split_first_chunk::<BLOCK>() {
        register = after_block(register, block);
        left = rest;
    }
    for byte in left {
        register = after_byte(register, *byte);
    }
    register
}
