//! CRC-32 as IEEE 802.3 defines it, of one slice or of pieces that follow one another.
//!
//! Both ways are proved equal to one definition that goes bit by bit, `crc_of` of `specs/Crc.antt`.
//! Nothing here allocates or fails.
#![tactic(auto)]

ghost use Rattle.std.specs.Prelude.{◌≡◌};
ghost use Rattle.bk_crc.specs.Crc.{crc_of};

mod piecewise;
mod register;
mod slices;

pub use piecewise::Running;

/// The CRC-32 of the bytes.
pub fn crc32(bytes: &[u8]) -> u32
    ensures { result ≡ crc_of bytes.now }
{
    register::advance(register::START, bytes) ^ register::FINAL_XOR
}
