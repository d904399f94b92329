// The CRC of pieces that follow one another.

ghost use Rattle.std.specs.Prelude.{◌≡◌};
ghost use Rattle.bk_crc.specs.Crc.{crc_at, register_after, start_register};

use crate::register::{FINAL_XOR, START, advance};
use std::marker::Model;

/// The CRC-32 of bytes that come in pieces: `new`, an `add` for each piece, and `end`.
///
/// Contracts see a `Running` as its register, so that the `end` after some `add`s is known to be the
/// CRC of the pieces joined.
#[derive(Clone, Copy, Debug)]
pub struct Running {
    register: u32,
}

impl Model for Running {
    ghost use Rattle.std.specs.Prelude.{ℕ};

    ghost Value = { ℕ };

    ghost view = { λ running. running.register };

    ghost inverse = { λ register. record { register = register } };
}

impl Running {
    /// No byte was added yet.
    pub fn new() -> Running
        ensures { result ≡ start_register }
    {
        Running { register: START }
    }

    /// Adds the bytes, after those that were added before.
    pub fn add(&mut self, bytes: &[u8])
        ensures { self.new ≡ register_after self.old bytes.now }
    {
        self.register = advance(self.register, bytes);
    }

    /// The CRC-32 of all bytes added so far; more may follow.
    pub fn end(&self) -> u32
        ensures { result ≡ crc_at self.now }
    {
        self.register ^ FINAL_XOR
    }
}

impl Default for Running {
    ghost is_default = { λ running. running ≡ start_register };

    fn default() -> Running {
        Running::new()
    }
}
