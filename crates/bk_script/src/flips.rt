//! The bytes that a crash changes.
ghost use Rattle.std.specs.Prelude.{◌≡◌};

use std::marker::Model;

/// The offsets, in the unsynced part of a file, of the bytes whose lowest bit a crash changes.
/// Contracts see the list of them.
#[derive(Debug, Drop)]
pub struct Flips {
    offsets: Vec<u64>,
}

impl Model for Flips {
    ghost use Rattle.std.specs.Prelude.{List, ℕ};

    ghost Value = { List ℕ };

    ghost view = { λ flips. flips.offsets.items };
}

impl Flips {
    /// These offsets.
    pub fn new(offsets: Vec<u64>) -> Flips
        ensures { result ≡ offsets.items }
    {
        Flips { offsets }
    }

    /// The offsets, in the order of their words.
    pub fn into_offsets(self) -> Vec<u64>
        ensures { result.items ≡ self }
    {
        self.offsets
    }
}
