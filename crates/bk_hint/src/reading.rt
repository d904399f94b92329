//! The rows of a hint, in their order.
ghost use Rattle.std.specs.Prelude.{◌≡◌, ℕ, List, IfOk, OnErr};
ghost use Rattle.std.specs.Option.{option_map};
ghost use Rattle.bk_laws.specs.Hint.{Hinted, RowsLeft};
ghost use Rattle.bk_hint.specs.Passing.{Gives};

use crate::rows::{HintRow, next_row};
use bk_base::limits::HINT_HEADER;
use bk_base::{FileId, Key, Memory, Seq, Version};
use std::alloc::Global;
use std::marker::Model;

/// A reader of a hint that `judge` found Good. It keeps no bytes: each call is handed the hint's.
/// Contracts see whose hint it is, and where in its bytes the next row begins.
#[derive(Clone, Copy, Debug, PartialEq, Eq)]
pub struct HintIn {
    at: usize,
    file: FileId,
}

impl Model for HintIn {
    ghost use Rattle.bk_hint.specs.Passing.{Reading};

    ghost Value = { Reading };

    ghost view = { λ h. record { file = h.file; at = h.at } };

    ghost inverse = { λ r. record { at = r.at; file = r.file } };
}

impl HintIn {
    /// A reader of the hint of this data file; no row was read.
    pub fn new(file: FileId) -> HintIn
        ensures { result ≡ record { file = file; at = 0 } }
    {
        HintIn { at: 0, file }
    }

    /// The next row, with a key of its own; None behind the last. `Memory` leaves the reader as it was.
    pub fn next(&mut self, alloc: Global, bytes: &[u8]) -> Result<Option<HintRow>, Memory>
        // The bytes are those that `judge` found Good.
        requires { (covered : ℕ) × (rows : List Hinted) × RowsLeft bytes.now self.old.at covered rows }
        ensures ok { IfOk result (λ row. (covered : ℕ) (rows : List Hinted) →
            RowsLeft bytes.now self.old.at covered rows →
            Gives bytes.now self.old self.new (option_map (λ x. (x.version, x.key)) row) covered rows) }
        ensures err { OnErr result (self.new ≡ self.old) }
    {
        let mut reader = *self;
        let Some((version, key)) = reader.next_borrowed(bytes) else {
            return Ok(None);
        };
        let key = Key::of(alloc, key)?;
        *self = reader;
        Ok(Some(HintRow { version, key }))
    }

    /// The next row, with its key as it stands in the bytes; None behind the last.
    pub fn next_borrowed<'a>(&mut self, bytes: &'a [u8]) -> Option<(Version, &'a [u8])>
        requires { (covered : ℕ) × (rows : List Hinted) × RowsLeft bytes.now self.old.at covered rows }
        ensures { (covered : ℕ) (rows : List Hinted) → RowsLeft bytes.now self.old.at covered rows →
            Gives bytes.now self.old self.new (option_map (λ x. (x.0, x.1.now)) result) covered rows }
    {
        let (header, key, _rest) = next_row(&bytes[self.at..])?;
        let version = Version {
            seq: Seq(header.seq),
            at: header.at,
            moment: header.moment,
            file: self.file,
            size: header.record_size() as u32,
            crc: header.crc,
            gone: header.is_tombstone(),
        };
        self.at += HINT_HEADER + key.len();
        Some((version, key))
    }
}
