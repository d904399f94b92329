//! A hint that is written row by row.
ghost use Rattle.std.specs.Prelude.{◌≡◌, ◌++◌, [], ◌∷◌, ◌^◌, ◌<◌, List, length, OnOk, OnErr};
ghost use Rattle.bk_crc.specs.Crc.{crc_of};
ghost use Rattle.bk_laws.specs.Hint.{FitsRow, Hinted, mark_text, row_text, rows_text};
ghost use Rattle.bk_laws.specs.Record.{IsSeq};
ghost use Rattle.bk_hint.specs.Passing.{HasSize, HasWritten, row_of};

use crate::headers::Header;
use crate::rows::{HintRow, header};
use bk_base::limits::HINT_HEADER;
use bk_base::{Memory, Moment};
use bk_crc::Running;
use std::marker::Model;

/// A hint in work. It keeps no bytes: each call appends to the bytes that it is handed. Contracts see
/// how many rows were added, and the register of the CRC behind them.
#[derive(Clone, Copy, Debug)]
pub struct HintOut {
    rows: u64,
    check: Running,
}

impl Model for HintOut {
    ghost use Rattle.bk_hint.specs.Passing.{Written};

    ghost Value = { Written };

    ghost view = { λ h. record { rows = h.rows; register = h.check } };

    ghost inverse = { λ w. record { rows = w.rows; check = w.register } };
}

impl HintOut {
    /// No row was added.
    pub fn new() -> HintOut
        ensures { HasWritten result [] }
    {
        HintOut {
            rows: 0,
            check: Running::new(),
        }
    }

    /// Appends the row. `Memory` leaves `out` and the hint as they were.
    pub fn add(&mut self, row: &HintRow, out: &mut Vec<u8>) -> Result<(), Memory>
        requires seq { IsSeq row.now.version.seq.0 }
        requires size { HasSize row.now.version row.now.key }
        ensures ok { OnOk result (out.new.items ≡ out.old.items ++ row_text (row_of row.now)) }
        ensures rows { OnOk result ((rows : List Hinted) → HasWritten self.old rows →
            HasWritten self.new (rows ++ row_of row.now ∷ [])) }
        ensures err { OnErr result ((out.new.items ≡ out.old.items) × (self.new ≡ self.old)) }
        // So the row can be read again.
        ensures fits { FitsRow (row_of row.now) }
    {
        let text = header(row).text();
        let key = row.key.bytes();
        out.reserve(HINT_HEADER + key.len())?;
        out.extend_from_slice(&text)?;
        out.extend_from_slice(key)?;
        self.check.add(&text);
        self.check.add(key);
        self.rows = self.rows.wrapping_add(1);
        Ok(())
    }

    /// Appends the end mark: the rows cover so many bytes of the data file. `Memory` leaves `out` as it
    /// was.
    pub fn finish(self, covered: u64, out: &mut Vec<u8>) -> Result<(), Memory>
        ensures ok { OnOk result ((rows : List Hinted) → HasWritten self rows → length rows < 2 ^ 64 →
            out.new.items ≡ out.old.items
            ++ mark_text covered (length rows) (crc_of (rows_text rows))) }
        ensures err { OnErr result (out.new.items ≡ out.old.items) }
    {
        let mark = Header {
            at: covered,
            seq: self.rows,
            moment: Moment(0),
            vsz: 0,
            crc: self.check.end(),
            ksz: 0,
        };
        out.extend_from_slice(&mark.text())?;
        Ok(())
    }
}
