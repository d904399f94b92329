//! One row of a hint.
ghost use Rattle.std.specs.Prelude.{◌≡◌, MatchOption};
ghost use Rattle.bk_hint.specs.Headers.{IsFirstRow, NoRow, head_of};
ghost use Rattle.bk_hint.specs.Passing.{HasSize, row_of};
ghost use Rattle.bk_laws.specs.Hint.{FitsRow};

use crate::headers::Header;
use bk_base::limits::{HINT_HEADER, RECORD_HEADER, TOMBSTONE};
use bk_base::{Key, Moment, Version};

/// A key, and the version of it that a record of the data file holds.
#[derive(Debug, Drop)]
pub struct HintRow {
    pub version: Version,
    pub key: Key,
}

/// The header of the row.
pub(crate) fn header(row: &HintRow) -> Header
    requires { HasSize row.now.version row.now.key }
    ensures head { result ≡ head_of (row_of row.now) }
    ensures fits { FitsRow (row_of row.now) }
{
    let ksz = row.key.bytes().len();
    let at = row.version.at;
    let seq = row.version.seq.0;
    let moment = row.version.moment.0;
    let crc = row.version.crc;
    let value = row.version.size - (RECORD_HEADER as u32 + ksz as u32);
    Header {
        at,
        seq,
        moment: Moment(moment),
        vsz: if row.version.gone { TOMBSTONE } else { value },
        crc,
        ksz: ksz as u16,
    }
}

/// The row at the front of the bytes: its header, its key and what follows it. None where no row stands
/// there; the end mark is none.
pub(crate) fn next_row(bytes: &[u8]) -> Option<(Header, &[u8], &[u8])>
    ensures { MatchOption result (NoRow bytes.now)
        (λ x. IsFirstRow bytes.now x.0 x.1.now x.2.now) }
{
    let (front, behind) = bytes.split_first_chunk::<HINT_HEADER>()?;
    let header = Header::read(front);
    let len = usize::from(header.ksz);
    if len == 0 || behind.len() < len {
        return None;
    }
    let (key, rest) = behind.split_at(len);
    Some((header, key, rest))
}
