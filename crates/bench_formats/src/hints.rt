//! Hints, written row by row and read again.

ghost use Rattle.std.specs.Prelude.{◌≡◌, IfOk, length};
ghost use Rattle.bk_hint.specs.Passing.{HasSize};

use bk_base::{FileId, Key, Moment, Seq, Version};
use bk_hint::{HintIn, HintOut, HintRow, Verdict, judge};
use std::alloc::Global;
use std::io;
use std::io::ErrorKind;

/// The hint of so many records, each of a key of 16 bytes and a value of 100.
pub fn written(alloc: Global, items: u32) -> io::Result<Vec<u8>> {
    let mut out = Vec::new(alloc);
    let mut hint = HintOut::new();
    let mut row = first_row(alloc)?;
    for i in 0..items {
        row.version.seq = Seq(u64::from(i) + 1);
        row.version.at = u64::from(i) * 138;
        hint.add(&row, &mut out)
            .map_err(|_| ErrorKind::OutOfMemory)?;
    }
    hint.finish(u64::from(items) * 138, &mut out)
        .map_err(|_| ErrorKind::OutOfMemory)?;
    Ok(out)
}

/// The row of the first record.
fn first_row(alloc: Global) -> io::Result<HintRow>
    ensures { IfOk result (λ row. HasSize row.version row.key) }
{
    let key = sixteen(alloc)?;
    Ok(HintRow {
        version: Version {
            seq: Seq(1),
            at: 0,
            moment: Moment(5),
            file: FileId(1),
            size: 138,
            crc: 0xaff4_43c2,
            gone: false,
        },
        key,
    })
}

/// A key of 16 bytes.
fn sixteen(alloc: Global) -> io::Result<Key>
    ensures { IfOk result (λ key. length key ≡ 16) }
{
    let bytes = b"sixteen-byte-key".to_vec(alloc)?;
    Key::new(bytes).map_err(|_| ErrorKind::InvalidInput.into())
}

/// How many rows the hint has, each of them read, where it is Good for a file of this length.
pub fn rows_in(bytes: &[u8], len: u64) -> u64 {
    let mut read = 0;
    if let Verdict::Good { rows, .. } = judge(bytes, len) {
        let mut reader = HintIn::new(FileId(1));
        for _ in 0..rows {
            if reader.next_borrowed(bytes).is_some() {
                read = u64::saturating_add(read, 1);
            }
        }
    }
    read
}
