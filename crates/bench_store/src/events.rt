//! The events of a store that are measured.
ghost use Rattle.std.specs.Prelude.{◌≡◌};

use crate::keys::key_of;
use bk_base::Key;
use bk_base::limits::RECORD_HEADER;
use bk_disk::{Clock, Disk, View};
use bk_store::{Loan, Prepared, Store};
use std::alloc::Global;
use std::io;
use std::io::ErrorKind;

/// Puts the value at each key, and gives the last seq.
pub fn put_each<D: Disk, C: Clock>(
    alloc: Global,
    store: &mut Store<D>,
    clock: &mut C,
    numbers: &[u32],
    value: &[u8],
) -> io::Result<u64> {
    let mut last = 0u64;
    for number in numbers {
        let key = key_of(alloc, *number)?;
        let prepared = Prepared::new(alloc, key, value).map_err(|_| ErrorKind::InvalidInput)?;
        let stored = store
            .put(prepared, clock.now())
            .map_err(|_| ErrorKind::Other)?;
        last = stored.seq.0;
    }
    Ok(last)
}

/// Gets the value of each key, and gives a sum over the records: the size of each and its key's
/// first byte.
pub fn get_each<D: Disk, C: Clock>(
    store: &mut Store<D>,
    clock: &mut C,
    wanted: &[Key],
    buffer: &mut [u8],
) -> io::Result<u64> {
    let mut sum = 0u64;
    for key in wanted {
        let found = store
            .locate(key, clock.now())
            .map_err(|_| ErrorKind::Other)?;
        if let Some(mut loan) = found {
            sum = sum.wrapping_add(read(&mut loan, buffer)?);
        }
    }
    Ok(sum)
}

/// Reads a loan that is unread.
fn read<V: View + Drop>(loan: &mut Loan<V>, buffer: &mut [u8]) -> io::Result<u64>
    requires { loan.old.rest ≡ loan.old.size }
{
    let size = loan.size();
    let record = buffer.get_mut(..size).ok_or(ErrorKind::InvalidData)?;
    loan.read(record).map_err(|_| ErrorKind::InvalidData)?;
    let first = record.get(RECORD_HEADER).copied().unwrap_or(0);
    Ok(size as u64 + u64::from(first))
}
