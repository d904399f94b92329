//! The calls of a keydir.
ghost use Rattle.std.specs.Prelude.{◌+◌, IfOk, OnOk};
ghost use Rattle.bench_keydir.specs.Puts.{TakesSeq};

use crate::keys::{counted, key_of};
use crate::runs::{Orders, Run, version};
use bk_base::Key;
use bk_keydir::Keydir;
use std::alloc::Global;
use std::io;
use std::io::ErrorKind;
use std::time::{Clock, Instant};

/// A keydir of so many keys.
pub fn filled(alloc: Global, items: u32) -> io::Result<Keydir> {
    let mut keydir = Keydir::new(alloc);
    put_each(alloc, &mut keydir, &counted(alloc, items)?, 1, false)?;
    Ok(keydir)
}

/// Puts each key, overwrites each, gets each, and sweeps over a tenth that is gone.
pub fn run<R: Clock>(rt: &R, alloc: Global, orders: &Orders) -> io::Result<Run> {
    let mut keydir = Keydir::new(alloc);
    let start = Instant::now(rt)?;
    let seq = put_each(alloc, &mut keydir, &orders.counted, 1, false)?;
    let put = start.elapsed(rt)?;
    let start = Instant::now(rt)?;
    let seq = put_each(alloc, &mut keydir, &orders.shuffled, seq, false)?;
    let overwrite = start.elapsed(rt)?;
    let start = Instant::now(rt)?;
    let sum = sum_of(&keydir, &orders.wanted);
    let get = start.elapsed(rt)?;
    let start = Instant::now(rt)?;
    let again = waiting_sum_of(&keydir, &orders.wanted);
    let waiting = start.elapsed(rt)?;
    let tenth = &orders.shuffled[..orders.shuffled.len() / 10];
    put_each(alloc, &mut keydir, tenth, seq, true)?;
    let start = Instant::now(rt)?;
    let dropped = swept(&mut keydir);
    Ok(Run {
        keys: keydir.len(),
        sum: sum.wrapping_add(again),
        dropped,
        put,
        overwrite,
        get,
        waiting,
        sweep: start.elapsed(rt)?,
    })
}

/// Puts a version of each key, with seqs from the first on, and gives the next.
fn put_each(
    alloc: Global,
    keydir: &mut Keydir,
    numbers: &[u32],
    first: u64,
    gone: bool,
) -> io::Result<u64>
    requires { TakesSeq first keydir.old }
    ensures { IfOk result (λ next. TakesSeq next keydir.new) }
{
    let mut seq = first;
    for number in numbers {
        put(alloc, keydir, *number, seq, gone)?;
        seq = seq.checked_add(1).ok_or(ErrorKind::InvalidInput)?;
    }
    Ok(seq)
}

fn put(alloc: Global, keydir: &mut Keydir, number: u32, seq: u64, gone: bool) -> io::Result<()>
    requires { TakesSeq seq keydir.old }
    ensures { OnOk result (TakesSeq (seq + 1) keydir.new) }
{
    let key = key_of(alloc, number)?;
    keydir.ready(&key).map_err(|_| ErrorKind::OutOfMemory)?;
    keydir.put_version(key, version(seq, gone));
    Ok(())
}

/// The sum of one number of each key's newest version.
fn sum_of(keydir: &Keydir, wanted: &[Key]) -> u64 {
    let mut sum = 0u64;
    for key in wanted {
        if let Some(newest) = keydir.newest(key) {
            sum = sum.wrapping_add(newest.at);
        }
    }
    sum
}

/// The same, where each get waits for the answer of the one before: no `at` here is as large as 2^40.
fn waiting_sum_of(keydir: &Keydir, wanted: &[Key]) -> u64 {
    let mut sum = 0u64;
    let mut last = 0u64;
    for place in 0..wanted.len() {
        let Some(key) = wanted.get(place | (last >> 40) as usize) else {
            return sum;
        };
        if let Some(newest) = keydir.newest(key) {
            last = newest.at;
            sum = sum.wrapping_add(last);
        }
    }
    sum
}

/// Visits each key, as a sweep does, and says how many it dropped. The place of one that was dropped
/// is visited again.
fn swept(keydir: &mut Keydir) -> u64 {
    let mut dropped = 0u64;
    let mut place = 0u64;
    for _ in 0..keydir.len() {
        if place < keydir.len() {
            keydir.prune_at(place);
        }
        if place < keydir.len() && keydir.drop_at(place) {
            dropped = dropped.saturating_add(1);
        } else {
            place = place.saturating_add(1);
        }
    }
    dropped
}
