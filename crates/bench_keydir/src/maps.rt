//! The same over std's `HashMap`, of one version a key.

use crate::keys::{counted, key_of};
use crate::runs::{Orders, Run, version};
use bk_base::{Key, Version};
use std::alloc::Global;
use std::collections::HashMap;
use std::io;
use std::io::ErrorKind;
use std::time::{Clock, Instant};

/// A map of so many keys.
pub fn filled(alloc: Global, items: u32) -> io::Result<HashMap<Key, Version>> {
    let mut map = HashMap::new(alloc);
    put_each(alloc, &mut map, &counted(alloc, items)?, 1, false)?;
    Ok(map)
}

/// Puts each key, overwrites each, gets each, and takes away a tenth that is gone.
pub fn run<R: Clock>(rt: &R, alloc: Global, orders: &Orders) -> io::Result<Run> {
    let mut map = HashMap::new(alloc);
    let start = Instant::now(rt)?;
    let seq = put_each(alloc, &mut map, &orders.counted, 1, false)?;
    let put = start.elapsed(rt)?;
    let start = Instant::now(rt)?;
    let seq = put_each(alloc, &mut map, &orders.shuffled, seq, false)?;
    let overwrite = start.elapsed(rt)?;
    let start = Instant::now(rt)?;
    let sum = sum_of(&map, &orders.wanted);
    let get = start.elapsed(rt)?;
    let start = Instant::now(rt)?;
    let again = waiting_sum_of(&map, &orders.wanted);
    let waiting = start.elapsed(rt)?;
    let tenth = &orders.shuffled[..orders.shuffled.len() / 10];
    put_each(alloc, &mut map, tenth, seq, true)?;
    let before = map.len();
    let start = Instant::now(rt)?;
    map.retain(|_key: &Key, version: &mut Version| !version.gone);
    Ok(Run {
        keys: map.len() as u64,
        sum: sum.wrapping_add(again),
        dropped: before.saturating_sub(map.len()) as u64,
        put,
        overwrite,
        get,
        waiting,
        sweep: start.elapsed(rt)?,
    })
}

/// Puts a version of each key, with seqs from the first on, and gives the next.
fn put_each(
    alloc: Global,
    map: &mut HashMap<Key, Version>,
    numbers: &[u32],
    first: u64,
    gone: bool,
) -> io::Result<u64> {
    let mut seq = first;
    for number in numbers {
        let key = key_of(alloc, *number)?;
        map.insert(key, version(seq, gone))
            .map_err(|_| ErrorKind::OutOfMemory)?;
        seq = seq.checked_add(1).ok_or(ErrorKind::InvalidInput)?;
    }
    Ok(seq)
}

/// The sum of one number of each key's version.
fn sum_of(map: &HashMap<Key, Version>, wanted: &[Key]) -> u64 {
    let mut sum = 0u64;
    for key in wanted {
        if let Some(version) = map.get(key) {
            sum = sum.wrapping_add(version.at);
        }
    }
    sum
}

/// The same, where each get waits for the answer of the one before.
fn waiting_sum_of(map: &HashMap<Key, Version>, wanted: &[Key]) -> u64 {
    let mut sum = 0u64;
    let mut last = 0u64;
    for place in 0..wanted.len() {
        let Some(key) = wanted.get(place | (last >> 40) as usize) else {
            return sum;
        };
        if let Some(version) = map.get(key) {
            last = version.at;
            sum = sum.wrapping_add(last);
        }
    }
    sum
}
