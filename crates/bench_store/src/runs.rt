//! A run over a store that is new.
use crate::events::{get_each, put_each};
use crate::keys::Orders;
use bk_disk::{Clock, Disk};
use bk_store::Store;
use std::alloc::Global;
use std::time::{Duration, Instant};
use std::{io, time};

/// What the events came to, and how long all of a kind took: puts of new keys, overwrites, and gets.
#[derive(Clone, Copy)]
pub struct Run {
    pub last: u64,
    pub sum: u64,
    pub put: Duration,
    pub overwrite: Duration,
    pub get: Duration,
}

/// Puts each key, overwrites each, and gets each.
pub fn run_events<R: time::Clock, D: Disk, C: Clock>(
    rt: &R,
    alloc: Global,
    store: &mut Store<D>,
    clock: &mut C,
    orders: &Orders,
    value: &[u8],
    buffer: &mut [u8],
) -> io::Result<Run> {
    let start = Instant::now(rt)?;
    put_each(alloc, store, clock, &orders.counted, value)?;
    let put = start.elapsed(rt)?;
    let start = Instant::now(rt)?;
    let last = put_each(alloc, store, clock, &orders.shuffled, value)?;
    let overwrite = start.elapsed(rt)?;
    let start = Instant::now(rt)?;
    let sum = get_each(store, clock, &orders.wanted, buffer)?;
    Ok(Run {
        last,
        sum,
        put,
        overwrite,
        get: start.elapsed(rt)?,
    })
}

/// The nanoseconds of one, where so many took this long.
pub fn nanos_each(count: usize, all: Duration) -> u128 {
    if count == 0 {
        0
    } else {
        all.as_nanos() / count as u128
    }
}
