//! Rounds of a lock.

use crate::counts::Count;
use std::sync::{Mutex, Wait};
use std::thread::{Threads, for_each_mut};

/// Locks, works and counts, so many rounds in each of at most 64 threads, and answers the count.
pub fn lock_by<R: Threads + Wait + Sync>(rt: &R, threads: usize, rounds: u64, work: u64) -> u64 {
    let count = Mutex::new(Count::new());
    let mut each = [(); 64];
    let threads = threads.clamp(1, 64);
    for_each_mut(
        rt,
        &mut each[..threads],
        threads,
        &|_, _each: &mut ()| lock_often(rt, &count, rounds, work),
    );
    count.into_inner().steps
}

fn lock_often<R: Wait>(rt: &R, count: &Mutex<Count>, rounds: u64, work: u64) {
    for _ in 0..rounds {
        count.lock(rt).hold(work);
    }
}
