//! How long a holding of the turn takes, beside a lock of std's `Mutex`, where each works for about
//! 0, 1 and 10 µs, at 1, 2, 4 and 8 threads. Standard output has the counts, standard error the
//! times. The word is how many holdings of 0 µs a row has; rows with work have fewer.
#![tactic(auto)]

mod counts;
mod locks;
mod turns;

use std::alloc::Global;
use std::sync::Wait;
use std::thread::Threads;
use std::time::{Clock, Duration, Instant};
use std::{env, io};

const HOLDINGS: u64 = 1_600;

/// How often each is measured. The median counts, and the least, since other programs run too.
const REPEATS: usize = 5;

/// Steps of the mix that take about 1 µs.
const STEPS: u64 = 500;

/// What one kind of round took: how many there were, and the nanoseconds of one.
#[derive(Clone, Copy)]
struct Row {
    count: u64,
    median: u64,
    least: u64,
}

fn main(rt: HostRuntime) -> io::Result<()> {
    let holdings = match env::args(&rt)?.nth(1) {
        Some(word) => word.parse().unwrap_or(HOLDINGS),
        None => HOLDINGS,
    };
    for micros in [0u64, 1, 10] {
        for threads in [1usize, 2, 4, 8] {
            let rounds = holdings / (1 + micros) / threads as u64;
            let (turn, lock) = measure(&rt, rt.alloc(), threads, rounds, STEPS * micros)?;
            println!(rt;
                "{micros} µs, {threads} threads: {} holdings, {} locks",
                turn.count, lock.count
            )?;
            eprintln!(rt;
                "{micros} µs, {threads} threads: turn {} ns (least {}), Mutex {} ns (least {})",
                turn.median, turn.least, lock.median, lock.least
            )?;
        }
    }
    Ok(())
}

/// The rounds of the turn and of the lock, by turns.
fn measure<R: Threads + Wait + Sync + Clock>(
    rt: &R,
    alloc: Global,
    threads: usize,
    rounds: u64,
    work: u64,
) -> io::Result<(Row, Row)> {
    let mut turn = [0u64; REPEATS];
    let mut lock = [0u64; REPEATS];
    let mut holdings = 0;
    let mut locked = 0;
    for i in 0..REPEATS {
        let start = Instant::now(rt)?;
        holdings = turns::hold_by(rt, alloc, threads, rounds, work)?;
        turn[i] = nanos_each(holdings, start.elapsed(rt)?);
        let start = Instant::now(rt)?;
        locked = locks::lock_by(rt, threads, rounds, work);
        lock[i] = nanos_each(locked, start.elapsed(rt)?);
    }
    Ok((Row::new(holdings, turn), Row::new(locked, lock)))
}

impl Row {
    fn new(count: u64, mut nanos: [u64; REPEATS]) -> Row {
        nanos.sort_unstable();
        Row {
            count,
            median: nanos[REPEATS / 2],
            least: nanos[0],
        }
    }
}

/// So many took this long.
fn nanos_each(count: u64, all: Duration) -> u64 {
    if count == 0 {
        0
    } else {
        u64::try_from(all.as_nanos() / u128::from(count)).unwrap_or(u64::MAX)
    }
}
