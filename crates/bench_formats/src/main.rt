//! How long a row of a hint takes to write and to read, and a request to read and a reply to write.
//! The word is how many there are of each. Standard output has the counts and the checksums of what
//! was written, standard error the nanoseconds of one.
#![tactic(auto)]

mod hints;
mod wires;

use bk_crc::crc32;
use std::alloc::Global;
use std::time::{Clock, Duration, Instant};
use std::{env, io};

const ITEMS: u32 = 1_000;

fn main(rt: HostRuntime) -> io::Result<()> {
    let items = match env::args(&rt)?.nth(1) {
        Some(word) => word.parse().unwrap_or(ITEMS),
        None => ITEMS,
    };
    let alloc = rt.alloc();
    let start = Instant::now(&rt)?;
    let hint = hints::written(alloc, items)?;
    let written = start.elapsed(&rt)?;
    println!(rt; "hint {} rows {:08x}", items, crc32(&hint))?;
    let start = Instant::now(&rt)?;
    let rows = hints::rows_in(&hint, u64::MAX);
    let read = start.elapsed(&rt)?;
    println!(rt; "hint read {rows} rows")?;
    let requests = wires::requests(alloc, items)?;
    println!(rt; "requests {} {:08x}", items, crc32(&requests))?;
    let start = Instant::now(&rt)?;
    let (found, puts) = wires::found(alloc, &requests, items)?;
    let asked = start.elapsed(&rt)?;
    println!(rt; "requests read {found}, {puts} puts")?;
    let start = Instant::now(&rt)?;
    let replies = wires::replies(alloc, items)?;
    let replied = start.elapsed(&rt)?;
    println!(rt; "replies {} {:08x}", items, crc32(&replies))?;
    eprintln!(rt; "hint-write {}", nanos_each(items, written))?;
    eprintln!(rt; "hint-read {}", nanos_each(items, read))?;
    eprintln!(rt; "request-read {}", nanos_each(items, asked))?;
    eprintln!(rt; "reply-write {}", nanos_each(items, replied))?;
    Ok(())
}

/// The nanoseconds of one, where so many took this long.
fn nanos_each(count: u32, all: Duration) -> u128 {
    if count == 0 {
        0
    } else {
        all.as_nanos() / u128::from(count)
    }
}
