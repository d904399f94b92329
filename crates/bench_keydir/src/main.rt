//! How long the calls of a keydir take, beside those of std's `HashMap` over the same keys. The words
//! are how many keys there are, which of the two is measured, `keydir` or `map`, and `hold`: then the
//! keys are only put, and held until standard input ends, so that their memory can be read.
//! Standard output has what the calls came to, standard error the nanoseconds of one call and the
//! microseconds of the sweep.
#![tactic(auto)]

mod keydirs;
mod keys;
mod maps;
mod runs;

use runs::{Orders, Run, nanos_each};
use std::alloc::Global;
use std::io::{Eprint, Input, Print, Read};
use std::time::Clock;
use std::{env, io};

const ITEMS: u32 = 1_000;

fn main(rt: HostRuntime) -> io::Result<()> {
    let mut words = env::args(&rt)?;
    let items = match words.nth(1) {
        Some(word) => word.parse().unwrap_or(ITEMS),
        None => ITEMS,
    };
    let store = words.next();
    let is_map = matches!(&store, Some(word) if word.as_str() == "map");
    if words.next().is_some() {
        hold(&rt, rt.alloc(), items, is_map)
    } else {
        measure(&rt, rt.alloc(), items, !is_map, is_map || store.is_none())
    }
}

/// Fills a keydir or a map, and waits until standard input ends.
fn hold<R: Print + Input>(rt: &R, alloc: Global, items: u32, is_map: bool) -> io::Result<()> {
    if is_map {
        let map = maps::filled(alloc, items)?;
        println!(rt; "{} keys are held", map.len())?;
        wait(rt)
    } else {
        let keydir = keydirs::filled(alloc, items)?;
        println!(rt; "{} keys are held", keydir.len())?;
        wait(rt)
    }
}

fn wait<R: Input>(rt: &R) -> io::Result<()> {
    let mut reader = rt.reader();
    let mut buffer = [0u8; 64];
    for _ in 0..u64::MAX {
        if reader.read(&mut buffer)? == 0 {
            return Ok(());
        }
    }
    Ok(())
}

/// Runs the calls of each that is wanted, and prints what they came to and their times.
fn measure<R: Clock + Print + Eprint>(
    rt: &R,
    alloc: Global,
    items: u32,
    with_keydir: bool,
    with_map: bool,
) -> io::Result<()> {
    let orders = Orders::new(alloc, items)?;
    if with_keydir {
        print(rt, "keydir", items, keydirs::run(rt, alloc, &orders)?)?;
    }
    if with_map {
        print(rt, "map", items, maps::run(rt, alloc, &orders)?)?;
    }
    Ok(())
}

fn print<R: Print + Eprint>(rt: &R, store: &str, items: u32, run: Run) -> io::Result<()> {
    println!(rt;
        "{store}: {} keys, sum {}, {} dropped",
        run.keys, run.sum, run.dropped
    )?;
    eprintln!(rt; "{store} put {}", nanos_each(items, run.put))?;
    eprintln!(rt; "{store} overwrite {}", nanos_each(items, run.overwrite))?;
    eprintln!(rt; "{store} get {}", nanos_each(items, run.get))?;
    eprintln!(rt; "{store} get-waiting {}", nanos_each(items, run.waiting))?;
    eprintln!(rt; "{store} sweep {}", run.sweep.as_micros())
}
