//! How long put and get of a store take over the files of a folder, with no wire between. The words
//! are an empty folder, how many keys there are, how many bytes each value has, and the length above
//! which a data file takes no more records; with no folder nothing is measured.
//! Standard output has what the events came to, standard error the nanoseconds of one.
#![tactic(auto)]

mod events;
mod folders;
mod keys;
mod runs;

use bk_base::limits::{DEFAULT_MAX_FILE, RECORD_HEADER};
use bk_osdisk::OsClock;
use folders::started;
use keys::Orders;
use runs::{Run, nanos_each, run_events};
use std::io::{Eprint, Print};
use std::{env, io};

fn main(rt: HostRuntime) -> io::Result<()> {
    let mut words = env::args(&rt)?;
    let Some(dir) = words.nth(1) else {
        return println!(rt; "no folder is given");
    };
    let items = number(words.next(), 1_000);
    let len = number(words.next(), 100);
    let max_file = number(words.next(), DEFAULT_MAX_FILE);
    measure(rt, dir.as_str(), items, len as usize, max_file)
}

fn number(word: Option<String>, other: u32) -> u32 {
    match word {
        Some(word) => word.parse().unwrap_or(other),
        None => other,
    }
}

/// Runs the events over a new store in the folder, and prints what they came to and their times.
fn measure(rt: HostRuntime, dir: &str, items: u32, len: usize, max_file: u32) -> io::Result<()> {
    let alloc = rt.alloc();
    let orders = Orders::new(alloc, items)?;
    let mut value = Vec::new(alloc);
    value.resize(len, 7u8)?;
    let mut buffer = Vec::new(alloc);
    buffer.resize(len.saturating_add(RECORD_HEADER + 16), 0u8)?;
    let mut store = started(rt, dir, max_file)?;
    let mut clock = OsClock::new(rt);
    let came = run_events(
        &rt,
        alloc,
        &mut store,
        &mut clock,
        &orders,
        &value,
        &mut buffer,
    )?;
    print(&rt, orders.counted.len(), came)
}

fn print<R: Print + Eprint>(rt: &R, items: usize, run: Run) -> io::Result<()> {
    println!(rt; "seq {}, sum {}", run.last, run.sum)?;
    eprintln!(rt; "put {}", nanos_each(items, run.put))?;
    eprintln!(rt; "overwrite {}", nanos_each(items, run.overwrite))?;
    eprintln!(rt; "get {}", nanos_each(items, run.get))
}
