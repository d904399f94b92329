//! How long the recovery of a directory takes, and what it keeps in memory. The words are the folder,
//! and `hold`: then what was loaded is held until standard input ends, so that its memory can be read.
//! With no folder nothing is measured. Standard output has what was loaded, standard error the
//! nanoseconds of one key.
#![tactic(auto)]

use bk_keydir::Loaded;
use bk_load::recover;
use bk_osdisk::OsDisk;
use bk_progress::Silent;
use std::io::{Eprint, ErrorKind, Input, Print, Read};
use std::time::{Clock, Duration, Instant};
use std::{env, io};

fn main(rt: HostRuntime) -> io::Result<()> {
    let mut words = env::args(&rt)?;
    let Some(dir) = words.nth(1) else {
        return println!(rt; "no folder is given");
    };
    let start = Instant::now(&rt)?;
    let loaded = load(rt, dir.as_str())?;
    let taken = start.elapsed(&rt)?;
    if words.next().is_some() {
        println!(rt; "{} keys are held", loaded.keydir.len())?;
        return wait(&rt);
    }
    print(&rt, &loaded, taken)
}

/// Recovers the folder.
fn load(rt: HostRuntime, dir: &str) -> io::Result<Loaded> {
    let mut disk = OsDisk::new(rt, dir).map_err(|_| ErrorKind::InvalidInput)?;
    recover(rt.alloc(), &mut disk, &mut Silent).map_err(|_| ErrorKind::InvalidData.into())
}

fn wait<R: Input>(rt: &R) -> io::Result<()> {
    let mut reader = rt.reader();
    let mut buffer = [0u8; 64];
    for _ in 0..u64::MAX {
        if reader.read(&mut buffer)? == 0 {
            return Ok(());
        }
    }
    Ok(())
}

fn print<R: Clock + Print + Eprint>(rt: &R, loaded: &Loaded, taken: Duration) -> io::Result<()> {
    let keys = loaded.keydir.len();
    println!(rt; "{keys} keys, last seq {}", loaded.last_seq.0)?;
    eprintln!(rt; "{}", taken.as_nanos() / (keys as u128).max(1))
}
