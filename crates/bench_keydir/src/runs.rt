//! What a run is given, and what it gives.
ghost use Rattle.std.specs.Prelude.{◌≡◌};

use crate::keys::{counted, keys_of, shuffle};
use bk_base::{FileId, Key, Moment, Seq, Version};
use std::alloc::Global;
use std::io;
use std::time::Duration;

/// The keys of a run: their numbers as they come and in a random order, and the keys in another.
#[derive(Drop)]
pub struct Orders {
    pub counted: Vec<u32>,
    pub shuffled: Vec<u32>,
    pub wanted: Vec<Key>,
}

impl Orders {
    pub fn new(alloc: Global, items: u32) -> io::Result<Orders> {
        let counted = counted(alloc, items)?;
        let mut shuffled = counted.clone()?;
        shuffle(&mut shuffled);
        let mut again = shuffled.clone()?;
        shuffle(&mut again);
        Ok(Orders {
            counted,
            shuffled,
            wanted: keys_of(alloc, &again)?,
        })
    }
}

/// What the calls came to, and how long all calls of a kind took: puts of new keys, overwrites, gets,
/// gets each of which waits for the answer of the one before, and the sweep.
#[derive(Clone, Copy)]
pub struct Run {
    pub keys: u64,
    pub sum: u64,
    pub dropped: u64,
    pub put: Duration,
    pub overwrite: Duration,
    pub get: Duration,
    pub waiting: Duration,
    pub sweep: Duration,
}

/// The version of this seq, of a record of 138 bytes.
pub fn version(seq: u64, gone: bool) -> Version
    ensures { result.seq.0 ≡ seq }
{
    Version {
        seq: Seq(seq),
        at: seq,
        moment: Moment(5),
        file: FileId(1),
        size: 138,
        crc: 7,
        gone,
    }
}

/// The nanoseconds of one, where so many took this long.
pub fn nanos_each(count: u32, all: Duration) -> u128 {
    if count == 0 {
        0
    } else {
        all.as_nanos() / u128::from(count)
    }
}
