//! Fills of a store in memory: what they write, and how they end.
ghost use Rattle.std.specs.Prelude.{◌≡◌, []};
ghost use Rattle.bk_disk.specs.Told.{nothing_told};
ghost use Rattle.bk_memdisk.specs.Disk.{told_by};
ghost use Rattle.bk_store.specs.Starting.{IsInOrder};

use bk_base::limits::{LAST_FILE, LAST_SEQ};
use bk_base::{FileId, Moment, Seq};
use bk_disk::Clock;
use bk_fill::{FillEnd, fill};
use bk_keydir::{Keydir, Loaded, Report};
use bk_memdisk::{ListClock, MemDisk, MemSink};
use bk_policy::Settings;
use bk_progress::Silent;
use bk_store::Store;
use std::alloc::Global;
use std::process::Abort;

/// What a fill begins with, or what fails in it.
#[derive(Clone, Copy)]
enum Begin {
    /// This seq was the last one that was given out.
    Seq(u64),
    /// This file number was.
    File(u32),
    /// This write to the sink fails.
    Write(u64),
    /// This call of the disk fails, with this effect.
    Call(u64, u64),
}

/// What a fill begins with, how many pairs it puts, what it writes and how it ends.
type Row = (Begin, u32, &'static str, FillEnd);

/// The first put makes the file, and each appends its record of 25 bytes. The sync comes behind them.
const ROWS: &[Row] = &[
    (Begin::Seq(0), 0, "FILLED 0 0 0\n", FillEnd::Done),
    (Begin::Seq(0), 1, "FILLED 1 1 25\n", FillEnd::Done),
    (Begin::Seq(7), 3, "FILLED 3 3 75\n", FillEnd::Done),
    (
        Begin::Seq(0),
        1_001,
        "FILLED 1001 1000 28808\n",
        FillEnd::Done,
    ),
    (
        Begin::Seq(LAST_SEQ - 2),
        2,
        "FILLED 2 2 50\n",
        FillEnd::Done,
    ),
    (Begin::Seq(LAST_SEQ - 2), 3, "FULL seq\n", FillEnd::Full),
    (Begin::File(LAST_FILE), 1, "FULL files\n", FillEnd::Full),
    (Begin::Write(1), 1, "", FillEnd::Sink),
    (Begin::Call(3, 24), 3, "", FillEnd::Disk),
    (Begin::Call(4, 0), 2, "", FillEnd::Disk),
];

// A store's numbers, and no key.
fn nothing_loaded(alloc: Global, begin: Begin) -> Loaded
    ensures order { IsInOrder result }
    ensures rows { result.rows.items ≡ [] }
{
    let (seq, file) = match begin {
        Begin::Seq(seq) => (seq, 0),
        Begin::File(file) => (0, file),
        _ => (0, 0),
    };
    Loaded {
        keydir: Keydir::new(alloc),
        rows: Vec::new(alloc),
        report: Report {
            torn: Vec::new(alloc),
            hints: Vec::new(alloc),
            odd: Vec::new(alloc),
            hinted: 0,
            scanned: 0,
        },
        last_seq: Seq(seq.min(LAST_SEQ)),
        last_file: FileId(file),
    }
}

fn disk_of(rt: &impl Abort, alloc: Global, begin: Begin) -> MemDisk
    ensures { told_by result ≡ nothing_told }
{
    let mut disk = MemDisk::new(alloc);
    if let Begin::Call(nth, effect) = begin {
        disk.fail(nth, effect).expect(rt, "memory");
    }
    disk
}

fn clock_of(rt: &impl Abort, alloc: Global) -> ListClock {
    let mut moments = Vec::new(alloc);
    moments.push(Moment(5)).expect(rt, "memory");
    moments.push(Moment(6)).expect(rt, "memory");
    ListClock::new(moments)
}

// Whether the fill of this row writes so and ends so, and asks the clock once.
fn holds(rt: &impl Abort, alloc: Global, row: Row) -> bool {
    let (begin, count, output, end) = row;
    let disk = disk_of(rt, alloc, begin);
    let mut store = Store::start(alloc, disk, nothing_loaded(alloc, begin), Settings::plain());
    let fail = match begin {
        Begin::Write(nth) => Some(nth),
        _ => None,
    };
    let mut sink = MemSink::new(alloc, 1_000, fail).expect(rt, "memory");
    let mut clock = clock_of(rt, alloc);
    let ended = fill(alloc, &mut store, &mut sink, &mut clock, count, &mut Silent);
    ended == end && sink.bytes() == output.as_bytes() && clock.now() == Moment(6)
}

#[test]
fn rows(rt: HostRuntime) {
    for row in ROWS {
        assert!(rt; holds(&rt, rt.alloc(), *row), "{}", row.2);
    }
}
