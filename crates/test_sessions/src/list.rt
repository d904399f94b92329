//! Listings over a disk in memory: what they print, and how they end.
ghost use Rattle.std.specs.Prelude.{◌≡◌, false};
ghost use Rattle.bk_keydir.specs.Slots.{has_open};
ghost use Rattle.bk_load.specs.Tidying.{NoneLent};
ghost use Rattle.bk_memdisk.specs.Disk.{told_by};

use bk_base::{Key, Kind, Moment, Name};
use bk_list::{ListEnd, list};
use bk_load::{open, synced_lends_nothing};
use bk_memdisk::{Choice, ListClock, MemDisk, MemSink};
use bk_policy::Settings;
use bk_progress::Silent;
use bk_store::{Prepared, Store};
use std::alloc::Global;
use std::process::Abort;

/// What is done to the store before it is listed.
#[derive(Clone, Copy, Debug)]
enum Do {
    /// The key and the value, at this moment.
    Put(&'static [u8], &'static [u8], u32),
    Delete(&'static [u8]),
}

/// What the listing meets.
#[derive(Clone, Copy, Debug)]
enum Begin {
    Empty,
    /// The record of `b` has another value than the one that was written. Its hint is that of what was written.
    Changed,
    /// This write to the sink fails.
    Write(u64),
    /// This call of the disk fails.
    Call(u64),
    /// A read of this view fails.
    View(u64),
}

/// What stands before it, what it meets, what it prints and how it ends. The moment is 15, and a put lives for 10
/// seconds.
type Case = (&'static [Do], Begin, &'static [u8], ListEnd);

const UNSORTED: &[Do] = &[
    Do::Put(b"b", b"2", 15),
    Do::Put(b"a", b"", 15),
    Do::Put(b"\xff", b"x", 15),
    Do::Put(b"ab", b"12", 15),
];

const GONE: &[Do] = &[
    Do::Put(b"expired", b"1", 5),
    Do::Put(b"live", b"2", 6),
    Do::Put(b"deleted", b"3", 15),
    Do::Delete(b"deleted"),
];

const TWO: &[Do] = &[Do::Put(b"b", b"2", 15), Do::Put(b"a", b"1", 15)];

const CASES: &[Case] = &[
    (&[], Begin::Empty, b"END 0\n", ListEnd::Done),
    (
        UNSORTED,
        Begin::Empty,
        b"PAIR 1 0\na\nPAIR 2 2\nab12\nPAIR 1 1\nb2\nPAIR 1 1\n\xffx\nEND 4\n",
        ListEnd::Done,
    ),
    (
        GONE,
        Begin::Empty,
        b"PAIR 4 1\nlive2\nEND 1\n",
        ListEnd::Done,
    ),
    (TWO, Begin::Write(1), b"", ListEnd::Sink),
    (TWO, Begin::Call(8), b"", ListEnd::Disk),
    (TWO, Begin::Call(10), b"PAIR 1 1\na1\n", ListEnd::Disk),
    (TWO, Begin::View(3), b"", ListEnd::Disk),
    (TWO, Begin::View(4), b"PAIR 1 1\na1\n", ListEnd::Disk),
    (
        &[],
        Begin::Changed,
        b"PAIR 1 1\na1\nDAMAGED 1 24 2dba20bb 5abd102d\n",
        ListEnd::Damaged,
    ),
];

/// The records of `a` and `b`, whose value is another.
const RECORDS: &[u8] = &[
    157, 216, 156, 155, 0, 0, 0, 15, 0, 1, 0, 0, 0, 1, 0, 0, 0, 0, 0, 0, 0, 1, 97, 49, 45, 186, 32,
    187, 0, 0, 0, 15, 0, 1, 0, 0, 0, 1, 0, 0, 0, 0, 0, 0, 0, 2, 98, 51,
];

/// Their hint.
const HINT: &[u8] = &[
    0, 0, 0, 15, 0, 1, 0, 0, 0, 1, 0, 0, 0, 0, 0, 0, 0, 0, 0, 0, 0, 0, 0, 0, 0, 1, 157, 216, 156,
    155, 97, 0, 0, 0, 15, 0, 1, 0, 0, 0, 1, 0, 0, 0, 0, 0, 0, 0, 24, 0, 0, 0, 0, 0, 0, 0, 2, 45,
    186, 32, 187, 98, 0, 0, 0, 0, 0, 0, 0, 0, 0, 0, 0, 0, 0, 0, 0, 0, 0, 48, 0, 0, 0, 0, 0, 0, 0,
    2, 74, 179, 5, 94,
];

// What a crash leaves of the disk. Nothing of it is lent.
fn crashed(rt: &impl Abort, alloc: Global, disk: MemDisk) -> MemDisk
    ensures { NoneLent (told_by result).fronts }
{
    let choice = Choice {
        keep: Some(0),
        flips: Vec::new(alloc),
    };
    synced_lends_nothing();
    disk.crash(&choice).expect(rt, "memory")
}

fn directory(rt: &impl Abort, alloc: Global, begin: Begin) -> MemDisk {
    let mut disk = MemDisk::new(alloc);
    if let Begin::Changed = begin {
        let files = [(Kind::Main, RECORDS), (Kind::Hint, HINT)];
        for (kind, bytes) in files {
            disk.place(Name { id: 1, kind }, bytes).expect(rt, "memory");
        }
    }
    disk
}

// Chooses what fails.
fn choose(rt: &impl Abort, disk: &mut MemDisk, begin: Begin)
    ensures { told_by disk.new ≡ told_by disk.old }
{
    match begin {
        Begin::Call(nth) => disk.fail(nth, 0).expect(rt, "memory"),
        Begin::View(nth) => disk.fail_view(nth).expect(rt, "memory"),
        _ => {}
    }
}

fn opened(rt: &impl Abort, alloc: Global, begin: Begin) -> Store<MemDisk>
    ensures { has_open result.keys.slots ≡ false }
{
    let disk = directory(rt, alloc, begin);
    let mut disk = crashed(rt, alloc, disk);
    choose(rt, &mut disk, begin);
    let settings = Settings {
        ttl: 10,
        ..Settings::plain()
    };
    match open(alloc, disk, settings, &mut Silent) {
        Ok(store) => store,
        Err(_) => panic!(rt; "not opened"),
    }
}

fn key(rt: &impl Abort, alloc: Global, bytes: &[u8]) -> Key {
    let bytes = bytes.to_vec(alloc).expect(rt, "memory");
    Key::new(bytes).expect(rt, "a key")
}

fn apply(rt: &impl Abort, alloc: Global, store: &mut Store<MemDisk>, event: Do)
    ensures { store.new.keys.slots ≡ store.old.keys.slots }
{
    match event {
        Do::Put(bytes, value, now) => {
            let prepared = Prepared::new(alloc, key(rt, alloc, bytes), value).expect(
                rt, "prepared",
            );
            store.put(prepared, Moment(now)).expect(rt, "put");
        }
        Do::Delete(bytes) => {
            store
                .delete(&key(rt, alloc, bytes), Moment(15))
                .expect(rt, "deleted");
        }
    }
}

fn filled(rt: &impl Abort, alloc: Global, events: &[Do], begin: Begin) -> Store<MemDisk>
    ensures { has_open result.keys.slots ≡ false }
{
    let mut store = opened(rt, alloc, begin);
    for event in events {
        apply(rt, alloc, &mut store, *event);
    }
    store
}

fn sink_of(rt: &impl Abort, alloc: Global, begin: Begin) -> MemSink {
    let fail = match begin {
        Begin::Write(nth) => Some(nth),
        _ => None,
    };
    MemSink::new(alloc, 1_000, fail).expect(rt, "memory")
}

// The listing prints so and ends so.
fn shows(rt: &impl Abort, alloc: Global, case: Case) {
    let (events, begin, output, end) = case;
    let mut store = filled(rt, alloc, events, begin);
    let mut sink = sink_of(rt, alloc, begin);
    let moments = vec![in alloc; Moment(15), Moment(20)].expect(rt, "memory");
    let mut clock = ListClock::new(moments);
    let ended = list(alloc, &mut store, &mut sink, &mut clock);
    assert_eq!(rt; (sink.bytes(), ended), (output, end));
}

#[test]
fn listings(rt: HostRuntime) {
    for case in CASES {
        shows(&rt, rt.alloc(), *case);
    }
}
