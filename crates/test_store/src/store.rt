//! Stores over a disk in memory: what each event answers, and what a crash leaves.
ghost use Rattle.std.specs.Prelude.{◌≡◌, []};
ghost use Rattle.bk_disk.specs.Told.{nothing_told};
ghost use Rattle.bk_memdisk.specs.Disk.{told_by};
ghost use Rattle.bk_store.specs.Starting.{IsInOrder};

use bk_base::limits::{LAST_FILE, LAST_SEQ};
use bk_base::{FileId, Key, Kind, Moment, Name, Seq};
use bk_disk::View;
use bk_keydir::{Keydir, Loaded, Report};
use bk_memdisk::{Choice, MemDisk};
use bk_policy::Settings;
use bk_record::decode;
use bk_store::{FoldError, FullFolds, Loan, NoFold, Prepared, PutError, Row2, Store, Stored};
use std::alloc::Global;
use std::process::Abort;

/// An event of a test.
#[derive(Clone, Copy, Debug, PartialEq, Eq)]
enum Do {
    /// A key and a value of one byte, and the moment.
    Put(u8, u8, u32),
    /// A put of a value of so many bytes.
    Big(u8, usize),
    Delete(u8),
    Reap(u8, u32),
    Get(u8, u32),
    Sync,
    Fold,
    Next(u8),
    Close(u8),
}

/// What an event answers. Of a value it has the first byte, or 0 where there is none.
#[derive(Clone, Copy, Debug, PartialEq, Eq)]
enum Answer {
    Nothing,
    Done,
    Seq(u64),
    /// A seq, and a new file.
    Rolled(u64),
    Value(u8),
    Fold(u8, u64),
    Pair(u8, u8),
    NoFold(u8),
    Full,
    Refused(PutError),
}

/// An empty store: the last numbers that are given out, its settings, and which disk call fails with
/// which effect.
#[derive(Clone, Copy, Debug, PartialEq, Eq)]
struct Begin {
    seq: u64,
    file: u32,
    max_file: u32,
    ttl: u32,
    fails: Option<(u64, u64)>,
}

const EMPTY: Begin = Begin {
    seq: 0,
    file: 0,
    max_file: 4096,
    ttl: 0,
    fails: None,
};

const DELETES: &[(Do, Answer)] = &[
    (Do::Get(b'a', 5), Answer::Nothing),
    (Do::Delete(b'a'), Answer::Nothing),
    (Do::Sync, Answer::Seq(0)),
    (Do::Big(b'a', 0), Answer::Rolled(1)),
    (Do::Get(b'a', 5), Answer::Value(0)),
    (Do::Delete(b'a'), Answer::Seq(2)),
    (Do::Get(b'a', 5), Answer::Nothing),
    (Do::Delete(b'a'), Answer::Nothing),
    (Do::Sync, Answer::Seq(2)),
];

const ROLLS: &[(Do, Answer)] = &[
    (Do::Big(b'a', 2025), Answer::Rolled(1)),
    (Do::Big(b'b', 2025), Answer::Seq(2)),
    (Do::Big(b'c', 2025), Answer::Rolled(3)),
    (Do::Big(b'd', 9977), Answer::Rolled(4)),
    (Do::Put(b'e', b'1', 5), Answer::Rolled(5)),
];

/// With a ttl of 10.
const ENDS: &[(Do, Answer)] = &[
    (Do::Put(b'a', b'1', 5), Answer::Rolled(1)),
    (Do::Get(b'a', 14), Answer::Value(b'1')),
    (Do::Get(b'a', 15), Answer::Nothing),
    (Do::Get(b'a', 3), Answer::Value(b'1')),
    (Do::Reap(b'a', 14), Answer::Nothing),
    (Do::Reap(b'a', 20), Answer::Seq(2)),
    (Do::Reap(b'a', 20), Answer::Nothing),
    (Do::Put(b'a', b'2', 4_294_967_295), Answer::Seq(3)),
    (Do::Get(b'a', 4_294_967_295), Answer::Value(b'2')),
];

const FOLDS: &[(Do, Answer)] = &[
    (Do::Put(b'x', b'1', 5), Answer::Rolled(1)),
    (Do::Put(b'y', b'2', 5), Answer::Seq(2)),
    (Do::Put(b'z', b'3', 5), Answer::Seq(3)),
    (Do::Fold, Answer::Fold(0, 3)),
    (Do::Put(b'x', b'9', 5), Answer::Seq(4)),
    (Do::Put(b'w', b'4', 5), Answer::Seq(5)),
    (Do::Delete(b'y'), Answer::Seq(6)),
    (Do::Next(0), Answer::Pair(b'x', b'1')),
    (Do::Next(0), Answer::Pair(b'y', b'2')),
    (Do::Next(0), Answer::Pair(b'z', b'3')),
    (Do::Next(0), Answer::Nothing),
    (Do::Next(1), Answer::NoFold(1)),
    (Do::Close(0), Answer::Done),
    (Do::Close(0), Answer::NoFold(0)),
];

/// With 24 bytes of the second record.
const FAILS: &[(Do, Answer)] = &[
    (Do::Put(b'x', b'1', 5), Answer::Rolled(1)),
    (Do::Put(b'y', b'2', 5), Answer::Refused(PutError::Disk)),
    (Do::Put(b'z', b'3', 5), Answer::Seq(2)),
    (Do::Get(b'y', 5), Answer::Nothing),
    (Do::Get(b'z', 5), Answer::Value(b'3')),
];

/// With one seq left.
const LAST: &[(Do, Answer)] = &[
    (Do::Put(b'a', b'1', 5), Answer::Rolled(LAST_SEQ)),
    (Do::Get(b'a', 5), Answer::Value(b'1')),
    (Do::Put(b'a', b'2', 5), Answer::Refused(PutError::FullSeq)),
    (Do::Delete(b'a'), Answer::Refused(PutError::FullSeq)),
    (Do::Delete(b'b'), Answer::Nothing),
];

/// With no file number left.
const NO_FILE: &[(Do, Answer)] = &[
    (Do::Put(b'a', b'1', 5), Answer::Refused(PutError::FullFiles)),
    (Do::Get(b'a', 5), Answer::Nothing),
];

fn key(rt: &impl Abort, alloc: Global, letter: u8) -> Key {
    Key::of(alloc, &[letter]).expect(rt, "memory")
}

fn nothing_loaded(alloc: Global, seq: u64, file: u32) -> Loaded
    ensures order { IsInOrder result }
    ensures rows { result.rows.items ≡ [] }
{
    Loaded {
        keydir: Keydir::new(alloc),
        rows: Vec::new(alloc),
        report: Report {
            torn: Vec::new(alloc),
            hints: Vec::new(alloc),
            odd: Vec::new(alloc),
            hinted: 0,
            scanned: 0,
        },
        last_seq: Seq(seq.min(LAST_SEQ)),
        last_file: FileId(file),
    }
}

// A disk on which this call fails, and all calls after so many do.
fn disk(
    rt: &impl Abort,
    alloc: Global,
    fails: Option<(u64, u64)>,
    calls: u64,
    effect: u64,
) -> MemDisk
    ensures { told_by result ≡ nothing_told }
{
    let mut disk = MemDisk::new(alloc);
    if let Some((nth, effect)) = fails {
        disk.fail(nth, effect).expect(rt, "memory");
    }
    disk.fuse(calls, effect);
    disk
}

fn started(alloc: Global, disk: MemDisk, begin: Begin) -> Store<MemDisk>
    requires { told_by disk ≡ nothing_told }
{
    let settings = Settings {
        max_file: begin.max_file,
        ttl: begin.ttl,
        ..Settings::plain()
    };
    let loaded = nothing_loaded(alloc, begin.seq, begin.file);
    Store::start(alloc, disk, loaded, settings)
}

fn written(answer: Result<Option<Stored>, PutError>) -> Answer {
    match answer {
        Ok(None) => Answer::Nothing,
        Ok(Some(stored)) if stored.rolled => Answer::Rolled(stored.seq.0),
        Ok(Some(stored)) => Answer::Seq(stored.seq.0),
        Err(refused) => Answer::Refused(refused),
    }
}

fn put(
    rt: &impl Abort,
    alloc: Global,
    store: &mut Store<MemDisk>,
    letter: u8,
    value: &[u8],
    now: u32,
) -> Answer {
    let prepared = Prepared::new(alloc, key(rt, alloc, letter), value).expect(rt, "prepared");
    written(store.put(prepared, Moment(now)).map(Some))
}

fn first(bytes: &[u8]) -> u8 {
    match bytes.first() {
        Some(byte) => *byte,
        None => 0,
    }
}

// The first byte of the value of a record that was lent.
fn value<V: View + Drop>(rt: &impl Abort, alloc: Global, loan: Loan<V>) -> u8
    requires { loan.rest ≡ loan.size }
{
    let mut loan = loan;
    let mut bytes = vec![in alloc; 0u8; loan.size()].expect(rt, "memory");
    loan.read(&mut bytes).expect(rt, "read");
    first(&bytes[loan.value_at()..])
}

fn get(rt: &impl Abort, alloc: Global, store: &mut Store<MemDisk>, letter: u8, now: u32) -> Answer {
    match store
        .locate(&key(rt, alloc, letter), Moment(now))
        .expect(rt, "located")
    {
        None => Answer::Nothing,
        Some(loan) => Answer::Value(value(rt, alloc, loan)),
    }
}

fn next(rt: &impl Abort, alloc: Global, store: &mut Store<MemDisk>, slot: u8) -> Answer {
    match store.fold_next(0, slot) {
        Ok(None) => Answer::Nothing,
        Ok(Some(row)) => {
            let Row2 { key, loan } = row;
            Answer::Pair(first(key.bytes()), value(rt, alloc, loan))
        }
        Err(FoldError::NoFold(slot)) => Answer::NoFold(slot),
        Err(_) => Answer::Refused(PutError::Disk),
    }
}

fn open(store: &mut Store<MemDisk>, who: u64) -> Answer {
    match store.fold_open(who, Moment(5)) {
        Ok(fold) => Answer::Fold(fold.slot, fold.epoch.0),
        Err(FullFolds) => Answer::Full,
    }
}

fn close(store: &mut Store<MemDisk>, who: u64, slot: u8) -> Answer {
    match store.fold_close(who, slot) {
        Ok(()) => Answer::Done,
        Err(NoFold(slot)) => Answer::NoFold(slot),
    }
}

fn sync(store: &mut Store<MemDisk>) -> Answer {
    match store.sync() {
        Ok(seq) => Answer::Seq(seq.0),
        Err(_) => Answer::Refused(PutError::Disk),
    }
}

fn done(rt: &impl Abort, alloc: Global, store: &mut Store<MemDisk>, event: Do) -> Answer {
    match event {
        Do::Put(letter, value, now) => put(rt, alloc, store, letter, &[value], now),
        Do::Big(letter, len) => {
            let value = vec![in alloc; 7u8; len].expect(rt, "memory");
            put(rt, alloc, store, letter, &value, 5)
        }
        Do::Delete(letter) => written(store.delete(&key(rt, alloc, letter), Moment(5))),
        Do::Reap(letter, now) => written(store.reap(&key(rt, alloc, letter), Moment(now))),
        Do::Get(letter, now) => get(rt, alloc, store, letter, now),
        Do::Sync => sync(store),
        Do::Fold => open(store, 0),
        Do::Next(slot) => next(rt, alloc, store, slot),
        Do::Close(slot) => close(store, 0, slot),
    }
}

// The events answer so.
fn plays(rt: &impl Abort, alloc: Global, store: &mut Store<MemDisk>, events: &[(Do, Answer)]) {
    for (event, answer) in events {
        assert_eq!(rt; done(rt, alloc, store, *event), *answer, "{event:?}");
    }
}

// The events of a store that begins so.
fn starts(rt: &impl Abort, alloc: Global, begin: Begin, events: &[(Do, Answer)]) {
    let disk = disk(rt, alloc, begin.fails, 1000, 0);
    let mut store = started(alloc, disk, begin);
    plays(rt, alloc, &mut store, events);
}

#[test]
fn events_answer_as_the_history_says(rt: HostRuntime) {
    starts(&rt, rt.alloc(), EMPTY, DELETES);
    starts(&rt, rt.alloc(), EMPTY, ROLLS);
    starts(&rt, rt.alloc(), EMPTY, FOLDS);
    starts(&rt, rt.alloc(), Begin { ttl: 10, ..EMPTY }, ENDS);
    let fails = Some((3, 24));
    starts(&rt, rt.alloc(), Begin { fails, ..EMPTY }, FAILS);
}

#[test]
fn the_last_numbers_are_the_limit(rt: HostRuntime) {
    let seq = LAST_SEQ - 1;
    starts(&rt, rt.alloc(), Begin { seq, ..EMPTY }, LAST);
    let file = LAST_FILE;
    starts(&rt, rt.alloc(), Begin { file, ..EMPTY }, NO_FILE);
}

// 64 folds are open at once, and a slot that was closed is the next.
#[test]
fn folds_fill_the_slots(rt: HostRuntime) {
    let mut store = started(rt.alloc(), MemDisk::new(rt.alloc()), EMPTY);
    for slot in 0..64 {
        assert_eq!(rt; open(&mut store, u64::from(slot)), Answer::Fold(slot, 0));
    }
    assert_eq!(rt; open(&mut store, 3), Answer::Full);
    assert_eq!(rt; close(&mut store, 0, 7), Answer::NoFold(7));
    assert_eq!(rt; close(&mut store, 7, 7), Answer::Done);
    assert_eq!(rt; open(&mut store, 3), Answer::Fold(7, 0));
}

const COUNTED: &[(Do, Answer)] = &[
    (Do::Put(b'a', b'1', 5), Answer::Rolled(1)),
    (Do::Put(b'a', b'2', 5), Answer::Seq(2)),
    (Do::Put(b'b', b'3', 5), Answer::Seq(3)),
    (Do::Delete(b'b'), Answer::Seq(4)),
];

#[test]
fn the_numbers_are_those_of_the_files(rt: HostRuntime) {
    let mut store = started(rt.alloc(), MemDisk::new(rt.alloc()), EMPTY);
    plays(&rt, rt.alloc(), &mut store, COUNTED);
    let stat = store.stat();
    assert_eq!(rt; (stat.total, stat.live), (95, 24));
    assert_eq!(rt; (stat.keys, stat.files), (1, 1));
    assert_eq!(rt; store.sweep(0, 10).dropped, 1);
    assert_eq!(rt; store.stat().keys, 1);
    assert!(rt; !store.merge_due());
}

// Adds the writes at the front of these bytes: of each 1000 times its seq and its key's byte.
fn read_writes(rt: &impl Abort, alloc: Global, bytes: &[u8], found: &mut Vec<u64>) {
    let mut rest = bytes;
    for _record in 0..8 {
        let Ok(decoded) = decode(alloc, rest) else {
            return;
        };
        let seq = decoded.write.seq.0.saturating_mul(1000);
        let letter = u64::from(first(decoded.write.key.bytes()));
        found.push(seq.saturating_add(letter)).expect(rt, "memory");
        rest = rest.get(decoded.size as usize..).unwrap_or(&[]);
    }
}

// The writes that the data files hold, from the first on.
fn read_image(rt: &impl Abort, alloc: Global, disk: &MemDisk) -> Vec<u64> {
    let mut found = Vec::new(alloc);
    for id in 1..4 {
        let name = Name {
            id,
            kind: Kind::Main,
        };
        read_writes(rt, alloc, disk.bytes(name).unwrap_or(&[]), &mut found);
    }
    found
}

// Events that a crash cuts off, and what it may leave of their writes: of each 1000 times its seq and
// its key's byte.
const ROLLING: &[Do] = &[
    Do::Big(b'a', 2025),
    Do::Sync,
    Do::Big(b'b', 2025),
    Do::Big(b'c', 2025),
];

const LEFT_OF_ROLLING: &[&[u64]] = &[&[], &[1097], &[1097, 2098], &[1097, 2098, 3099]];

// The fourth disk call fails, so the write of b; that of c has its seq.
const FAILING: &[Do] = &[
    Do::Put(b'a', b'1', 5),
    Do::Sync,
    Do::Put(b'b', b'2', 5),
    Do::Put(b'c', b'3', 5),
];

const LEFT_OF_FAILING: &[&[u64]] = &[&[], &[1097], &[1097, 2098], &[1097, 2099]];

// Runs the events, and gives whether the sync answered.
fn runs(rt: &impl Abort, alloc: Global, store: &mut Store<MemDisk>, events: &[Do]) -> bool {
    let mut synced = false;
    for event in events {
        let answer = done(rt, alloc, store, *event);
        if *event == Do::Sync {
            synced = answer == Answer::Seq(1);
        }
    }
    synced
}

// Whether this is one of what may be left, and has the first write where it was synced.
fn is_allowed(found: &[u64], synced: bool, left: &[&[u64]]) -> bool {
    (!synced || found.first() == Some(&1097)) && left.iter().any(|writes| *writes == found)
}

// Of events over such a disk a crash leaves what it may.
fn cuts_off(
    rt: &impl Abort,
    alloc: Global,
    disk: MemDisk,
    keep: Option<u64>,
    events: &[Do],
    left: &[&[u64]],
) -> bool
    requires { told_by disk ≡ nothing_told }
{
    let mut store = started(alloc, disk, EMPTY);
    let synced = runs(rt, alloc, &mut store, events);
    let choice = Choice {
        keep,
        flips: Vec::new(alloc),
    };
    let disk = store.close().crash(&choice).expect(rt, "memory");
    is_allowed(&read_image(rt, alloc, &disk), synced, left)
}

// Each call of the disk is the last one, not done at all or done in part.
fn stops_each_call(
    rt: &impl Abort,
    alloc: Global,
    fails: Option<(u64, u64)>,
    events: &[Do],
    left: &[&[u64]],
) {
    for calls in 0..12 {
        for effect in [0, 1, 24] {
            for keep in [None, Some(0), Some(24)] {
                let disk = disk(rt, alloc, fails, calls, effect);
                let holds = cuts_off(rt, alloc, disk, keep, events, left);
                assert!(rt; holds, "{calls} {effect} {keep:?}");
            }
        }
    }
}

#[test]
fn a_crash_leaves_a_prefix(rt: HostRuntime) {
    stops_each_call(&rt, rt.alloc(), None, ROLLING, LEFT_OF_ROLLING);
    stops_each_call(&rt, rt.alloc(), Some((4, 24)), FAILING, LEFT_OF_FAILING);
}
