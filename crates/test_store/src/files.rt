//! Files over a disk in memory: where they roll, what a repair leaves, and what a crash leaves after
//! each call of the disk.
ghost use Rattle.std.specs.Prelude.{◌≡◌, false, IsTrue, OnOk};
ghost use Rattle.bk_disk.specs.Told.{nothing_told};
ghost use Rattle.bk_files.specs.Files.{IsConsistent, is_due, is_torn};
ghost use Rattle.bk_files.specs.Rows.{IsRecord};
ghost use Rattle.bk_memdisk.specs.Disk.{told_by};

use bk_base::{Body, FileId, Key, Kind, Moment, Name, Row, RowState, Seq, Value, Write};
use bk_disk::Disk;
use bk_files::{Files, RollError};
use bk_memdisk::{Choice, MemDisk};
use bk_record::encode;
use std::alloc::Global;
use std::process::Abort;

const FIRST: Name = Name {
    id: 1,
    kind: Kind::Main,
};

const SECOND: Name = Name {
    id: 2,
    kind: Kind::Main,
};

// A record of 23 bytes and a value of this length.
fn record(rt: &impl Abort, alloc: Global, value: usize) -> Vec<u8>
    ensures { IsRecord result.items }
{
    let key = Key::of(alloc, b"k").expect(rt, "key");
    let bytes = vec![in alloc; 7u8; value].expect(rt, "memory");
    let write = Write {
        seq: Seq(1),
        moment: Moment(0),
        key,
        body: Body::Put(Value::new(bytes).expect(rt, "value")),
    };
    let mut text = Vec::new(alloc);
    encode(&write, &mut text).expect(rt, "memory");
    text
}

// An empty disk on which this call fails, and all calls after so many do.
fn disk(
    rt: &impl Abort,
    alloc: Global,
    fails: Option<(u64, u64)>,
    calls: u64,
    effect: u64,
) -> MemDisk
    ensures { told_by result ≡ nothing_told }
{
    let mut disk = MemDisk::new(alloc);
    if let Some((nth, effect)) = fails {
        disk.fail(nth, effect).expect(rt, "memory");
    }
    disk.fuse(calls, effect);
    disk
}

// The files of an empty disk.
fn begun(alloc: Global, disk: MemDisk) -> Files<MemDisk>
    requires { told_by disk ≡ nothing_told }
    ensures { IsConsistent result }
{
    Files::new(disk, Vec::new(alloc), FileId(0), 4096)
}

// Rolls, where the text needs a new file.
fn make_place<D: Disk>(files: &mut Files<D>, size: u32) -> Result<(), RollError>
    requires stands { IsTrue D.tells → IsConsistent files.old }
    requires whole { is_torn files.old ≡ false }
    ensures stands { IsTrue D.tells → IsConsistent files.new }
    ensures whole { OnOk result (is_torn files.new ≡ false) }
    ensures due { OnOk result (is_due size files.new ≡ false) }
{
    if files.due(size) {
        return files.roll();
    }
    Ok(())
}

// What a put does with its record.
fn put<D: Disk>(files: &mut Files<D>, text: &[u8]) -> Result<u64, RollError>
    requires stands { IsTrue D.tells → IsConsistent files.old }
    requires text { IsRecord text.now }
    ensures stands { IsTrue D.tells → IsConsistent files.new }
{
    let Ok(size) = u32::try_from(text.len()) else {
        return Err(RollError::Memory);
    };
    files.repair()?;
    make_place(files, size)?;
    files.ready(size)?;
    Ok(files.append(text)?)
}

fn made(id: u32, len: u64, state: RowState) -> Row {
    Row {
        len,
        total: len,
        live: 0,
        refs: 0,
        id: FileId(id),
        state,
    }
}

// The files as they stand.
fn assert_rows(rt: &impl Abort, files: &Files<MemDisk>, rows: &[Row]) {
    assert_eq!(*rt; files.rows(), rows);
}

// Puts the text, whose record stands at this place.
fn put_at(rt: &impl Abort, files: &mut Files<MemDisk>, text: &[u8], at: u64)
    requires { IsConsistent files.old × IsRecord text.now }
    ensures { IsConsistent files.new }
{
    assert_eq!(*rt; put(files, text), Ok(at));
}

// A first record with such a value, and two plain ones, fill files of these lengths.
fn rolls(rt: &impl Abort, alloc: Global, value: usize, places: [u64; 3], rows: &[Row]) {
    let plain = record(rt, alloc, 2025);
    let mut files = begun(alloc, MemDisk::new(alloc));
    put_at(rt, &mut files, &record(rt, alloc, value), places[0]);
    put_at(rt, &mut files, &plain, places[1]);
    put_at(rt, &mut files, &plain, places[2]);
    assert_rows(rt, &files, rows);
}

#[test]
fn files_roll_past_their_limit(rt: HostRuntime) {
    let rows = [
        made(1, 4096, RowState::Sealed),
        made(2, 2048, RowState::Active),
    ];
    rolls(&rt, rt.alloc(), 2025, [0, 2048, 0], &rows);
}

#[test]
fn a_large_record_fills_a_file_alone(rt: HostRuntime) {
    let rows = [
        made(1, 10_000, RowState::Sealed),
        made(2, 4096, RowState::Active),
    ];
    rolls(&rt, rt.alloc(), 9977, [0, 0, 2048], &rows);
}

// Whether the first file shows so many bytes.
fn shows(files: &mut Files<MemDisk>, len: u64) -> bool
    requires { IsConsistent files.old }
    ensures { IsConsistent files.new }
{
    files.view(FileId(1), 0, len).is_ok()
}

// Files whose second record got 24 bytes through.
fn torn(rt: &impl Abort, alloc: Global, text: &[u8]) -> Files<MemDisk>
    requires { IsRecord text.now }
    ensures { IsConsistent result }
{
    let mut files = begun(alloc, disk(rt, alloc, Some((3, 24)), 1000, 0));
    put_at(rt, &mut files, text, 0);
    assert_eq!(*rt; put(&mut files, text), Err(RollError::Disk));
    files
}

#[test]
fn a_torn_record_is_no_part_of_its_file(rt: HostRuntime) {
    let text = record(&rt, rt.alloc(), 77);
    let mut files = torn(&rt, rt.alloc(), &text);
    assert!(rt; shows(&mut files, 124));
    assert!(rt; !shows(&mut files, 125));
    assert_rows(&rt, &files, &[made(1, 100, RowState::Active)]);
}

// How long the first file is once all is synced.
fn synced(rt: &impl Abort, files: Files<MemDisk>) -> Option<usize>
    requires { IsConsistent files }
{
    let mut files = files;
    files.sync().expect(rt, "synced");
    files.into_disk().bytes(FIRST).map(|bytes| bytes.len())
}

#[test]
fn a_failed_append_is_cut_away(rt: HostRuntime) {
    let text = record(&rt, rt.alloc(), 77);
    let mut files = torn(&rt, rt.alloc(), &text);
    put_at(&rt, &mut files, &text, 100);
    assert_eq!(rt; synced(&rt, files), Some(200));
}

// What was done before the put that a crash cuts off.
#[derive(Clone, Copy, Debug, PartialEq, Eq)]
enum Before {
    // A record was put and synced.
    Synced,
    // The records put fill the file.
    Full,
    // A record was put, and of the next one 24 bytes got through.
    Torn,
}

// The lengths of the two files.
type Lengths = (usize, Option<usize>);

// Before the put stand three calls of the disk. How many more are done, with what effect the next one
// fails, and then what a crash leaves: first where it keeps all bytes, and then where it keeps the
// synced ones alone. A record has 2,048 bytes.
const STOPS: [(Before, u64, u64, Lengths, Lengths); 20] = [
    (Before::Synced, 0, 0, (2048, None), (2048, None)),
    (Before::Synced, 0, 1, (2049, None), (2048, None)),
    (Before::Synced, 1, 0, (4096, None), (2048, None)),
    (Before::Synced, 1, 1, (4096, None), (2048, None)),
    (Before::Full, 0, 0, (4096, None), (0, None)),
    (Before::Full, 0, 1, (4096, None), (0, None)),
    (Before::Full, 1, 0, (4096, None), (4096, None)),
    (Before::Full, 1, 1, (4096, Some(0)), (4096, Some(0))),
    (Before::Full, 2, 0, (4096, Some(0)), (4096, Some(0))),
    (Before::Full, 2, 1, (4096, Some(1)), (4096, Some(0))),
    (Before::Full, 3, 0, (4096, Some(2048)), (4096, Some(0))),
    (Before::Full, 3, 1, (4096, Some(2048)), (4096, Some(0))),
    (Before::Torn, 0, 0, (2072, None), (0, None)),
    (Before::Torn, 0, 1, (2048, None), (0, None)),
    (Before::Torn, 1, 0, (2048, None), (0, None)),
    (Before::Torn, 1, 1, (2048, None), (0, None)),
    (Before::Torn, 2, 0, (2048, None), (2048, None)),
    (Before::Torn, 2, 1, (2049, None), (2048, None)),
    (Before::Torn, 3, 0, (4096, None), (2048, None)),
    (Before::Torn, 3, 1, (4096, None), (2048, None)),
];

// What was done before the put: of the records all are one text.
fn prepares(rt: &impl Abort, files: &mut Files<MemDisk>, before: Before, text: &[u8])
    requires { IsConsistent files.old × IsRecord text.now }
    ensures { IsConsistent files.new }
{
    put(files, text).expect(rt, "put");
    if before == Before::Synced {
        files.sync().expect(rt, "synced");
    } else {
        let _torn_or_done = put(files, text);
    }
}

// What a crash leaves of a put that this stop cuts off.
fn left(
    rt: &impl Abort,
    alloc: Global,
    stop: (Before, u64, u64),
    text: &[u8],
    keep: Option<u64>,
) -> MemDisk
    requires { IsRecord text.now }
{
    let (before, calls, effect) = stop;
    let fails = (before == Before::Torn).then_some((3, 24));
    let disk = disk(rt, alloc, fails, calls.saturating_add(3), effect);
    let mut files = begun(alloc, disk);
    prepares(rt, &mut files, before, text);
    let _cut_off = put(&mut files, text);
    let choice = Choice {
        keep,
        flips: Vec::new(alloc),
    };
    files.into_disk().crash(&choice).expect(rt, "memory")
}

// The text twice.
fn doubled(rt: &impl Abort, alloc: Global, text: &[u8]) -> Vec<u8> {
    let mut twice = text.to_vec(alloc).expect(rt, "memory");
    twice.extend_from_slice(text).expect(rt, "memory");
    twice
}

// The two files hold so many of these bytes.
fn assert_left(rt: &impl Abort, disk: &MemDisk, bytes: &[u8], lengths: Lengths) {
    let (first, second) = lengths;
    assert_eq!(*rt; disk.bytes(FIRST), bytes.get(..first));
    assert_eq!(*rt; disk.bytes(SECOND), second.and_then(|len| bytes.get(..len)));
}

#[test]
fn a_crash_leaves_what_was_done_or_synced(rt: HostRuntime) {
    let text = record(&rt, rt.alloc(), 2025);
    let twice = doubled(&rt, rt.alloc(), &text);
    for (before, calls, effect, done, synced) in STOPS {
        for (keep, lengths) in [(None, done), (Some(0), synced)] {
            let left = left(&rt, rt.alloc(), (before, calls, effect), &text, keep);
            assert_left(&rt, &left, &twice, lengths);
        }
    }
}
