//! A scan over a disk in memory: what it finds of a file that is whole, changed or cut.
ghost use Rattle.std.specs.Prelude.{◌≡◌, ◌+◌, ◌≤◌, ◌++◌, length, IsTrue};
ghost use Rattle.bk_disk.specs.Told.{range_of};
ghost use Rattle.bk_laws.specs.Record.{AreRecords, records_of};
ghost use Rattle.bk_files.specs.Scan.{IsTold};

use bk_base::{Body, FileId, Key, Kind, Moment, Name, Seq, Value, Write};
use bk_disk::{Disk, View};
use bk_files::{Scan, ScanError};
use bk_memdisk::MemDisk;
use bk_record::encode;
use std::alloc::Global;
use std::process::Abort;

const FILE: Name = Name {
    id: 1,
    kind: Kind::Main,
};

// Where a record begins and how long it is, and its seq.
type Place = (u64, u32, u64);

// The records of the file.
const RECORDS: &[Place] = &[(0, 24, 1), (24, 70_023, 2), (70_047, 23, 3)];

fn append(rt: &impl Abort, alloc: Global, text: &mut Vec<u8>, seq: u64, value: usize)
    requires { (1 ≤ seq) × (seq ≤ 3) }
{
    let bytes = vec![in alloc; 7u8; value].expect(rt, "memory");
    let write = Write {
        seq: Seq(seq),
        moment: Moment(5),
        key: Key::of(alloc, b"a").expect(rt, "memory"),
        body: Body::Put(Value::new(bytes).expect(rt, "a value")),
    };
    encode(&write, text).expect(rt, "memory");
}

fn text(rt: &impl Abort, alloc: Global) -> Vec<u8> {
    let mut text = Vec::new(alloc);
    append(rt, alloc, &mut text, 1, 1);
    append(rt, alloc, &mut text, 2, 70_000);
    append(rt, alloc, &mut text, 3, 0);
    text
}

// The first bytes of the records, so many.
fn cut(rt: &impl Abort, alloc: Global, len: usize) -> Vec<u8> {
    let mut text = text(rt, alloc);
    text.truncate(len);
    text
}

// A disk whose file has these bytes.
fn disk(rt: &impl Abort, alloc: Global, bytes: &[u8]) -> MemDisk {
    let mut disk = MemDisk::new(alloc);
    disk.place(FILE, bytes).expect(rt, "memory");
    disk
}

// The next record stands there.
fn finds<V: View>(rt: &impl Abort, scan: &mut Scan, view: &mut V, place: Place)
    requires { V.rest view.old ≡ scan.old.unread }
    ensures { V.rest view.new ≡ scan.new.unread }
{
    let next = scan.next(view).expect(rt, "read");
    let found = next.expect(rt, "a record");
    let (at, size, seq) = place;
    assert_eq!(*rt; (found.at, found.size), (at, size));
    assert_eq!(*rt; found.write.seq, Seq(seq));
}

// No record is next.
fn ends<V: View>(rt: &impl Abort, scan: &mut Scan, view: &mut V)
    requires { V.rest view.old ≡ scan.old.unread }
    ensures { V.rest view.new ≡ scan.new.unread }
{
    assert!(*rt; scan.next(view).expect(rt, "read").is_none());
}

// The records that a scan finds, and then none, twice.
fn finds_all<V: View>(rt: &impl Abort, scan: &mut Scan, view: &mut V, places: &[Place])
    requires { V.rest view.old ≡ scan.old.unread }
{
    for place in places {
        finds(rt, scan, view, *place);
    }
    ends(rt, scan, view);
    ends(rt, scan, view);
}

// Scans a file of these bytes: records stand there, and behind them ends what is whole.
fn scans(rt: &impl Abort, alloc: Global, bytes: &[u8], places: &[Place], end: u64) {
    let len = bytes.len() as u64;
    let mut disk = disk(rt, alloc, bytes);
    let mut view = disk.view(FILE, 0, len).expect(rt, "viewed");
    let mut scan = Scan::new(alloc, FileId(1), len);
    finds_all(rt, &mut scan, &mut view, places);
    assert_eq!(*rt; scan.place(), end);
}

// The next record stands there, by a look that takes no value.
fn finds_key<V: View>(rt: &impl Abort, scan: &mut Scan, view: &mut V, place: Place)
    requires { V.rest view.old ≡ scan.old.unread }
    ensures { V.rest view.new ≡ scan.new.unread }
{
    let next = scan.next_key(view).expect(rt, "read");
    let found = next.expect(rt, "a record");
    let (at, size, seq) = place;
    let version = found.version;
    assert_eq!(*rt; (version.at, version.size), (at, size));
    assert_eq!(*rt; (version.seq, version.file), (Seq(seq), FileId(1)));
    assert_eq!(*rt; found.key.bytes(), b"a".as_slice());
}

// The second and the third record, and then none.
fn goes_on<V: View>(rt: &impl Abort, scan: &mut Scan, view: &mut V)
    requires { V.rest view.old ≡ scan.old.unread }
{
    finds_key(rt, scan, view, (24, 70_023, 2));
    finds_key(rt, scan, view, (70_047, 23, 3));
    assert!(*rt; scan.next_key(view).expect(rt, "read").is_none());
}

// All that a scan finds from where it begins.
fn all_of<V: View>(rt: &impl Abort, scan: &mut Scan, alloc: Global, view: &mut V) -> Vec<Write>
    requires { V.rest view.old ≡ scan.old.unread }
    ensures writes { IsTold V.tells (V.left view.old) (V.rest view.old)
        → AreRecords (scan.old.held ++ V.left view.old) result.items }
    ensures end { IsTold V.tells (V.left view.old) (V.rest view.old)
        → scan.new.place ≡ scan.old.place + length (records_of result.items) }
{
    let mut writes = Vec::new(alloc);
    while let Some(found) = scan.next(view).expect(rt, "read") {
        writes.push(found.write).expect(rt, "memory");
    }
    writes
}

// All records of a file of any disk.
fn all_in<D: Disk>(rt: &impl Abort, disk: &mut D, alloc: Global, name: Name, len: u64) -> Vec<Write>
    ensures { IsTrue D.tells →
        AreRecords (range_of name 0 len (D.shown disk.old).told.image) result.items }
{
    let mut view = disk.view(name, 0, len).expect(rt, "viewed");
    let mut scan = Scan::new(alloc, FileId(name.id), len);
    all_of(rt, &mut scan, alloc, &mut view)
}

#[test]
fn whole_records_are_found(rt: HostRuntime) {
    let text = text(&rt, rt.alloc());
    scans(&rt, rt.alloc(), &text, RECORDS, 70_070);
}

#[test]
fn a_scan_goes_on_from_a_place(rt: HostRuntime) {
    let text = text(&rt, rt.alloc());
    let mut disk = disk(&rt, rt.alloc(), &text);
    let mut view = disk.view(FILE, 24, 70_046).expect(&rt, "viewed");
    let mut scan = Scan::from(rt.alloc(), FileId(1), 24, 70_070);
    goes_on(&rt, &mut scan, &mut view);
    assert_eq!(rt; scan.place(), 70_070);
}

#[test]
fn a_changed_record_ends_a_scan(rt: HostRuntime) {
    let mut text = text(&rt, rt.alloc());
    *text.get_mut(60_000).expect(&rt, "a byte") = 8;
    scans(&rt, rt.alloc(), &text, &[(0, 24, 1)], 24);
}

#[test]
fn a_cut_record_ends_a_scan(rt: HostRuntime) {
    let text = cut(&rt, rt.alloc(), 70_060);
    let whole = [(0, 24, 1), (24, 70_023, 2)];
    scans(&rt, rt.alloc(), &text, &whole, 70_047);
}

#[test]
fn less_than_a_record_holds_none(rt: HostRuntime) {
    let text = cut(&rt, rt.alloc(), 23);
    scans(&rt, rt.alloc(), &text, &[], 0);
}

// The first view of this disk fails.
fn failing(rt: &impl Abort, alloc: Global, bytes: &[u8]) -> MemDisk {
    let mut disk = disk(rt, alloc, bytes);
    disk.fail_view(1).expect(rt, "memory");
    disk
}

// A scan of the disk's file can't read its first record.
fn is_refused(rt: &impl Abort, alloc: Global, disk: &mut MemDisk, len: u64) {
    let mut view = disk.view(FILE, 0, len).expect(rt, "viewed");
    let mut scan = Scan::new(alloc, FileId(1), len);
    assert_eq!(*rt; scan.next(&mut view).err(), Some(ScanError::Read));
    assert_eq!(*rt; (scan.place(), scan.file()), (0, FileId(1)));
}

#[test]
fn a_read_that_fails_is_told(rt: HostRuntime) {
    let text = text(&rt, rt.alloc());
    let len = text.len() as u64;
    let mut disk = failing(&rt, rt.alloc(), &text);
    is_refused(&rt, rt.alloc(), &mut disk, len);
    let writes = all_in(&rt, &mut disk, rt.alloc(), FILE, len);
    assert_eq!(rt; writes.len(), 3);
}
