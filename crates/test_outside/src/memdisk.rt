//! What the disk, the streams and the clock do beyond their clauses.
ghost use Rattle.std.specs.Prelude.{IsTrue};
ghost use Rattle.bk_disk.specs.Told.{IsAbsent};

use bk_base::{Kind, Moment, Name};
use bk_disk::{Clock, Disk, DiskError, Failed, Sink, Source};
use bk_memdisk::{Choice, ListClock, MemDisk, MemSink, MemSource};
use std::alloc::Global;
use std::process::Abort;

// Reads by the bound, with these answers. Gives the bytes that the last reads left.
fn reads<S: Source>(rt: &impl Abort, source: &mut S, answers: &[Result<usize, Failed>]) -> [u8; 8] {
    let mut into = [0; 8];
    for answer in answers {
        assert_eq!(rt; source.read(&mut into), *answer);
    }
    into
}

// Writes by the bound, with these answers.
fn writes<K: Sink>(rt: &impl Abort, sink: &mut K, rows: &[(&[u8], Result<usize, Failed>)]) {
    for (piece, answer) in rows {
        assert_eq!(rt; sink.write(piece), *answer);
    }
}

// Asks for the moment by the bound, with these answers.
fn ticks<C: Clock>(rt: &impl Abort, clock: &mut C, moments: &[Moment]) {
    for moment in moments {
        assert_eq!(rt; clock.now(), *moment);
    }
}

#[test]
fn a_source_gives_pieces_and_fails_once(rt: HostRuntime) {
    let bytes = b"abcde".to_vec(rt.alloc()).expect(&rt, "memory");
    let mut source = MemSource::new(bytes, Some(2), 3);
    let answers = [Ok(3), Err(Failed), Ok(2), Ok(0)];
    let into = reads(&rt, &mut source, &answers);
    assert_eq!(rt; &into[..3], b"dec".as_slice());
}

#[test]
fn a_sink_takes_its_room(rt: HostRuntime) {
    let mut sink = MemSink::new(rt.alloc(), 4, Some(2)).expect(&rt, "memory");
    let rows = [
        (b"abc".as_slice(), Ok(3)),
        (b"de".as_slice(), Err(Failed)),
        (b"de".as_slice(), Ok(1)),
        (b"e".as_slice(), Err(Failed)),
    ];
    writes(&rt, &mut sink, &rows);
    assert_eq!(rt; sink.bytes(), b"abcd".as_slice());
}

#[test]
fn a_clock_keeps_its_last_moment(rt: HostRuntime) {
    let moments = [Moment(5), Moment(9)].to_vec(rt.alloc());
    let mut clock = ListClock::new(moments.expect(&rt, "memory"));
    ticks(&rt, &mut clock, &[Moment(5), Moment(9), Moment(9)]);
}

#[test]
fn a_clock_of_no_moments_stands_at_the_first(rt: HostRuntime) {
    let mut clock = ListClock::new(Vec::new(rt.alloc()));
    ticks(&rt, &mut clock, &[Moment(0)]);
}

const FIRST: Name = Name {
    id: 1,
    kind: Kind::Main,
};

// Lists, and removes all that is there.
fn empties<D: Disk>(disk: &mut D) -> Result<(), DiskError> {
    for file in disk.list()? {
        disk.remove(file.name)?;
    }
    Ok(())
}

// The same by the bound, with these answers.
fn empties_so<D: Disk>(rt: &impl Abort, disk: &mut D, answers: &[Result<(), DiskError>]) {
    for answer in answers {
        assert_eq!(rt; empties(disk), *answer);
    }
}

// A disk with one file, on which the first call fails undone, and the third in its middle.
fn failing(rt: &impl Abort, alloc: Global) -> MemDisk {
    let mut disk = MemDisk::new(alloc);
    disk.place(FIRST, b"abc").expect(rt, "memory");
    disk.fail(1, 0).expect(rt, "memory");
    disk.fail(3, 1).expect(rt, "memory");
    disk
}

#[test]
fn calls_fail_as_chosen(rt: HostRuntime) {
    let mut disk = failing(&rt, rt.alloc());
    empties_so(&rt, &mut disk, &[Err(DiskError::Failed)]);
    assert_eq!(rt; disk.bytes(FIRST), Some(b"abc".as_slice()));
    empties_so(&rt, &mut disk, &[Err(DiskError::Failed)]);
    assert_eq!(rt; disk.bytes(FIRST), None);
}

#[test]
fn all_calls_fail_behind_the_last_one(rt: HostRuntime) {
    let mut disk = MemDisk::new(rt.alloc());
    disk.fuse(1, 0);
    let failed = Err(DiskError::Failed);
    empties_so(&rt, &mut disk, &[Ok(()), failed, failed]);
}

// A new file of two appends, of which the second isn't synced.
fn write<D: Disk>(disk: &mut D, name: Name, synced: &[u8], unsynced: &[u8]) -> Result<(), DiskError>
    requires { IsTrue D.tells → IsAbsent name (D.shown disk.old).told.image }
{
    disk.create(name)?;
    disk.ready(name, synced.len() as u64)?;
    disk.append(name, synced)?;
    disk.sync(name)?;
    disk.ready(name, unsynced.len() as u64)?;
    disk.append(name, unsynced)?;
    Ok(())
}

// The disk that a put of `cde` behind the synced `ab` leaves.
fn written(rt: &impl Abort, alloc: Global) -> MemDisk {
    let mut disk = MemDisk::new(alloc);
    write(&mut disk, FIRST, b"ab", b"cde").expect(rt, "written");
    disk
}

// A crash with this choice leaves these bytes of it.
fn leaves(rt: &impl Abort, alloc: Global, keep: Option<u64>, flips: &[u64], left: &[u8]) {
    let flips = flips.to_vec(alloc).expect(rt, "memory");
    let choice = Choice { keep, flips };
    let after = written(rt, alloc).crash(&choice).expect(rt, "memory");
    assert_eq!(rt; after.bytes(FIRST), Some(left));
}

#[test]
fn a_crash_leaves_what_is_chosen(rt: HostRuntime) {
    leaves(&rt, rt.alloc(), None, &[9], b"abcde");
    leaves(&rt, rt.alloc(), Some(1), &[0, 0, 2], b"abb");
    leaves(&rt, rt.alloc(), Some(0), &[0], b"ab");
    leaves(&rt, rt.alloc(), Some(7), &[2], b"abcdd");
}
