//! The worked rows of `run`, over a disk and streams in memory.
ghost use Rattle.std.specs.Prelude.{◌≤◌};
ghost use Rattle.bk_load.specs.Tidying.{NoneLent};
ghost use Rattle.bk_memdisk.specs.Disk.{told_by};

use crate::run::{Ended, run};
use bk_base::{Kind, Moment, Name, Status};
use bk_load::synced_lends_nothing;
use bk_memdisk::{Choice, ListClock, MemDisk, MemSink, MemSource};
use bk_progress::Silent;
use std::alloc::Global;
use std::process::Abort;

/// What a run is given and what it is to write, its status, and the length of its data file, 0 for none.
type Row = (&'static str, &'static str, Status, usize);

const ROWS: &[Row] = &[
    ("", "", Status::Done, 0),
    (
        "PUT 1 1\na1\nGET 1\na\n",
        "OK 1\nVALUE 1\n1\n",
        Status::Done,
        24,
    ),
    (
        "PUT 1 0\na\nGET 1\na\nDEL 1\na\nGET 1\na\n",
        "OK 1\nVALUE 0\n\nOK 2\nNONE\n",
        Status::Done,
        46,
    ),
    ("DEL 1\na\n", "NONE\n", Status::Done, 0),
    (
        "PUT 1 1\na1\nDEL 1\na\nDEL 1\na\n",
        "OK 1\nOK 2\nNONE\n",
        Status::Done,
        47,
    ),
    ("PUT 65536 0\n", "SYNTAX 0\n", Status::Syntax, 0),
    ("GET 1\na\nGET 0", "NONE\nSYNTAX 8\n", Status::Syntax, 0),
    ("PUT 1 16777217\n", "SYNTAX 0\n", Status::Syntax, 0),
    ("PUT 1 5\nabc", "SYNTAX 0\n", Status::Syntax, 0),
    (
        "PUT 1 1\na1\nSTAT\nSYNC\nKEYS\nFOLD\nQUIT\nGET 1\na\n",
        "OK 1\nSTAT 1 1 24 24\nSYNCED 1\nKEY 1\na\nEND 1\nPAIR 1 1\na1\nEND 1\nBYE\n",
        Status::Done,
        24,
    ),
];

const DATA_FILE: Name = Name {
    id: 1,
    kind: Kind::Main,
};

/// What a run left.
#[derive(Drop)]
struct Left {
    status: Status,
    output: Vec<u8>,
    disk: MemDisk,
}

impl Left {
    // The bytes of the data file, none where there is no file.
    fn data(&self) -> &[u8] {
        self.disk.bytes(DATA_FILE).unwrap_or(&[])
    }

    // The run wrote so and ended so.
    fn is(self, rt: &impl Abort, output: &[u8], status: Status) {
        assert_eq!(rt; (self.output.as_slice(), self.status), (output, status));
    }
}

const PIPE: &[&str] = &["pipe", "d"];

const CHECK: &[&str] = &["check", "d"];

const GET: &[u8] = b"GET 1\na\n";

// These words as a program has them.
fn words_of(rt: &impl Abort, alloc: Global, texts: &[&str]) -> Vec<String> {
    let mut words = Vec::new(alloc);
    for text in texts {
        let word = String::from_str(alloc, text).expect(rt, "memory");
        words.push(word).expect(rt, "memory");
    }
    words
}

// A clock with 5 as each moment.
fn at_five(rt: &impl Abort, alloc: Global) -> ListClock {
    let mut moments = Vec::new(alloc);
    moments.push(Moment(5)).expect(rt, "memory");
    ListClock::new(moments)
}

// A source that gives so many of these bytes at a read at most.
fn source_of(rt: &impl Abort, alloc: Global, input: &[u8], most: usize) -> MemSource
    requires { 1 ≤ most }
{
    MemSource::new(input.to_vec(alloc).expect(rt, "memory"), None, most)
}

// A sink that fails at this write.
fn sink_of(rt: &impl Abort, alloc: Global, fails: Option<u64>) -> MemSink {
    MemSink::new(alloc, 1_000, fails).expect(rt, "memory")
}

// Runs these words over this disk.
fn run_of(
    rt: &impl Abort,
    alloc: Global,
    texts: &[&str],
    disk: MemDisk,
    mut source: MemSource,
    mut sink: MemSink,
) -> Left
    requires { NoneLent (told_by disk).fronts }
{
    let words = words_of(rt, alloc, texts);
    let mut clock = at_five(rt, alloc);
    let Ended { disk, status } = run(
        alloc,
        &words,
        disk,
        &mut source,
        &mut sink,
        &mut clock,
        &mut Silent,
    );
    let output = sink.bytes().to_vec(alloc).expect(rt, "memory");
    Left {
        status,
        output,
        disk,
    }
}

// Runs `pipe d` over this disk, with this input.
fn piped(rt: &impl Abort, alloc: Global, disk: MemDisk, input: &[u8]) -> Left
    requires { NoneLent (told_by disk).fronts }
{
    let source = source_of(rt, alloc, input, 1_000);
    let sink = sink_of(rt, alloc, None);
    run_of(rt, alloc, PIPE, disk, source, sink)
}

// The same over an empty disk, with so many bytes at a read at most.
fn answered(rt: &impl Abort, alloc: Global, input: &[u8], most: usize) -> Left
    requires { 1 ≤ most }
{
    let source = source_of(rt, alloc, input, most);
    let sink = sink_of(rt, alloc, None);
    run_of(rt, alloc, PIPE, MemDisk::new(alloc), source, sink)
}

// Runs these words over this disk, with no input and a sink that fails at this write.
fn commanded(
    rt: &impl Abort,
    alloc: Global,
    texts: &[&str],
    disk: MemDisk,
    sink_fails: Option<u64>,
) -> Left
    requires { NoneLent (told_by disk).fronts }
{
    let source = source_of(rt, alloc, b"", 1);
    let sink = sink_of(rt, alloc, sink_fails);
    run_of(rt, alloc, texts, disk, source, sink)
}

// An empty disk whose nth call fails.
fn failing_disk(rt: &impl Abort, alloc: Global, nth: u64) -> MemDisk
    ensures { NoneLent (told_by result).fronts }
{
    let mut disk = MemDisk::new(alloc);
    disk.fail(nth, 0).expect(rt, "memory");
    disk
}

// A disk with one file.
fn with_file(rt: &impl Abort, alloc: Global, name: Name, bytes: &[u8]) -> MemDisk
    ensures { NoneLent (told_by result).fronts }
{
    let mut disk = MemDisk::new(alloc);
    disk.place(name, bytes).expect(rt, "memory");
    disk
}

// A run of this row, of which a read takes 7 bytes at most.
fn shows(rt: &impl Abort, alloc: Global, row: Row) {
    let (input, output, status, len) = row;
    let left = answered(rt, alloc, input.as_bytes(), 7);
    assert!(rt; left.data().len() == len, "{input}");
    left.is(rt, output.as_bytes(), status);
}

#[test]
fn rows(rt: HostRuntime) {
    for row in ROWS {
        shows(&rt, rt.alloc(), *row);
    }
}

/// The record of `a` with the value `1` at moment 5: its checksum is zlib's.
const RECORD: &[u8] = &[
    0xaf, 0xf4, 0x43, 0xc2, 0, 0, 0, 5, 0, 1, 0, 0, 0, 1, 0, 0, 0, 0, 0, 0, 0, 1, b'a', b'1',
];

/// The record of `b` with the value `2`, behind that of `a`.
const SECOND: &[u8] = &[
    0x1f, 0x96, 0xff, 0xe2, 0, 0, 0, 5, 0, 1, 0, 0, 0, 1, 0, 0, 0, 0, 0, 0, 0, 2, b'b', b'2',
];

// A disk whose data file holds these bytes, one behind the other.
fn with_data(rt: &impl Abort, alloc: Global, first: &[u8], second: &[u8]) -> MemDisk
    ensures { NoneLent (told_by result).fronts }
{
    let mut bytes = first.to_vec(alloc).expect(rt, "memory");
    bytes.extend_from_slice(second).expect(rt, "memory");
    with_file(rt, alloc, DATA_FILE, &bytes)
}

#[test]
fn data_file(rt: HostRuntime) {
    let left = answered(&rt, rt.alloc(), b"PUT 1 1\na1\n", 1);
    assert_eq!(rt; left.data(), RECORD);
}

// A put of this header, and a key and a value of so many bytes together.
fn large_put(rt: &impl Abort, alloc: Global, header: &str, len: usize) -> Vec<u8> {
    let mut text = header.as_bytes().to_vec(alloc).expect(rt, "memory");
    let body: Vec<u8> = vec![in alloc; b'x'; len].expect(rt, "memory");
    text.extend_from_slice(&body).expect(rt, "memory");
    text.push(b'\n').expect(rt, "memory");
    text
}

// A put of so many bytes is answered.
fn takes_large_put(rt: &impl Abort, alloc: Global, header: &str, len: usize) {
    let text = large_put(rt, alloc, header, len);
    let left = answered(rt, alloc, &text, 65_536);
    left.is(rt, b"OK 1\n", Status::Done);
}

#[test]
fn largest_key(rt: HostRuntime) {
    takes_large_put(&rt, rt.alloc(), "PUT 65535 0\n", 65_535);
}

#[test]
fn largest_value(rt: HostRuntime) {
    takes_large_put(&rt, rt.alloc(), "PUT 1 16777216\n", 16_777_217);
}

/// Words that are no command's.
const NO_WORDS: &[&[&str]] = &[
    &["pipe"],
    &["check", ""],
    &["list", "d", "d"],
    &["fill", "d"],
    &["fill", "d", "01"],
    &["fill", "d", "+1"],
    &["fill", "d", ""],
    &["fill", "d", "10000001"],
    &["fill", "", "1"],
    &["fill", "d", "1", "1"],
    &["frob", "d"],
    &["Pipe", "d"],
    &[],
];

// These words are refused, and nothing is written.
fn refuses(rt: &impl Abort, alloc: Global, texts: &[&str]) {
    let source = source_of(rt, alloc, GET, 1_000);
    let sink = sink_of(rt, alloc, None);
    let left = run_of(rt, alloc, texts, MemDisk::new(alloc), source, sink);
    left.is(rt, b"", Status::Words);
}

#[test]
fn words_that_are_refused(rt: HostRuntime) {
    for texts in NO_WORDS {
        refuses(&rt, rt.alloc(), *texts);
    }
}

#[test]
fn failing_view(rt: HostRuntime) {
    let mut disk = MemDisk::new(rt.alloc());
    disk.fail_view(1).expect(&rt, "memory");
    let left = piped(&rt, rt.alloc(), disk, b"PUT 1 1\na1\nGET 1\na\nGET 1\na\n");
    left.is(&rt, b"OK 1\nREAD\nVALUE 1\n1\n", Status::Done);
}

/// The last sync is the call of the disk with this number, behind those of the opening and of a put.
const LAST_SYNC: u64 = 7;

#[test]
fn failing_last_sync(rt: HostRuntime) {
    let disk = failing_disk(&rt, rt.alloc(), LAST_SYNC);
    let left = piped(&rt, rt.alloc(), disk, b"PUT 1 1\na1\n");
    left.is(&rt, b"OK 1\n", Status::Disk);
}

#[test]
fn failing_source(rt: HostRuntime) {
    let bytes = GET.to_vec(rt.alloc()).expect(&rt, "memory");
    let source = MemSource::new(bytes, Some(2), 1_000);
    let sink = sink_of(&rt, rt.alloc(), None);
    let left = run_of(
        &rt,
        rt.alloc(),
        PIPE,
        MemDisk::new(rt.alloc()),
        source,
        sink,
    );
    left.is(&rt, b"NONE\n", Status::Source);
}

#[test]
fn failing_sink(rt: HostRuntime) {
    let source = source_of(&rt, rt.alloc(), GET, 1_000);
    let sink = sink_of(&rt, rt.alloc(), Some(1));
    let left = run_of(
        &rt,
        rt.alloc(),
        PIPE,
        MemDisk::new(rt.alloc()),
        source,
        sink,
    );
    left.is(&rt, b"", Status::Sink);
}

#[test]
fn failing_listing(rt: HostRuntime) {
    let left = piped(&rt, rt.alloc(), failing_disk(&rt, rt.alloc(), 1), GET);
    left.is(&rt, b"", Status::Disk);
}

#[test]
fn records_that_were_there(rt: HostRuntime) {
    let disk = with_data(&rt, rt.alloc(), RECORD, SECOND);
    let left = piped(&rt, rt.alloc(), disk, b"GET 1\na\nGET 1\nb\nPUT 1 1\na3\n");
    left.is(&rt, b"VALUE 1\n1\nVALUE 1\n2\nOK 3\n", Status::Done);
}

#[test]
fn failing_recovery(rt: HostRuntime) {
    let mut disk = with_file(&rt, rt.alloc(), DATA_FILE, RECORD);
    disk.fail_view(1).expect(&rt, "memory");
    let left = piped(&rt, rt.alloc(), disk, GET);
    left.is(&rt, b"", Status::Disk);
}

#[test]
fn bad_settings(rt: HostRuntime) {
    let name = Name {
        id: 0,
        kind: Kind::Settings,
    };
    let disk = with_file(&rt, rt.alloc(), name, b"max_file = 100");
    let left = piped(&rt, rt.alloc(), disk, GET);
    left.is(&rt, b"", Status::Settings);
}

// What a run of two puts leaves whose last sync fails.
fn two_puts(rt: &impl Abort, alloc: Global) -> MemDisk {
    let disk = failing_disk(rt, alloc, LAST_SYNC + 1);
    piped(rt, alloc, disk, b"PUT 1 1\na1\nPUT 1 1\nb2\n").disk
}

// What a crash leaves of the disk: of the last record some bytes.
fn crashed(rt: &impl Abort, alloc: Global, disk: MemDisk) -> MemDisk
    ensures { NoneLent (told_by result).fronts }
{
    let choice = Choice {
        keep: Some(30),
        flips: Vec::new(alloc),
    };
    synced_lends_nothing();
    disk.crash(&choice).expect(rt, "memory")
}

#[test]
fn a_run_after_a_crash(rt: HostRuntime) {
    let disk = crashed(&rt, rt.alloc(), two_puts(&rt, rt.alloc()));
    let left = piped(&rt, rt.alloc(), disk, b"GET 1\na\nGET 1\nb\n");
    left.is(&rt, b"VALUE 1\n1\nNONE\n", Status::Done);
}

#[test]
fn a_check_of_an_empty_directory(rt: HostRuntime) {
    let left = commanded(&rt, rt.alloc(), CHECK, MemDisk::new(rt.alloc()), None);
    left.is(&rt, b"CHECKED 0 0\n", Status::Done);
}

#[test]
fn a_check_of_a_torn_file(rt: HostRuntime) {
    let disk = with_data(&rt, rt.alloc(), RECORD, &[0; 48]);
    let left = commanded(&rt, rt.alloc(), CHECK, disk, None);
    let said = b"FILE 1 72 24 24\nTORN 1 24 48\nCHECKED 1 1\n";
    left.is(&rt, said, Status::Done);
}

#[test]
fn a_check_whose_sink_fails(rt: HostRuntime) {
    let left = commanded(&rt, rt.alloc(), CHECK, MemDisk::new(rt.alloc()), Some(1));
    left.is(&rt, b"", Status::Sink);
}

#[test]
fn a_check_whose_disk_fails(rt: HostRuntime) {
    let disk = failing_disk(&rt, rt.alloc(), 2);
    let left = commanded(&rt, rt.alloc(), CHECK, disk, None);
    left.is(&rt, b"", Status::Disk);
}

#[test]
fn a_fill(rt: HostRuntime) {
    let disk = MemDisk::new(rt.alloc());
    let left = commanded(&rt, rt.alloc(), &["fill", "d", "3"], disk, None);
    left.is(&rt, b"FILLED 3 3 75\n", Status::Done);
}

#[test]
fn a_fill_of_no_pairs(rt: HostRuntime) {
    let disk = MemDisk::new(rt.alloc());
    let left = commanded(&rt, rt.alloc(), &["fill", "d", "0"], disk, None);
    left.is(&rt, b"FILLED 0 0 0\n", Status::Done);
}

#[test]
fn a_list(rt: HostRuntime) {
    let disk = with_data(&rt, rt.alloc(), SECOND, RECORD);
    let left = commanded(&rt, rt.alloc(), &["list", "d"], disk, None);
    left.is(&rt, b"PAIR 1 1\na1\nPAIR 1 1\nb2\nEND 2\n", Status::Done);
}

#[test]
fn a_drill(rt: HostRuntime) {
    let script = b"a put x 1\nstop all\na get x\na read\n";
    let source = source_of(&rt, rt.alloc(), script, 7);
    let sink = sink_of(&rt, rt.alloc(), None);
    let disk = MemDisk::new(rt.alloc());
    let left = run_of(&rt, rt.alloc(), &["drill"], disk, source, sink);
    left.is(&rt, b"OK 1\nREOPENED 1 1 0\nLOAN\nVALUE 1\n", Status::Done);
}
