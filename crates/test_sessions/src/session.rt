//! Sessions over a store in memory: what they answer, and how they end.
ghost use Rattle.std.specs.Prelude.{◌≡◌, []};
ghost use Rattle.bk_disk.specs.Told.{nothing_told};
ghost use Rattle.bk_memdisk.specs.Disk.{told_by};
ghost use Rattle.bk_store.specs.Starting.{IsInOrder};

use bk_base::limits::{LAST_FILE, LAST_SEQ};
use bk_base::{FileId, Moment, Seq, SessionEnd};
use bk_keydir::{Keydir, Loaded, Report};
use bk_memdisk::{ListClock, MemDisk, MemSink, MemSource};
use bk_policy::Settings;
use bk_session::session;
use bk_store::Store;
use std::alloc::Global;
use std::process::Abort;

/// What a session reads, what it writes and how it ends.
type Row = (&'static str, &'static str, SessionEnd);

const ROWS: &[Row] = &[
    ("", "", SessionEnd::End),
    (
        "PUT 1 1\na1\nGET 1\na\n",
        "OK 1\nVALUE 1\n1\n",
        SessionEnd::End,
    ),
    (
        "PUT 1 0\na\nGET 1\na\nDEL 1\na\nGET 1\na\nDEL 1\na\n",
        "OK 1\nVALUE 0\n\nOK 2\nNONE\nNONE\n",
        SessionEnd::End,
    ),
    ("GET 1\na\nGET 0", "NONE\nSYNTAX 8\n", SessionEnd::Syntax(8)),
    ("PUT 65536 0\n", "SYNTAX 0\n", SessionEnd::Syntax(0)),
    (
        "SYNC\nPUT 1 5\nabc",
        "SYNCED 0\nSYNTAX 5\n",
        SessionEnd::Syntax(5),
    ),
    (
        "PUT 1 1\na1\nSTAT\nSYNC\nKEYS\nFOLD\nQUIT\nGET 1\na\n",
        "OK 1\nSTAT 1 1 24 24\nSYNCED 1\nKEY 1\na\nEND 1\nPAIR 1 1\na1\nEND 1\nBYE\n",
        SessionEnd::Quit,
    ),
];

/// What a session begins with, or what fails in it.
#[derive(Clone, Copy)]
enum Begin {
    /// This seq was the last one that was given out.
    Seq(u64),
    /// This file number was.
    File(u32),
    /// The time to live, at the moments 5, 14, 15 and 3.
    Ttl(u32),
    /// This read of the source fails.
    Read(u64),
    /// This write to the sink fails.
    Write(u64),
    /// This call of the disk fails, with this effect.
    Call(u64, u64),
    /// A read of this view fails.
    View(u64),
}

/// A read gives 8 bytes: one GET. So the second write shows that replies are written before the next read.
const BEGUN: &[(Begin, Row)] = &[
    (
        Begin::Seq(LAST_SEQ),
        (
            "PUT 1 1\na2\nGET 1\na\n",
            "FULL seq\nNONE\n",
            SessionEnd::End,
        ),
    ),
    (
        Begin::File(LAST_FILE),
        (
            "PUT 1 1\na2\nSTAT\n",
            "FULL files\nSTAT 0 0 0 0\n",
            SessionEnd::End,
        ),
    ),
    (
        Begin::Ttl(10),
        (
            "PUT 1 1\na1\nGET 1\na\nGET 1\na\nSTAT\nGET 1\na\n",
            "OK 1\nVALUE 1\n1\nNONE\nSTAT 1 1 24 24\nVALUE 1\n1\n",
            SessionEnd::End,
        ),
    ),
    (
        Begin::Read(2),
        ("GET 1\na\nGET 1\nb\n", "NONE\n", SessionEnd::Source),
    ),
    (
        Begin::Write(2),
        ("GET 1\na\nGET 1\nb\n", "NONE\n", SessionEnd::Sink),
    ),
    (Begin::Write(1), ("GET 0\n", "", SessionEnd::Sink)),
    (
        Begin::Call(3, 24),
        (
            "PUT 1 1\na1\nPUT 1 1\nb2\nGET 1\nb\nPUT 1 1\nb3\nGET 1\nb\n",
            "OK 1\nDISK\nNONE\nOK 2\nVALUE 1\n3\n",
            SessionEnd::End,
        ),
    ),
    (
        Begin::View(1),
        (
            "PUT 1 1\na1\nGET 1\na\nGET 1\na\n",
            "OK 1\nREAD\nVALUE 1\n1\n",
            SessionEnd::End,
        ),
    ),
    (
        Begin::View(1),
        (
            "PUT 1 1\na1\nFOLD\nFOLD\n",
            "OK 1\nREAD\nPAIR 1 1\na1\nEND 1\n",
            SessionEnd::End,
        ),
    ),
];

/// How many bytes a session may take, and how it ends then.
const LIMITS: &[(u64, Row)] = &[
    (0, ("", "", SessionEnd::Long)),
    (7, ("GET 1\na\n", "", SessionEnd::Long)),
    (8, ("GET 1\na\n", "NONE\n", SessionEnd::Long)),
    (9, ("GET 1\na\n", "NONE\n", SessionEnd::End)),
    (9, ("GET 1\na\nG", "NONE\n", SessionEnd::Long)),
    (
        9,
        ("GET 1\na\nX", "NONE\nSYNTAX 8\n", SessionEnd::Syntax(8)),
    ),
    (5, ("QUIT\n", "BYE\n", SessionEnd::Quit)),
];

// A store's numbers, and no key.
fn nothing_loaded(alloc: Global, seq: u64, file: u32) -> Loaded
    ensures order { IsInOrder result }
    ensures rows { result.rows.items ≡ [] }
{
    Loaded {
        keydir: Keydir::new(alloc),
        rows: Vec::new(alloc),
        report: Report {
            torn: Vec::new(alloc),
            hints: Vec::new(alloc),
            odd: Vec::new(alloc),
            hinted: 0,
            scanned: 0,
        },
        last_seq: Seq(seq.min(LAST_SEQ)),
        last_file: FileId(file),
    }
}

fn disk_of(rt: &impl Abort, alloc: Global, begin: Begin) -> MemDisk
    ensures { told_by result ≡ nothing_told }
{
    let mut disk = MemDisk::new(alloc);
    match begin {
        Begin::Call(nth, effect) => disk.fail(nth, effect).expect(rt, "memory"),
        Begin::View(nth) => disk.fail_view(nth).expect(rt, "memory"),
        _ => {}
    }
    disk
}

fn started(rt: &impl Abort, alloc: Global, begin: Begin) -> Store<MemDisk> {
    let (seq, file, ttl) = match begin {
        Begin::Seq(seq) => (seq, 0, 0),
        Begin::File(file) => (0, file, 0),
        Begin::Ttl(ttl) => (0, 0, ttl),
        _ => (0, 0, 0),
    };
    let settings = Settings {
        ttl,
        ..Settings::plain()
    };
    let disk = disk_of(rt, alloc, begin);
    Store::start(alloc, disk, nothing_loaded(alloc, seq, file), settings)
}

fn source_of(rt: &impl Abort, alloc: Global, input: &str, begin: Begin) -> MemSource {
    let bytes = input.as_bytes().to_vec(alloc).expect(rt, "memory");
    let fail = match begin {
        Begin::Read(nth) => Some(nth),
        _ => None,
    };
    MemSource::new(bytes, fail, 8)
}

fn sink_of(rt: &impl Abort, alloc: Global, begin: Begin) -> MemSink {
    let fail = match begin {
        Begin::Write(nth) => Some(nth),
        _ => None,
    };
    MemSink::new(alloc, 1_000, fail).expect(rt, "memory")
}

fn clock_of(rt: &impl Abort, alloc: Global, begin: Begin) -> ListClock {
    let moments: &[u32] = match begin {
        Begin::Ttl(_) => &[5, 14, 15, 3],
        _ => &[5],
    };
    let mut list = Vec::new(alloc);
    for moment in moments {
        list.push(Moment(*moment)).expect(rt, "memory");
    }
    ListClock::new(list)
}

// Whether the session of this row, of at most so many bytes, ends so and writes so.
fn holds(rt: &impl Abort, alloc: Global, begin: Begin, most: u64, row: Row) -> bool {
    let (input, output, end) = row;
    let mut store = started(rt, alloc, begin);
    let mut source = source_of(rt, alloc, input, begin);
    let mut sink = sink_of(rt, alloc, begin);
    let mut clock = clock_of(rt, alloc, begin);
    let ended = session(alloc, &mut store, &mut source, &mut sink, &mut clock, most);
    ended == end && sink.bytes() == output.as_bytes()
}

#[test]
fn rows(rt: HostRuntime) {
    for row in ROWS {
        assert!(rt;
            holds(&rt, rt.alloc(), Begin::Seq(0), 1_000, *row),
            "{}",
            row.0
        );
    }
}

#[test]
fn begun(rt: HostRuntime) {
    for (begin, row) in BEGUN {
        assert!(rt; holds(&rt, rt.alloc(), *begin, 1_000, *row), "{}", row.0);
    }
}

#[test]
fn limits(rt: HostRuntime) {
    for (most, row) in LIMITS {
        assert!(rt;
            holds(&rt, rt.alloc(), Begin::Seq(0), *most, *row),
            "{}",
            row.0
        );
    }
}
