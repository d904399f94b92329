//! Drills as scripts: what they print, and how they end.

use bk_drill::{DrillEnd, drill};
use bk_memdisk::{MemSink, MemSource};
use std::alloc::Global;
use std::process::Abort;

/// A script, what it prints, and how it ends.
type Row = (&'static str, &'static str, DrillEnd);

const ROWS: &[Row] = &[
    ("", "", DrillEnd::End),
    (
        "a put x 1\na get x\na read\na read\na del x\na del x\na get x\na sync\n",
        "OK 1\nLOAN\nVALUE 1\nNOLOAN\nOK 2\nNONE\nNONE\nSYNCED 2\n",
        DrillEnd::End,
    ),
    // An expired key is reaped once.
    (
        "ttl 10\nat 5\na put x 1\nat 20\na reap x\na reap x\n",
        "OK 1\nOK 2\nNONE\n",
        DrillEnd::End,
    ),
    // A get keeps what it found, whatever comes between.
    (
        "a put x 1\na get x\nb get x\na put x 2\na get y\na read\nb read\n",
        "OK 1\nLOAN\nLOAN\nOK 2\nNONE\nVALUE 1\nVALUE 1\n",
        DrillEnd::End,
    ),
    // A fold lists the pairs of its epoch, and gives its slot back.
    (
        "a put x 1\nb fold\na put x 2\na del x\nb next 0\nb next 0\na next 0\nb end 0\nb end 0\na fold\na next 0\n",
        "OK 1\nFOLD 0 1\nOK 2\nOK 3\nPAIR x 1\nEND 1\nNOFOLD 0\nCLOSED\nNOFOLD 0\nFOLD 0 3\nEND 0\n",
        DrillEnd::End,
    ),
    // Of a torn tail what was synced stays.
    (
        "a put x 1\na sync\na put y 2\na put z 3\nstop all 23\na get y\na get z\na get x\na read\n",
        "OK 1\nSYNCED 1\nOK 2\nOK 3\nREOPENED 1 1 1\nTORN 1 24 48\nNONE\nNONE\nLOAN\nVALUE 1\n",
        DrillEnd::End,
    ),
    (
        "a put x 1\na put y 2\nstop 25\na get x\na read\na get y\na put y 3\nstop all\na get y\na read\n",
        "OK 1\nOK 2\nREOPENED 1 1 1\nTORN 1 24 1\nLOAN\nVALUE 1\nNONE\nOK 2\nREOPENED 2 2 1\nTORN 1 24 1\nLOAN\nVALUE 3\n",
        DrillEnd::End,
    ),
    // A stop drops what was kept and the folds, and the settings stay.
    (
        "max 4096\na big p 4080\na put q 1\na get q\na fold\nstop all\na read\na next 0\na fold\na big r 70\na get r\na read\n",
        "OK 1\nOK 2\nLOAN\nFOLD 0 2\nREOPENED 2 2 0\nNOLOAN\nNOFOLD 0\nFOLD 0 2\nOK 3\nLOAN\nVALUE 70*x\n",
        DrillEnd::End,
    ),
    // A failed append is repaired by the next write, and before that a stop may leave it.
    (
        "a put x 1\nfail 1 24\na put y 2\na put z 3\nstop all\na get y\n",
        "OK 1\nDISK\nOK 2\nREOPENED 2 2 0\nNONE\n",
        DrillEnd::End,
    ),
    (
        "a put x 1\nfail 1 24\na put y 2\nstop all\na get y\na read\n",
        "OK 1\nDISK\nREOPENED 2 2 0\nLOAN\nVALUE 2\n",
        DrillEnd::End,
    ),
    // Behind a fuse all calls fail, until a stop.
    (
        "a put x 1\nfuse 0 0\na get x\na put y 2\na sync\nstop all\na get x\na read\n",
        "OK 1\nDISK\nDISK\nDISK\nREOPENED 1 1 0\nLOAN\nVALUE 1\n",
        DrillEnd::End,
    ),
    // What no line of a script is.
    (
        "a put x 1\nmax 4096\n",
        "OK 1\nSYNTAX 10\n",
        DrillEnd::Syntax(10),
    ),
    ("a begin\n", "SYNTAX 0\n", DrillEnd::Syntax(0)),
    (
        "a sync\na sync",
        "SYNCED 0\nSYNTAX 7\n",
        DrillEnd::Syntax(7),
    ),
];

/// How many bytes a drill may take, or which of its streams fails. A read gives 8 bytes.
#[derive(Clone, Copy)]
enum Limit {
    Most(u64),
    /// This read of the source fails.
    Read(u64),
    /// This write to the sink fails.
    Write(u64),
    /// The sink takes so many bytes.
    Room(usize),
}

const LIMITS: &[(Limit, Row)] = &[
    (Limit::Most(0), ("", "", DrillEnd::Long)),
    (Limit::Most(6), ("a sync\n", "", DrillEnd::Long)),
    (Limit::Most(7), ("a sync\n", "SYNCED 0\n", DrillEnd::Long)),
    (Limit::Most(8), ("a sync\n", "SYNCED 0\n", DrillEnd::End)),
    (Limit::Most(6), ("a frob\n", "", DrillEnd::Long)),
    (
        Limit::Most(7),
        ("a frob\n", "SYNTAX 0\n", DrillEnd::Syntax(0)),
    ),
    (Limit::Most(6), ("a sync", "", DrillEnd::Long)),
    (
        Limit::Most(7),
        ("a sync", "SYNTAX 0\n", DrillEnd::Syntax(0)),
    ),
    (
        Limit::Read(2),
        ("a sync\na sync\n", "SYNCED 0\n", DrillEnd::Source),
    ),
    (
        Limit::Write(2),
        ("a sync\na sync\n", "SYNCED 0\n", DrillEnd::Sink),
    ),
    (Limit::Write(1), ("at 1\na sync\n", "", DrillEnd::Sink)),
    (Limit::Write(1), ("a frob\n", "", DrillEnd::Sink)),
    (Limit::Room(4), ("a sync\na sync\n", "SYNC", DrillEnd::Sink)),
    (
        Limit::Room(12),
        ("a sync\na frob\n", "SYNCED 0\nSYN", DrillEnd::Sink),
    ),
];

// Whether the script prints so and ends so.
fn holds(rt: &impl Abort, alloc: Global, limit: Limit, row: Row) -> bool {
    let (script, output, end) = row;
    let (most, read, write, room) = match limit {
        Limit::Most(most) => (most, None, None, 10_000),
        Limit::Read(nth) => (10_000, Some(nth), None, 10_000),
        Limit::Write(nth) => (10_000, None, Some(nth), 10_000),
        Limit::Room(room) => (10_000, None, None, room),
    };
    let bytes = script.as_bytes().to_vec(alloc).expect(rt, "memory");
    let mut source = MemSource::new(bytes, read, 8);
    let mut sink = MemSink::new(alloc, room, write).expect(rt, "memory");
    let ended = drill(alloc, &mut source, &mut sink, most);
    ended == end && sink.bytes() == output.as_bytes()
}

#[test]
fn rows(rt: HostRuntime) {
    for row in ROWS {
        assert!(rt;
            holds(&rt, rt.alloc(), Limit::Most(10_000), *row),
            "{}",
            row.0
        );
    }
}

#[test]
fn limits(rt: HostRuntime) {
    for (limit, row) in LIMITS {
        assert!(rt; holds(&rt, rt.alloc(), *limit, *row), "{}", row.0);
    }
}
