//! A report with each of its lines.
use bk_base::{FileId, Kind, Name, Row, RowState};
use bk_hint::Verdict;
use bk_keydir::{HintNote, Report, Torn};
use bk_report::write_report;
use std::alloc::Global;
use std::process::Abort;

const WHOLE: &[u8] = b"FILE 1 72 24 24\nTORN 1 24 48\nHINT 1 NOTWHOLE\n\
FILE 2 72 24 24\nHINT 2 BADCHECK 000000ff cbf43926\n\
FILE 5 72 24 24\nHINT 5 LENGTH 25 24\n\
FILE 6 72 24 24\nHINT 6 ROW 3\n\
FILE 4294967294 72 24 24\nHINT 4294967294 GOOD\n\
ODD 7.bitcask.swap\nCHECKED 5 1\n";

fn row(id: u32) -> Row {
    Row {
        id: FileId(id),
        len: 72,
        total: 24,
        live: 24,
        refs: 1,
        state: RowState::Sealed,
    }
}

fn note(id: u32, verdict: Verdict) -> HintNote {
    HintNote {
        verdict,
        file: FileId(id),
    }
}

const LAST: u32 = 4_294_967_294;

// A note of each verdict.
fn notes(rt: &impl Abort, alloc: Global) -> Vec<HintNote> {
    let stored = Verdict::BadCheck {
        stored: 255,
        computed: 0xcbf4_3926,
    };
    let good = Verdict::Good {
        covered: 24,
        rows: 1,
    };
    vec![in alloc;
        note(1, Verdict::NotWhole),
        note(2, stored),
        note(5, Verdict::LengthDiffers { said: 25, is: 24 }),
        note(6, Verdict::BadRow(3)),
        note(LAST, good),
    ]
    .expect(rt, "memory")
}

fn report(rt: &impl Abort, alloc: Global) -> Report {
    let torn = Torn {
        file: FileId(1),
        at: 24,
        bytes: 48,
    };
    let odd = Name {
        id: 7,
        kind: Kind::Swap,
    };
    Report {
        torn: [torn].to_vec(alloc).expect(rt, "memory"),
        hints: notes(rt, alloc),
        odd: [odd].to_vec(alloc).expect(rt, "memory"),
        hinted: 1,
        scanned: 4,
    }
}

#[test]
fn each_line_is_written(rt: HostRuntime) {
    let rows = [row(1), row(2), row(5), row(6), row(LAST)];
    let report = report(&rt, rt.alloc());
    let mut out = Vec::new(rt.alloc());
    write_report(&mut out, &rows, &report).expect(&rt, "memory");
    assert!(rt; out.as_slice() == WHOLE, "another report");
}
