ghost use Rattle.std.specs.Prelude.{◌≡◌, [], ◌∷◌};

use bk_base::{FileId, Key, Moment, Seq, Version};
use bk_hint::{HintIn, HintOut, HintRow, Verdict, judge};
use std::alloc::Global;
use std::process::Abort;

// Packed by Python's struct and zlib: the hint of a file with the one record of seq 1 at moment 5 that
// puts `1` for the key `a`.
const HINT: &[u8; 61] =
    b"\x00\x00\x00\x05\x00\x01\x00\x00\x00\x01\x00\x00\x00\x00\x00\x00\x00\x00\x00\x00\x00\x00\x00\x00\x00\x01\xaf\xf4C\xc2a\
\x00\x00\x00\x00\x00\x00\x00\x00\x00\x00\x00\x00\x00\x00\x00\x00\x00\x18\x00\x00\x00\x00\x00\x00\x00\x01\x1f\xd4\xea\x07";

// The same, and a tombstone for the key behind it, of seq 2 at moment 7.
const TWO: &[u8; 92] =
    b"\x00\x00\x00\x05\x00\x01\x00\x00\x00\x01\x00\x00\x00\x00\x00\x00\x00\x00\x00\x00\x00\x00\x00\x00\x00\x01\xaf\xf4C\xc2a\
\x00\x00\x00\x07\x00\x01\xff\xff\xff\xff\x00\x00\x00\x00\x00\x00\x00\x18\x00\x00\x00\x00\x00\x00\x00\x02B\xf6Z]a\
\x00\x00\x00\x00\x00\x00\x00\x00\x00\x00\x00\x00\x00\x00\x00\x00\x00/\x00\x00\x00\x00\x00\x00\x00\x02\xa9\xadV\x89";

const PUT: Version = Version {
    seq: Seq(1),
    at: 0,
    moment: Moment(5),
    file: FileId(1),
    size: 24,
    crc: 0xaff4_43c2,
    gone: false,
};

const TOMBSTONE: Version = Version {
    seq: Seq(2),
    at: 24,
    moment: Moment(7),
    file: FileId(1),
    size: 23,
    crc: 0x42f6_5a5d,
    gone: true,
};

fn row(rt: &impl Abort, alloc: Global, version: Version) -> HintRow
    ensures version { result.version ≡ version }
    ensures key { result.key ≡ 97 ∷ [] }
{
    HintRow {
        version,
        key: Key::of(alloc, b"a").expect(rt, "memory"),
    }
}

// The versions that a hint of this data file's length tells, where it is Good.
fn versions_in(rt: &impl Abort, alloc: Global, bytes: &[u8], len: u64) -> Vec<Version> {
    let mut found = Vec::new(alloc);
    if let Verdict::Good { rows, .. } = judge(bytes, len) {
        let mut reader = HintIn::new(FileId(1));
        for _ in 0..rows {
            if let Some(row) = reader.next(alloc, bytes).expect(rt, "memory") {
                found.push(row.version).expect(rt, "memory");
            }
        }
    }
    found
}

#[test]
fn rows_are_written(rt: HostRuntime) {
    let mut hint = HintOut::new();
    let mut out = Vec::new(rt.alloc());
    hint.add(&row(&rt, rt.alloc(), PUT), &mut out)
        .expect(&rt, "memory");
    let mut first = hint;
    hint.finish(24, &mut out).expect(&rt, "memory");
    assert_eq!(rt; out.as_slice(), HINT.as_slice());
    out.truncate(31);
    first
        .add(&row(&rt, rt.alloc(), TOMBSTONE), &mut out)
        .expect(&rt, "memory");
    first.finish(47, &mut out).expect(&rt, "memory");
    assert_eq!(rt; out.as_slice(), TWO.as_slice());
}

#[test]
fn rows_are_read_again(rt: HostRuntime) {
    let found = versions_in(&rt, rt.alloc(), TWO, 47);
    assert_eq!(rt; found.as_slice(), [PUT, TOMBSTONE].as_slice());
}

// A hint of 200 rows, all of the put.
fn many_rows(rt: &impl Abort, alloc: Global) -> Vec<u8> {
    let mut hint = HintOut::new();
    let mut out = Vec::new(alloc);
    let row = row(rt, alloc, PUT);
    for _ in 0..200 {
        hint.add(&row, &mut out).expect(rt, "memory");
    }
    hint.finish(24, &mut out).expect(rt, "memory");
    out
}

// More bytes than are checked at once.
#[test]
fn a_hint_of_many_rows_is_good(rt: HostRuntime) {
    let mut out = many_rows(&rt, rt.alloc());
    let good = Verdict::Good {
        covered: 24,
        rows: 200,
    };
    assert_eq!(rt; judge(&out, 24), good);
    if let Some(first) = out.first_mut() {
        *first = 1;
    }
    assert!(rt; matches!(judge(&out, 24), Verdict::BadCheck { .. }));
}

const BAD_CHECK: Verdict = Verdict::BadCheck {
    stored: 0x1fd4_ea07,
    computed: 0x86dd_bbbd,
};

// One byte of the hint of one record changed, and what it is then for a file of 24 bytes.
const CHANGED: [(usize, u8, Verdict); 8] = [
    (30, b'b', BAD_CHECK),
    (48, 25, Verdict::LengthDiffers { said: 25, is: 24 }),
    (5, 0, Verdict::NotWhole),
    (5, 2, Verdict::NotWhole),
    (34, 1, Verdict::NotWhole),
    (36, 1, Verdict::NotWhole),
    (40, 1, Verdict::NotWhole),
    (56, 2, Verdict::NotWhole),
];

#[test]
fn a_changed_byte_is_found(rt: HostRuntime) {
    for (place, byte, want) in CHANGED {
        let mut bytes = *HINT;
        if let Some(changed) = bytes.get_mut(place) {
            *changed = byte;
        }
        assert_eq!(rt; judge(&bytes, 24), want, "byte {place}");
    }
}

const GOOD: Verdict = Verdict::Good {
    covered: 24,
    rows: 1,
};

#[test]
fn a_hint_is_good_for_each_length_that_it_covers(rt: HostRuntime) {
    assert_eq!(rt; judge(HINT, 24), GOOD);
    assert_eq!(rt; judge(HINT, u64::MAX), GOOD);
    assert_eq!(rt;
        judge(HINT, 23),
        Verdict::LengthDiffers { said: 24, is: 23 }
    );
    assert_eq!(rt;
        judge(TWO, 47),
        Verdict::Good {
            covered: 47,
            rows: 2
        }
    );
    assert_eq!(rt;
        judge(&[0; 30], 0),
        Verdict::Good {
            covered: 0,
            rows: 0
        }
    );
    let hint: &[u8] = HINT;
    for bytes in [&hint[1..], &hint[..60], &hint[..31], &hint[..29], &[]] {
        assert_eq!(rt; judge(bytes, 24), Verdict::NotWhole);
    }
}

// Whole hints with a right checksum whose one row can't be: seq 0 and 2^63, a value of 16,777,217 bytes,
// and records that end past what is covered, one of them past 64 bits.
const BAD_ROWS: [&[u8; 61]; 5] = [
    b"\x00\x00\x00\x05\x00\x01\x00\x00\x00\x01\x00\x00\x00\x00\x00\x00\x00\x00\x00\x00\x00\x00\x00\x00\x00\x00\xaf\xf4C\xc2a\
\x00\x00\x00\x00\x00\x00\x00\x00\x00\x00\x00\x00\x00\x00\x00\x00\x00\x18\x00\x00\x00\x00\x00\x00\x00\x01\xd4\x889\xa2",
    b"\x00\x00\x00\x05\x00\x01\x00\x00\x00\x01\x00\x00\x00\x00\x00\x00\x00\x00\x80\x00\x00\x00\x00\x00\x00\x00\xaf\xf4C\xc2a\
\x00\x00\x00\x00\x00\x00\x00\x00\x00\x00\x00\x00\x00\x00\x00\x00\x00\x18\x00\x00\x00\x00\x00\x00\x00\x01t\xe2\x1c\xb5",
    b"\x00\x00\x00\x05\x00\x01\x01\x00\x00\x01\x00\x00\x00\x00\x00\x00\x00\x00\x00\x00\x00\x00\x00\x00\x00\x01\xaf\xf4C\xc2a\
\x00\x00\x00\x00\x00\x00\x00\x00\x00\x00\x00\x00\x00\x00\x00\x00\x00\x18\x00\x00\x00\x00\x00\x00\x00\x01\xba_z\x09",
    b"\x00\x00\x00\x05\x00\x01\x00\x00\x00\x01\x00\x00\x00\x00\x00\x00\x00\x01\x00\x00\x00\x00\x00\x00\x00\x01\xaf\xf4C\xc2a\
\x00\x00\x00\x00\x00\x00\x00\x00\x00\x00\x00\x00\x00\x00\x00\x00\x00\x18\x00\x00\x00\x00\x00\x00\x00\x01\x82\xdb\x0bq",
    b"\x00\x00\x00\x05\x00\x01\x00\x00\x00\x01\xff\xff\xff\xff\xff\xff\xff\xff\x00\x00\x00\x00\x00\x00\x00\x01\xaf\xf4C\xc2a\
\x00\x00\x00\x00\x00\x00\x00\x00\x00\x00\x00\x00\x00\x00\x00\x00\x00\x18\x00\x00\x00\x00\x00\x00\x00\x01\x97?\xde1",
];

#[test]
fn rows_that_cannot_be_are_found(rt: HostRuntime) {
    for bytes in BAD_ROWS {
        assert_eq!(rt; judge(bytes, 100), Verdict::BadRow(0));
    }
}
