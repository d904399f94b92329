//! What no clause says: the texts of scripts and of what drills print, and that the calls succeed.
ghost use Rattle.std.specs.Prelude.{◌≡◌};
ghost use Rattle.bk_script.specs.Script.{taken};

use bk_base::{Damage, FileId, Full, Key, Seq, Value};
use bk_script::{Next, Printed, Reader, write_line};
use std::alloc::Global;
use std::io::Write as _;
use std::process::Abort;

/// Writes the lines that the reader finds, and whether more may follow.
#[tactic(auto, using(bk_script::proofs::Standing::shorter))]
fn read_all(rt: &impl Abort, reader: &mut Reader, text: &mut Vec<u8>) -> bool
    ensures taken { taken reader.new ≡ taken reader.old }
    ensures most { reader.new.most ≡ reader.old.most }
{
    'lines: loop {
        match reader.next().expect(rt, "memory") {
            Next::Need => return true,
            Next::Line(line) => write!(text, "{line:?};").expect(rt, "memory"),
            Next::Bad(offset) => {
                write!(text, "bad {offset}").expect(rt, "memory");
                return false;
            }
        }
    }
}

/// The answers to a script that is cut in two.
fn answers_to(rt: &impl Abort, alloc: Global, script: &[u8], cut: usize) -> Vec<u8> {
    let (front, back) = script.split_at_checked(cut).expect(rt, "two pieces");
    let mut reader = Reader::new(alloc, script.len() as u64);
    let mut text = Vec::new(alloc);
    reader.take(front).expect(rt, "memory");
    if !read_all(rt, &mut reader, &mut text) {
        return text;
    }
    reader.take(back).expect(rt, "memory");
    if read_all(rt, &mut reader, &mut text) {
        if let Some(offset) = reader.rest() {
            write!(text, "rest {offset}").expect(rt, "memory");
        }
    }
    text
}

fn reads(rt: &impl Abort, alloc: Global, script: &[u8], answers: &[u8]) {
    assert!(rt; script.len() <= 300);
    for cut in 0..=script.len() {
        let text = answers_to(rt, alloc, script, cut);
        assert_eq!(rt; text.as_slice(), answers, "{script:?} cut at {cut}");
    }
}

/// Scripts of settings, times and faults, and what is answered to them.
const SETTINGS: [(&[u8], &[u8]); 29] = [
    (b"", b""),
    (b"max 4096\nttl 0\n", b"Max(4096);Ttl(0);"),
    (
        b"max 1073741824\nttl 4294967295\n",
        b"Max(1073741824);Ttl(4294967295);",
    ),
    (b"max 4095\n", b"bad 0"),
    (b"max 1073741825\n", b"bad 0"),
    (b"max\n", b"bad 0"),
    (b"max 04096\n", b"bad 0"),
    (b"max 4096 1\n", b"bad 0"),
    (b"ttl 4294967296\n", b"bad 0"),
    (b"ttl 1\nttl 2\nmax 5000\n", b"Ttl(1);Ttl(2);Max(5000);"),
    (b"at 1\nttl 1\n", b"At(Moment(1));bad 5"),
    (b"a sync\nmax 4096\n", b"By(Actor(1), Sync);bad 7"),
    (
        b"at 0\nat 4294967295\n",
        b"At(Moment(0));At(Moment(4294967295));",
    ),
    (b"at 4294967296\n", b"bad 0"),
    (b"at -1\n", b"bad 0"),
    (b"at +1\n", b"bad 0"),
    (b"at 00\n", b"bad 0"),
    (b"at 1a\n", b"bad 0"),
    (b"at 0x1\n", b"bad 0"),
    (b"at\n", b"bad 0"),
    (b"at \n", b"bad 0"),
    (b"fail 1 0\n", b"Fail { nth: 1, effect: 0 };"),
    (
        b"fail 18446744073709551615 18446744073709551615\n",
        b"Fail { nth: 18446744073709551615, effect: 18446744073709551615 };",
    ),
    (b"fail 0 0\n", b"bad 0"),
    (b"fail 1\n", b"bad 0"),
    (b"fail 1 18446744073709551616\n", b"bad 0"),
    (b"fuse 0 0\n", b"Fuse { calls: 0, effect: 0 };"),
    (b"fuse 18446744073709551616 0\n", b"bad 0"),
    (b"fuse 1 0 2\n", b"bad 0"),
];

/// The same for what an actor does.
const OF_ACTORS: [(&[u8], &[u8]); 31] = [
    (
        b"a put k v\nz put ! ~\n",
        b"By(Actor(1), Put { key: Key { bytes: [107] }, value: Value { bytes: [118] } });\
          By(Actor(26), Put { key: Key { bytes: [33] }, value: Value { bytes: [126] } });",
    ),
    (b"a put k\n", b"bad 0"),
    (b"a put k \n", b"bad 0"),
    (b"a put k v w\n", b"bad 0"),
    (b"a put k \x7f\n", b"bad 0"),
    (b"a put k \xc3\xa9\n", b"bad 0"),
    (b"a put k\tv\n", b"bad 0"),
    (b"A put k v\n", b"bad 0"),
    (b"` put k v\n", b"bad 0"),
    (b"{ put k v\n", b"bad 0"),
    (b"ab put k v\n", b"bad 0"),
    (
        b"a big k 0\nb big k 16777216\n",
        b"By(Actor(1), Big { key: Key { bytes: [107] }, len: 0 });By(Actor(2), Big { key: Key { bytes: [107] }, len: 16777216 });",
    ),
    (b"a big k 16777217\n", b"bad 0"),
    (b"a big k\n", b"bad 0"),
    (
        b"a del k\na reap k\na get k\n",
        b"By(Actor(1), Delete(Key { bytes: [107] }));By(Actor(1), Reap(Key { bytes: [107] }));By(Actor(1), Get(Key { bytes: [107] }));",
    ),
    (b"a del\n", b"bad 0"),
    (b"a get k k\n", b"bad 0"),
    (
        b"m read\nm sync\nm fold\n",
        b"By(Actor(13), Read);By(Actor(13), Sync);By(Actor(13), Fold);",
    ),
    (b"a read \n", b"bad 0"),
    (b"a sync k\n", b"bad 0"),
    (b"a fold 0\n", b"bad 0"),
    (
        b"a next 0\na end 255\n",
        b"By(Actor(1), Next(0));By(Actor(1), End(255));",
    ),
    (b"a next 256\n", b"bad 0"),
    (b"a end\n", b"bad 0"),
    (b"a begin\n", b"bad 0"),
    (b"a finish\n", b"bad 0"),
    (b"a frob\n", b"bad 0"),
    (b"a\n", b"bad 0"),
    (b"a \n", b"bad 0"),
    (b" a read\n", b"bad 0"),
    (b"a  read\n", b"bad 0"),
];

/// The same for stops, and for lines that are no lines of a script.
const OTHERS: [(&[u8], &[u8]); 10] = [
    (
        b"stop 0\nstop all\n",
        b"Stop { keep: Some(0), flips: Flips { offsets: [] } };Stop { keep: None, flips: Flips { offsets: [] } };",
    ),
    (
        b"stop all 23 0 23\nstop 1 2\n",
        b"Stop { keep: None, flips: Flips { offsets: [23, 0, 23] } };Stop { keep: Some(1), flips: Flips { offsets: [2] } };",
    ),
    (b"stop\n", b"bad 0"),
    (b"stop none\n", b"bad 0"),
    (b"stop all all\n", b"bad 0"),
    (b"stop 1 \n", b"bad 0"),
    (b"a read\r\n", b"bad 0"),
    (b"\n", b"bad 0"),
    (b"a read\n\na read\n", b"By(Actor(1), Read);bad 7"),
    (b"a fold", b"rest 0"),
];

#[test]
fn reads_settings_however_they_are_cut(rt: HostRuntime) {
    for (script, answers) in SETTINGS {
        reads(&rt, rt.alloc(), script, answers);
    }
}

#[test]
fn reads_actors_however_they_are_cut(rt: HostRuntime) {
    for (script, answers) in OF_ACTORS {
        reads(&rt, rt.alloc(), script, answers);
    }
}

#[test]
fn reads_other_lines_however_they_are_cut(rt: HostRuntime) {
    for (script, answers) in OTHERS {
        reads(&rt, rt.alloc(), script, answers);
    }
}

/// Reads a script that comes at once, and finds this at the end of what is answered.
fn ends_in(rt: &impl Abort, alloc: Global, script: &[u8], answer: &[u8]) {
    let mut reader = Reader::new(alloc, script.len() as u64);
    let mut text = Vec::new(alloc);
    reader.take(script).expect(rt, "memory");
    if read_all(rt, &mut reader, &mut text) {
        text.extend_from_slice(b"need").expect(rt, "memory");
    }
    assert!(rt; text.as_slice().ends_with(answer), "{:?}", text);
}

/// These bytes, then others so many times, and an end.
fn script(rt: &impl Abort, alloc: Global, parts: [&[u8]; 3], times: u8) -> Vec<u8> {
    let [begin, again, end] = parts;
    let mut line = begin.to_vec(alloc).expect(rt, "memory");
    for _ in 0..times {
        line.extend_from_slice(again).expect(rt, "memory");
    }
    line.extend_from_slice(end).expect(rt, "memory");
    line
}

/// The ends of a line `stop` of 124 offsets, and what is answered to it. They stand behind 253 bytes.
const LONG: [(&[u8], &[u8]); 4] = [
    (b"77\n", b"7, 77] } };need"),
    (b"777\n", b"bad 0"),
    (b"77", b"need"),
    (b"777", b"bad 0"),
];

#[test]
fn a_line_has_at_most_256_bytes(rt: HostRuntime) {
    for (end, answer) in LONG {
        let parts = [b"stop ".as_slice(), b"7 ", end];
        let line = script(&rt, rt.alloc(), parts, 124);
        ends_in(&rt, rt.alloc(), &line, answer);
    }
}

#[test]
fn a_key_has_at_most_64_bytes(rt: HostRuntime) {
    for (bytes, answer) in [(64, b"107] }));need".as_slice()), (65, b"bad 0")] {
        let parts = [b"a get ".as_slice(), b"k", b"\n"];
        let line = script(&rt, rt.alloc(), parts, bytes);
        ends_in(&rt, rt.alloc(), &line, answer);
    }
}

fn value(rt: &impl Abort, alloc: Global, bytes: &[u8]) -> Value {
    let bytes = bytes.to_vec(alloc).expect(rt, "memory");
    Value::new(bytes).expect(rt, "a value")
}

/// The text of these lines.
fn written(rt: &impl Abort, alloc: Global, lines: &[Printed]) -> Vec<u8> {
    let mut out = Vec::new(alloc);
    for line in lines {
        write_line(line, &mut out).expect(rt, "memory");
    }
    out
}

/// Values, and their lines.
const VALUES: [(&[u8], &[u8]); 5] = [
    (b"old", b"VALUE old\n"),
    (b"", b"VALUE \n"),
    (
        &[b'x'; 64],
        b"VALUE xxxxxxxxxxxxxxxxxxxxxxxxxxxxxxxxxxxxxxxxxxxxxxxxxxxxxxxxxxxxxxxx\n",
    ),
    (&[b'x'; 65], b"VALUE 65*x\n"),
    (
        b"yyyyyyyyyyyyyyyyyyyyyyyyyyyyyyyyyyyyyyyyyyyyyyyyyyyyyyyyyyyyyyyyy",
        b"VALUE yyyyyyyyyyyyyyyyyyyyyyyyyyyyyyyyyyyyyyyyyyyyyyyyyyyyyyyyyyyyyyyyy\n",
    ),
];

#[test]
fn writes_values(rt: HostRuntime) {
    for (bytes, text) in VALUES {
        let line = Printed::Value(value(&rt, rt.alloc(), bytes));
        assert_eq!(rt; written(&rt, rt.alloc(), &[line]).as_slice(), text);
    }
}

#[test]
fn writes_a_pair(rt: HostRuntime) {
    let line = Printed::Pair {
        key: Key::of(rt.alloc(), b"k").expect(&rt, "memory"),
        value: value(&rt, rt.alloc(), &[b'x'; 100]),
    };
    let text = written(&rt, rt.alloc(), &[line]);
    assert_eq!(rt; text.as_slice(), b"PAIR k 100*x\n".as_slice());
}

#[test]
fn writes_what_a_drill_prints(rt: HostRuntime) {
    let lines = [
        Printed::Numbered(Seq(1)),
        Printed::Absent,
        Printed::Loan,
        Printed::NoLoan,
        Printed::Synced(Seq(2)),
        Printed::Fold {
            slot: 63,
            epoch: Seq(0),
        },
        Printed::End(3),
        Printed::Closed,
        Printed::Reopened {
            seq: Seq(3),
            keys: 2,
            torn: 0,
        },
        Printed::Torn {
            file: FileId(1),
            at: 24,
            bytes: 48,
        },
        Printed::Memory,
        Printed::Disk,
        Printed::Read,
        Printed::Damaged(Damage {
            at: 24,
            file: FileId(1),
            kept: 0,
            found: 0xcbf4_3926,
        }),
        Printed::Full(Full::Folds),
        Printed::NoFold(255),
        Printed::Syntax(18_446_744_073_709_551_615),
    ];
    let text = b"OK 1\nNONE\nLOAN\nNOLOAN\nSYNCED 2\nFOLD 63 0\nEND 3\nCLOSED\nREOPENED 3 2 0\n\
        TORN 1 24 48\nMEMORY\nDISK\nREAD\nDAMAGED 1 24 00000000 cbf43926\nFULL folds\nNOFOLD 255\n\
        SYNTAX 18446744073709551615\n";
    assert_eq!(rt;
        written(&rt, rt.alloc(), &lines).as_slice(),
        text.as_slice()
    );
}
