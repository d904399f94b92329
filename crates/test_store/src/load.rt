//! Directories made by hand, and merges that were stopped anywhere and recovered, again and again.
ghost use Rattle.std.specs.Prelude.{◌≡◌, ◌≤◌, ◌<◌, ◌^◌};
ghost use Rattle.bk_memdisk.specs.Disk.{told_by};
ghost use Rattle.bk_load.specs.Tidying.{NoneLent};

use bk_base::{FileId, Kind, Name, Seq};
use bk_crc::crc32;
use bk_hint::Verdict;
use bk_load::{LoadSettings, Loaded, OpenError, recover, settings, synced_lends_nothing};
use bk_memdisk::{Choice, MemDisk};
use bk_policy::{Settings, SettingsError};
use bk_progress::Silent;
use std::alloc::Global;
use std::process::Abort;

// A record of one byte of key: the key, the seq, and the byte of its value, or none for a tombstone.
type Put = (u8, u64, Option<u8>);

// What a file holds, by the formats.
#[derive(Clone, Copy, Debug)]
enum Text {
    Bytes(&'static [u8]),
    // The records of these puts.
    Records(&'static [Put]),
    // The first bytes of them, so many.
    First(usize, &'static [Put]),
    // The records with one bit of this byte changed.
    Changed(usize, &'static [Put]),
    // The hint of these puts, from the front of a file of which it covers so many bytes.
    Hint(u64, &'static [Put]),
    // A list of the inputs and the outputs of a merge.
    List(&'static [u32], &'static [u32]),
}

type File = (u32, Kind, Text);

// What a recovery finds: of each key its seq and its file, and the last seq and file.
#[derive(Clone, Copy, Debug)]
struct Found {
    map: &'static [(u8, u64, u32)],
    last: (u64, u32),
}

fn append(rt: &impl Abort, text: &mut Vec<u8>, bytes: &[u8]) {
    text.extend_from_slice(bytes).expect(rt, "memory");
}

fn value_field(put: Put) -> u32 {
    match put.2 {
        Some(_) => 1,
        None => 4_294_967_295,
    }
}

// What the checksum of a record covers.
fn covered(rt: &impl Abort, alloc: Global, put: Put) -> Vec<u8> {
    let mut text = Vec::new(alloc);
    append(rt, &mut text, &[0, 0, 0, 5, 0, 1]);
    append(rt, &mut text, &value_field(put).to_be_bytes());
    append(rt, &mut text, &put.1.to_be_bytes());
    append(rt, &mut text, &[put.0]);
    if let Some(value) = put.2 {
        append(rt, &mut text, &[value]);
    }
    text
}

fn records(rt: &impl Abort, alloc: Global, puts: &[Put]) -> Vec<u8> {
    let mut text = Vec::new(alloc);
    for put in puts {
        let fields = covered(rt, alloc, *put);
        append(rt, &mut text, &crc32(&fields).to_be_bytes());
        append(rt, &mut text, &fields);
    }
    text
}

fn hint(rt: &impl Abort, alloc: Global, length: u64, puts: &[Put]) -> Vec<u8> {
    let mut text = Vec::new(alloc);
    let mut rows = 0u64;
    let mut at = 0u64;
    for put in puts {
        let fields = covered(rt, alloc, *put);
        append(rt, &mut text, &[0, 0, 0, 5, 0, 1]);
        append(rt, &mut text, &value_field(*put).to_be_bytes());
        append(rt, &mut text, &at.to_be_bytes());
        append(rt, &mut text, &put.1.to_be_bytes());
        append(rt, &mut text, &crc32(&fields).to_be_bytes());
        append(rt, &mut text, &[put.0]);
        rows = rows.saturating_add(1);
        at = at.saturating_add(4).saturating_add(fields.len() as u64);
    }
    let check = crc32(&text);
    append(rt, &mut text, &[0; 10]);
    append(rt, &mut text, &length.to_be_bytes());
    append(rt, &mut text, &rows.to_be_bytes());
    append(rt, &mut text, &check.to_be_bytes());
    text
}

fn list(rt: &impl Abort, alloc: Global, inputs: &[u32], outputs: &[u32]) -> Vec<u8> {
    let mut text = Vec::new(alloc);
    for ids in [inputs, outputs] {
        let count = u32::try_from(ids.len()).expect(rt, "few");
        append(rt, &mut text, &count.to_be_bytes());
        for id in ids {
            append(rt, &mut text, &id.to_be_bytes());
        }
    }
    let check = crc32(&text);
    append(rt, &mut text, &check.to_be_bytes());
    text
}

fn bytes_of(rt: &impl Abort, alloc: Global, text: Text) -> Vec<u8> {
    match text {
        Text::Bytes(bytes) => bytes.to_vec(alloc).expect(rt, "memory"),
        Text::Records(puts) => records(rt, alloc, puts),
        Text::First(len, puts) => {
            let mut text = records(rt, alloc, puts);
            text.truncate(len);
            text
        }
        Text::Changed(at, puts) => {
            let mut text = records(rt, alloc, puts);
            if let Some(byte) = text.get_mut(at) {
                *byte ^= 1;
            }
            text
        }
        Text::Hint(len, puts) => hint(rt, alloc, len, puts),
        Text::List(inputs, outputs) => list(rt, alloc, inputs, outputs),
    }
}

fn place(rt: &impl Abort, alloc: Global, disk: &mut MemDisk, file: File) {
    let (id, kind, text) = file;
    let bytes = bytes_of(rt, alloc, text);
    disk.place(Name { id, kind }, &bytes).expect(rt, "memory");
}

fn directory(rt: &impl Abort, alloc: Global, files: &[File]) -> MemDisk {
    let mut disk = MemDisk::new(alloc);
    for file in files {
        place(rt, alloc, &mut disk, *file);
    }
    disk
}

// A call of recovery: after so many disk calls all fail, the first of them with this effect, and this
// view does.
#[derive(Clone, Copy, Debug)]
struct Call {
    calls: u64,
    effect: u64,
    view: u64,
}

const WHOLE: Call = Call {
    calls: 100_000,
    effect: 0,
    view: 0,
};

// What a crash leaves of the disk. Nothing of it is lent.
fn crashed(rt: &impl Abort, alloc: Global, disk: MemDisk) -> MemDisk
    ensures { NoneLent (told_by result).fronts }
{
    let choice = Choice {
        keep: Some(0),
        flips: Vec::new(alloc),
    };
    synced_lends_nothing();
    disk.crash(&choice).expect(rt, "memory")
}

// Chooses what fails.
fn choose(rt: &impl Abort, disk: &mut MemDisk, call: Call)
    ensures { told_by disk.new ≡ told_by disk.old }
{
    disk.fuse(call.calls, call.effect);
    disk.fail_view(call.view).expect(rt, "memory");
}

// Recovers what a crash leaves of the disk.
fn recovered(
    rt: &impl Abort,
    alloc: Global,
    disk: MemDisk,
    call: Call,
) -> (MemDisk, Result<Loaded, OpenError>) {
    let mut disk = crashed(rt, alloc, disk);
    choose(rt, &mut disk, call);
    let result = recover(alloc, &mut disk, &mut Silent);
    (disk, result)
}

// The keys with the seqs and the files of their versions.
fn map_of(rt: &impl Abort, alloc: Global, loaded: &Loaded) -> Vec<(u8, u64, u32)> {
    let mut map = Vec::new(alloc);
    for position in 0..loaded.keydir.len() {
        let key = loaded.keydir.key_at(position);
        let version = loaded
            .keydir
            .version_at(position, 0)
            .expect(rt, "a version");
        let first = key.bytes().first().expect(rt, "a key");
        map.push((*first, version.seq.0, version.file.0))
            .expect(rt, "memory");
    }
    map.sort().expect(rt, "memory");
    map
}

fn finds(rt: &impl Abort, alloc: Global, loaded: &Loaded, found: Found) {
    assert_eq!(rt; map_of(rt, alloc, loaded).as_slice(), found.map);
    assert_eq!(rt;
        (loaded.last_seq, loaded.last_file),
        (Seq(found.last.0), FileId(found.last.1))
    );
}

// Recovers a directory whole, and gives what it finds and leaves.
fn opens(rt: &impl Abort, alloc: Global, files: &[File], found: Found) -> (MemDisk, Loaded) {
    let disk = directory(rt, alloc, files);
    let (disk, result) = recovered(rt, alloc, disk, WHOLE);
    let loaded = result.expect(rt, "recovered");
    finds(rt, alloc, &loaded, found);
    (disk, loaded)
}

const TORN: &[File] = &[(
    1,
    Kind::Main,
    Text::First(
        71,
        &[(b'x', 1, Some(1)), (b'y', 2, Some(2)), (b'z', 3, Some(3))],
    ),
)];

const OF_TORN: Found = Found {
    map: &[(b'x', 1, 1), (b'y', 2, 1)],
    last: (2, 1),
};

// The last record ends one byte past the file.
#[test]
fn a_torn_file_ends_at_its_whole_records(rt: HostRuntime) {
    let (_, loaded) = opens(&rt, rt.alloc(), TORN, OF_TORN);
    let row = loaded.rows.first().expect(&rt, "a row");
    assert_eq!(rt; (row.len, row.total), (71, 48));
    assert_eq!(rt; (row.live, row.refs), (48, 2));
    let torn = loaded.report.torn.first().expect(&rt, "torn");
    assert_eq!(rt; (torn.file, torn.at, torn.bytes), (FileId(1), 48, 23));
    assert_eq!(rt; (loaded.report.hinted, loaded.report.scanned), (0, 1));
}

const CHANGED: &[File] = &[(
    1,
    Kind::Main,
    Text::Changed(
        47,
        &[(b'x', 1, Some(1)), (b'y', 2, Some(2)), (b'z', 3, Some(3))],
    ),
)];

const OF_CHANGED: Found = Found {
    map: &[(b'x', 1, 1)],
    last: (1, 1),
};

// A scan ends at a record that another checksum belongs to, though one stands behind it.
#[test]
fn a_changed_record_ends_its_file(rt: HostRuntime) {
    let (_, loaded) = opens(&rt, rt.alloc(), CHANGED, OF_CHANGED);
    let row = loaded.rows.first().expect(&rt, "a row");
    assert_eq!(rt; (row.len, row.total, row.live), (72, 24, 24));
    let torn = loaded.report.torn.first().expect(&rt, "torn");
    assert_eq!(rt; (torn.file, torn.at, torn.bytes), (FileId(1), 24, 48));
}

// The hint of file 1, what it is, how many files have a Good one and how many were scanned, and what is
// found.
type Hinted = (Text, Verdict, (u32, u32), Found);

const TWO: &[Put] = &[(b'a', 1, Some(1)), (b'b', 2, None), (b'c', 3, Some(3))];

const OF_TWO: Found = Found {
    map: &[(b'a', 1, 1), (b'c', 3, 1)],
    last: (3, 1),
};

const HINTS: &[Hinted] = &[
    (
        Text::Hint(71, TWO),
        Verdict::Good {
            covered: 71,
            rows: 3,
        },
        (1, 0),
        OF_TWO,
    ),
    // It covers the first record, or none.
    (
        Text::Hint(24, &[(b'a', 1, Some(1))]),
        Verdict::Good {
            covered: 24,
            rows: 1,
        },
        (1, 1),
        OF_TWO,
    ),
    (
        Text::Hint(0, &[]),
        Verdict::Good {
            covered: 0,
            rows: 0,
        },
        (1, 1),
        OF_TWO,
    ),
    // It lies: no record has this key. That of the third is found behind what it covers.
    (
        Text::Hint(47, &[(b'd', 8, Some(1))]),
        Verdict::Good {
            covered: 47,
            rows: 1,
        },
        (1, 1),
        Found {
            map: &[(b'c', 3, 1), (b'd', 8, 1)],
            last: (8, 1),
        },
    ),
    (
        Text::Hint(72, TWO),
        Verdict::LengthDiffers { said: 72, is: 71 },
        (0, 1),
        OF_TWO,
    ),
    (Text::Hint(70, TWO), Verdict::BadRow(2), (0, 1), OF_TWO),
    (
        Text::Hint(71, &[(b'a', 0, Some(1))]),
        Verdict::BadRow(0),
        (0, 1),
        OF_TWO,
    ),
    (Text::Bytes(b""), Verdict::NotWhole, (0, 1), OF_TWO),
    // The end mark of no row, with a checksum that isn't that of no byte.
    (
        Text::Bytes(&[
            0, 0, 0, 0, 0, 0, 0, 0, 0, 0, 0, 0, 0, 0, 0, 0, 0, 0, 0, 0, 0, 0, 0, 0, 0, 0, 0, 0, 0,
            7,
        ]),
        Verdict::BadCheck {
            stored: 7,
            computed: 0,
        },
        (0, 1),
        OF_TWO,
    ),
];

#[test]
fn a_hint_is_taken_where_it_is_good(rt: HostRuntime) {
    for (hint, verdict, counts, found) in HINTS {
        let files = [(1, Kind::Main, Text::Records(TWO)), (1, Kind::Hint, *hint)];
        let (_, loaded) = opens(&rt, rt.alloc(), &files, *found);
        assert_eq!(rt; loaded.report.hints.len(), 1);
        let note = loaded.report.hints.first().expect(&rt, "a note");
        assert_eq!(rt; note.verdict, *verdict);
        assert_eq!(rt; (loaded.report.hinted, loaded.report.scanned), *counts);
        let row = loaded.rows.first().expect(&rt, "a row");
        assert_eq!(rt; row.total, 71);
    }
}

const ODD: &[File] = &[
    // One seq twice: of two files the one with the lesser number counts, of one the earlier record.
    (
        3,
        Kind::Main,
        Text::Records(&[(b'a', 5, Some(1)), (b'a', 5, Some(2))]),
    ),
    (
        4,
        Kind::Main,
        Text::Records(&[(b'a', 5, Some(3)), (b'b', 6, Some(1))]),
    ),
    (5, Kind::Main, Text::Records(&[(b'c', 7, Some(9))])),
    (
        50,
        Kind::Main,
        Text::First(47, &[(b'k', 9, Some(1)), (b'l', 10, Some(2))]),
    ),
    // The second record has another checksum.
    (
        51,
        Kind::Main,
        Text::Changed(46, &[(b'm', 11, Some(1)), (b'n', 12, Some(2))]),
    ),
    (4_294_967_294, Kind::Main, Text::Bytes(b"")),
    (60, Kind::Hint, Text::Hint(24, &[(b'h', 8, Some(1))])),
    // Two lists that name each other's files.
    (70, Kind::Swap, Text::List(&[71], &[72])),
    (73, Kind::Swap, Text::List(&[72], &[71, 74, 74])),
    (71, Kind::MainTemp, Text::Records(&[(b'p', 20, Some(1))])),
    (72, Kind::MainTemp, Text::Records(&[(b'q', 21, Some(1))])),
    (74, Kind::MainTemp, Text::Records(&[(b'r', 22, Some(1))])),
];

const OF_ODD: Found = Found {
    map: &[
        (b'a', 5, 3),
        (b'b', 6, 4),
        (b'c', 7, 5),
        (b'k', 9, 50),
        (b'm', 11, 51),
        (b'r', 22, 74),
    ],
    last: (22, 4_294_967_294),
};

fn is_there(disk: &MemDisk, id: u32, kind: Kind) -> bool {
    disk.bytes(Name { id, kind }).is_some()
}

#[test]
fn odd_directories_open(rt: HostRuntime) {
    let mut disk = directory(&rt, rt.alloc(), ODD);
    // Files of 0 to 21 bytes.
    for len in 0u32..22 {
        let short = Text::First(len as usize, TWO);
        place(&rt, rt.alloc(), &mut disk, (10 + len, Kind::Main, short));
    }
    let (disk, result) = recovered(&rt, rt.alloc(), disk, WHOLE);
    let loaded = result.expect(&rt, "recovered");
    finds(&rt, rt.alloc(), &loaded, OF_ODD);
    assert_eq!(rt; loaded.rows.len(), 29);
    let first = loaded.rows.first().expect(&rt, "a row");
    assert_eq!(rt; first.total, 48);
    assert_eq!(rt; loaded.report.odd.len(), 0);
    // 21 of the short ones, 50 and 51.
    assert_eq!(rt; loaded.report.torn.len(), 23);
    assert!(rt; !is_there(&disk, 60, Kind::Hint));
    assert!(rt; !is_there(&disk, 71, Kind::MainTemp));
    assert!(rt; !is_there(&disk, 72, Kind::MainTemp));
}

// An odd list may be one that a later version can read, so nothing is cleared.
const UNREAD: &[File] = &[
    (2, Kind::Swap, Text::Bytes(b"odd")),
    (1, Kind::Main, Text::Records(&[(b'a', 1, Some(1))])),
    (3, Kind::MainTemp, Text::Records(&[(b'b', 2, Some(1))])),
    (7, Kind::Hint, Text::Bytes(b"")),
];

const OF_UNREAD: Found = Found {
    map: &[(b'a', 1, 1)],
    last: (1, 7),
};

#[test]
fn an_odd_list_leaves_what_is_temporary(rt: HostRuntime) {
    let (disk, loaded) = opens(&rt, rt.alloc(), UNREAD, OF_UNREAD);
    let odd = Name {
        id: 2,
        kind: Kind::Swap,
    };
    assert_eq!(rt; loaded.report.odd.as_slice(), [odd].as_slice());
    assert!(rt; is_there(&disk, 3, Kind::MainTemp));
    assert!(rt; is_there(&disk, 7, Kind::Hint));
}

const FIRST: &[Put] = &[(b'a', 1, Some(1)), (b'b', 2, Some(1)), (b'b', 3, None)];

const COPY: &[Put] = &[(b'a', 1, Some(1))];

// A merge of files 1 and 2 into 4 and 5, by list 3, and file 6 beside it. In state 0 the outputs were
// copied, in 1 the list is half written, in 2 it was committed, in 3 and 4 the outputs have their names,
// in 5 and 6 the inputs go, and in 7 the list is gone. Each file is there from a state on and before
// another.
const MERGE: &[(u32, u32, File)] = &[
    (0, 5, (1, Kind::Main, Text::Records(FIRST))),
    (0, 5, (1, Kind::Hint, Text::Hint(71, FIRST))),
    (
        0,
        6,
        (
            2,
            Kind::Main,
            Text::Records(&[(b'c', 4, Some(1)), (b'd', 5, Some(1))]),
        ),
    ),
    (1, 2, (3, Kind::SwapTemp, Text::Bytes(b"half"))),
    (2, 7, (3, Kind::Swap, Text::List(&[1, 2], &[4, 5]))),
    (0, 3, (4, Kind::MainTemp, Text::Records(COPY))),
    (3, 8, (4, Kind::Main, Text::Records(COPY))),
    (0, 3, (4, Kind::HintTemp, Text::Hint(24, COPY))),
    (3, 8, (4, Kind::Hint, Text::Hint(24, COPY))),
    (
        0,
        4,
        (5, Kind::MainTemp, Text::Records(&[(b'd', 5, Some(1))])),
    ),
    (4, 8, (5, Kind::Main, Text::Records(&[(b'd', 5, Some(1))]))),
    (
        0,
        8,
        (
            6,
            Kind::Main,
            Text::Records(&[(b'c', 6, None), (b'e', 7, Some(1))]),
        ),
    ),
];

fn merge(rt: &impl Abort, alloc: Global, state: u32) -> MemDisk {
    let mut disk = MemDisk::new(alloc);
    for (from, before, file) in MERGE {
        if *from <= state && state < *before {
            place(rt, alloc, &mut disk, *file);
        }
    }
    disk
}

// What is found of the merge: by its inputs before it was committed, by its outputs since.
const OF_INPUTS: Found = Found {
    map: &[(b'a', 1, 1), (b'd', 5, 2), (b'e', 7, 6)],
    last: (7, 6),
};

const OF_OUTPUTS: Found = Found {
    map: &[(b'a', 1, 4), (b'd', 5, 5), (b'e', 7, 6)],
    last: (7, 6),
};

fn finds_merge(rt: &impl Abort, alloc: Global, disk: MemDisk, state: u32) {
    let (_, result) = recovered(rt, alloc, disk, WHOLE);
    let found = if state < 2 { OF_INPUTS } else { OF_OUTPUTS };
    finds(rt, alloc, &result.expect(rt, "recovered"), found);
}

// Stops a recovery of the merge after so many calls, and the second one within itself. The third finds
// all. Gives whether the first came to its end.
fn stops(rt: &impl Abort, alloc: Global, state: u32, calls: u64, effect: u64) -> bool {
    let call = Call {
        calls,
        effect,
        view: 0,
    };
    let (disk, first) = recovered(rt, alloc, merge(rt, alloc, state), call);
    let again = Call {
        calls: calls / 2 + 1,
        ..call
    };
    let (disk, _) = recovered(rt, alloc, disk, again);
    finds_merge(rt, alloc, disk, state);
    match first {
        Ok(_) => true,
        Err(error) => {
            assert_eq!(rt; error, OpenError::Disk);
            false
        }
    }
}

#[test]
fn a_stopped_recovery_changes_nothing(rt: HostRuntime) {
    for state in 0u32..8 {
        let mut ended = false;
        for calls in 0u64..40 {
            let _ = stops(&rt, rt.alloc(), state, calls, 0);
            ended = stops(&rt, rt.alloc(), state, calls, 1);
        }
        assert!(rt; ended);
    }
}

// The list is read, and then files 4, 5 and 6. After a read that failed all counts as before.
#[test]
fn a_failed_read_changes_nothing(rt: HostRuntime) {
    for view in 1..5 {
        let call = Call { view, ..WHOLE };
        let (disk, result) = recovered(&rt, rt.alloc(), merge(&rt, rt.alloc(), 2), call);
        assert_eq!(rt; result.err(), Some(OpenError::Read));
        finds_merge(&rt, rt.alloc(), disk, 2);
    }
}

// What a file of the settings says, or that none is there.
fn read_settings(
    rt: &impl Abort,
    alloc: Global,
    text: Option<&[u8]>,
) -> Result<Settings, LoadSettings> {
    let mut disk = MemDisk::new(alloc);
    if let Some(text) = text {
        let name = Name {
            id: 0,
            kind: Kind::Settings,
        };
        disk.place(name, text).expect(rt, "memory");
    }
    settings(alloc, &mut disk)
}

#[test]
fn settings_are_read(rt: HostRuntime) {
    assert_eq!(rt; read_settings(&rt, rt.alloc(), None), Ok(Settings::plain()));
    let with_ttl = Settings {
        ttl: 7,
        ..Settings::plain()
    };
    assert_eq!(rt;
        read_settings(&rt, rt.alloc(), Some(b"ttl = 7")),
        Ok(with_ttl)
    );
    let long = vec![in rt.alloc(); b' '; 65_537].expect(&rt, "memory");
    let refused = SettingsError::TooLong { len: 65_537 };
    assert_eq!(rt;
        read_settings(&rt, rt.alloc(), Some(&long)),
        Err(LoadSettings::Bad(refused))
    );
}
