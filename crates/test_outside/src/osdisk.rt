//! The adapters over a real folder.
use bk_base::{Kind, Name};
use bk_disk::{Disk, DiskError, Listed, Out, View};
use bk_osdisk::{OsDisk, OsRefused, Reason};
use std::fs::Permissions;
use std::os::unix::fs::PermissionsExt;
use std::process::Abort;
use std::test::Fail;
use std::{fs, process};

const FIRST: Name = Name {
    id: 1,
    kind: Kind::Main,
};

const LENT: Name = Name {
    id: 2,
    kind: Kind::MainTemp,
};

const MOVED: Name = Name {
    id: 2,
    kind: Kind::Main,
};

const UNLISTED: Name = Name {
    id: 0,
    kind: Kind::Main,
};

/// A call of the disk.
#[derive(Clone, Copy, Debug, PartialEq, Eq)]
enum Call {
    Create(Name),
    Ready(Name, u64),
    Append(Name, &'static [u8]),
    Cut(Name, u64),
    Sync(Name),
    Rename(Name, Name),
    Remove(Name),
    /// A view from this place on, which shows these bytes.
    Show(Name, u64, &'static [u8]),
}

type Answer = Result<(), DiskError>;

const FAILED: Answer = Err(DiskError::Failed);

const WRITTEN: &[(Call, Answer)] = &[
    (Call::Create(FIRST), Ok(())),
    (Call::Ready(FIRST, 5), Ok(())),
    (Call::Append(FIRST, b"hello"), Ok(())),
    (Call::Show(FIRST, 1, b"ell"), Ok(())),
    (Call::Show(FIRST, 3, b"lo "), FAILED),
    (Call::Cut(FIRST, 4), Ok(())),
    (Call::Sync(FIRST), Ok(())),
];

const CUT: &[(Call, Answer)] = &[
    (Call::Create(FIRST), Ok(())),
    (Call::Append(FIRST, b"one "), Ok(())),
    (Call::Append(FIRST, b"two "), Ok(())),
    (Call::Cut(FIRST, 6), Ok(())),
    (Call::Append(FIRST, b"three"), Ok(())),
    (Call::Show(FIRST, 0, b"one twthree"), Ok(())),
    (Call::Show(FIRST, 0, b"one twthree "), FAILED),
];

const MOVES: &[(Call, Answer)] = &[
    (Call::Rename(LENT, MOVED), Ok(())),
    (Call::Rename(LENT, MOVED), Ok(())),
];

const REMOVALS: &[(Call, Answer)] = &[
    (Call::Remove(MOVED), Ok(())),
    (Call::Remove(MOVED), Ok(())),
    (Call::Remove(UNLISTED), Ok(())),
    (Call::Create(UNLISTED), FAILED),
    (Call::Append(MOVED, b"x"), FAILED),
];

// Of which views are made before the rest.
const OLD: &[(Call, Answer)] = &[
    (Call::Create(FIRST), Ok(())),
    (Call::Append(FIRST, b"old bytes"), Ok(())),
];

const RENAMED: &[(Call, Answer)] = &[
    (Call::Rename(FIRST, MOVED), Ok(())),
    (Call::Create(FIRST), Ok(())),
    (Call::Append(FIRST, b"new"), Ok(())),
];

const REMADE: &[(Call, Answer)] = &[
    (Call::Show(MOVED, 0, b"old bytes"), Ok(())),
    (Call::Remove(MOVED), Ok(())),
    (Call::Create(MOVED), Ok(())),
    (Call::Append(MOVED, b"others"), Ok(())),
];

const NEW: &[(Call, Answer)] = &[
    (Call::Show(FIRST, 0, b"new"), Ok(())),
    (Call::Show(MOVED, 0, b"others"), Ok(())),
];

const NO_FILE: &[(Call, Answer)] = &[
    (Call::Create(MOVED), FAILED),
    (Call::Append(MOVED, b"x"), FAILED),
    (Call::Show(MOVED, 0, b""), FAILED),
];

// What the view gives in one read, which is all that it shows.
fn assert_shows<V: View + Drop>(rt: &impl Abort, mut view: V, bytes: &[u8]) {
    let mut into = [0; 16];
    assert_eq!(*rt; view.read(&mut into), Ok(bytes.len()));
    assert!(*rt; into.starts_with(bytes), "the file has other bytes");
    assert_eq!(*rt; view.read(&mut into), Ok(0));
}

fn done(rt: &impl Abort, disk: &mut OsDisk<HostRuntime>, call: Call) -> Answer {
    match call {
        Call::Create(name) => disk.create(name),
        Call::Ready(name, bytes) => Ok(disk.ready(name, bytes)?),
        Call::Append(name, piece) => Ok(disk.append(name, piece)?),
        Call::Cut(name, len) => Ok(disk.cut(name, len)?),
        Call::Sync(name) => Ok(disk.sync(name)?),
        Call::Rename(from, to) => disk.rename(from, to),
        Call::Remove(name) => disk.remove(name),
        Call::Show(name, at, bytes) => {
            assert_shows(rt, disk.view(name, at, bytes.len() as u64)?, bytes);
            Ok(())
        }
    }
}

// The calls answer so.
fn plays(rt: &impl Abort, disk: &mut OsDisk<HostRuntime>, calls: &[(Call, Answer)]) {
    for (call, answer) in calls {
        assert_eq!(*rt; done(rt, disk, *call), *answer, "{call:?}");
    }
}

// The files of the disk, of which there is one at most.
fn lists(rt: &impl Abort, disk: &mut OsDisk<HostRuntime>, only: Option<(Name, u64)>) {
    let files = disk.list().expect(rt, "listed");
    let found = files.as_slice().first();
    assert_eq!(*rt; found.map(|Listed { name, len }| (*name, *len)), only);
    assert!(*rt; files.len() < 2, "more than one file");
}

// A folder of the test's own.
fn new_folder(rt: HostRuntime, word: &str) -> Result<String, Fail> {
    let path = format!(in rt.alloc(); "/tmp/bk_osdisk-{word}-{}", process::id(rt.process()))?;
    fs::create_dir(&rt, path.as_str())?;
    Ok(path)
}

// Why the folder can't be opened.
fn refusal(rt: HostRuntime, folder: &str) -> Option<OsRefused> {
    OsDisk::new(rt, folder).err()
}

#[test]
fn a_file_is_written_and_read(rt: HostRuntime) -> Result<(), Fail> {
    let folder = new_folder(rt, "written")?;
    let mut disk = OsDisk::new(rt, folder.as_str())?;
    plays(&rt, &mut disk, WRITTEN);
    lists(&rt, &mut disk, Some((FIRST, 4)));
    fs::remove_dir_all(&rt, folder.as_str())?;
    Ok(())
}

#[test]
fn an_append_stands_where_the_cut_left_off(rt: HostRuntime) -> Result<(), Fail> {
    let folder = new_folder(rt, "cut")?;
    let mut disk = OsDisk::new(rt, folder.as_str())?;
    plays(&rt, &mut disk, CUT);
    fs::remove_dir_all(&rt, folder.as_str())?;
    Ok(())
}

#[test]
fn a_folder_has_one_disk(rt: HostRuntime) -> Result<(), Fail> {
    let folder = new_folder(rt, "one")?;
    let _disk = OsDisk::new(rt, folder.as_str())?;
    assert_eq!(rt; refusal(rt, folder.as_str()), Some(OsRefused::Lock));
    fs::remove_dir_all(&rt, folder.as_str())?;
    let reason = Reason::NotFound;
    assert_eq!(rt;
        refusal(rt, folder.as_str()),
        Some(OsRefused::Directory(reason))
    );
    Ok(())
}

// Lends a file, and writes and returns it.
fn lends(rt: &impl Abort, disk: &mut OsDisk<HostRuntime>, name: Name, piece: &[u8]) {
    let mut out = disk.lend(name).expect(rt, "lent");
    assert_eq!(*rt; out.append(piece), Ok(()));
    assert_eq!(*rt; out.sync(), Ok(()));
    disk.adopt(out);
}

#[test]
fn a_file_is_lent_moved_and_removed(rt: HostRuntime) -> Result<(), Fail> {
    let folder = new_folder(rt, "lent")?;
    let mut disk = OsDisk::new(rt, folder.as_str())?;
    lends(&rt, &mut disk, LENT, b"part");
    plays(&rt, &mut disk, MOVES);
    lists(&rt, &mut disk, Some((MOVED, 4)));
    plays(&rt, &mut disk, REMOVALS);
    lists(&rt, &mut disk, None);
    fs::remove_dir_all(&rt, folder.as_str())?;
    Ok(())
}

// The views of a file that is moved, and of one that is removed, show its old bytes.
fn keeps_views(rt: &impl Abort, disk: &mut OsDisk<HostRuntime>) -> Result<(), DiskError> {
    let moved = disk.view(FIRST, 0, 9)?;
    let removed = disk.view(FIRST, 4, 5)?;
    plays(rt, disk, RENAMED);
    assert_shows(rt, moved, b"old bytes");
    plays(rt, disk, REMADE);
    assert_shows(rt, removed, b"bytes");
    Ok(())
}

#[test]
fn a_view_keeps_the_file_that_it_was_made_of(rt: HostRuntime) -> Result<(), Fail> {
    let folder = new_folder(rt, "kept")?;
    let mut disk = OsDisk::new(rt, folder.as_str())?;
    plays(&rt, &mut disk, OLD);
    assert_eq!(rt; keeps_views(&rt, &mut disk), Ok(()));
    plays(&rt, &mut disk, NEW);
    fs::remove_dir_all(&rt, folder.as_str())?;
    Ok(())
}

// Makes the file as long as the file system lets it be. It has holes, and takes no room.
fn longest(disk: &mut OsDisk<HostRuntime>) -> u64 {
    let (mut longest, mut step) = (0u64, 1u64 << 62);
    for _ in 0..63 {
        let longer = longest.saturating_add(step);
        if disk.cut(FIRST, longer).is_ok() {
            longest = longer;
        }
        step /= 2;
    }
    longest
}

// How long the only file is.
fn length(rt: &impl Abort, disk: &mut OsDisk<HostRuntime>) -> u64 {
    let files = disk.list().expect(rt, "listed");
    files.as_slice().first().map_or(0, |file| file.len)
}

// An append at this place of the only file keeps a first part of its bytes.
fn stops_in_its_middle(rt: &impl Abort, disk: &mut OsDisk<HostRuntime>, before: u64) {
    let done = disk.append(FIRST, b"hello").is_ok();
    let kept = length(rt, disk).saturating_sub(before);
    assert!(*rt; kept <= 5, "{kept} bytes of 5");
    assert_eq!(*rt; done, kept == 5, "{kept} bytes of 5");
    let view = disk.view(FIRST, before, kept).expect(rt, "viewed");
    assert_shows(rt, view, &b"hello"[..kept as usize]);
}

const SHORT: &[(Call, Answer)] = &[
    (Call::Create(FIRST), Ok(())),
    (Call::Append(FIRST, b"ab"), Ok(())),
];

const SHORT_AGAIN: &[(Call, Answer)] = &[
    (Call::Cut(FIRST, 2), Ok(())),
    (Call::Append(FIRST, b"c"), Ok(())),
    (Call::Show(FIRST, 0, b"abc"), Ok(())),
];

#[test]
fn an_append_stops_in_its_middle(rt: HostRuntime) -> Result<(), Fail> {
    let folder = new_folder(rt, "longest")?;
    let mut disk = OsDisk::new(rt, folder.as_str())?;
    plays(&rt, &mut disk, SHORT);
    let before = longest(&mut disk).saturating_sub(3);
    assert_eq!(rt; disk.cut(FIRST, before), Ok(()));
    stops_in_its_middle(&rt, &mut disk, before);
    plays(&rt, &mut disk, SHORT_AGAIN);
    fs::remove_dir_all(&rt, folder.as_str())?;
    Ok(())
}

#[test]
fn what_is_no_folder_or_no_lock_file(rt: HostRuntime) -> Result<(), Fail> {
    let folder = new_folder(rt, "refused")?;
    let path = |name: &str| format!(in rt.alloc(); "{folder}/{name}");
    fs::create_dir(&rt, path("bitcask.write.lock")?)?;
    fs::write(&rt, path("file")?, "text")?;
    let (lock, file) = (Reason::LockFile, Reason::NotADirectory);
    assert_eq!(rt;
        refusal(rt, folder.as_str()),
        Some(OsRefused::Directory(lock))
    );
    assert_eq!(rt;
        refusal(rt, path("file")?.as_str()),
        Some(OsRefused::Directory(file))
    );
    fs::remove_dir_all(&rt, folder.as_str())?;
    Ok(())
}

#[test]
fn a_file_that_may_only_be_read_is_viewed(rt: HostRuntime) -> Result<(), Fail> {
    let folder = new_folder(rt, "read")?;
    let path = format!(in rt.alloc(); "{folder}/1.bitcask.data")?;
    fs::write(&rt, path.as_str(), "read")?;
    fs::set_permissions(&rt, path.as_str(), Permissions::from_mode(0o444))?;
    let mut disk = OsDisk::new(rt, folder.as_str())?;
    plays(&rt, &mut disk, &[(Call::Show(FIRST, 0, b"read"), Ok(()))]);
    lists(&rt, &mut disk, Some((FIRST, 4)));
    fs::remove_dir_all(&rt, folder.as_str())?;
    Ok(())
}

#[test]
fn a_folder_with_the_name_of_a_file_is_no_file(rt: HostRuntime) -> Result<(), Fail> {
    let folder = new_folder(rt, "kinds")?;
    fs::create_dir(&rt, format!(in rt.alloc(); "{folder}/2.bitcask.data")?)?;
    let mut disk = OsDisk::new(rt, folder.as_str())?;
    assert_eq!(rt; disk.list().err(), Some(DiskError::Failed));
    plays(&rt, &mut disk, NO_FILE);
    fs::remove_dir_all(&rt, folder.as_str())?;
    Ok(())
}
