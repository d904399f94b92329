//! Folds over a keydir that changes, and the places of keys and versions as some go.
ghost use Rattle.std.specs.Prelude.{◌≡◌};

use bk_base::{FileId, Key, Moment, Seq, Version};
use bk_keydir::{FullFolds, Keydir};
use std::alloc::Global;
use std::process::Abort;

// A version of 100 bytes in file 1.
fn version(seq: u64, gone: bool) -> Version {
    Version {
        seq: Seq(seq),
        at: seq,
        moment: Moment(0),
        file: FileId(1),
        size: 100,
        crc: 7,
        gone,
    }
}

// The key of two letters with this number.
fn key(rt: &impl Abort, alloc: Global, number: u8) -> Key {
    Key::of(alloc, &[b'a' + number % 26, b'a' + number / 26]).expect(rt, "memory")
}

// Puts a version, or a tombstone, and gives the seq of the version that went.
fn put(
    rt: &impl Abort,
    alloc: Global,
    keydir: &mut Keydir,
    number: u8,
    seq: u64,
    gone: bool,
) -> u64 {
    let key = key(rt, alloc, number);
    keydir.ready(&key).expect(rt, "memory");
    let version = version(seq, gone);
    assert!(*rt; keydir.is_newer(&key, version.seq), "an older seq");
    seq_of(keydir.put_version(key, version))
}

fn seq_of(version: Option<Version>) -> u64 {
    match version {
        Some(version) => version.seq.0,
        None => 0,
    }
}

fn prune(keydir: &mut Keydir, position: u64) -> u64 {
    if position < keydir.len() {
        return seq_of(keydir.prune_at(position));
    }
    0
}

fn drop_key(keydir: &mut Keydir, position: u64) -> bool {
    position < keydir.len() && keydir.drop_at(position)
}

fn close(keydir: &mut Keydir, slot: u8) {
    if keydir.fold(slot).is_some() {
        keydir.close_fold(slot);
    }
}

fn open(keydir: &mut Keydir, epoch: u64) -> Option<u8> {
    keydir.open_fold(epoch, Seq(epoch), Moment(0)).ok()
}

// The seq of the next version that a fold lists, or 0.
fn next(keydir: &mut Keydir, slot: u8) -> u64 {
    if keydir.fold(slot).is_none() {
        return 0;
    }
    let Some(position) = keydir.next_at(slot, 0) else {
        return 0;
    };
    let seq = seq_of(keydir.seen_at(slot, position));
    if position < keydir.len() {
        keydir.step(slot, position);
    }
    seq
}

// The seqs of the newest versions that are puts, in the order of their keys.
fn live_seqs(rt: &impl Abort, alloc: Global, keydir: &Keydir) -> Vec<u64> {
    let mut seqs = Vec::new(alloc);
    for position in 0..keydir.len() {
        let newest = keydir.version_at(position, 0).expect(rt, "a version");
        if !newest.gone {
            seqs.push(newest.seq.0).expect(rt, "memory");
        }
    }
    seqs
}

fn move_newest(rt: &impl Abort, alloc: Global, keydir: &mut Keydir, number: u8, at: u64) -> bool {
    let key = key(rt, alloc, number);
    let seq = Seq(seq_of(keydir.newest(&key)));
    keydir.move_if(&key, seq, FileId(2), at)
}

// One change: a put, a delete, a move, a prune, or a drop, which a fold forbids.
fn change(
    rt: &impl Abort,
    alloc: Global,
    keydir: &mut Keydir,
    what: u64,
    number: u8,
    seq: u64,
) -> bool {
    match what {
        0 | 1 => put(rt, alloc, keydir, number, seq, what == 1) != 0,
        2 => move_newest(rt, alloc, keydir, number, seq),
        3 => prune(keydir, u64::from(number)) != 0,
        _ => drop_key(keydir, u64::from(number)),
    }
}

// A keydir of 40 keys, every seventh of which is gone.
fn forty_keys(rt: &impl Abort, alloc: Global) -> Keydir {
    let mut keydir = Keydir::new(alloc);
    for number in 0..40u8 {
        let seq = u64::from(number) + 1;
        put(rt, alloc, &mut keydir, number, seq, number % 7 == 0);
    }
    keydir
}

// What the fold lists while 300 changes are made, a step after each eighth of them.
fn listed_meanwhile(rt: &impl Abort, alloc: Global, keydir: &mut Keydir, slot: u8) -> Vec<u64> {
    let mut seqs = Vec::new(alloc);
    for turn in 0..300u64 {
        let mixed = turn.wrapping_mul(2_654_435_761) >> 7;
        change(
            rt,
            alloc,
            keydir,
            mixed % 5,
            (mixed / 5 % 40) as u8,
            turn + 41,
        );
        if turn % 8 == 7 {
            seqs.push(next(keydir, slot)).expect(rt, "memory");
        }
    }
    seqs
}

#[test]
fn a_fold_lists_its_epoch_whatever_changes(rt: HostRuntime) {
    let mut keydir = forty_keys(&rt, rt.alloc());
    let wanted = live_seqs(&rt, rt.alloc(), &keydir);
    let slot = open(&mut keydir, 40).expect(&rt, "a slot");
    let listed = listed_meanwhile(&rt, rt.alloc(), &mut keydir, slot);
    assert_eq!(rt; listed.get(..wanted.len()), Some(wanted.as_slice()));
    assert_eq!(rt; next(&mut keydir, slot), 0);
}

// A keydir with all its folds open, in the order of their slots.
fn full(rt: &impl Abort, alloc: Global) -> Keydir {
    let mut keydir = Keydir::new(alloc);
    for slot in 0..64u8 {
        assert_eq!(*rt; open(&mut keydir, u64::from(slot)), Some(slot));
    }
    keydir
}

#[test]
fn sixty_four_folds_fill_the_slots(rt: HostRuntime) {
    let mut keydir = full(&rt, rt.alloc());
    assert_eq!(rt; keydir.open_fold(1, Seq(5), Moment(9)), Err(FullFolds));
    close(&mut keydir, 40);
    close(&mut keydir, 17);
    assert_eq!(rt; open(&mut keydir, 99), Some(17));
    let owners = [keydir.owner(17), keydir.owner(40), keydir.owner(64)];
    assert_eq!(rt; owners, [Some(99), None, None]);
}

// A key with five versions, of which three folds see one each.
fn seen_by_three(rt: &impl Abort, alloc: Global) -> Keydir {
    let mut keydir = Keydir::new(alloc);
    for seq in 1..6u64 {
        put(rt, alloc, &mut keydir, 0, seq, false);
        if seq < 4 {
            let _slot = open(&mut keydir, seq);
        }
    }
    keydir
}

#[test]
fn versions_go_as_their_folds_close(rt: HostRuntime) {
    let mut keydir = seen_by_three(&rt, rt.alloc());
    for (slot, went) in [(1, 2), (0, 1), (2, 3)] {
        let before = prune(&mut keydir, 0);
        close(&mut keydir, slot);
        assert_eq!(rt; (before, prune(&mut keydir, 0)), (0, went));
    }
    assert_eq!(rt; prune(&mut keydir, 0), 0);
    let live = live_seqs(&rt, rt.alloc(), &keydir);
    assert_eq!(rt; live.as_slice(), [5].as_slice());
}

// A keydir of five keys, of which the second and the fourth are gone.
fn five_keys(rt: &impl Abort, alloc: Global) -> Keydir {
    let mut keydir = Keydir::new(alloc);
    for number in 0..5u8 {
        let seq = u64::from(number) + 1;
        put(rt, alloc, &mut keydir, number, seq, number % 2 == 1);
    }
    keydir
}

// The positions of the five keys.
fn assert_positions(rt: &impl Abort, alloc: Global, keydir: &Keydir, wanted: [Option<u64>; 5]) {
    for (number, position) in wanted.iter().enumerate() {
        let key = key(rt, alloc, number as u8);
        assert_eq!(*rt; keydir.position(&key), *position, "{number}");
    }
}

#[test]
fn no_key_is_dropped_under_a_fold(rt: HostRuntime) {
    let mut keydir = five_keys(&rt, rt.alloc());
    let slot = open(&mut keydir, 5).expect(&rt, "a slot");
    assert!(rt; !drop_key(&mut keydir, 1));
    close(&mut keydir, slot);
    assert!(rt; drop_key(&mut keydir, 1));
}

#[test]
fn the_last_key_takes_the_place_of_a_dropped_one(rt: HostRuntime) {
    let mut keydir = five_keys(&rt, rt.alloc());
    assert!(rt; !drop_key(&mut keydir, 0));
    assert!(rt; drop_key(&mut keydir, 1));
    let dropped = [Some(0), None, Some(2), Some(3), Some(1)];
    assert_positions(&rt, rt.alloc(), &keydir, dropped);
    if !keydir.has_folds() {
        keydir.drop_gone();
    }
    let left = [Some(0), None, Some(2), None, Some(1)];
    assert_positions(&rt, rt.alloc(), &keydir, left);
}
