//! The keydir.
ghost use Rattle.std.specs.Prelude.{◌≡◌, ◌≤◌, ◌<◌, ◌+◌, ◌^◌, ◌↔◌, ℕ, List, [], None, Some, length, position, slice_get, slice_set, option_copied, cond, true, false, not, ◌&&◌, IfOk, IfSome, IsErr, IsOk, IsSome, IsTrue, OnErr, OnOk};
ghost use Rattle.std.specs.List.{IsDistinct};
ghost use Rattle.std.specs.Map.{keys_of};
ghost use Rattle.std.specs.Str.{bytes_eq};
ghost use Rattle.indexmap.specs.IndexMap.{index_map_len, spare};
ghost use Rattle.bk_base.specs.declared.limits.TheConstants.{MOST_FOLDS};
ghost use Rattle.bk_base.specs.declared.writes.Version.{Version};
ghost use Rattle.bk_keydir.specs.declared.slots.Slot.{Slot};
ghost use Rattle.bk_keydir.specs.Counts.{MoveCounts, PruneCounts, PutCounts, SameCounts};
ghost use Rattle.bk_keydir.specs.Folds.{IsNext, KeepsFolds, MovedTo, is_listed};
ghost use Rattle.bk_keydir.specs.Keydir.{HasRoom, IsNewer, IsNewerThan, can_drop, dropped_at, edited, edited_at, is_lone_gone, is_put_of, key_at, left_by_prune, moved, newest_of, pruned, replaced, versions_at, versions_of, with_version, without_gone};
ghost use Rattle.bk_keydir.specs.Kept.{IsChain, all_shown, versions_if, versions_in};
ghost use Rattle.bk_keydir.specs.Slots.{IsOpen, at_epoch, first_free, has_open, opened, slot_at, stepped, who_of};

use crate::kept::Kept;
use crate::slots::{FullFolds, Slot, Slots};
use bk_base::{FileId, Key, Memory, Moment, Seq, Version};
use bk_laws::live;
use indexmap::IndexMap;
use std::alloc::Global;
use std::marker::Model;

/// What a sweep did: the position to go on from, None where it is at the end, and how many versions
/// and keys it took away.
#[derive(Clone, Copy, Debug, PartialEq, Eq)]
pub struct Swept {
    pub next: Option<u64>,
    pub pruned: u64,
    pub dropped: u64,
}

/// For each key its versions, newest first, and the folds that are open. Keys have positions, from 0
/// on, in the order in which they came, until one is dropped.
#[derive(Drop)]
pub struct Keydir {
    keys: IndexMap<Key, Kept>,
    slots: Slots,
    // Ready to take the versions of a key whose newest one has to be left to a fold.
    chain: Option<Vec<Version>>,
}

impl Model for Keydir {
    ghost use Rattle.std.specs.Prelude.{◌≡◌};
    ghost use Rattle.indexmap.specs.IndexMap.{spare};
    ghost use Rattle.bk_keydir.specs.Keydir.{Shown};
    ghost use Rattle.bk_keydir.specs.Kept.{AreChains, IsEmptyChain, all_shown, room_in};

    ghost Value = { Shown };

    ghost view = { λ d. record {
      entries = all_shown d.keys.entries;
      slots = d.slots;
      spare = spare d.keys;
      chain = room_in d.chain;
    } };

    ghost invariant = { λ d. AreChains (all_shown d.keys.entries) × IsEmptyChain d.chain };
}

impl Keydir {
    /// A keydir without keys and folds. It takes no memory.
    pub fn new(alloc: Global) -> Keydir
        ensures entries { result.entries ≡ [] }
        ensures folds { has_open result.slots ≡ false }
        ensures slots { length result.slots ≡ MOST_FOLDS }
    {
        Keydir {
            keys: IndexMap::new(alloc),
            slots: Slots::new(),
            chain: None,
        }
    }

    // What is kept of a key, and of the key at a place.
    fn kept(&self, key: &Key) -> Option<&Kept>
        ensures versions { versions_of key.now self.now.entries ≡ versions_if (option_copied result) }
        ensures chain { IfSome result (λ kept. IsChain (versions_in kept.now)) }
    {
        self.keys.get(key)
    }

    fn kept_at(&self, place: usize) -> Option<&Kept>
        ensures versions { versions_at place self.now.entries ≡ versions_if (option_copied result) }
        ensures chain { IfSome result (λ kept. IsChain (versions_in kept.now)) }
        ensures found { IsSome result ↔ (place < length self.now.entries) }
    {
        match self.keys.get_index(place) {
            Some((_, kept)) => Some(kept),
            None => None,
        }
    }

    /// The newest version of a key.
    pub fn newest(&self, key: &Key) -> Option<Version>
        ensures { result ≡ newest_of (versions_of key.now self.now.entries) }
    {
        Some(self.kept(key)?.newest())
    }

    /// The newest version of a key that is kept and has a seq of at most the epoch.
    pub fn at_epoch(&self, key: &Key, epoch: Seq) -> Option<Version>
        ensures { result ≡ at_epoch epoch.0 (versions_of key.now self.now.entries) }
    {
        self.kept(key)?.at_epoch(epoch)
    }

    /// Makes room for one new key.
    pub fn reserve(&mut self) -> Result<(), Memory>
        ensures room { OnOk result (0 < self.new.spare) }
        ensures enough { 0 < self.old.spare → IsOk result }
        ensures same { self.new ≡ record self.old { spare = self.new.spare } }
        ensures more { self.old.spare ≤ self.new.spare }
    {
        self.keys.reserve(1).map_err(|_| Memory)
    }

    /// Makes room for one version of this key. It can't be refused where there is room already: for a
    /// new key where `spare` isn't 0, and for one that is there where no fold is open.
    pub fn ready(&mut self, key: &Key) -> Result<(), Memory>
        ensures room { OnOk result (HasRoom key.now self.new) }
        ensures enough { HasRoom key.now self.old → IsOk result }
        ensures same { self.new ≡ record self.old { spare = self.new.spare; chain = self.new.chain } }
        ensures more { self.old.spare ≤ self.new.spare }
    {
        let spare = self.keys.capacity() - self.keys.len();
        if spare > 0 && !self.slots.has_open() {
            return Ok(());
        }
        let Some(kept) = self.kept(key) else {
            return self.reserve();
        };
        if !self.slots.reach(kept.newest().seq) {
            return Ok(());
        }
        let len = kept.len();
        self.ready_chain(len + 1)
    }

    // Makes a chain ready that takes so many versions.
    fn ready_chain(&mut self, len: usize) -> Result<(), Memory>
        ensures room { OnOk result (len ≤ self.new.chain) }
        ensures enough { len ≤ self.old.chain → IsOk result }
        ensures same { self.new ≡ record self.old { chain = self.new.chain } }
    {
        match &self.chain {
            Some(chain) if len <= chain.capacity() => Ok(()),
            _ => {
                let alloc = *self.keys.allocator();
                self.chain = Some(Vec::with_capacity(alloc, len)?);
                Ok(())
            }
        }
    }

    /// Whether a version of this key with this seq may be put: the seq is greater than that of its
    /// newest version and than the epoch of each open fold.
    pub fn is_newer(&self, key: &Key, seq: Seq) -> bool
        ensures { IsTrue result ↔ IsNewer seq.0 key.now self.now }
    {
        is_above(self.newest(key), seq) && !self.slots.reach(seq)
    }

    /// Puts a version that is newer than all others: it becomes the key's newest. The earlier newest
    /// stays where an open fold sees it. Otherwise it goes, and is given back. A new key comes last.
    /// It takes no memory.
    pub fn put_version(&mut self, key: Key, version: Version) -> Option<Version>
        requires room { HasRoom key self.old }
        requires newer { IsNewer version.seq.0 key self.old }
        ensures replaced { result ≡ replaced self.old.slots (versions_of key self.old.entries) }
        ensures entries { self.new.entries
            ≡ with_version self.old.slots key version self.old.entries }
        ensures folds { KeepsFolds self.old self.new }
        ensures counts { PutCounts version (newest_of (versions_of key self.old.entries)) result
            self.old.entries self.new.entries }
        ensures spare { self.old.spare ≤ self.new.spare + 1 }
    {
        let inserted: Result<_, _> = self.keys.insert_full(key, Kept::one(version));
        let (place, earlier) = inserted.unwrap();
        let earlier = earlier?;
        let newest = earlier.newest();
        let is_seen = self.slots.reach(newest.seq);
        let kept = earlier.overwritten(version, is_seen, &mut self.chain);
        let (_, there) = self.keys.pair_mut(place);
        *there = kept;
        unless(is_seen, newest)
    }

    /// Opens a fold of this epoch in the least free slot. `FullFolds` comes exactly where 64 are open.
    pub fn open_fold(&mut self, who: u64, epoch: Seq, now: Moment) -> Result<u8, FullFolds>
        ensures slot { IfOk result (λ slot. first_free self.old.slots ≡ Some slot) }
        ensures ok { IfOk result (λ slot. self.new
            ≡ record self.old { slots = slice_set self.old.slots slot (Some (opened who epoch now)) }) }
        ensures full { IsErr result ↔ (first_free self.old.slots ≡ None) }
        ensures err { OnErr result (self.new ≡ self.old) }
    {
        self.slots.open(Slot {
            who,
            cursor: 0,
            epoch,
            now,
        })
    }

    /// Whether a fold is open.
    pub fn has_folds(&self) -> bool
        ensures { result ≡ has_open self.now.slots }
    {
        self.slots.has_open()
    }

    /// The fold in this slot.
    pub fn fold(&self, slot: u8) -> Option<Slot>
        ensures { result ≡ slot_at self.now.slots slot }
    {
        self.slots.get(slot)
    }

    /// Who opened the fold in this slot.
    pub fn owner(&self, slot: u8) -> Option<u64>
        ensures { result ≡ who_of (slot_at self.now.slots slot) }
    {
        match self.slots.get(slot) {
            Some(fold) => Some(fold.who),
            None => None,
        }
    }

    /// The position of the next key that the fold lists, for a time to live in seconds: the first
    /// from the cursor on whose version at the epoch is a live put. None where it has listed all.
    pub fn next_at(&self, slot: u8, ttl: u32) -> Option<u64>
        requires { IsSome (slot_at self.now.slots slot) }
        ensures { (s : Slot) → slot_at self.now.slots slot ≡ Some s
            → IsNext ttl s self.now.entries result }
    {
        let fold = self.fold(slot)?;
        let len = self.len();
        for place in fold.cursor.min(len)..len {
            if self.lists(fold, ttl, place as usize) {
                return Some(place);
            }
        }
        None
    }

    // Whether the fold lists the key at this place.
    fn lists(&self, fold: Slot, ttl: u32, place: usize) -> bool
        ensures { result
            ≡ is_listed ttl fold (at_epoch fold.epoch.0 (versions_at place self.now.entries)) }
    {
        match self.seen_by(fold, place) {
            Some(version) => !version.gone && live(version.moment, fold.now, ttl),
            None => false,
        }
    }

    fn seen_by(&self, fold: Slot, place: usize) -> Option<Version>
        ensures { result ≡ at_epoch fold.epoch.0 (versions_at place self.now.entries) }
    {
        self.kept_at(place)?.at_epoch(fold.epoch)
    }

    /// The version that the fold sees of the key at a position.
    pub fn seen_at(&self, slot: u8, position: u64) -> Option<Version>
        ensures { (s : Slot) → slot_at self.now.slots slot ≡ Some s
            → result ≡ at_epoch s.epoch.0 (versions_at position self.now.entries) }
    {
        let fold = self.slots.get(slot)?;
        self.seen_by(fold, position as usize)
    }

    /// Moves the fold's cursor past a position.
    pub fn step(&mut self, slot: u8, position: u64)
        requires open { IsSome (slot_at self.old.slots slot) }
        requires within { position < length self.old.entries }
        ensures { self.new ≡ record self.old {
          slots = slice_set self.old.slots slot
              (stepped position (slot_at self.old.slots slot));
        } }
    {
        let _len = self.keys.len();
        self.slots.step(slot, position);
    }

    /// Closes the fold in this slot.
    pub fn close_fold(&mut self, slot: u8)
        requires { IsSome (slot_at self.old.slots slot) }
        ensures { self.new ≡ record self.old { slots = slice_set self.old.slots slot None } }
    {
        self.slots.close(slot);
    }

    /// Records that the record of a key's newest version now stands elsewhere, exactly where that
    /// version has this seq and is a put.
    pub fn move_if(&mut self, key: &Key, seq: Seq, to: FileId, at: u64) -> bool
        ensures moved { result ≡ is_put_of seq.0 (versions_of key.now self.old.entries) }
        ensures entries { self.new ≡ record self.old
            { entries = edited key.now (moved seq.0 to at) self.old.entries } }
        ensures nothing { result ≡ false → self.new ≡ self.old }
        ensures folds { result ≡ true → (s : Slot) → IsOpen self.old.slots s
            → MovedTo key.now seq.0 to at s self.old.entries self.new.entries }
        ensures counts { IsTrue result → MoveCounts to at
            (versions_of key.now self.old.entries) self.old.entries self.new.entries }
    {
        let Some(place) = self.keys.get_index_of(key) else {
            return false;
        };
        let (_, kept) = self.keys.pair_mut(place);
        kept.move_if(seq, to, at)
    }

    /// Takes one version of the key at a position that isn't its newest and that no open fold sees,
    /// and gives it. None, and nothing changed, exactly where there is no such version.
    pub fn prune_at(&mut self, position: u64) -> Option<Version>
        requires { position < length self.old.entries }
        ensures pruned { result ≡ pruned self.old.slots (versions_at position self.old.entries) }
        ensures entries { self.new ≡ record self.old
            { entries = edited_at position (left_by_prune self.old.slots) self.old.entries } }
        ensures nothing { result ≡ None → self.new ≡ self.old }
        ensures folds { KeepsFolds self.old self.new }
        ensures counts { PruneCounts result self.old.entries self.new.entries }
    {
        let (_, kept) = self.keys.pair_mut(position as usize);
        kept.prune(&self.slots)
    }

    /// Drops the key at a position, exactly where no fold is open, its newest version is Gone and it
    /// has no other. The last key takes its place: nobody sees the order while no fold is open, and
    /// to close up would move each later key.
    pub fn drop_at(&mut self, position: u64) -> bool
        requires { position < length self.old.entries }
        ensures dropped { result ≡ can_drop self.old.slots (versions_at position self.old.entries) }
        ensures entries { self.new.entries
            ≡ cond result (dropped_at position self.old.entries) self.old.entries }
        ensures folds { KeepsFolds self.old self.new }
        ensures counts { SameCounts self.old.entries self.new.entries }
        ensures spare { self.old.spare ≤ self.new.spare }
        ensures chain { self.new.chain ≡ self.old.chain }
    {
        if self.slots.has_open() {
            return false;
        }
        let place = position as usize;
        let can_drop = self.is_lone_gone(place);
        if can_drop {
            drop_entry(&mut self.keys, place);
        }
        can_drop
    }

    // Whether the key at a place has one version, which says that it is gone.
    fn is_lone_gone(&self, place: usize) -> bool
        ensures { result ≡ is_lone_gone (versions_at place self.now.entries) }
    {
        match self.kept_at(place) {
            Some(kept) => kept.is_lone_gone(),
            None => false,
        }
    }

    /// Drops in one pass all keys that `drop_at` would drop. The others keep their order. It is for a
    /// load, which keeps one version of each key: then no key is left whose version is Gone.
    pub fn drop_gone(&mut self)
        requires { has_open self.old.slots ≡ false }
        ensures entries { self.new.entries ≡ without_gone self.old.entries }
        ensures slots { self.new.slots ≡ self.old.slots }
        ensures counts { SameCounts self.old.entries self.new.entries }
        ensures spare { self.old.spare ≤ self.new.spare }
        ensures chain { self.new.chain ≡ self.old.chain }
    {
        self.keys.retain(
            |_key: &Key, kept: &mut Kept| -> bool
                ensures { (result ≡ not (is_lone_gone (versions_in kept.old))) × (kept.new ≡ kept.old) }
            { !kept.is_lone_gone() },
        );
    }

    /// The number of keys.
    pub fn len(&self) -> u64
        ensures len { result ≡ length self.now.entries }
        ensures small { result < 2 ^ 63 }
        ensures distinct { IsDistinct bytes_eq (keys_of self.now.entries) }
    {
        self.keys.len() as u64
    }

    /// Whether there is no key.
    pub fn is_empty(&self) -> bool
        ensures { IsTrue result ↔ (self.now.entries ≡ []) }
    {
        self.keys.is_empty()
    }

    /// The position of a key, None exactly where it isn't there.
    pub fn position(&self, key: &Key) -> Option<u64>
        ensures place { result ≡ position (bytes_eq key.now) (keys_of self.now.entries) }
        ensures found { IfSome result (λ place. place < length self.now.entries) }
    {
        match self.keys.get_index_of(key) {
            Some(place) => Some(place as u64),
            None => None,
        }
    }

    /// The key at a position.
    pub fn key_at(&self, position: u64) -> &Key
        requires { position < length self.now.entries }
        ensures { key_at position self.now.entries ≡ Some result.now }
    {
        let (key, _) = self.keys.get_index(position as usize).unwrap();
        key
    }

    /// The version of the key at a position that has this number, from 0 and newest first.
    pub fn version_at(&self, position: u64, number: u64) -> Option<Version>
        requires { position < length self.now.entries }
        ensures { result ≡ slice_get (versions_at position self.now.entries) number }
    {
        self.kept_at(position as usize)?.nth(number as usize)
    }
}

// Whether a seq is above that of the newest version.
fn is_above(newest: Option<Version>, seq: Seq) -> bool
    ensures { (vs : List Version) → newest ≡ newest_of vs → IsTrue result ↔ IsNewerThan seq.0 vs }
{
    match newest {
        Some(newest) => newest.seq.0 < seq.0,
        None => true,
    }
}

// The version, unless it is kept for a fold.
fn unless(is_seen: bool, version: Version) -> Option<Version>
    ensures { result ≡ cond is_seen None (Some version) }
{
    if is_seen { None } else { Some(version) }
}

// Drops the entry at a place, which the last one takes.
fn drop_entry(keys: &mut IndexMap<Key, Kept>, place: usize)
    requires { place < index_map_len keys.old }
    ensures entries { all_shown keys.new.entries ≡ dropped_at place (all_shown keys.old.entries) }
    ensures spare { spare keys.old ≤ spare keys.new }
{
    let _dropped = keys.swap_remove_index(place);
}
