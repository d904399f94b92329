//! The folds that are open.
ghost use Rattle.std.specs.Prelude.{◌≡◌, ◌<◌, ◌^◌, ◌↔◌, None, Some, length, slice_set, false, IfOk, IfSome, IsErr, OnErr};
ghost use Rattle.bk_base.specs.declared.limits.TheConstants.{MOST_FOLDS};
ghost use Rattle.bk_keydir.specs.Slots.{first_free, has_open, higher, highest_of, lies_in, reaches, slot_at, stepped, within};

use bk_base::limits::MOST_FOLDS;
use bk_base::{Moment, Seq};
use std::marker::Model;

/// An open fold: who opened it, and the epoch and the moment that it lists. It has listed the keys
/// at the positions before `cursor`.
#[derive(Clone, Copy, Debug, PartialEq, Eq)]
pub struct Slot {
    pub who: u64,
    pub cursor: u64,
    pub epoch: Seq,
    pub now: Moment,
}

/// As many folds are open as there are slots.
#[derive(Clone, Copy, Debug, PartialEq, Eq)]
pub struct FullFolds;

/// The slots, seen as the list of what stands in them. The greatest epoch of an open fold is kept
/// beside them, so that a put needs no look at each slot.
#[derive(Drop)]
pub(crate) struct Slots {
    slots: [Option<Slot>; MOST_FOLDS as usize],
    highest: Option<Seq>,
}

impl Model for Slots {
    ghost use Rattle.std.specs.Prelude.{◌≡◌, List, Option, length};
    ghost use Rattle.bk_base.specs.declared.limits.TheConstants.{MOST_FOLDS};
    ghost use Rattle.bk_keydir.specs.declared.slots.Slot.{Slot};
    ghost use Rattle.bk_keydir.specs.Slots.{highest_of};

    ghost Value = { List (Option Slot) };

    ghost view = { λ s. s.slots };

    ghost invariant = { λ s. (length s.slots ≡ MOST_FOLDS) × (s.highest ≡ highest_of s.slots) };
}

impl Slots {
    /// All slots free.
    pub(crate) fn new() -> Slots
        ensures free { has_open result ≡ false }
        ensures len { length result ≡ MOST_FOLDS }
    {
        Slots {
            slots: [None; MOST_FOLDS as usize],
            highest: None,
        }
    }

    /// What stands in a slot.
    pub(crate) fn get(&self, slot: u8) -> Option<Slot>
        ensures { result ≡ slot_at self.now slot }
    {
        let place = usize::from(slot);
        if place < self.slots.len() {
            self.slots[place]
        } else {
            None
        }
    }

    /// Whether a fold is open.
    pub(crate) fn has_open(&self) -> bool
        ensures { result ≡ has_open self.now }
    {
        self.highest.is_some()
    }

    /// Whether an open fold has an epoch of at least this seq.
    pub(crate) fn reach(&self, seq: Seq) -> bool
        ensures { result ≡ reaches self.now seq.0 }
    {
        match self.highest {
            Some(epoch) => seq.0 <= epoch.0,
            None => false,
        }
    }

    /// Whether an open fold has an epoch from `low` on and below `high`.
    pub(crate) fn lie_within(&self, low: Seq, high: Seq) -> bool
        ensures { result ≡ within self.now low.0 high.0 }
    {
        self.slots.iter().any(|slot| lies_in(*slot, low.0, high.0))
    }

    /// Opens a fold in the least free slot.
    pub(crate) fn open(&mut self, fold: Slot) -> Result<u8, FullFolds>
        ensures slot { IfOk result (λ slot. first_free self.old ≡ Some slot) }
        ensures ok { IfOk result (λ slot. self.new ≡ slice_set self.old slot (Some fold)) }
        ensures err { IsErr result ↔ (first_free self.old ≡ None) }
        ensures same { OnErr result (self.new ≡ self.old) }
    {
        match first_free(&self.slots) {
            Some(place) => {
                self.put(place, Some(fold));
                Ok(place as u8)
            }
            None => Err(FullFolds),
        }
    }

    /// Moves the cursor of the fold in this slot past a position.
    pub(crate) fn step(&mut self, slot: u8, position: u64)
        requires { position < 2 ^ 63 }
        ensures { self.new ≡ slice_set self.old slot (stepped position (slot_at self.old slot)) }
    {
        let slots = &self.slots;
        let place = usize::from(slot);
        if place < slots.len() {
            let moved = moved_past(slots[place], position);
            self.put(place, moved);
        }
    }

    /// Frees a slot.
    pub(crate) fn close(&mut self, slot: u8)
        ensures { self.new ≡ slice_set self.old slot None }
    {
        let slots = &self.slots;
        let place = usize::from(slot);
        if place < slots.len() {
            self.put(place, None);
        }
    }

    fn put(&mut self, place: usize, slot: Option<Slot>)
        requires { place < MOST_FOLDS }
        ensures { self.new ≡ slice_set self.old place slot }
    {
        self.slots[place] = slot;
        self.highest = highest(&self.slots);
    }
}

// The first slot that is free.
fn first_free(slots: &[Option<Slot>]) -> Option<usize>
    ensures place { result ≡ first_free slots.now }
    ensures within { IfSome result (λ place. place < length slots.now) }
{
    slots.iter().position(|slot| slot.is_none())
}

// A fold whose cursor is moved past a position.
fn moved_past(slot: Option<Slot>, position: u64) -> Option<Slot>
    requires { position < 2 ^ 63 }
    ensures { result ≡ stepped position slot }
{
    match slot {
        Some(fold) => Some(Slot {
            cursor: position + 1,
            ..fold
        }),
        None => None,
    }
}

// The greatest epoch of a fold that is open.
fn highest(slots: &[Option<Slot>]) -> Option<Seq>
    ensures { result ≡ highest_of slots.now }
{
    let mut found: Option<Seq> = None;
    for slot in slots {
        found = higher(found, *slot);
    }
    found
}

// The greater of an epoch and that of a fold.
fn higher(epoch: Option<Seq>, slot: Option<Slot>) -> Option<Seq>
    ensures { result ≡ higher epoch slot }
{
    match (epoch, slot) {
        (_, None) => epoch,
        (None, Some(fold)) => Some(fold.epoch),
        (Some(found), Some(fold)) => Some(if found.0 < fold.epoch.0 {
            fold.epoch
        } else {
            found
        }),
    }
}

// Whether a fold is open here with an epoch from `low` on and below `high`.
fn lies_in(slot: Option<Slot>, low: u64, high: u64) -> bool
    ensures { result ≡ lies_in low high slot }
{
    match slot {
        Some(fold) => low <= fold.epoch.0 && fold.epoch.0 < high,
        None => false,
    }
}
