//! Which calls fail, and with what effect.
ghost use Rattle.std.specs.Prelude.{◌≡◌, OnOk, OnErr};
ghost use Rattle.bk_memdisk.specs.Plans.{nothing_chosen, chosen, counted_to, fused, next_effect, one_later, effect_at, effect_of};
ghost use Rattle.bk_memdisk.specs.Chosen.{pairs_of};

use std::alloc::{AllocError, Global};
use std::marker::Model;

#[derive(Clone, Copy)]
struct Chosen {
    call: u64,
    effect: u64,
}

// All calls past this one fail, the first of them with the effect.
#[derive(Clone, Copy)]
struct Fuse {
    call: u64,
    effect: u64,
    // How many choices of single calls were made before it.
    earlier: usize,
}

/// The choices of calls that fail. Where a call is chosen more than once, the last choice counts.
#[derive(Drop)]
pub struct Plan {
    calls: u64,
    chosen: Vec<Chosen>,
    fuse: Option<Fuse>,
}

impl Model for Plan {
    ghost use Rattle.bk_memdisk.specs.Plans.{Planned};

    ghost Value = { Planned };

    ghost use Rattle.bk_memdisk.specs.Plan.{planned_of, EndsWithin};

    ghost view = { planned_of };

    ghost invariant = { EndsWithin };
}

impl Plan {
    /// No call was made, and none is chosen.
    pub fn new(alloc: Global) -> Plan
        ensures { result ≡ nothing_chosen }
    {
        Plan {
            calls: 0,
            chosen: Vec::new(alloc),
            fuse: None,
        }
    }

    /// The nth call from now fails with this effect.
    pub fn choose(&mut self, nth: u64, effect: u64) -> Result<(), AllocError>
        ensures ok { OnOk result (self.new ≡ chosen nth effect self.old) }
        ensures err { OnErr result (self.new ≡ self.old) }
    {
        self.chosen.push(Chosen {
            call: self.calls.saturating_add(nth),
            effect,
        })?;
        Ok(())
    }

    /// After so many calls all fail, the first with this effect and the others with 0.
    pub fn fuse(&mut self, calls: u64, effect: u64)
        ensures { self.new ≡ fused calls effect self.old }
    {
        self.fuse = Some(Fuse {
            call: self.calls.saturating_add(calls),
            effect,
            earlier: self.chosen.len(),
        });
    }

    /// How many calls were made.
    pub fn calls(&self) -> u64
        ensures { result ≡ self.now.calls }
    {
        self.calls
    }

    /// So many calls were made.
    pub fn count_to(&mut self, calls: u64)
        ensures { self.new ≡ counted_to calls self.old }
    {
        self.calls = calls;
    }

    // Counts a call, and gives the effect with which it fails, where it does.
    pub(crate) fn next(&mut self) -> Option<u64>
        ensures effect { result ≡ next_effect self.old }
        ensures counted { self.new ≡ one_later self.old }
    {
        self.calls = self.calls.saturating_add(1);
        self.effect(self.calls)
    }

    /// The effect with which the call of this number fails, where it was chosen. The first call is number 1.
    pub fn effect(&self, call: u64) -> Option<u64>
        ensures { result ≡ effect_at call self.now }
    {
        let Some(fuse) = self.fuse else {
            return last_effect(&self.chosen, call);
        };
        let (earlier, later) = self.chosen.as_slice().split_at(fuse.earlier);
        if let Some(effect) = last_effect(later, call) {
            return Some(effect);
        }
        if call <= fuse.call {
            return last_effect(earlier, call);
        }
        Some(if call - fuse.call == 1 {
            fuse.effect
        } else {
            0
        })
    }
}

fn last_effect(chosen: &[Chosen], call: u64) -> Option<u64>
    ensures { result ≡ effect_of call (pairs_of chosen.now) }
{
    let mut effect = None;
    for choice in chosen {
        if choice.call == call {
            effect = Some(choice.effect);
        }
    }
    effect
}
