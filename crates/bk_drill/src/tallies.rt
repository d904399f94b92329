//! How many pairs each fold has listed.
ghost use Rattle.std.specs.Prelude.{◌≡◌, ◌+◌, ◌==◌, ℕ, cond, min, IfOk};
ghost use Rattle.bk_store.specs.Sweeps.{last_count};
ghost use Rattle.bk_drill.specs.Loans.{tally_in};

use bk_base::Memory;
use std::alloc::Global;
use std::marker::Model;

/// How many slots a script may name.
const SLOTS: usize = 256;

/// How many pairs the fold in each slot has listed; 0 where none is open.
#[derive(Drop)]
pub(crate) struct Tallies {
    counts: Vec<u64>,
}

impl Model for Tallies {
    ghost use Rattle.std.specs.Prelude.{◌≡◌, ℕ, List, length};

    ghost Value = { List ℕ };

    ghost view = { λ tallies. tallies.counts.items };

    ghost invariant = { λ tallies. length tallies.counts.items ≡ 256 };
}

impl Tallies {
    pub(crate) fn new(alloc: Global) -> Result<Tallies, Memory>
        ensures { IfOk result (λ tallies. (n : ℕ) → tally_in tallies n ≡ 0) }
    {
        let counts: Result<_, _> = vec![in alloc; 0u64; SLOTS];
        match counts {
            Ok(counts) => Ok(Tallies { counts }),
            Err(_) => Err(Memory),
        }
    }

    /// The fold in this slot listed a pair more. The count stands still at its last number.
    pub(crate) fn add(&mut self, slot: u8)
        ensures { (n : ℕ) → tally_in self.new n ≡ cond (n == slot) (min (tally_in self.old n + 1) last_count) (tally_in self.old n) }
    {
        let place = slot as usize;
        self.counts[place] = self.counts[place].saturating_add(1);
    }

    /// The fold in this slot is closed.
    pub(crate) fn reset(&mut self, slot: u8)
        ensures { (n : ℕ) → tally_in self.new n ≡ cond (n == slot) 0 (tally_in self.old n) }
    {
        self.counts[slot as usize] = 0;
    }

    /// How many pairs the fold in this slot has listed.
    pub(crate) fn of(&self, slot: u8) -> u64
        ensures { result ≡ tally_in self.now slot }
    {
        self.counts[slot as usize]
    }
}
