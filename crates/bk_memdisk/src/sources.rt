//! A source in memory.
ghost use Rattle.std.specs.Prelude.{◌≡◌, ◌≤◌, ◌-◌, ◌↔◌, ℕ, min, length, IsErr, IfOk, OnOk, OnErr};
ghost use Rattle.bk_disk.specs.Causes.{IsCaused};
ghost use Rattle.bk_disk.specs.Streams.{Takes};
ghost use Rattle.bk_memdisk.specs.Countdown.{IsDue, counted};
ghost use Rattle.bk_memdisk.specs.Streams.{SameInput};

use crate::countdown::is_due;
use bk_disk::{Failed, Source};
use std::marker::Model;

/// A source over bytes in memory. Contracts see the whole input, how much of it was taken, the
/// faults so far, which read from now fails, and how much a read gives at most.
#[derive(Drop)]
pub struct MemSource {
    bytes: Vec<u8>,
    taken: usize,
    faults: u64,
    due: Option<u64>,
    most: usize,
}

impl Model for MemSource {
    ghost use Rattle.std.specs.Prelude.{◌≤◌, length};
    ghost use Rattle.bk_memdisk.specs.Streams.{Input};

    ghost Value = { Input };

    ghost view = { λ s. record { whole = s.bytes.items; taken = s.taken; faults = s.faults; due = s.due; most = s.most } };

    ghost invariant = { λ s. (s.taken ≤ length s.bytes.items) × (1 ≤ s.most) };
}

impl MemSource {
    /// A source of these bytes that gives at most `most` of them a read. The read numbered `fail`,
    /// counted from 1, fails.
    pub fn new(bytes: Vec<u8>, fail: Option<u64>, most: usize) -> MemSource
        requires { 1 ≤ most }
        ensures { result ≡ record { whole = bytes.items; taken = 0; faults = 0; due = fail; most = most } }
    {
        MemSource {
            bytes,
            taken: 0,
            faults: 0,
            due: fail,
            most,
        }
    }
}

impl Source for MemSource {
    ghost use Rattle.std.specs.Prelude.{true};

    ghost tells = { true };

    ghost whole = { λ s. s.whole };

    ghost taken = { λ s. s.taken };

    ghost faults = { λ s. s.faults };

    fn read(&mut self, into: &mut [u8]) -> Result<usize, Failed>
        ensures failed { IsErr result ↔ IsDue self.old.due }
        ensures count { IfOk result (λ n. n ≡ min (min (length into.new) self.old.most)
            (length self.old.whole - self.old.taken)) }
        ensures took { IfOk result (λ n. Takes self.old.whole self.old.taken self.new.taken n into.new) }
        ensures kept { OnErr result (self.new.taken ≡ self.old.taken) }
        ensures input { SameInput self.old self.new }
        ensures least { 1 ≤ self.old.most }
        ensures counted { self.new.due ≡ counted self.old.due }
        ensures cause { IsCaused self.old.faults self.new.faults result }
        ensures no_fault { OnOk result (self.new.faults ≡ self.old.faults) }
    {
        if is_due(&mut self.due) {
            self.faults = self.faults.saturating_add(1);
            return Err(Failed);
        }
        let count = into.len().min(self.most).min(self.bytes.len() - self.taken);
        into[..count].copy_from_slice(&self.bytes[self.taken..self.taken + count]);
        self.taken += count;
        Ok(count)
    }
}
