//! A view of a disk in memory.
ghost use Rattle.std.specs.Prelude.{◌≡◌, ◌+◌, ◌-◌, ◌<◌, ◌≤◌, ◌↔◌, false, [], drop, length, IsTrue, IsOk, IsErr, IfOk, OnErr};
ghost use Rattle.bk_disk.specs.Causes.{IsCaused};
ghost use Rattle.bk_disk.specs.Streams.{Gives};

use bk_disk::{Failed, View};
use std::marker::Model;

/// The bytes of a range. Each read of a fallible one fails.
#[derive(Drop)]
pub struct MemView {
    bytes: Vec<u8>,
    taken: usize,
    faults: u64,
    fallible: bool,
}

impl Model for MemView {
    ghost use Rattle.std.specs.Prelude.{◌≤◌, length, drop};
    ghost use Rattle.bk_memdisk.specs.Streams.{Range};

    ghost Value = { Range };

    ghost view = { λ v. record { left = drop v.taken v.bytes.items; faults = v.faults; fallible = v.fallible } };

    ghost invariant = { λ v. v.taken ≤ length v.bytes.items };
}

impl MemView {
    pub(crate) fn new(bytes: Vec<u8>, fallible: bool) -> MemView
        ensures { result ≡ record { left = bytes.items; faults = 0; fallible = fallible } }
    {
        MemView {
            bytes,
            taken: 0,
            faults: 0,
            fallible,
        }
    }
}

impl View for MemView {
    ghost use Rattle.std.specs.Prelude.{true, length, refl};

    ghost tells = { true };

    ghost left = { λ v. v.left };

    ghost rest = { λ v. length v.left };

    ghost faults = { λ v. v.faults };

    ghost fallible = { λ v. v.fallible };

    ghost told_rest = { λ _ _. refl };

    fn read(&mut self, into: &mut [u8]) -> Result<usize, Failed>
        ensures failed { IsErr result ↔ IsTrue self.old.fallible }
        ensures within { IfOk result (λ n. n ≤ length into.new) }
        ensures some { IfOk result (λ n. 0 < length self.old.left → 0 < length into.new → 0 < n) }
        ensures rest { IfOk result (λ n. length self.old.left ≡ n + length self.new.left) }
        ensures bytes { IfOk result (λ n. Gives self.old.left self.new.left n into.new) }
        ensures kept { OnErr result (self.new.left ≡ self.old.left) }
        ensures cause { IsCaused self.old.faults self.new.faults result }
        ensures strong { self.old.fallible ≡ false → IsOk result }
        ensures same_faults { self.old.fallible ≡ false → self.new.faults ≡ self.old.faults }
        ensures fallible { self.new.fallible ≡ self.old.fallible }
    {
        if self.fallible {
            self.faults = self.faults.saturating_add(1);
            return Err(Failed);
        }
        let count = into.len().min(self.bytes.len() - self.taken);
        into[..count].copy_from_slice(&self.bytes[self.taken..self.taken + count]);
        self.taken += count;
        Ok(count)
    }
}
