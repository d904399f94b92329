//! A sink in memory.
ghost use Rattle.std.specs.Prelude.{◌≡◌, ◌⊎◌, ◌-◌, ◌<◌, ◌↔◌, ◌++◌, [], min, length, take, IsErr, IfOk, OnOk, OnErr};
ghost use Rattle.bk_disk.specs.Causes.{IsCaused};
ghost use Rattle.bk_memdisk.specs.Countdown.{IsDue, counted};

use crate::countdown::is_due;
use bk_disk::{Failed, Memory, Sink};
use std::alloc::Global;
use std::marker::Model;

/// A sink with room for so many bytes. Contracts see the bytes written, the faults so far, which
/// write from now fails, and the room in all.
#[derive(Drop)]
pub struct MemSink {
    bytes: Vec<u8>,
    room: usize,
    faults: u64,
    due: Option<u64>,
}

impl Model for MemSink {
    ghost use Rattle.std.specs.Prelude.{◌≤◌, length, vec_capacity};
    ghost use Rattle.bk_memdisk.specs.Streams.{Output};

    ghost Value = { Output };

    ghost view = { λ s. record { written = s.bytes.items; room = s.room; faults = s.faults; due = s.due } };

    ghost invariant = { λ s. (length s.bytes.items ≤ s.room) × (s.room ≤ vec_capacity s.bytes) };
}

impl MemSink {
    /// An empty sink that has taken its room. The write numbered `fail`, counted from 1, fails, and
    /// so does each once the room is used up.
    pub fn new(alloc: Global, room: usize, fail: Option<u64>) -> Result<MemSink, Memory>
        ensures { IfOk result (λ sink. sink ≡ record {
          written = [];
          room = room;
          faults = 0;
          due = fail;
        }) }
    {
        match Vec::with_capacity(alloc, room) {
            Ok(bytes) => Ok(MemSink {
                bytes,
                room,
                faults: 0,
                due: fail,
            }),
            Err(_) => Err(Memory),
        }
    }

    /// The bytes written so far.
    pub fn bytes(&self) -> &[u8]
        ensures { result.now ≡ self.now.written }
    {
        self.bytes.as_slice()
    }
}

impl Sink for MemSink {
    ghost use Rattle.std.specs.Prelude.{true};

    ghost tells = { true };

    ghost written = { λ s. s.written };

    ghost faults = { λ s. s.faults };

    fn write(&mut self, piece: &[u8]) -> Result<usize, Failed>
        ensures failed { IsErr result ↔ (IsDue self.old.due ⊎ (length self.old.written ≡ self.old.room)) }
        ensures count { IfOk result (λ n. n ≡ min (length piece.now)
            (self.old.room - length self.old.written)) }
        ensures some { IfOk result (λ n. 0 < length piece.now → 0 < n) }
        ensures wrote { IfOk result (λ n. self.new.written ≡ self.old.written ++ take n piece.now) }
        ensures kept { OnErr result (self.new.written ≡ self.old.written) }
        ensures room { self.new.room ≡ self.old.room }
        ensures counted { self.new.due ≡ counted self.old.due }
        ensures cause { IsCaused self.old.faults self.new.faults result }
        ensures no_fault { OnOk result (self.new.faults ≡ self.old.faults) }
    {
        if is_due(&mut self.due) || self.bytes.len() == self.room {
            self.faults = self.faults.saturating_add(1);
            return Err(Failed);
        }
        let count = piece.len().min(self.room - self.bytes.len());
        self.bytes.extend_from_slice(&piece[..count]).unwrap();
        Ok(count)
    }
}
