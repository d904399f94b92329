//! One file of a disk in memory.
ghost use Rattle.std.specs.Prelude.{◌≡◌, ◌+◌, ◌<◌, ◌≤◌, Bool, false, true, List, [], ◌++◌, ℕ, length, take, drop, cond, IsTrue, OnOk, OnErr};
ghost use Rattle.std.specs.Vec.{vec_len, vec_capacity};

use crate::changes::Change;
use bk_base::Name;
use std::alloc::{AllocError, Global};
use std::mem;

// The room of a file is made beforehand: in its bytes, and in a spare buffer that the journal takes
// with the next append.
#[derive(Drop)]
pub(crate) struct MemFile {
    pub(crate) name: Name,
    pub(crate) bytes: Vec<u8>,
    pub(crate) spare: Vec<u8>,
    pub(crate) room: usize,
    // The length of its synced bytes.
    pub(crate) synced: usize,
    // Bytes were handed to it since its last good sync.
    pub(crate) dirty: bool,
    pub(crate) lent: bool,
    ghost spare_is_empty: { vec_len spare ≡ 0 },
    ghost spare_has_room: { room ≤ vec_capacity spare },
    ghost bytes_have_room: { vec_len bytes + room ≤ vec_capacity bytes },
}

impl MemFile {
    ghost use Rattle.bk_disk.specs.Told.{Table, changed};
    ghost use Rattle.bk_memdisk.specs.Journal.{Kept, after, handed, synced, returned, made, whole};
    ghost use Rattle.bk_memdisk.specs.Fits.{Fits, owed};

    pub(crate) fn new(alloc: Global, name: Name, lent: bool) -> MemFile
        ensures name { result.name ≡ name }
        ensures fits { Fits result (made lent) }
        ensures bytes { result.bytes.items ≡ [] }
        ensures room { result.room ≡ 0 }
        ensures owed { owed result ≡ cond lent 1 0 }
    {
        MemFile {
            name,
            bytes: Vec::new(alloc),
            spare: Vec::new(alloc),
            room: 0,
            synced: 0,
            dirty: false,
            lent,
        }
    }

    // A synced file of these bytes.
    pub(crate) fn of(alloc: Global, name: Name, bytes: Vec<u8>) -> MemFile
        ensures name { result.name ≡ name }
        ensures fits { Fits result (whole bytes.items) }
        ensures bytes { result.bytes.items ≡ bytes.items }
        ensures room { result.room ≡ 0 }
        ensures owed { owed result ≡ 0 }
    {
        MemFile {
            name,
            synced: bytes.len(),
            bytes,
            spare: Vec::new(alloc),
            room: 0,
            dirty: false,
            lent: false,
        }
    }

    // How many entries of the journal are reserved for the file.
    pub(crate) fn owed(&self) -> usize
        ensures value { result ≡ owed self.now }
        ensures bound { result ≤ 4 }
    {
        let append = if self.room > 0 { 2 } else { 0 };
        let sync = if self.dirty { 1 } else { 0 };
        let adopt = if self.lent { 1 } else { 0 };
        append + sync + adopt
    }

    pub(crate) fn ready(&mut self, bytes: usize) -> Result<(), AllocError>
        requires { self.old.lent ≡ false }
        ensures name { self.new.name ≡ self.old.name }
        ensures bytes { self.new.bytes.items ≡ self.old.bytes.items }
        ensures fits { (k : Kept) → Fits self.old k → Fits self.new k }
        ensures room { OnOk result (self.new.room ≡ bytes) }
        ensures err { OnErr result (self.new.room ≡ self.old.room) }
        ensures others { (self.new.dirty ≡ self.old.dirty) × (self.new.lent ≡ self.old.lent) }
    {
        self.bytes.reserve(bytes.max(self.room))?;
        self.spare.reserve(bytes)?;
        self.room = bytes;
        Ok(())
    }

    // Appends the first `through` bytes of a piece that isn't longer than the room.
    pub(crate) fn append(&mut self, alloc: Global, piece: &[u8], through: usize) -> Change
        requires ours { self.old.lent ≡ false }
        requires room { length piece.now ≤ self.old.room }
        requires through { through ≤ length piece.now }
        ensures name { self.new.name ≡ self.old.name }
        ensures bytes { self.new.bytes.items ≡ self.old.bytes.items ++ take through piece.now }
        ensures fits { (k : Kept) → Fits self.old k → Fits self.new
            (handed (length self.old.bytes.items) through piece.now k) }
        ensures change { (t : Table Kept) → after t result ≡ changed self.old.name
            (handed (length self.old.bytes.items) through piece.now) t }
        ensures owed { 0 < self.old.room → owed self.new + 1 ≤ owed self.old }
    {
        let at = self.bytes.len();
        let mut bytes = mem::replace(&mut self.spare, Vec::new(alloc));
        self.room = 0;
        bytes.extend_from_slice(piece).unwrap();
        self.bytes.extend_from_slice(&piece[..through]).unwrap();
        self.dirty = true;
        Change::Handed {
            name: self.name,
            at,
            through,
            bytes,
        }
    }

    pub(crate) fn rename(&mut self, to: Name)
        ensures name { self.new.name ≡ to }
        ensures bytes { self.new.bytes.items ≡ self.old.bytes.items }
        ensures fits { (k : Kept) → Fits self.old k → Fits self.new k }
        ensures room { self.new.room ≡ self.old.room }
        ensures owed { owed self.new ≡ owed self.old }
    {
        self.name = to;
    }

    pub(crate) fn cut(&mut self, len: usize)
        requires { self.old.synced ≤ len }
        ensures name { self.new.name ≡ self.old.name }
        ensures bytes { self.new.bytes.items ≡ take len self.old.bytes.items }
        ensures fits { (k : Kept) → Fits self.old k → Fits self.new k }
        ensures room { self.new.room ≡ self.old.room }
        ensures owed { owed self.new ≡ owed self.old }
    {
        self.bytes.truncate(len);
    }

    pub(crate) fn sync(&mut self) -> Change
        ensures name { self.new.name ≡ self.old.name }
        ensures bytes { self.new.bytes.items ≡ self.old.bytes.items }
        ensures fits { (k : Kept) → Fits self.old k → Fits self.new (synced (length self.old.bytes.items) k) }
        ensures change { (t : Table Kept) → after t result ≡ changed self.old.name
            (synced (length self.old.bytes.items)) t }
        ensures room { self.new.room ≡ self.old.room }
        ensures owed { self.old.dirty ≡ true → owed self.new + 1 ≡ owed self.old }
    {
        self.synced = self.bytes.len();
        self.dirty = false;
        Change::Synced {
            name: self.name,
            len: self.bytes.len(),
        }
    }

    // The file came back with these bytes, of which the journal takes a copy.
    pub(crate) fn adopt(&mut self, bytes: Vec<u8>, copy: Vec<u8>) -> Change
        requires lent { self.old.lent ≡ true }
        requires copied { copy.items ≡ bytes.items }
        ensures name { self.new.name ≡ self.old.name }
        ensures bytes { self.new.bytes.items ≡ bytes.items }
        ensures fits { (k : Kept) → Fits self.old k → Fits self.new (returned bytes.items k) }
        ensures change { (t : Table Kept) → after t result ≡ changed self.old.name (returned bytes.items) t }
        ensures room { self.new.room ≡ 0 }
        ensures owed { owed self.new + 1 ≤ owed self.old }
    {
        self.synced = bytes.len();
        self.room = 0;
        self.bytes = bytes;
        self.dirty = false;
        self.lent = false;
        Change::Returned {
            name: self.name,
            bytes: copy,
        }
    }
}
