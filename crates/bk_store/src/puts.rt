//! The events that write, and those that make room and sync.
ghost use Rattle.std.specs.Prelude.{◌≡◌, ◌≤◌, ◌<◌, ◌+◌, ℕ, [], ◌∷◌, true, false, IsTrue, IsOk, IfOk, IfErr, OnOk, OnErr, IsErrOf};
ghost use Rattle.bk_base.specs.declared.calls.Answer.TheVariants.{Numbered};
ghost use Rattle.bk_base.specs.declared.calls.Call.TheVariants.{Delete, Put as put_call, Reap, Sync};
ghost use Rattle.bk_base.specs.declared.writes.Body.TheVariants.{Gone, Put};
ghost use Rattle.bk_base.specs.declared.writes.Write.{Write};
ghost use Rattle.bk_disk.specs.Causes.{IsCaused};
ghost use Rattle.bk_files.specs.Files.{has_active, is_due};
ghost use Rattle.bk_keydir.specs.Keydir.{keeps_newest, newest_of, versions_of};
ghost use Rattle.bk_laws.specs.Record.{size_of};
ghost use Rattle.bk_store.specs.Appends.{CrashMeetsPut, PutsNothing, PutsWrite, tried_by};
ghost use Rattle.bk_store.specs.Events.{CrashMeets, GoesOn, Keeps, KeepsPast, Refuses, entry_by, next_write, quiet_by};
ghost use Rattle.bk_store.specs.Loans.{is_put};
ghost use Rattle.bk_store.specs.Writes.{Buries, IsBuried, IsReserved, IsWriteError, IsWritten, KeepsRest, bury_reply, is_expired};

use crate::errors::PutError;
use crate::prepared::Prepared;
use crate::store::Store;
use crate::writing::append_write;
use bk_base::limits::LAST_SEQ;
use bk_base::{Body, Key, Memory, Moment, Seq, Write};
use bk_disk::{Disk, Failed};
use bk_laws::live;

/// A write that was made: its seq, and whether a new file was made for it.
#[derive(Clone, Copy, Debug, PartialEq, Eq)]
pub struct Stored {
    pub seq: Seq,
    pub rolled: bool,
}

impl<D: Disk> Store<D> {
    /// Puts a value. `FullSeq` comes exactly where the last seq is given out, and `FullFiles` only where
    /// a new file is due and the last file number is given out. `Memory` can't come where all that the
    /// put needs was reserved. After `Disk` a first part of the record, or all of it, may stand in the
    /// active file; the next write or sync repairs it. No other error leaves any of it. A new file that
    /// was made stays.
    pub fn put(&mut self, prepared: Prepared, now: Moment) -> Result<Stored, PutError>
        ensures written { IfOk result (IsWritten
            (next_write self.old now prepared.key (Put prepared.value)) self.old self.new) }
        ensures error { IfErr result (IsWriteError
            (next_write self.old now prepared.key (Put prepared.value)) self.old self.new) }
        ensures memory { IsReserved (next_write self.old now prepared.key (Put prepared.value)) self.old
            → IsErrOf result PutError.Memory → ⊥ }
        ensures rest { KeepsRest self.old self.new }
        ensures past { IsTrue D.tells → KeepsPast self.old.files.told self.new.files.told }
        ensures ok { IsTrue D.tells → IfOk result (λ s. (who : ℕ) → GoesOn D.tells
            (entry_by who (put_call prepared.key prepared.value now) (Numbered s.seq))
            self.old self.new) }
        ensures refused { IsTrue D.tells → IfErr result (λ e. (who : ℕ) → Refuses D.tells who
            (tried_by e (next_write self.old now prepared.key (Put prepared.value))) self.old self.new) }
        ensures crash { IsTrue D.tells → CrashMeets
            (next_write self.old now prepared.key (Put prepared.value) ∷ []) self.old self.new }
    {
        let Prepared { key, value } = prepared;
        self.append(key, Body::Put(value), now)
    }

    /// Deletes a key by a tombstone. None, with no disk call, exactly where its newest write is no put.
    /// Otherwise it is refused as a put is.
    pub fn delete(&mut self, key: &Key, now: Moment) -> Result<Option<Stored>, PutError>
        ensures buried { IfOk result (IsBuried
            (is_put (newest_of (versions_of key.now self.old.keys.entries)))
            (next_write self.old now key.now Gone) self.old self.new) }
        ensures error { IfErr result (λ e.
            (is_put (newest_of (versions_of key.now self.old.keys.entries)) ≡ true)
            × IsWriteError (next_write self.old now key.now Gone) self.old self.new e) }
        ensures rest { KeepsRest self.old self.new }
        ensures past { IsTrue D.tells → KeepsPast self.old.files.told self.new.files.told }
        ensures ok { IsTrue D.tells → IfOk result (λ found. (who : ℕ) → Buries D.tells found
            (entry_by who (Delete key.now now) (bury_reply found)) self.old self.new) }
        ensures refused { IsTrue D.tells → IfErr result (λ e. (who : ℕ) → Refuses D.tells who
            (tried_by e (next_write self.old now key.now Gone)) self.old self.new) }
        ensures crash { IsTrue D.tells → CrashMeets
            (next_write self.old now key.now Gone ∷ []) self.old self.new }
    {
        match self.keydir.newest(key) {
            Some(version) if !version.gone => self.bury(key, now),
            _ => Ok(None),
        }
    }

    /// Deletes a key whose newest write is a put that isn't live at `now`, by a tombstone. None, with no
    /// disk call, exactly where it isn't. Otherwise it is refused as a put is.
    pub fn reap(&mut self, key: &Key, now: Moment) -> Result<Option<Stored>, PutError>
        ensures buried { IfOk result (IsBuried (is_expired self.old.settings.ttl now.0
            (newest_of (versions_of key.now self.old.keys.entries)))
            (next_write self.old now key.now Gone) self.old self.new) }
        ensures error { IfErr result (λ e. (is_expired self.old.settings.ttl now.0
            (newest_of (versions_of key.now self.old.keys.entries)) ≡ true)
            × IsWriteError (next_write self.old now key.now Gone) self.old self.new e) }
        ensures rest { KeepsRest self.old self.new }
        ensures past { IsTrue D.tells → KeepsPast self.old.files.told self.new.files.told }
        ensures ok { IsTrue D.tells → IfOk result (λ found. (who : ℕ) → Buries D.tells found
            (entry_by who (Reap key.now now) (bury_reply found)) self.old self.new) }
        ensures refused { IsTrue D.tells → IfErr result (λ e. (who : ℕ) → Refuses D.tells who
            (tried_by e (next_write self.old now key.now Gone)) self.old self.new) }
        ensures crash { IsTrue D.tells → CrashMeets
            (next_write self.old now key.now Gone ∷ []) self.old self.new }
    {
        let ttl = self.settings.ttl;
        match self.keydir.newest(key) {
            Some(version) if !version.gone && !live(version.moment, now, ttl) => self.bury(
                key, now,
            ),
            _ => Ok(None),
        }
    }

    // Writes a tombstone.
    fn bury(&mut self, key: &Key, now: Moment) -> Result<Option<Stored>, PutError>
        ensures written { IfOk result (IsBuried true (next_write self.old now key.now Gone) self.old self.new) }
        ensures error { IfErr result (IsWriteError (next_write self.old now key.now Gone) self.old self.new) }
        ensures rest { KeepsRest self.old self.new }
        ensures past { IsTrue D.tells → KeepsPast self.old.files.told self.new.files.told }
        ensures put { IsTrue D.tells → OnOk result (PutsWrite (next_write self.old now key.now Gone)
            self.old.files self.old.keys self.new.files self.new.keys) }
        ensures refused { IsTrue D.tells → IfErr result (λ e. PutsNothing e
            (next_write self.old now key.now Gone)
            self.old.files self.old.keys self.new.files self.new.keys) }
        ensures crash { IsTrue D.tells
            → CrashMeetsPut (next_write self.old now key.now Gone) self.old.files self.new.files }
    {
        if self.last.0 >= LAST_SEQ {
            return Err(PutError::FullSeq);
        }
        let key = key.copy()?;
        let stored = self.append(key, Body::Gone, now)?;
        Ok(Some(stored))
    }

    // Makes the next write: what a put, a delete and a reap share.
    fn append(&mut self, key: Key, body: Body, now: Moment) -> Result<Stored, PutError>
        ensures written { IfOk result (IsWritten (next_write self.old now key body) self.old self.new) }
        ensures error { IfErr result (IsWriteError (next_write self.old now key body) self.old self.new) }
        ensures memory { IsReserved (next_write self.old now key body) self.old
            → IsErrOf result PutError.Memory → ⊥ }
        ensures rest { KeepsRest self.old self.new }
        ensures past { IsTrue D.tells → KeepsPast self.old.files.told self.new.files.told }
        ensures put { IsTrue D.tells → OnOk result (PutsWrite (next_write self.old now key body)
            self.old.files self.old.keys self.new.files self.new.keys) }
        ensures refused { IsTrue D.tells → IfErr result (λ e. PutsNothing e
            (next_write self.old now key body)
            self.old.files self.old.keys self.new.files self.new.keys) }
        ensures crash { IsTrue D.tells
            → CrashMeetsPut (next_write self.old now key body) self.old.files self.new.files }
    {
        if self.last.0 >= LAST_SEQ {
            return Err(PutError::FullSeq);
        }
        let seq = Seq(self.last.0 + 1);
        let write = Write {
            seq,
            moment: now,
            key,
            body,
        };
        let rolled = append_write(&mut self.files, &mut self.keydir, &mut self.buffer, write)?;
        self.last = seq;
        Ok(Stored { seq, rolled })
    }

    /// Makes room for a put of a record of so many bytes: then it isn't refused for memory where it
    /// needs no new file, and no open fold sees its key's newest version.
    pub fn reserve(&mut self, size: u32) -> Result<(), Memory>
        ensures key { OnOk result (0 < self.new.keys.spare) }
        ensures buffer { OnOk result (size ≤ self.new.buffer) }
        ensures file { OnOk result (is_due size self.old.files ≡ false
            → size ≤ self.new.files.room) }
        ensures reserved { OnOk result (is_due size self.old.files ≡ false → (w : Write) → size_of w ≤ size
            → keeps_newest self.old.keys.slots (versions_of w.key self.old.keys.entries) ≡ false
            → IsReserved w self.new) }
        ensures keys { self.new.keys ≡ record self.old.keys { spare = self.new.keys.spare } }
        ensures more { self.old.keys.spare ≤ self.new.keys.spare }
        ensures catalog { self.new.files.catalog ≡ self.old.files.catalog }
        ensures seq { self.new.seq ≡ self.old.seq }
        ensures faults { self.new.files.faults ≡ self.old.files.faults }
        ensures rest { KeepsRest self.old self.new }
        ensures told { IsTrue D.tells → self.new.files.told ≡ self.old.files.told }
        ensures quiet { IsTrue D.tells → (who : ℕ) → Keeps D.tells (quiet_by who) self.old self.new }
        ensures crash { IsTrue D.tells → CrashMeets [] self.old self.new }
    {
        self.keydir.reserve()?;
        self.buffer.clear();
        if self.buffer.reserve(size as usize).is_err() {
            return Err(Memory);
        }
        self.files.ready(size)
    }

    /// Syncs all writes, and gives the seq of the last one, 0 where there is none. It repairs the active
    /// file first. Where no file is active it makes no call.
    pub fn sync(&mut self) -> Result<Seq, Failed>
        ensures seq { IfOk result (λ seq. seq.0 ≡ self.old.seq) }
        ensures same { self.new ≡ record self.old { files = self.new.files } }
        ensures nothing { has_active self.old.files ≡ false → IsOk result × (self.new ≡ self.old) }
        ensures cause { IsCaused self.old.files.faults self.new.files.faults result }
        ensures rest { KeepsRest self.old self.new }
        ensures past { IsTrue D.tells → KeepsPast self.old.files.told self.new.files.told }
        ensures ok { IsTrue D.tells → IfOk result (λ seq. (who : ℕ) → GoesOn D.tells
            (entry_by who Sync (Numbered seq)) self.old self.new) }
        ensures refused { IsTrue D.tells → OnErr result ((who : ℕ)
            → Refuses D.tells who [] self.old self.new) }
        ensures crash { IsTrue D.tells → CrashMeets [] self.old self.new }
    {
        self.files.sync()?;
        Ok(self.last)
    }
}
