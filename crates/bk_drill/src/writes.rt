//! The actions that write, and the sync.
ghost use Rattle.std.specs.Prelude.{◌≡◌, ℕ};
ghost use Rattle.bk_drill.specs.Actions.{xs};
ghost use Rattle.bk_drill.specs.Progress.{ActsAs, line_of_put};
ghost use Rattle.bk_script.specs.declared.lines.Action.TheVariants.{Big, Delete, Put, Reap, Sync};

use crate::drills::Drill;
use bk_base::{Full, Key, Value};
use bk_script::Printed;
use bk_store::{Prepared, PutError};

impl Drill {
    /// Puts a value that a line spells out, or that is so many bytes `x`.
    pub(crate) fn put(&mut self, key: Key, value: Value) -> Printed
        ensures put { (who : ℕ) → ActsAs who (Put key value) result self.old self.new }
        ensures big { (len : ℕ) → value ≡ xs len
            → (who : ℕ) → ActsAs who (Big key len) result self.old self.new }
    {
        match self.store.put(Prepared { key, value }, self.now) {
            Ok(stored) => Printed::Numbered(stored.seq),
            Err(error) => refused_write(error),
        }
    }

    /// Puts so many bytes `x`.
    pub(crate) fn put_big(&mut self, key: Key, len: u32) -> Printed
        ensures { (who : ℕ) → ActsAs who (Big key len) result self.old self.new }
    {
        let bytes: Result<Vec<u8>, _> = vec![in self.alloc; b'x'; len as usize];
        let Ok(bytes) = bytes else {
            return Printed::Memory;
        };
        match Value::new(bytes) {
            Ok(value) => self.put(key, value),
            Err(_) => Printed::Memory,
        }
    }

    pub(crate) fn delete(&mut self, key: &Key) -> Printed
        ensures { (who : ℕ) → ActsAs who (Delete key.now) result self.old self.new }
    {
        match self.store.delete(key, self.now) {
            Ok(Some(stored)) => Printed::Numbered(stored.seq),
            Ok(None) => Printed::Absent,
            Err(error) => refused_write(error),
        }
    }

    pub(crate) fn reap(&mut self, key: &Key) -> Printed
        ensures { (who : ℕ) → ActsAs who (Reap key.now) result self.old self.new }
    {
        match self.store.reap(key, self.now) {
            Ok(Some(stored)) => Printed::Numbered(stored.seq),
            Ok(None) => Printed::Absent,
            Err(error) => refused_write(error),
        }
    }

    pub(crate) fn sync(&mut self) -> Printed
        ensures { (who : ℕ) → ActsAs who Sync result self.old self.new }
    {
        match self.store.sync() {
            Ok(seq) => Printed::Synced(seq),
            Err(_) => Printed::Disk,
        }
    }
}

/// The line of a write that was refused.
fn refused_write(error: PutError) -> Printed
    ensures { result ≡ line_of_put error }
{
    match error {
        PutError::FullSeq => Printed::Full(Full::Seq),
        PutError::FullFiles => Printed::Full(Full::Files),
        PutError::Disk => Printed::Disk,
        PutError::Memory => Printed::Memory,
    }
}
