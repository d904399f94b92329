//! Which calls of the disk fail. The store is parted from its disk and put together again for it.
ghost use Rattle.std.specs.Prelude.{◌≡◌, ◌++◌, [], List, IfOk, length, take};
ghost use Rattle.bk_drill.specs.Drills.{text_of};
ghost use Rattle.bk_drill.specs.Progress.{IsSameStore, RunsAs};
ghost use Rattle.bk_script.specs.declared.lines.Line.TheVariants.{Fail, Fuse};
ghost use Rattle.bk_script.specs.declared.printed.Printed.{Printed as PrintedLine};

use crate::drills::Drill;
use bk_base::Memory;
use bk_memdisk::MemDisk;
use bk_script::{Printed, write_line};
use bk_store::Store;

impl Drill {
    /// The nth call of the disk from now on fails. Where there is no memory to note it, that is printed. It is noted
    /// twice, and a drill ends where there is memory for the first note alone.
    pub(crate) fn fail(mut self, nth: u64, effect: u64, text: &mut Vec<u8>) -> Result<Drill, Memory>
        ensures ok { IfOk result (λ drill. (lines : List PrintedLine)
            × (text.new.items ≡ text.old.items ++ text_of lines) × RunsAs (Fail nth effect) lines self drill) }
        ensures start { take (length text.old.items) text.new.items ≡ text.old.items }
    {
        if self.plan.choose(nth, effect).is_err() {
            write_line(&Printed::Memory, text)?;
            return Ok(self);
        }
        let (store, noted) = fail_call(self.store, nth, effect);
        self.store = store;
        noted?;
        Ok(self)
    }

    /// After so many calls of the disk all fail.
    pub(crate) fn fuse(mut self, calls: u64, effect: u64) -> Drill
        ensures { RunsAs (Fuse calls effect) [] self result }
    {
        self.plan.fuse(calls, effect);
        self.store = fail_calls_behind(self.store, calls, effect);
        self
    }
}

/// How many calls of its disk the store has made.
pub(crate) fn calls_made(store: Store<MemDisk>) -> (Store<MemDisk>, u64)
    ensures { IsSameStore store result.0 }
{
    let (disk, detached) = store.detach();
    let calls = disk.calls();
    (Store::attach(disk, detached), calls)
}

/// The nth call of the store's disk from now on fails, where there is memory to note it.
fn fail_call(store: Store<MemDisk>, nth: u64, effect: u64) -> (Store<MemDisk>, Result<(), Memory>)
    ensures { IsSameStore store result.0 }
{
    let (mut disk, detached) = store.detach();
    let noted = disk.fail(nth, effect);
    (Store::attach(disk, detached), noted)
}

/// Behind so many calls of the store's disk all fail.
fn fail_calls_behind(store: Store<MemDisk>, calls: u64, effect: u64) -> Store<MemDisk>
    ensures { IsSameStore store result }
{
    let (mut disk, detached) = store.detach();
    disk.fuse(calls, effect);
    Store::attach(disk, detached)
}
