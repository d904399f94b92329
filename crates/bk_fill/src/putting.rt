//! The puts of a fill, and the sync behind them.
ghost use Rattle.std.specs.Prelude.{◌≡◌, ◌+◌, ◌≤◌, Bool, IsTrue, IfOk, IfErr, IsErrOf, OnErr, length};
ghost use Rattle.bk_disk.specs.Causes.{Rose};
ghost use Rattle.bk_fill.specs.Pairs.{key_at, value_at};
ghost use Rattle.bk_fill.specs.Putting.{AnswersPut, HasPutFor, RefusesPut};
ghost use Rattle.bk_fill.specs.Work.{HasWorkedFor};
ghost use Rattle.bk_base.specs.declared.limits.TheConstants.{RECORD_HEADER};
ghost use Rattle.bk_store.specs.Events.{KeepsPast};

use crate::pairs::pair_at;
use crate::work::Work;
use bk_base::Moment;
use bk_base::limits::RECORD_HEADER;
use bk_disk::Disk;
use bk_progress::{Progress, Stage};
use bk_store::{Prepared, PutError, Store};
use std::alloc::Global;

/// After how many puts their number is told.
const TOLD_EACH: u32 = 1_024;

/// Puts the pairs with the numbers below `count`, all at one moment, and syncs them. What was put until a put was
/// refused stays, and is synced too.
pub(crate) fn work<D: Disk, P: Progress>(
    alloc: Global,
    store: &mut Store<D>,
    now: Moment,
    count: u32,
    progress: &mut P,
) -> Work
    ensures worked { (known : Bool) → (IsTrue known → IsTrue D.tells)
        → HasWorkedFor known now count result store.old store.new }
    ensures past { IsTrue D.tells → KeepsPast store.old.files.told store.new.files.told }
    ensures later { store.old.files.faults ≤ store.new.files.faults }
    ensures views { store.new.files.fallible_views ≡ store.old.files.fallible_views }
    ensures disk { IsErrOf result.puts PutError.Disk → Rose store.old.files.faults store.new.files.faults }
    ensures sync { OnErr result.sync (Rose store.old.files.faults store.new.files.faults) }
{
    let puts = put_all(alloc, store, now, count, progress);
    progress.finished();
    let sync = store.sync();
    let keys = store.stat().keys;
    Work { puts, sync, keys }
}

/// Puts the pairs with the numbers below `count`, up to the first that is refused. It says how many bytes their
/// records have.
fn put_all<D: Disk, P: Progress>(
    alloc: Global,
    store: &mut Store<D>,
    now: Moment,
    count: u32,
    progress: &mut P,
) -> Result<u64, PutError>
    ensures puts { (known : Bool) → (IsTrue known → IsTrue D.tells)
        → HasPutFor known now count result store.old store.new }
    ensures past { IsTrue D.tells → KeepsPast store.old.files.told store.new.files.told }
    ensures later { store.old.files.faults ≤ store.new.files.faults }
    ensures views { store.new.files.fallible_views ≡ store.old.files.fallible_views }
    ensures disk { IsErrOf result PutError.Disk → Rose store.old.files.faults store.new.files.faults }
{
    let mut bytes: u64 = 0;
    for number in 0..count {
        tell(progress, number, count);
        bytes += put_pair(alloc, store, number, now)?;
    }
    Ok(bytes)
}

/// Tells now and then how many pairs are put.
fn tell<P: Progress>(progress: &mut P, done: u32, count: u32) {
    if done % TOLD_EACH == 0 {
        progress.reached(Stage::Filling, done.into(), count.into());
    }
}

/// Puts the pair with this number, and says how many bytes its record has.
fn put_pair<D: Disk>(
    alloc: Global,
    store: &mut Store<D>,
    number: u32,
    now: Moment,
) -> Result<u64, PutError>
    ensures answered { IfOk result (λ len. AnswersPut D.tells now number store.old store.new) }
    ensures len { IfOk result (λ len. len ≡ RECORD_HEADER + length (key_at number) + length (value_at number)) }
    ensures few { IfOk result (λ len. len ≤ 128) }
    ensures refused { IfErr result (λ e. RefusesPut D.tells now number e store.old store.new) }
    ensures past { IsTrue D.tells → KeepsPast store.old.files.told store.new.files.told }
    ensures later { store.old.files.faults ≤ store.new.files.faults }
    ensures views { store.new.files.fallible_views ≡ store.old.files.fallible_views }
    ensures disk { IsErrOf result PutError.Disk → Rose store.old.files.faults store.new.files.faults }
{
    let pair = pair_at(alloc, number)?;
    let len = record_len(&pair);
    store.put(pair, now)?;
    Ok(len)
}

/// How many bytes the record of a put has.
fn record_len(pair: &Prepared) -> u64
    ensures { result ≡ RECORD_HEADER + length pair.now.key + length pair.now.value }
{
    (RECORD_HEADER + pair.key.bytes().len() + pair.value.bytes().len()) as u64
}
