//! SYNC, STAT and QUIT: none of them asks the clock.
ghost use Rattle.std.specs.Prelude.{◌≡◌, ◌≢◌, ◌≤◌, Bool, List, None, IsTrue};
ghost use Rattle.bk_base.specs.declared.numbers.Moment.{Moment};
ghost use Rattle.bk_base.specs.declared.requests.Reply.TheVariants.{Bye};
ghost use Rattle.bk_base.specs.declared.requests.Request.TheVariants.{Stat as stat_request, Sync};
ghost use Rattle.bk_disk.specs.Causes.{Rose};
ghost use Rattle.bk_laws.specs.Wire.{reply_text};
ghost use Rattle.bk_session.specs.Outgoing.{outgoing};
ghost use Rattle.bk_session.specs.Replying.{RepliesOnce};
ghost use Rattle.bk_session.specs.Serving.{SendsAs, Serves, session_state, tells_of};
ghost use Rattle.bk_store.specs.Events.{KeepsPast};

use crate::outbox::{Outbox, Unsent};
use crate::sending::send;
use crate::serving::Onward;
use bk_base::Reply;
use bk_disk::{Disk, Sink};
use bk_store::Store;

/// Serves SYNC.
pub(crate) fn sync<D: Disk, K: Sink>(
    store: &mut Store<D>,
    sink: &mut K,
    outbox: &mut Outbox,
) -> Onward
    ensures serves { (known : Bool) → (IsTrue known → IsTrue D.tells)
        → (ticks : Bool) (moments : List Moment)
        → Serves (tells_of known K.tells ticks) Sync result
        (session_state store.old moments (outgoing (K.written sink.old) outbox.old))
        (session_state store.new moments (outgoing (K.written sink.new) outbox.new)) }
    ensures past { IsTrue D.tells → KeepsPast store.old.files.told store.new.files.told }
    ensures later { K.faults sink.old ≤ K.faults sink.new }
    ensures failed { result ≡ Onward.Sink → Rose (K.faults sink.old) (K.faults sink.new) }
{
    let reply = sync_all(store);
    send(outbox, sink, &reply)
}

/// Syncs all writes.
fn sync_all<D: Disk>(store: &mut Store<D>) -> Reply
    ensures replies { (known : Bool) → (IsTrue known → IsTrue D.tells)
        → RepliesOnce known Sync None result store.old store.new }
    ensures past { IsTrue D.tells → KeepsPast store.old.files.told store.new.files.told }
{
    match store.sync() {
        Ok(seq) => Reply::Synced(seq),
        Err(_) => Reply::Disk,
    }
}

/// Serves STAT.
pub(crate) fn stat<D: Disk, K: Sink>(
    store: &mut Store<D>,
    sink: &mut K,
    outbox: &mut Outbox,
) -> Onward
    ensures serves { (known : Bool) → (IsTrue known → IsTrue D.tells)
        → (ticks : Bool) (moments : List Moment)
        → Serves (tells_of known K.tells ticks) stat_request result
        (session_state store.old moments (outgoing (K.written sink.old) outbox.old))
        (session_state store.new moments (outgoing (K.written sink.new) outbox.new)) }
    ensures past { IsTrue D.tells → KeepsPast store.old.files.told store.new.files.told }
    ensures later { K.faults sink.old ≤ K.faults sink.new }
    ensures failed { result ≡ Onward.Sink → Rose (K.faults sink.old) (K.faults sink.new) }
{
    let reply = count(store);
    send(outbox, sink, &reply)
}

/// Counts what the store has.
fn count<D: Disk>(store: &mut Store<D>) -> Reply
    ensures replies { (known : Bool) → (IsTrue known → IsTrue D.tells)
        → RepliesOnce known stat_request None result store.old store.new }
    ensures past { IsTrue D.tells → KeepsPast store.old.files.told store.new.files.told }
{
    let stat = store.stat();
    Reply::Stat {
        keys: stat.keys,
        files: stat.files,
        total: stat.total,
        live: stat.live,
    }
}

/// Says BYE.
pub(crate) fn quit<K: Sink>(sink: &mut K, outbox: &mut Outbox) -> Onward
    ensures sent { IsTrue K.tells → SendsAs result (outgoing (K.written sink.old) outbox.old)
        (reply_text Bye) (outgoing (K.written sink.new) outbox.new) }
    ensures ends { result ≢ Onward.Next }
    ensures later { K.faults sink.old ≤ K.faults sink.new }
    ensures failed { result ≡ Onward.Sink → Rose (K.faults sink.old) (K.faults sink.new) }
{
    match outbox.add(sink, &Reply::Bye) {
        Ok(()) => Onward::Quit,
        Err(Unsent::Sink) => Onward::Sink,
        Err(Unsent::Memory) => Onward::Memory,
    }
}
