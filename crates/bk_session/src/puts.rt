//! PUT and DEL.
ghost use Rattle.std.specs.Prelude.{◌≡◌, ◌≤◌, Some, IsTrue, Bool};
ghost use Rattle.bk_base.specs.declared.requests.Request.TheVariants.{Delete, Put};
ghost use Rattle.bk_disk.specs.Causes.{Rose};
ghost use Rattle.bk_laws.specs.Wire.{FitsKey, FitsValue};
ghost use Rattle.bk_session.specs.Outgoing.{outgoing};
ghost use Rattle.bk_session.specs.Replying.{RepliesOnce};
ghost use Rattle.bk_session.specs.Serving.{Serves, session_state, tells_of};
ghost use Rattle.bk_store.specs.Events.{KeepsPast};

use crate::outbox::Outbox;
use crate::refusals::refused_write;
use crate::sending::send;
use crate::serving::Onward;
use bk_base::{Key, Moment, Reply, Value};
use bk_disk::{Clock, Disk, Sink};
use bk_store::{Prepared, Store};

/// Serves PUT.
pub(crate) fn put<D: Disk, K: Sink, C: Clock>(
    store: &mut Store<D>,
    clock: &mut C,
    sink: &mut K,
    outbox: &mut Outbox,
    key: Key,
    value: Value,
) -> Onward
    requires key { FitsKey key }
    requires value { FitsValue value }
    ensures serves { (known : Bool) → (IsTrue known → IsTrue D.tells)
        → Serves (tells_of known K.tells C.tells) (Put key value) result
        (session_state store.old (C.moments clock.old) (outgoing (K.written sink.old) outbox.old))
        (session_state store.new (C.moments clock.new) (outgoing (K.written sink.new) outbox.new)) }
    ensures past { IsTrue D.tells → KeepsPast store.old.files.told store.new.files.told }
    ensures later { K.faults sink.old ≤ K.faults sink.new }
    ensures failed { result ≡ Onward.Sink → Rose (K.faults sink.old) (K.faults sink.new) }
{
    let now = clock.now();
    let reply = put_at(store, key, value, now);
    send(outbox, sink, &reply)
}

/// Puts a value at a moment.
fn put_at<D: Disk>(store: &mut Store<D>, key: Key, value: Value, now: Moment) -> Reply
    ensures replies { (known : Bool) → (IsTrue known → IsTrue D.tells)
        → RepliesOnce known (Put key value) (Some now) result store.old store.new }
    ensures past { IsTrue D.tells → KeepsPast store.old.files.told store.new.files.told }
{
    match store.put(Prepared { key, value }, now) {
        Ok(stored) => Reply::Numbered(stored.seq),
        Err(error) => refused_write(error),
    }
}

/// Serves DEL.
pub(crate) fn delete<D: Disk, K: Sink, C: Clock>(
    store: &mut Store<D>,
    clock: &mut C,
    sink: &mut K,
    outbox: &mut Outbox,
    key: &Key,
) -> Onward
    requires key { FitsKey key.now }
    ensures serves { (known : Bool) → (IsTrue known → IsTrue D.tells)
        → Serves (tells_of known K.tells C.tells) (Delete key.now) result
        (session_state store.old (C.moments clock.old) (outgoing (K.written sink.old) outbox.old))
        (session_state store.new (C.moments clock.new) (outgoing (K.written sink.new) outbox.new)) }
    ensures past { IsTrue D.tells → KeepsPast store.old.files.told store.new.files.told }
    ensures later { K.faults sink.old ≤ K.faults sink.new }
    ensures failed { result ≡ Onward.Sink → Rose (K.faults sink.old) (K.faults sink.new) }
{
    let now = clock.now();
    let reply = delete_at(store, key, now);
    send(outbox, sink, &reply)
}

/// Deletes a key at a moment.
fn delete_at<D: Disk>(store: &mut Store<D>, key: &Key, now: Moment) -> Reply
    ensures replies { (known : Bool) → (IsTrue known → IsTrue D.tells)
        → RepliesOnce known (Delete key.now) (Some now) result store.old store.new }
    ensures past { IsTrue D.tells → KeepsPast store.old.files.told store.new.files.told }
{
    match store.delete(key, now) {
        Ok(Some(stored)) => Reply::Numbered(stored.seq),
        Ok(None) => Reply::Absent,
        Err(error) => refused_write(error),
    }
}
