//! GET.
ghost use Rattle.std.specs.Prelude.{◌≡◌, ◌≤◌, IsTrue, Bool};
ghost use Rattle.bk_base.specs.declared.requests.Request.TheVariants.{Get};
ghost use Rattle.bk_disk.specs.Causes.{Rose};
ghost use Rattle.bk_laws.specs.Wire.{FitsKey};
ghost use Rattle.bk_session.specs.Outgoing.{outgoing};
ghost use Rattle.bk_session.specs.Serving.{Serves, session_state, tells_of};
ghost use Rattle.bk_store.specs.Events.{KeepsPast};

use crate::outbox::Outbox;
use crate::refusals::refused_read;
use crate::sending::{send, send_value};
use crate::serving::Onward;
use bk_base::{Key, Reply};
use bk_disk::{Clock, Disk, Sink};
use bk_store::Store;

/// Serves GET: one view of the record, which is read straight into the outbox.
pub(crate) fn get<D: Disk, K: Sink, C: Clock>(
    store: &mut Store<D>,
    clock: &mut C,
    sink: &mut K,
    outbox: &mut Outbox,
    key: &Key,
) -> Onward
    requires key { FitsKey key.now }
    ensures serves { (known : Bool) → (IsTrue known → IsTrue D.tells)
        → Serves (tells_of known K.tells C.tells) (Get key.now) result
        (session_state store.old (C.moments clock.old) (outgoing (K.written sink.old) outbox.old))
        (session_state store.new (C.moments clock.new) (outgoing (K.written sink.new) outbox.new)) }
    ensures past { IsTrue D.tells → KeepsPast store.old.files.told store.new.files.told }
    ensures later { K.faults sink.old ≤ K.faults sink.new }
    ensures failed { result ≡ Onward.Sink → Rose (K.faults sink.old) (K.faults sink.new) }
{
    let now = clock.now();
    match store.locate(key, now) {
        Ok(Some(loan)) => send_value(outbox, sink, loan),
        Ok(None) => send(outbox, sink, &Reply::Absent),
        Err(error) => send(outbox, sink, &refused_read(error)),
    }
}
