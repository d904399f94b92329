//! One request: the clock is asked, then the store, and the reply is gathered.
ghost use Rattle.std.specs.Prelude.{◌≡◌, ◌≤◌, IsTrue, Bool};
ghost use Rattle.bk_disk.specs.Causes.{Rose};
ghost use Rattle.bk_laws.specs.Wire.{Fits};
ghost use Rattle.bk_session.specs.Outgoing.{outgoing};
ghost use Rattle.bk_session.specs.Serving.{Serves, session_state, tells_of};
ghost use Rattle.bk_store.specs.Events.{KeepsPast};

use crate::gets::get;
use crate::listings::{Listing, list};
use crate::outbox::Outbox;
use crate::puts::{delete, put};
use crate::syncs::{quit, stat, sync};
use bk_base::Request;
use bk_disk::{Clock, Disk, Sink};
use bk_store::Store;

/// How a session goes on behind a request.
#[derive(Clone, Copy, Debug, PartialEq, Eq)]
pub(crate) enum Onward {
    /// With the next request.
    Next,
    /// It has said BYE.
    Quit,
    /// The sink has failed.
    Sink,
    /// There was no memory for a line.
    Memory,
}

/// Serves a request. A refusal is a line, and the session goes on.
pub(crate) fn serve<D: Disk, K: Sink, C: Clock>(
    store: &mut Store<D>,
    clock: &mut C,
    sink: &mut K,
    outbox: &mut Outbox,
    request: Request,
) -> Onward
    requires fits { Fits request }
    ensures serves { (known : Bool) → (IsTrue known → IsTrue D.tells)
        → Serves (tells_of known K.tells C.tells) request result
        (session_state store.old (C.moments clock.old) (outgoing (K.written sink.old) outbox.old))
        (session_state store.new (C.moments clock.new) (outgoing (K.written sink.new) outbox.new)) }
    ensures past { IsTrue D.tells → KeepsPast store.old.files.told store.new.files.told }
    ensures later { K.faults sink.old ≤ K.faults sink.new }
    ensures failed { result ≡ Onward.Sink → Rose (K.faults sink.old) (K.faults sink.new) }
{
    match request {
        Request::Get(key) => get(store, clock, sink, outbox, &key),
        Request::Put(key, value) => put(store, clock, sink, outbox, key, value),
        Request::Delete(key) => delete(store, clock, sink, outbox, &key),
        Request::Fold => list(store, clock, sink, outbox, Listing::Pairs),
        Request::Keys => list(store, clock, sink, outbox, Listing::Keys),
        Request::Sync => sync(store, sink, outbox),
        Request::Stat => stat(store, sink, outbox),
        Request::Quit => quit(sink, outbox),
    }
}
