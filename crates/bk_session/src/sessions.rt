//! A session with a client: requests are read, served and answered until the input or the session ends.
ghost use Rattle.std.specs.Prelude.{◌≡◌, ◌<◌, ◌≤◌, [], List, Bool, None, Some, drop, IsTrue};
ghost use Rattle.bk_base.specs.declared.numbers.Moment.{Moment};
ghost use Rattle.bk_disk.specs.Causes.{Rose};
ghost use Rattle.bk_laws.specs.Wire.{IsPartial};
ghost use Rattle.bk_session.specs.Ending.{WritesLast, WritesAfter, WritesSyntax};
ghost use Rattle.bk_session.specs.Sessions.{IsHeldFor, sides_of, telling};
ghost use Rattle.bk_session.specs.Outgoing.{outgoing};
ghost use Rattle.bk_session.specs.Progress.{Goes, work_left};
ghost use Rattle.bk_store.specs.Events.{KeepsPast};
ghost use Rattle.bk_store.specs.Shown.{Shown};
ghost use Rattle.bk_wire.specs.Stream.{taken};

use crate::inbox::{Inbox, Input};
use crate::outbox::{Outbox, Unsent};
use crate::serving::{Onward, serve};
use bk_base::{Reply, SessionEnd};
use bk_disk::{Clock, Disk, Sink, Source};
use bk_store::Store;
use bk_wire::Next;
use std::alloc::Global;

/// Holds a session with the client behind a source and a sink, and says how it ended. It takes at most
/// `most` bytes. The replies are written before it reads on, so that a client that waits gets its reply.
/// What the store holds may be known only where the disk tells. Its appends aren't gathered, so it never ends by
/// the disk.
pub fn session<D: Disk, S: Source, K: Sink, C: Clock>(
    alloc: Global,
    store: &mut Store<D>,
    source: &mut S,
    sink: &mut K,
    clock: &mut C,
    most: u64,
) -> SessionEnd
    ensures held { (known : Bool) → (IsTrue known → IsTrue D.tells)
        → IsHeldFor known (telling S.tells K.tells C.tells) most
        (sides_of store.old (drop (S.taken source.old) (S.whole source.old)) (K.written sink.old)
        (C.moments clock.old))
        (sides_of store.new (drop (S.taken source.new) (S.whole source.new)) (K.written sink.new)
        (C.moments clock.new)) result }
    ensures past { IsTrue D.tells → KeepsPast store.old.files.told store.new.files.told }
    ensures no_flush { result ≡ SessionEnd.Disk → ⊥ }
    ensures whole { IsTrue S.tells → S.whole source.new ≡ S.whole source.old }
    ensures took { S.faults source.old ≤ S.faults source.new }
    ensures source { result ≡ SessionEnd.Source → Rose (S.faults source.old) (S.faults source.new) }
    ensures wrote { K.faults sink.old ≤ K.faults sink.new }
    ensures sink { result ≡ SessionEnd.Sink → Rose (K.faults sink.old) (K.faults sink.new) }
{
    let mut outbox = Outbox::new(alloc);
    let Ok(mut inbox) = Inbox::new(alloc, most) else {
        return SessionEnd::Memory;
    };
    'requests: loop {
        match step(store, source, sink, clock, &mut inbox, &mut outbox) {
            None => {}
            Some(end) => return end,
        }
    }
}

/// Serves the next request, or reads on. `None` where the session goes on.
fn step<D: Disk, S: Source, K: Sink, C: Clock>(
    store: &mut Store<D>,
    source: &mut S,
    sink: &mut K,
    clock: &mut C,
    inbox: &mut Inbox,
    outbox: &mut Outbox,
) -> Option<SessionEnd>
    ensures goes { (known : Bool) → (IsTrue known → IsTrue D.tells)
        → Goes result known (telling S.tells K.tells C.tells)
        (sides_of store.old (drop (S.taken source.old) (S.whole source.old)) (K.written sink.old)
        (C.moments clock.old)) inbox.old outbox.old
        (sides_of store.new (drop (S.taken source.new) (S.whole source.new)) (K.written sink.new)
        (C.moments clock.new)) inbox.new outbox.new }
    ensures fewer { result ≡ None → work_left inbox.new < work_left inbox.old }
    ensures most { inbox.new.most ≡ inbox.old.most }
    ensures past { IsTrue D.tells → KeepsPast store.old.files.told store.new.files.told }
    ensures no_flush { result ≡ Some SessionEnd.Disk → ⊥ }
    ensures whole { IsTrue S.tells → S.whole source.new ≡ S.whole source.old }
    ensures took { S.faults source.old ≤ S.faults source.new }
    ensures source { result ≡ Some SessionEnd.Source → Rose (S.faults source.old) (S.faults source.new) }
    ensures wrote { K.faults sink.old ≤ K.faults sink.new }
    ensures sink { result ≡ Some SessionEnd.Sink → Rose (K.faults sink.old) (K.faults sink.new) }
{
    match inbox.next() {
        Ok(Next::Ask(request)) => {
            let onward = serve(store, clock, sink, outbox, request);
            close_after(onward, sink, outbox)
        }
        Ok(Next::Need) => read_on(source, sink, inbox, outbox),
        Ok(Next::Bad(offset)) => Some(close_at(offset, sink, outbox)),
        Err(_) => Some(close(SessionEnd::Memory, sink, outbox)),
    }
}

/// Writes what was gathered and reads on. `None` where the session goes on with more bytes.
fn read_on<S: Source, K: Sink>(
    source: &mut S,
    sink: &mut K,
    inbox: &mut Inbox,
    outbox: &mut Outbox,
) -> Option<SessionEnd>
    requires partial { IsPartial inbox.old.rest }
    requires within { taken inbox.old ≤ inbox.old.most }
    ensures goes { (disk clock : Bool) (store : Shown) (moments : List Moment)
        → Goes result disk (telling S.tells K.tells clock)
        (sides_of store (drop (S.taken source.old) (S.whole source.old)) (K.written sink.old) moments)
        inbox.old outbox.old
        (sides_of store (drop (S.taken source.new) (S.whole source.new)) (K.written sink.new) moments)
        inbox.new outbox.new }
    ensures fewer { result ≡ None → work_left inbox.new < work_left inbox.old }
    ensures most { inbox.new.most ≡ inbox.old.most }
    ensures no_flush { result ≡ Some SessionEnd.Disk → ⊥ }
    ensures whole { IsTrue S.tells → S.whole source.new ≡ S.whole source.old }
    ensures took { S.faults source.old ≤ S.faults source.new }
    ensures source { result ≡ Some SessionEnd.Source → Rose (S.faults source.old) (S.faults source.new) }
    ensures wrote { K.faults sink.old ≤ K.faults sink.new }
    ensures sink { result ≡ Some SessionEnd.Sink → Rose (K.faults sink.old) (K.faults sink.new) }
{
    match outbox.flush(sink) {
        Ok(()) => read_more(source, sink, inbox, outbox),
        Err(_) => Some(SessionEnd::Sink),
    }
}

/// Reads on, where all that was gathered is written.
fn read_more<S: Source, K: Sink>(
    source: &mut S,
    sink: &mut K,
    inbox: &mut Inbox,
    outbox: &mut Outbox,
) -> Option<SessionEnd>
    requires partial { IsPartial inbox.old.rest }
    requires within { taken inbox.old ≤ inbox.old.most }
    requires nothing { outbox.old ≡ [] }
    ensures goes { (disk clock : Bool) (store : Shown) (moments : List Moment)
        → Goes result disk (telling S.tells K.tells clock)
        (sides_of store (drop (S.taken source.old) (S.whole source.old)) (K.written sink.old) moments)
        inbox.old outbox.old
        (sides_of store (drop (S.taken source.new) (S.whole source.new)) (K.written sink.new) moments)
        inbox.new outbox.new }
    ensures fewer { result ≡ None → work_left inbox.new < work_left inbox.old }
    ensures most { inbox.new.most ≡ inbox.old.most }
    ensures no_flush { result ≡ Some SessionEnd.Disk → ⊥ }
    ensures whole { IsTrue S.tells → S.whole source.new ≡ S.whole source.old }
    ensures took { S.faults source.old ≤ S.faults source.new }
    ensures source { result ≡ Some SessionEnd.Source → Rose (S.faults source.old) (S.faults source.new) }
    ensures wrote { K.faults sink.old ≤ K.faults sink.new }
    ensures sink { result ≡ Some SessionEnd.Sink → Rose (K.faults sink.old) (K.faults sink.new) }
{
    match inbox.read_on(source) {
        Input::Taken => None,
        Input::Ended => match inbox.rest() {
            None => Some(SessionEnd::End),
            Some(offset) => Some(close_at(offset, sink, outbox)),
        },
        Input::Long => Some(SessionEnd::Long),
        Input::Failed => Some(SessionEnd::Source),
        Input::Memory => Some(SessionEnd::Memory),
    }
}

/// Writes what was gathered, where the session ends with the request that was served.
fn close_after<K: Sink>(onward: Onward, sink: &mut K, outbox: &mut Outbox) -> Option<SessionEnd>
    ensures closes { WritesAfter onward result K.tells (outgoing (K.written sink.old) outbox.old)
        (outgoing (K.written sink.new) outbox.new) }
    ensures wrote { K.faults sink.old ≤ K.faults sink.new }
    ensures sink { result ≡ Some SessionEnd.Sink → (onward ≡ Onward.Sink → ⊥)
        → Rose (K.faults sink.old) (K.faults sink.new) }
    ensures not_source { result ≡ Some SessionEnd.Source → ⊥ }
    ensures no_flush { result ≡ Some SessionEnd.Disk → ⊥ }
{
    match onward {
        Onward::Next => None,
        Onward::Quit => Some(close(SessionEnd::Quit, sink, outbox)),
        Onward::Sink => Some(SessionEnd::Sink),
        Onward::Memory => Some(close(SessionEnd::Memory, sink, outbox)),
    }
}

/// Writes what was gathered and ends the session so; or by the sink, where that fails.
fn close<K: Sink>(end: SessionEnd, sink: &mut K, outbox: &mut Outbox) -> SessionEnd
    ensures closes { WritesLast end result K.tells (K.written sink.old) (K.written sink.new) outbox.old }
    ensures wrote { K.faults sink.old ≤ K.faults sink.new }
    ensures sink { result ≡ SessionEnd.Sink → (end ≡ SessionEnd.Sink → ⊥)
        → Rose (K.faults sink.old) (K.faults sink.new) }
{
    match outbox.flush(sink) {
        Ok(()) => end,
        Err(_) => SessionEnd::Sink,
    }
}

/// Ends the session where no request stands at this offset: SYNTAX is its last line.
fn close_at<K: Sink>(offset: u64, sink: &mut K, outbox: &mut Outbox) -> SessionEnd
    ensures closes { WritesSyntax offset result K.tells (K.written sink.old) (K.written sink.new) outbox.old }
    ensures wrote { K.faults sink.old ≤ K.faults sink.new }
    ensures sink { result ≡ SessionEnd.Sink → Rose (K.faults sink.old) (K.faults sink.new) }
{
    match outbox.add(sink, &Reply::Syntax(offset)) {
        Ok(()) => close(SessionEnd::Syntax(offset), sink, outbox),
        Err(Unsent::Sink) => SessionEnd::Sink,
        Err(Unsent::Memory) => close(SessionEnd::Memory, sink, outbox),
    }
}
