//! FOLD and KEYS: a fold is opened, each pair that it gives is a row, and it is closed.
ghost use Rattle.std.specs.Prelude.{◌≡◌, ◌≤◌, IsTrue, Bool};
ghost use Rattle.bk_disk.specs.Causes.{Rose};
ghost use Rattle.bk_session.specs.Listing.{Closes, EndsAll, Gives, IsOurs, ShowsKey, ShowsPair, request_of};
ghost use Rattle.bk_session.specs.Outgoing.{outgoing};
ghost use Rattle.bk_session.specs.Serving.{Serves, session_state, tells_of};
ghost use Rattle.bk_store.specs.Events.{KeepsPast};

use crate::outbox::{Outbox, Unread, Unsent};
use crate::refusals::refused_fold;
use crate::sending::send;
use crate::serving::Onward;
use bk_base::{Full, Key, Reply};
use bk_disk::{Clock, Disk, Sink, View};
use bk_store::{Loan, Row2, Store};

/// What a row shows of a pair.
#[derive(Clone, Copy, Debug, PartialEq, Eq)]
pub(crate) enum Listing {
    Keys,
    Pairs,
}

/// What became of the next pair of a fold.
#[derive(Drop)]
pub(crate) enum Given {
    /// Its row is gathered.
    Row,
    /// There is none left.
    End,
    /// It has no row: this line stands in the place of END.
    Line(Reply),
    /// Its row was the last that went out: the sink has failed.
    Sink,
}

/// Serves FOLD or KEYS.
pub(crate) fn list<D: Disk, K: Sink, C: Clock>(
    store: &mut Store<D>,
    clock: &mut C,
    sink: &mut K,
    outbox: &mut Outbox,
    listing: Listing,
) -> Onward
    ensures serves { (known : Bool) → (IsTrue known → IsTrue D.tells)
        → Serves (tells_of known K.tells C.tells) (request_of listing) result
        (session_state store.old (C.moments clock.old) (outgoing (K.written sink.old) outbox.old))
        (session_state store.new (C.moments clock.new) (outgoing (K.written sink.new) outbox.new)) }
    ensures past { IsTrue D.tells → KeepsPast store.old.files.told store.new.files.told }
    ensures later { K.faults sink.old ≤ K.faults sink.new }
    ensures failed { result ≡ Onward.Sink → Rose (K.faults sink.old) (K.faults sink.new) }
{
    let now = clock.now();
    match store.fold_open(0, now) {
        Ok(fold) => list_fold(store, sink, outbox, fold.slot, listing),
        Err(_) => send(outbox, sink, &Reply::Full(Full::Folds)),
    }
}

/// Lists all pairs of the fold that is open in this slot, and closes it.
fn list_fold<D: Disk, K: Sink>(
    store: &mut Store<D>,
    sink: &mut K,
    outbox: &mut Outbox,
    slot: u8,
    listing: Listing,
) -> Onward
    requires ours { IsOurs slot store.old }
    ensures ends { (known : Bool) → (IsTrue known → IsTrue D.tells)
        → EndsAll known K.tells (request_of listing) result slot
        store.old (outgoing (K.written sink.old) outbox.old)
        store.new (outgoing (K.written sink.new) outbox.new) }
    ensures past { IsTrue D.tells → KeepsPast store.old.files.told store.new.files.told }
    ensures later { K.faults sink.old ≤ K.faults sink.new }
    ensures failed { result ≡ Onward.Sink → Rose (K.faults sink.old) (K.faults sink.new) }
{
    for count in 0..u64::MAX {
        match next_row(store, sink, outbox, slot, listing) {
            Given::Row => {}
            Given::End => {
                close_fold(store, slot);
                return send(outbox, sink, &Reply::End(count));
            }
            Given::Line(line) => {
                close_fold(store, slot);
                return send(outbox, sink, &line);
            }
            Given::Sink => {
                close_fold(store, slot);
                return Onward::Sink;
            }
        }
    }
    // No fold has so many pairs.
    close_fold(store, slot);
    send(outbox, sink, &Reply::Memory)
}

/// Closes the fold in this slot.
fn close_fold<D: Disk>(store: &mut Store<D>, slot: u8)
    requires ours { IsOurs slot store.old }
    ensures closes { (known : Bool) → (IsTrue known → IsTrue D.tells)
        → Closes known slot store.old store.new }
    ensures past { IsTrue D.tells → KeepsPast store.old.files.told store.new.files.told }
{
    let _ = store.fold_close(0, slot);
}

/// Gathers the row of a fold's next pair.
fn next_row<D: Disk, K: Sink>(
    store: &mut Store<D>,
    sink: &mut K,
    outbox: &mut Outbox,
    slot: u8,
    listing: Listing,
) -> Given
    requires ours { IsOurs slot store.old }
    ensures gives { (known : Bool) → (IsTrue known → IsTrue D.tells)
        → Gives result known K.tells (request_of listing) slot
        store.old (outgoing (K.written sink.old) outbox.old)
        store.new (outgoing (K.written sink.new) outbox.new) }
    ensures ours { IsOurs slot store.new }
    ensures past { IsTrue D.tells → KeepsPast store.old.files.told store.new.files.told }
    ensures later { K.faults sink.old ≤ K.faults sink.new }
    ensures failed { result ≡ Given.Sink → Rose (K.faults sink.old) (K.faults sink.new) }
{
    match store.fold_next(0, slot) {
        Ok(Some(Row2 { key, loan })) => match listing {
            Listing::Keys => show_key(sink, outbox, key),
            Listing::Pairs => show_pair(sink, outbox, &key, loan),
        },
        Ok(None) => Given::End,
        Err(error) => Given::Line(refused_fold(error)),
    }
}

/// Gathers the row of KEYS: the pair's value isn't read.
fn show_key<K: Sink>(sink: &mut K, outbox: &mut Outbox, key: Key) -> Given
    ensures shows { ShowsKey result K.tells key (outgoing (K.written sink.old) outbox.old)
        (outgoing (K.written sink.new) outbox.new) }
    ensures later { K.faults sink.old ≤ K.faults sink.new }
    ensures failed { result ≡ Given.Sink → Rose (K.faults sink.old) (K.faults sink.new) }
{
    match outbox.add(sink, &Reply::Key(key)) {
        Ok(()) => Given::Row,
        Err(Unsent::Sink) => Given::Sink,
        Err(Unsent::Memory) => Given::Line(Reply::Memory),
    }
}

/// Gathers the row of FOLD, whose value is read straight into the outbox.
fn show_pair<K: Sink, V: View + Drop>(
    sink: &mut K,
    outbox: &mut Outbox,
    key: &Key,
    loan: Loan<V>,
) -> Given
    requires unread { loan.rest ≡ loan.size }
    ensures shows { ShowsPair result V.tells K.tells key.now loan
        (outgoing (K.written sink.old) outbox.old) (outgoing (K.written sink.new) outbox.new) }
    ensures later { K.faults sink.old ≤ K.faults sink.new }
    ensures failed { result ≡ Given.Sink → Rose (K.faults sink.old) (K.faults sink.new) }
{
    match outbox.add_pair(sink, key, loan) {
        Ok(()) => Given::Row,
        Err(Unread::Sink) => Given::Sink,
        Err(Unread::Memory) => Given::Line(Reply::Memory),
        Err(Unread::Read) => Given::Line(Reply::Read),
        Err(Unread::Damaged(damage)) => Given::Line(Reply::Damaged(damage)),
    }
}
