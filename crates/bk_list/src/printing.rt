//! The keys are sorted, and their pairs are printed one after the other.
ghost use Rattle.std.specs.Prelude.{◌≡◌, ◌⊎◌, ◌≤◌, Bool, IsTrue};
ghost use Rattle.bk_disk.specs.Causes.{Rose};
ghost use Rattle.bk_list.specs.Getting.{PrintsKeys, PrintsSorted, Shows, Stays};
ghost use Rattle.bk_session.specs.Outgoing.{outgoing};
ghost use Rattle.bk_store.specs.Events.{KeepsPast};

use crate::ending::{break_off, end_as, end_of, end_with};
use crate::lists::ListEnd;
use bk_base::{Key, Moment, Reply};
use bk_disk::{Disk, Sink};
use bk_session::{Outbox, Unread};
use bk_store::{LocateError, Store};
use std::alloc::Global;

/// What became of a key.
#[derive(Clone, Copy, Debug, PartialEq, Eq)]
pub(crate) enum Shown {
    /// Its pair is gathered.
    Row,
    /// It isn't live.
    Absent,
    /// Its value couldn't be read or gathered, or the sink failed.
    Unread(Unread),
    /// It couldn't be located.
    Refused(LocateError),
}

/// Prints the pairs of these keys that are live at `now`, in the order of the keys, and then their number.
pub(crate) fn print<D: Disk, K: Sink>(
    alloc: Global,
    store: &mut Store<D>,
    sink: &mut K,
    mut keys: Vec<Key>,
    now: Moment,
) -> ListEnd
    ensures prints { (known : Bool) → (IsTrue known → IsTrue D.tells)
        → PrintsSorted known K.tells result now keys.items store.old store.new (K.written sink.old) (K.written sink.new) }
    ensures stays { Stays store.old store.new }
    ensures past { IsTrue D.tells → KeepsPast store.old.files.told store.new.files.told }
    ensures disk { result ≡ ListEnd.Disk → Rose store.old.files.faults store.new.files.faults
        ⊎ Rose store.old.files.fallible_views store.new.files.fallible_views }
    ensures later { K.faults sink.old ≤ K.faults sink.new }
    ensures failed { result ≡ ListEnd.Sink → Rose (K.faults sink.old) (K.faults sink.new) }
{
    keys.sort_unstable_by(|a, b| a.bytes().cmp(b.bytes()));
    print_pairs(alloc, store, sink, keys.as_slice(), now)
}

/// Prints them in this order.
fn print_pairs<D: Disk, K: Sink>(
    alloc: Global,
    store: &mut Store<D>,
    sink: &mut K,
    keys: &[Key],
    now: Moment,
) -> ListEnd
    ensures prints { (known : Bool) → (IsTrue known → IsTrue D.tells)
        → PrintsKeys known K.tells result now keys.now store.old store.new (K.written sink.old) (K.written sink.new) }
    ensures stays { Stays store.old store.new }
    ensures past { IsTrue D.tells → KeepsPast store.old.files.told store.new.files.told }
    ensures disk { result ≡ ListEnd.Disk → Rose store.old.files.faults store.new.files.faults
        ⊎ Rose store.old.files.fallible_views store.new.files.fallible_views }
    ensures later { K.faults sink.old ≤ K.faults sink.new }
    ensures failed { result ≡ ListEnd.Sink → Rose (K.faults sink.old) (K.faults sink.new) }
{
    let mut outbox = Outbox::new(alloc);
    let mut count = 0;
    for key in keys {
        match show_pair(store, sink, &mut outbox, key, now) {
            Shown::Row => count += 1,
            Shown::Absent => {}
            Shown::Unread(why) => return break_off(sink, outbox, why),
            Shown::Refused(error) => return end_as(sink, outbox, end_of(error)),
        }
    }
    end_with(sink, outbox, &Reply::End(count), ListEnd::Done)
}

/// Gathers the pair of a key, whose value is read straight into the outbox.
fn show_pair<D: Disk, K: Sink>(
    store: &mut Store<D>,
    sink: &mut K,
    outbox: &mut Outbox,
    key: &Key,
    now: Moment,
) -> Shown
    ensures shows { (known : Bool) → (IsTrue known → IsTrue D.tells) → Shows result known K.tells key.now now
        store.old (outgoing (K.written sink.old) outbox.old) store.new (outgoing (K.written sink.new) outbox.new) }
    ensures stays { Stays store.old store.new }
    ensures past { IsTrue D.tells → KeepsPast store.old.files.told store.new.files.told }
    ensures disk { result ≡ Shown.Refused LocateError.Disk → Rose store.old.files.faults store.new.files.faults }
    ensures read { result ≡ Shown.Unread Unread.Read
        → Rose store.old.files.fallible_views store.new.files.fallible_views }
    ensures later { K.faults sink.old ≤ K.faults sink.new }
    ensures failed { result ≡ Shown.Unread Unread.Sink → Rose (K.faults sink.old) (K.faults sink.new) }
{
    match store.locate(key, now) {
        Ok(Some(loan)) => match outbox.add_pair(sink, key, loan) {
            Ok(()) => Shown::Row,
            Err(why) => Shown::Unread(why),
        },
        Ok(None) => Shown::Absent,
        Err(error) => Shown::Refused(error),
    }
}
