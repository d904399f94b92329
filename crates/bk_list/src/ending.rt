//! How a listing ends.
ghost use Rattle.std.specs.Prelude.{◌≡◌, ◌≢◌, ◌≤◌};
ghost use Rattle.bk_disk.specs.Causes.{Rose};
ghost use Rattle.bk_laws.specs.Wire.{reply_text};
ghost use Rattle.bk_list.specs.Ending.{Breaks, WritesAll, WritesLine, end_of_locate};

use crate::lists::ListEnd;
use bk_base::Reply;
use bk_disk::Sink;
use bk_session::{Outbox, Unread, Unsent};
use bk_store::LocateError;

/// How a key that couldn't be located ends the listing.
pub(crate) fn end_of(error: LocateError) -> ListEnd
    ensures { result ≡ end_of_locate error }
{
    match error {
        LocateError::Disk => ListEnd::Disk,
        LocateError::Memory => ListEnd::Memory,
    }
}

/// Ends where a pair can't be gathered: what is gathered is written, and why, where a record is damaged.
pub(crate) fn break_off<K: Sink>(sink: &mut K, outbox: Outbox, why: Unread) -> ListEnd
    ensures breaks { Breaks why result K.tells (K.written sink.old) (K.written sink.new) outbox }
    ensures later { K.faults sink.old ≤ K.faults sink.new }
    ensures failed { result ≡ ListEnd.Sink → why ≢ Unread.Sink → Rose (K.faults sink.old) (K.faults sink.new) }
{
    match why {
        Unread::Sink => ListEnd::Sink,
        Unread::Memory => end_as(sink, outbox, ListEnd::Memory),
        Unread::Read => end_as(sink, outbox, ListEnd::Disk),
        Unread::Damaged(damage) => {
            let line = Reply::Damaged(damage);
            end_with(sink, outbox, &line, ListEnd::Damaged)
        }
    }
}

/// Writes all that is gathered and this line behind it, and ends so.
pub(crate) fn end_with<K: Sink>(
    sink: &mut K,
    mut outbox: Outbox,
    line: &Reply,
    end: ListEnd,
) -> ListEnd
    ensures writes { WritesLine end result K.tells (K.written sink.old) (K.written sink.new) outbox
        (reply_text line.now) }
    ensures later { K.faults sink.old ≤ K.faults sink.new }
    ensures failed { result ≡ ListEnd.Sink → end ≢ ListEnd.Sink → Rose (K.faults sink.old) (K.faults sink.new) }
{
    match outbox.add(sink, line) {
        Ok(()) => end_as(sink, outbox, end),
        Err(Unsent::Memory) => end_as(sink, outbox, ListEnd::Memory),
        Err(Unsent::Sink) => ListEnd::Sink,
    }
}

/// Writes all that is gathered, and ends so.
pub(crate) fn end_as<K: Sink>(sink: &mut K, mut outbox: Outbox, end: ListEnd) -> ListEnd
    ensures writes { WritesAll end result K.tells (K.written sink.old) (K.written sink.new) outbox }
    ensures later { K.faults sink.old ≤ K.faults sink.new }
    ensures failed { result ≡ ListEnd.Sink → end ≢ ListEnd.Sink → Rose (K.faults sink.old) (K.faults sink.new) }
{
    match outbox.flush(sink) {
        Ok(()) => end,
        Err(_) => ListEnd::Sink,
    }
}
