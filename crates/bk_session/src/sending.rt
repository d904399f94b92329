//! A reply goes to the outbox.
ghost use Rattle.std.specs.Prelude.{◌≡◌, ◌≢◌, ◌≤◌, IsTrue};
ghost use Rattle.bk_base.specs.declared.requests.Reply.{Reply as reply_type};
ghost use Rattle.bk_disk.specs.Causes.{Rose};
ghost use Rattle.bk_laws.specs.Wire.{reply_text};
ghost use Rattle.bk_session.specs.Outgoing.{outgoing};
ghost use Rattle.bk_session.specs.Replying.{IsGiven};
ghost use Rattle.bk_session.specs.Serving.{SendsAs};

use crate::outbox::{Outbox, Unread, Unsent};
use crate::serving::Onward;
use bk_base::Reply;
use bk_disk::{Sink, View};
use bk_store::Loan;

/// Sends one line.
pub(crate) fn send<K: Sink>(outbox: &mut Outbox, sink: &mut K, reply: &Reply) -> Onward
    ensures sent { IsTrue K.tells → SendsAs result (outgoing (K.written sink.old) outbox.old)
        (reply_text reply.now) (outgoing (K.written sink.new) outbox.new) }
    ensures within { result ≢ Onward.Quit }
    ensures later { K.faults sink.old ≤ K.faults sink.new }
    ensures failed { result ≡ Onward.Sink → Rose (K.faults sink.old) (K.faults sink.new) }
{
    match outbox.add(sink, reply) {
        Ok(()) => Onward::Next,
        Err(Unsent::Sink) => Onward::Sink,
        Err(Unsent::Memory) => Onward::Memory,
    }
}

/// Sends the value of a loan, or the line that says why it couldn't be read.
pub(crate) fn send_value<K: Sink, V: View + Drop>(
    outbox: &mut Outbox,
    sink: &mut K,
    loan: Loan<V>,
) -> Onward
    requires unread { loan.rest ≡ loan.size }
    ensures sent { (reply : reply_type) × IsGiven V.tells loan reply
        × (IsTrue K.tells → SendsAs result (outgoing (K.written sink.old) outbox.old)
        (reply_text reply) (outgoing (K.written sink.new) outbox.new)) }
    ensures within { result ≢ Onward.Quit }
    ensures later { K.faults sink.old ≤ K.faults sink.new }
    ensures failed { result ≡ Onward.Sink → Rose (K.faults sink.old) (K.faults sink.new) }
{
    match outbox.add_value(sink, loan) {
        Ok(()) => Onward::Next,
        Err(Unread::Sink) => Onward::Sink,
        Err(Unread::Memory) => send(outbox, sink, &Reply::Memory),
        Err(Unread::Read) => send(outbox, sink, &Reply::Read),
        Err(Unread::Damaged(damage)) => send(outbox, sink, &Reply::Damaged(damage)),
    }
}
