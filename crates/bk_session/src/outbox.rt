//! The replies on their way out.
ghost use Rattle.std.specs.Prelude.{◌≡◌, ◌≤◌, ◌+◌, ◌++◌, [], List, ℕ, drop, take, length, IsTrue, OnOk, OnErr, IfErr, IsErrOf};
ghost use Rattle.bk_base.specs.declared.requests.Reply.TheVariants.{Pair, Value};
ghost use Rattle.bk_disk.specs.Causes.{IsCaused, Rose};
ghost use Rattle.bk_disk.specs.Streams.{LeftOver, Wrote};
ghost use Rattle.bk_laws.specs.Wire.{line, reply_text};
ghost use Rattle.bk_session.specs.Outgoing.{IsUnread, IsValueOf, Moves, Sends, Stops, outgoing};

use bk_base::{Damage, Key, Memory, Reply};
use bk_disk::{Failed, Sink, View, write_all};
use bk_store::{Loan, ReadError};
use bk_wire::{write_pair_header, write_reply, write_value_header};
use std::alloc::{AllocError, Global};
use std::marker::Model;

/// Replies are written once so many bytes of them are gathered, and before the session reads again.
const GATHER: usize = 65_536;

/// The most room that is kept for the next replies. Where a large value took more, all of it is given
/// back: a part that stayed would keep the allocator from returning what was freed beside it.
const KEPT: usize = 262_144;

/// Why a reply didn't come to the outbox, or not to the sink.
#[derive(Clone, Copy, Debug, PartialEq, Eq)]
pub enum Unsent {
    Sink,
    Memory,
}

/// Why the value of a loan didn't come to the outbox, or not to the sink.
#[derive(Clone, Copy, Debug, PartialEq, Eq)]
pub enum Unread {
    Sink,
    Memory,
    Read,
    Damaged(Damage),
}

/// The text of the replies that wait to be written.
#[derive(Drop)]
pub struct Outbox {
    text: Vec<u8>,
}

impl Model for Outbox {
    ghost use Rattle.std.specs.Prelude.{List, ℕ};

    ghost Value = { List ℕ };

    ghost view = { λ o. o.text.items };
}

impl Outbox {
    pub fn new(alloc: Global) -> Outbox
        ensures { result ≡ [] }
    {
        Outbox {
            text: Vec::new(alloc),
        }
    }

    /// Gathers a reply, and writes all that is gathered once it is much. `Memory` leaves all as it was.
    pub fn add<K: Sink>(&mut self, sink: &mut K, reply: &Reply) -> Result<(), Unsent>
        ensures sent { IsTrue K.tells → OnOk result (Sends (outgoing (K.written sink.old) self.old)
            (reply_text reply.now) (outgoing (K.written sink.new) self.new)) }
        ensures stopped { IsTrue K.tells → IsErrOf result Unsent.Sink
            → Stops (outgoing (K.written sink.old) self.old) (reply_text reply.now)
            (outgoing (K.written sink.new) self.new) }
        ensures memory { IsErrOf result Unsent.Memory → (self.new ≡ self.old) × (sink.new ≡ sink.old) }
        ensures later { K.faults sink.old ≤ K.faults sink.new }
        ensures failed { IsErrOf result Unsent.Sink → Rose (K.faults sink.old) (K.faults sink.new) }
    {
        if write_reply(reply, &mut self.text).is_err() {
            return Err(Unsent::Memory);
        }
        self.write_if_many(sink).map_err(|_| Unsent::Sink)
    }

    /// Gathers the reply VALUE with the value of a loan, which is read straight into the outbox.
    /// Unless the sink failed, an error leaves all as it was.
    pub fn add_value<K: Sink, V: View + Drop>(
        &mut self,
        sink: &mut K,
        loan: Loan<V>,
    ) -> Result<(), Unread>
        requires unread { loan.rest ≡ loan.size }
        ensures sent { OnOk result ((value : List ℕ) × (IsTrue V.tells → value ≡ drop loan.value_at loan.left)
            × (IsTrue K.tells → Sends (outgoing (K.written sink.old) self.old)
            (reply_text (Value value)) (outgoing (K.written sink.new) self.new))) }
        ensures stopped { IsErrOf result Unread.Sink → (value : List ℕ)
            × (IsTrue V.tells → value ≡ drop loan.value_at loan.left)
            × (IsTrue K.tells → Stops (outgoing (K.written sink.old) self.old)
            (reply_text (Value value)) (outgoing (K.written sink.new) self.new)) }
        ensures unread { IfErr result (IsUnread V.tells loan) }
        ensures same { OnErr result ((IsErrOf result Unread.Sink → ⊥)
            → (self.new ≡ self.old) × (sink.new ≡ sink.old)) }
        ensures later { K.faults sink.old ≤ K.faults sink.new }
        ensures failed { IsErrOf result Unread.Sink → Rose (K.faults sink.old) (K.faults sink.new) }
    {
        let start = self.text.len();
        if let Err(error) = put_value_reply(&mut self.text, loan) {
            self.text.truncate(start);
            return Err(error);
        }
        self.write_if_many(sink).map_err(|_| Unread::Sink)
    }

    /// Gathers the reply PAIR with a key and the value of a loan, as `add_value` does.
    pub fn add_pair<K: Sink, V: View + Drop>(
        &mut self,
        sink: &mut K,
        key: &Key,
        loan: Loan<V>,
    ) -> Result<(), Unread>
        requires unread { loan.rest ≡ loan.size }
        ensures sent { OnOk result ((value : List ℕ) × (IsTrue V.tells → value ≡ drop loan.value_at loan.left)
            × (IsTrue K.tells → Sends (outgoing (K.written sink.old) self.old)
            (reply_text (Pair key.now value)) (outgoing (K.written sink.new) self.new))) }
        ensures stopped { IsErrOf result Unread.Sink → (value : List ℕ)
            × (IsTrue V.tells → value ≡ drop loan.value_at loan.left)
            × (IsTrue K.tells → Stops (outgoing (K.written sink.old) self.old)
            (reply_text (Pair key.now value)) (outgoing (K.written sink.new) self.new)) }
        ensures unread { IfErr result (IsUnread V.tells loan) }
        ensures same { OnErr result ((IsErrOf result Unread.Sink → ⊥)
            → (self.new ≡ self.old) × (sink.new ≡ sink.old)) }
        ensures later { K.faults sink.old ≤ K.faults sink.new }
        ensures failed { IsErrOf result Unread.Sink → Rose (K.faults sink.old) (K.faults sink.new) }
    {
        let start = self.text.len();
        if let Err(error) = put_pair_reply(&mut self.text, key, loan) {
            self.text.truncate(start);
            return Err(error);
        }
        self.write_if_many(sink).map_err(|_| Unread::Sink)
    }

    /// Writes all that is gathered. After `Failed` the sink took a first part of it.
    pub fn flush<K: Sink>(&mut self, sink: &mut K) -> Result<(), Failed>
        ensures wrote { IsTrue K.tells → OnOk result
            (Wrote (K.written sink.old) (K.written sink.new) self.old) }
        ensures part { IsTrue K.tells → OnErr result
            (LeftOver (K.written sink.old) (K.written sink.new) self.old) }
        ensures empty { OnOk result (self.new ≡ []) }
        ensures kept { OnErr result (self.new ≡ self.old) }
        ensures cause { IsCaused (K.faults sink.old) (K.faults sink.new) result }
    {
        write_all(sink, self.text.as_slice())?;
        self.text.clear();
        if self.text.capacity() > KEPT {
            self.text.shrink_to_fit();
        }
        Ok(())
    }

    // Writes all that is gathered once it is much.
    fn write_if_many<K: Sink>(&mut self, sink: &mut K) -> Result<(), Failed>
        ensures moves { IsTrue K.tells → OnOk result
            (Moves (outgoing (K.written sink.old) self.old) (outgoing (K.written sink.new) self.new)) }
        ensures part { IsTrue K.tells → OnErr result
            (LeftOver (K.written sink.old) (K.written sink.new) self.old) }
        ensures cause { IsCaused (K.faults sink.old) (K.faults sink.new) result }
    {
        if self.text.len() < GATHER {
            return Ok(());
        }
        self.flush(sink)
    }
}

// Puts the reply VALUE behind these bytes. After an error they begin as they were.
fn put_value_reply<V: View + Drop>(text: &mut Vec<u8>, loan: Loan<V>) -> Result<(), Unread>
    requires unread { loan.rest ≡ loan.size }
    ensures ok { OnOk result ((value : List ℕ) × (IsTrue V.tells → value ≡ drop loan.value_at loan.left)
        × (text.new.items ≡ text.old.items ++ reply_text (Value value))) }
    ensures start { take (length text.old.items) text.new.items ≡ text.old.items }
    ensures unread { IfErr result (IsUnread V.tells loan) }
    ensures not_sink { IsErrOf result Unread.Sink → ⊥ }
{
    let value_len = loan.size() - loan.value_at();
    write_value_header(value_len, text)?;
    put_value_line(text, loan)
}

// Puts the reply PAIR behind these bytes. After an error they begin as they were.
fn put_pair_reply<V: View + Drop>(
    text: &mut Vec<u8>,
    key: &Key,
    loan: Loan<V>,
) -> Result<(), Unread>
    requires unread { loan.rest ≡ loan.size }
    ensures ok { OnOk result ((value : List ℕ) × (IsTrue V.tells → value ≡ drop loan.value_at loan.left)
        × (text.new.items ≡ text.old.items ++ reply_text (Pair key.now value))) }
    ensures start { take (length text.old.items) text.new.items ≡ text.old.items }
    ensures unread { IfErr result (IsUnread V.tells loan) }
    ensures not_sink { IsErrOf result Unread.Sink → ⊥ }
{
    let value_len = loan.size() - loan.value_at();
    write_pair_header(key, value_len, text)?;
    put_value_line(text, loan)
}

// Puts the value of a loan and a line feed behind these bytes. After an error they begin as they were.
fn put_value_line<V: View + Drop>(text: &mut Vec<u8>, loan: Loan<V>) -> Result<(), Unread>
    requires unread { loan.rest ≡ loan.size }
    ensures ok { OnOk result ((value : List ℕ) × IsValueOf V.tells loan value
        × (text.new.items ≡ text.old.items ++ line value)) }
    ensures start { take (length text.old.items) text.new.items ≡ text.old.items }
    ensures unread { IfErr result (IsUnread V.tells loan) }
    ensures not_sink { IsErrOf result Unread.Sink → ⊥ }
{
    put_value(text, loan)?;
    text.extend_from_slice(b"\n")?;
    Ok(())
}

// Reads a loan to the end of these bytes, and leaves of it the value. After an error they begin as they
// were.
fn put_value<V: View + Drop>(text: &mut Vec<u8>, mut loan: Loan<V>) -> Result<(), Unread>
    requires unread { loan.rest ≡ loan.size }
    ensures ok { OnOk result ((value : List ℕ) × IsValueOf V.tells loan value
        × (text.new.items ≡ text.old.items ++ value)) }
    ensures start { take (length text.old.items) text.new.items ≡ text.old.items }
    ensures unread { IfErr result (IsUnread V.tells loan) }
    ensures not_sink { IsErrOf result Unread.Sink → ⊥ }
{
    let start = text.len();
    let Some(end) = start.checked_add(loan.size()) else {
        return Err(Unread::Memory);
    };
    text.resize(end, 0)?;
    loan.read(&mut text[start..])?;
    drop_at(text, start, loan.value_at());
    Ok(())
}

// Drops so many bytes behind the first ones.
fn drop_at(bytes: &mut Vec<u8>, at: usize, count: usize)
    requires { at + count ≤ length bytes.old.items }
    ensures { bytes.new.items ≡ take at bytes.old.items ++ drop (at + count) bytes.old.items }
{
    let len = bytes.len() - count;
    bytes.copy_within(at + count.., at);
    bytes.truncate(len);
}

impl From<Memory> for Unread {
    ghost use Rattle.bk_session.specs.declared.outbox.Unread.TheVariants.{Memory as no_memory};
    ghost use Rattle.std.specs.Prelude.{◌≡◌};

    ghost from_gives = { λ _ error. error ≡ no_memory };

    fn from(_: Memory) -> Unread {
        Unread::Memory
    }
}

impl From<AllocError> for Unread {
    ghost use Rattle.bk_session.specs.declared.outbox.Unread.TheVariants.{Memory as no_memory};
    ghost use Rattle.std.specs.Prelude.{◌≡◌};

    ghost from_gives = { λ _ error. error ≡ no_memory };

    fn from(_: AllocError) -> Unread {
        Unread::Memory
    }
}

impl From<ReadError> for Unread {
    ghost use Rattle.std.specs.Prelude.{◌≡◌};
    ghost use Rattle.bk_session.specs.Outgoing.{unread_of};

    ghost from_gives = { λ cause error. error ≡ unread_of cause };

    fn from(error: ReadError) -> Unread {
        match error {
            ReadError::Read => Unread::Read,
            ReadError::Damaged(damage) => Unread::Damaged(damage),
        }
    }
}
