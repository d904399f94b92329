//! The reader of requests.
ghost use Rattle.std.specs.Prelude.{◌≡◌, ◌+◌, ◌-◌, ◌*◌, ◌<◌, ◌≤◌, ◌++◌, ℕ, List, [], length, OnOk, OnErr, IfOk, MatchOption, take, drop};
ghost use Rattle.bk_base.specs.declared.requests.Request.{Request as AnyRequest};
ghost use Rattle.bk_laws.specs.Wire.{StandsIn};
ghost use Rattle.bk_wire.specs.Room.{HasRoom};

use crate::requests::find;
use crate::stops::Stop;
use bk_base::{Memory, Request};
use std::alloc::Global;
use std::marker::Model;
use std::mem;

/// What a reader finds at the front of what it took.
#[derive(Drop)]
pub enum Next {
    /// No whole request yet: more bytes are needed, or none are left.
    Need,
    /// The request that stands there.
    Ask(Request),
    /// No request stands at this offset of the stream, however it goes on.
    Bad(u64),
}

/// How much room the buffer keeps at most where few bytes are left in it.
const KEPT_ROOM: usize = 131_072;

/// Reads the requests of a stream that comes in any pieces. Contracts see the bytes that were
/// taken and aren't read yet, their offset in the stream, the most bytes that may be taken, and how
/// many bytes the buffer has.
#[derive(Drop)]
pub struct Reader {
    bytes: Vec<u8>,
    /// Where the bytes begin that aren't read yet.
    start: usize,
    offset: u64,
    most: u64,
    alloc: Global,
}

impl Model for Reader {
    ghost use Rattle.std.specs.Prelude.{◌+◌, ◌-◌, ◌*◌, ◌≤◌, drop, length};
    ghost use Rattle.bk_wire.specs.Stream.{Stream};

    ghost Value = { Stream };

    ghost view = { λ r. record {
      rest = drop r.start r.bytes.items;
      offset = r.offset;
      most = r.most;
      held = length r.bytes.items;
    } };

    ghost invariant = { λ r. (2 * r.start ≤ length r.bytes.items)
        × (r.offset + (length r.bytes.items - r.start) ≤ r.most) };
}

impl Reader {
    ghost use Rattle.bk_wire.specs.Stream.{Stream, taken, IsBounded};
    ghost use Rattle.bk_wire.specs.Answers.{Answers};

    /// A reader of a stream of at most `most` bytes.
    pub fn new(alloc: Global, most: u64) -> Reader
        ensures { result ≡ record { rest = []; offset = 0; most = most; held = 0 } }
    {
        Reader {
            bytes: Vec::new(alloc),
            start: 0,
            offset: 0,
            most,
            alloc,
        }
    }

    /// Takes the next piece of the stream. Out of memory, the reader is as it was.
    pub fn take(&mut self, piece: &[u8]) -> Result<(), Memory>
        requires { taken self.old + length piece.now ≤ self.old.most }
        ensures ok { OnOk result (self.new ≡ record self.old {
          rest = self.old.rest ++ piece.now;
          held = self.old.held + length piece.now;
        }) }
        ensures bounded { IsBounded self.new }
        ensures err { OnErr result (self.new ≡ self.old) }
    {
        self.bytes.extend_from_slice(piece).map_err(|_| Memory)
    }

    /// Lends the buffer, for a source that reads straight into it: the bytes that aren't read yet, and
    /// room for so many more behind them. Until it is given back the reader has no bytes. Out of
    /// memory, the reader is as it was.
    #[tactic(auto, using(crate::proofs::RoomLaws::room_stays))]
    pub fn lend(&mut self, room: usize) -> Result<Vec<u8>, Memory>
        ensures room { IfOk result (λ bytes. HasRoom self.old.rest room bytes.items) }
        ensures lent { OnOk result (self.new ≡ record self.old { rest = []; held = 0 }) }
        ensures err { OnErr result (self.new ≡ self.old) }
    {
        add_room(&mut self.bytes, room)?;
        let mut bytes = mem::replace(&mut self.bytes, Vec::new(self.alloc));
        drop_front(&mut bytes, self.start);
        self.start = 0;
        Ok(bytes)
    }

    /// Takes the buffer back that was lent, with so many bytes in it that aren't read yet.
    pub fn give_back(&mut self, bytes: Vec<u8>, filled: usize)
        requires lent { self.old.rest ≡ [] }
        requires within { filled ≤ length bytes.items }
        requires most { self.old.offset + filled ≤ self.old.most }
        ensures { self.new ≡ record self.old { rest = take filled bytes.items; held = filled } }
    {
        self.bytes = bytes;
        self.bytes.truncate(filled);
        self.start = 0;
    }

    /// Reads the request at the front. `Memory` comes only where a request stands there, and
    /// leaves the reader as it was. What was read is dropped once it is more than half of what the
    /// buffer has, and after a large request the buffer's room is given back.
    pub fn next(&mut self) -> Result<Next, Memory>
        ensures ok { IfOk result (λ next. Answers next self.old self.new) }
        ensures taken { taken self.new ≡ taken self.old }
        ensures most { self.new.most ≡ self.old.most }
        ensures bounded { IsBounded self.new }
        ensures err { OnErr result (self.new ≡ self.old) }
        ensures memory { OnErr result
            ((request : AnyRequest) × (rest : List ℕ) × StandsIn self.old.rest request rest) }
    {
        match find(&self.bytes[self.start..]) {
            Ok((found, size)) => {
                let request = found.to_request(self.alloc)?;
                self.start += size;
                self.offset += size as u64;
                drop_read(&mut self.bytes, &mut self.start);
                Ok(Next::Ask(request))
            }
            Err(Stop::Short) => Ok(Next::Need),
            Err(Stop::Bad) => Ok(Next::Bad(self.offset)),
        }
    }

    /// How many more bytes may be taken.
    pub fn room(&self) -> u64
        ensures { result + taken self.now ≡ self.now.most }
    {
        self.most - self.offset - (self.bytes.len() - self.start) as u64
    }

    /// The offset in the stream of the bytes that aren't read yet, or `None` where there are none.
    pub fn rest(&self) -> Option<u64>
        ensures { MatchOption result (self.now.rest ≡ [])
            (λ offset. (offset ≡ self.now.offset) × (0 < length self.now.rest)) }
    {
        if self.start < self.bytes.len() {
            Some(self.offset)
        } else {
            None
        }
    }
}

// Drops the bytes before `start` once they are more than half of all, so that a byte is moved at
// most once for each byte that was read; and gives back room where few bytes are left.
fn drop_read(bytes: &mut Vec<u8>, start: &mut usize)
    requires { start.old ≤ length bytes.old.items }
    ensures bounded { 2 * start.new ≤ length bytes.new.items }
    ensures rest { drop start.new bytes.new.items ≡ drop start.old bytes.old.items }
    ensures len { length bytes.new.items - start.new ≡ length bytes.old.items - start.old }
{
    let rest = bytes.len() - *start;
    if rest >= *start {
        return;
    }
    drop_front(bytes, *start);
    *start = 0;
    if rest <= KEPT_ROOM / 2 {
        bytes.shrink_to(KEPT_ROOM);
    }
}

// Drops so many bytes off the front.
fn drop_front(bytes: &mut Vec<u8>, count: usize)
    requires { count ≤ length bytes.old.items }
    ensures { bytes.new.items ≡ drop count bytes.old.items }
{
    if count == 0 {
        return;
    }
    let rest = bytes.len() - count;
    bytes.copy_within(count.., 0);
    bytes.truncate(rest);
}

// Puts so many bytes behind these, for others to be read over them. Out of memory, they are as they
// were.
#[tactic(auto, using(crate::proofs::RoomLaws::put_behind))]
fn add_room(bytes: &mut Vec<u8>, room: usize) -> Result<(), Memory>
    ensures ok { OnOk result (HasRoom bytes.old.items room bytes.new.items) }
    ensures err { OnErr result (bytes.new.items ≡ bytes.old.items) }
{
    let len = bytes.len().checked_add(room).ok_or(Memory)?;
    bytes.resize(len, 0).map_err(|_| Memory)
}
