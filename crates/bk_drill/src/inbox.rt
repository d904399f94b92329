//! The script on its way in.
ghost use Rattle.std.specs.Prelude.{◌≡◌, ◌≤◌, ◌<◌, [], drop, length, false, IsTrue, IfOk, OnErr, MatchOption};
ghost use Rattle.bk_disk.specs.Causes.{Rose};
ghost use Rattle.bk_drill.specs.Running.{TakesMore};
ghost use Rattle.bk_script.specs.Script.{Answers, taken};

use bk_base::Memory;
use bk_disk::Source;
use bk_script::{Next, Reader};
use std::alloc::Global;
use std::marker::Model;

/// The most bytes that one read of the source gives.
const PIECE: usize = 65_536;

/// What asking the source for more gave.
#[derive(Clone, Copy, Debug, PartialEq, Eq)]
pub(crate) enum Input {
    Taken,
    Ended,
    /// All bytes that may be taken were taken.
    Long,
    Failed,
    Memory,
}

/// What was taken of the script and isn't run yet. Contracts see it as a reader of lines.
#[derive(Drop)]
pub(crate) struct Inbox {
    reader: Reader,
    piece: Vec<u8>,
}

impl Model for Inbox {
    ghost use Rattle.std.specs.Prelude.{◌<◌, ◌≤◌, length};
    ghost use Rattle.bk_script.specs.Script.{Script, taken};

    ghost Value = { Script };

    ghost view = { λ i. i.reader };

    ghost invariant = { λ i. (0 < length i.piece.items) × (taken i.reader ≤ i.reader.most) };
}

impl Inbox {
    /// An inbox that takes at most `most` bytes.
    pub(crate) fn new(alloc: Global, most: u64) -> Result<Inbox, Memory>
        ensures { IfOk result (λ inbox. inbox
            ≡ record { rest = []; offset = 0; most = most; lines = 0; begun = false }) }
    {
        let piece: Result<_, _> = vec![in alloc; 0u8; PIECE];
        match piece {
            Ok(piece) => Ok(Inbox {
                reader: Reader::new(alloc, most),
                piece,
            }),
            Err(_) => Err(Memory),
        }
    }

    /// The next line, where a whole one was taken.
    pub(crate) fn next(&mut self) -> Result<Next, Memory>
        ensures ok { IfOk result (λ next. Answers next self.old self.new) }
        ensures within { taken self.new ≤ self.new.most }
        ensures same { (taken self.new ≡ taken self.old) × (self.new.most ≡ self.old.most) }
        ensures err { OnErr result (self.new ≡ self.old) }
    {
        self.reader.next()
    }

    /// Takes the next piece of the source.
    pub(crate) fn read_on<S: Source>(&mut self, source: &mut S) -> Input
        ensures gives { TakesMore result S.tells self.old self.new
            (drop (S.taken source.old) (S.whole source.old))
            (drop (S.taken source.new) (S.whole source.new)) }
        ensures within { taken self.new ≤ self.new.most }
        ensures most { self.new.most ≡ self.old.most }
        ensures later { S.faults source.old ≤ S.faults source.new }
        ensures failed { result ≡ Input.Failed → Rose (S.faults source.old) (S.faults source.new) }
        ensures whole { IsTrue S.tells → S.whole source.new ≡ S.whole source.old }
    {
        next_piece(&mut self.reader, source, self.piece.as_mut_slice())
    }

    /// The offset of the bytes that aren't run yet, or `None` where there are none.
    pub(crate) fn rest(&self) -> Option<u64>
        ensures { MatchOption result (self.now.rest ≡ [])
            (λ offset. (offset ≡ self.now.offset) × (0 < length self.now.rest)) }
    {
        self.reader.rest()
    }
}

// Reads the next piece of the source and hands it to the reader.
fn next_piece<S: Source>(reader: &mut Reader, source: &mut S, piece: &mut [u8]) -> Input
    requires some { 0 < length piece.old }
    ensures gives { TakesMore result S.tells reader.old reader.new
        (drop (S.taken source.old) (S.whole source.old))
        (drop (S.taken source.new) (S.whole source.new)) }
    ensures within { taken reader.new ≤ reader.new.most }
    ensures most { reader.new.most ≡ reader.old.most }
    ensures later { S.faults source.old ≤ S.faults source.new }
    ensures failed { result ≡ Input.Failed → Rose (S.faults source.old) (S.faults source.new) }
    ensures whole { IsTrue S.tells → S.whole source.new ≡ S.whole source.old }
{
    let room = reader.room();
    if room == 0 {
        return Input::Long;
    }
    let want = room.min(piece.len() as u64) as usize;
    let into = &mut piece[..want];
    match source.read(into) {
        Err(_) => Input::Failed,
        Ok(0) => Input::Ended,
        Ok(n) => match reader.take(&into[..n]) {
            Ok(()) => Input::Taken,
            Err(_) => Input::Memory,
        },
    }
}
