//! The reader of a script.
ghost use Rattle.std.specs.Prelude.{◌≡◌, ◌≢◌, ◌+◌, ◌<◌, ◌≤◌, ◌++◌, ◌∷◌, [], length, take, drop, false, ◌↔◌, IsTrue, OnOk, OnErr, IfOk, MatchOption};
ghost use Rattle.bk_script.specs.Front.{EndsAt, IsFront};

use crate::limits::{LONGEST_LINE, MOST_LINES};
use crate::lines::Line;
use crate::reading::read_line;
use crate::unread::Unread;
use bk_base::Memory;
use std::alloc::Global;
use std::marker::Model;

/// What a reader finds at the front of what it took.
#[derive(Debug, Drop)]
pub enum Next {
    /// No whole line yet: more bytes are needed, or none are left.
    Need,
    /// The next line.
    Line(Line),
    /// No line of a script stands at this offset.
    Bad(u64),
}

/// Reads the lines of a script that comes in any pieces. Contracts see the bytes that were taken and
/// aren't read yet, their offset in the script, the most bytes that may be taken, how many lines were
/// read, and whether a line was among them that is no setting.
#[derive(Drop)]
pub struct Reader {
    bytes: Vec<u8>,
    /// Where the bytes begin that aren't read yet.
    start: usize,
    offset: u64,
    most: u64,
    lines: u32,
    begun: bool,
    alloc: Global,
}

impl Model for Reader {
    ghost use Rattle.std.specs.Prelude.{◌+◌, ◌-◌, ◌≤◌, drop, length};
    ghost use Rattle.bk_script.specs.declared.limits.TheConstants.{MOST_LINES};
    ghost use Rattle.bk_script.specs.Script.{Script};

    ghost Value = { Script };

    ghost view = { λ r. record {
      rest = drop r.start r.bytes.items;
      offset = r.offset;
      most = r.most;
      lines = r.lines;
      begun = r.begun;
    } };

    ghost invariant = { λ r. (r.start ≤ length r.bytes.items) × (r.lines ≤ MOST_LINES)
        × (r.offset + (length r.bytes.items - r.start) ≤ r.most) };
}

/// What stands at the front of some bytes.
enum Front<'a> {
    /// Less than a line.
    Unended,
    /// More than a line may have.
    Over,
    /// A line, without its line feed.
    Line(&'a [u8]),
}

impl Reader {
    ghost use Rattle.bk_script.specs.Script.{Allows, Answers, taken};
    ghost use Rattle.bk_script.specs.Words.{IsNext, Reads, line_bytes};

    /// A reader of a script of at most `most` bytes.
    pub fn new(alloc: Global, most: u64) -> Reader
        ensures { result ≡ record { rest = []; offset = 0; most = most; lines = 0; begun = false } }
    {
        Reader {
            bytes: Vec::new(alloc),
            start: 0,
            offset: 0,
            most,
            lines: 0,
            begun: false,
            alloc,
        }
    }

    /// Takes the next piece of the script. Out of memory, the reader is as it was.
    pub fn take(&mut self, piece: &[u8]) -> Result<(), Memory>
        requires { taken self.old + length piece.now ≤ self.old.most }
        ensures ok { OnOk result (self.new ≡ record self.old { rest = self.old.rest ++ piece.now }) }
        ensures err { OnErr result (self.new ≡ self.old) }
    {
        drop_front(&mut self.bytes, self.start);
        self.start = 0;
        self.bytes.extend_from_slice(piece).map_err(|_| Memory)
    }

    /// Reads the next line. Out of memory, the reader is as it was.
    pub fn next(&mut self) -> Result<Next, Memory>
        ensures ok { IfOk result (λ next. Answers next self.old self.new) }
        ensures taken { taken self.new ≡ taken self.old }
        ensures most { self.new.most ≡ self.old.most }
        ensures err { OnErr result (self.new ≡ self.old) }
    {
        let bytes = match first_line(&self.bytes[self.start..]) {
            Front::Unended => return Ok(Next::Need),
            Front::Over => return Ok(Next::Bad(self.offset)),
            Front::Line(bytes) => bytes,
        };
        let len = bytes.len() + 1;
        match self.line_of(bytes) {
            Ok(line) => {
                self.start += len;
                self.offset += len as u64;
                self.lines += 1;
                self.begun = self.begun || !line.is_setting();
                Ok(Next::Line(line))
            }
            Err(Unread::Bad) => Ok(Next::Bad(self.offset)),
            Err(Unread::Memory) => Err(Memory),
        }
    }

    // The next line, which comes without its line feed.
    fn line_of(&self, bytes: &[u8]) -> Result<Line, Unread>
        ensures { Reads (IsNext self.now) line_bytes result bytes.now }
    {
        let line = read_line(self.alloc, bytes)?;
        if !self.allows(&line) {
            return Err(Unread::Bad);
        }
        Ok(line)
    }

    // Whether this line may be the next: there are only so many, and settings come first.
    fn allows(&self, line: &Line) -> bool
        ensures { IsTrue result ↔ Allows self.now line.now }
    {
        self.lines < MOST_LINES && !(self.begun && line.is_setting())
    }

    /// How many more bytes may be taken.
    pub fn room(&self) -> u64
        ensures { result + taken self.now ≡ self.now.most }
    {
        self.most - self.offset - (self.bytes.len() - self.start) as u64
    }

    /// The offset in the script of the bytes that aren't read yet, or `None` where there are none.
    pub fn rest(&self) -> Option<u64>
        ensures { MatchOption result (self.now.rest ≡ [])
            (λ offset. (offset ≡ self.now.offset) × (0 < length self.now.rest)) }
    {
        if self.start < self.bytes.len() {
            Some(self.offset)
        } else {
            None
        }
    }
}

// What stands at the front of these bytes.
fn first_line(bytes: &[u8]) -> Front<'_>
    ensures { IsFront result bytes.now }
{
    let within = &bytes[..bytes.len().min(LONGEST_LINE)];
    match line_end(within) {
        Some(end) => Front::Line(&within[..end]),
        None if bytes.len() < LONGEST_LINE => Front::Unended,
        None => Front::Over,
    }
}

// The index of the first line feed.
fn line_end(bytes: &[u8]) -> Option<usize>
    ensures { EndsAt result bytes.now }
{
    bytes.iter().position(|byte| *byte == b'\n')
}

// Drops so many bytes off the front.
fn drop_front(bytes: &mut Vec<u8>, count: usize)
    requires { count ≤ length bytes.old.items }
    ensures { bytes.new.items ≡ drop count bytes.old.items }
{
    if count == 0 {
        return;
    }
    let rest = bytes.len() - count;
    bytes.copy_within(count.., 0);
    bytes.truncate(rest);
}
