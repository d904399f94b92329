//! Reads the reply at the front of some bytes.
ghost use Rattle.std.specs.Prelude.{◌≡◌, IfOk, OnErr};
ghost use Rattle.bk_laws.specs.Wire.{FitsReply};
ghost use Rattle.bk_wire.specs.Reading.{Gives};
ghost use Rattle.bk_wire.specs.ReplyReading.{line_at, reply_at, rest_at};
ghost use Rattle.bk_wire.specs.FoundReply.{reply_of, FindsReply};
ghost use Rattle.bk_wire.specs.Replies.{OwnsBytes, Reads};
ghost use Rattle.bk_wire.specs.declared.words.Line.TheVariants.{Merged, Stat, Damaged, Cut};

use crate::fields::{paired, sized};
use crate::numbers::{hexadecimal, long, short, wide};
use crate::owned::owned_value;
use crate::stops::Stop;
use crate::words::{Line, WORDS, Word, first_of};
use bk_base::limits::{LONGEST_KEY, LONGEST_VALUE};
use bk_base::{Damage, FileId, Key, Memory, Reply, Seq};
use std::alloc::Global;

/// A reply that was read, and how many bytes it has.
#[derive(Drop)]
pub struct ReadReply {
    pub reply: Reply,
    pub size: usize,
}

/// Why no reply was read.
#[derive(Clone, Copy, Debug, PartialEq, Eq)]
pub enum ReplyStop {
    /// The bytes are the front of a reply, and not all of it.
    Short,
    /// No reply stands there, however the bytes go on.
    Bad,
    /// A reply stands there, but there is no memory for its key or its value.
    Memory,
}

/// A reply that was found, its key and its value still where they were found.
#[derive(Drop)]
pub enum FoundReply<'a> {
    Value(&'a [u8]),
    Pair(&'a [u8], &'a [u8]),
    Key(&'a [u8]),
    Line(Reply),
}

impl FoundReply<'_> {
    /// The reply with a key and a value of its own.
    fn to_reply(self, alloc: Global) -> Result<Reply, Memory>
        requires { FitsReply (reply_of self) }
        ensures ok { IfOk result (λ reply. reply ≡ reply_of self.entry) }
        ensures err { OnErr result (OwnsBytes (reply_of self.entry)) }
    {
        match self {
            FoundReply::Value(value) => Ok(Reply::Value(owned_value(alloc, value)?)),
            FoundReply::Pair(key, value) => {
                let key = Key::of(alloc, key)?;
                let value = owned_value(alloc, value)?;
                Ok(Reply::Pair { key, value })
            }
            FoundReply::Key(key) => Ok(Reply::Key(Key::of(alloc, key)?)),
            FoundReply::Line(reply) => Ok(reply),
        }
    }
}

/// A line that was read, and the bytes after it.
type ReadLine<'a> = Result<(Reply, &'a [u8]), Stop>;

fn merged(bytes: &[u8]) -> ReadLine<'_>
    ensures { Gives (λ x. (x.0, x.1.now)) result (line_at Merged bytes.now) }
{
    let (inputs, rest) = short(b' ', bytes)?;
    let (outputs, rest) = short(b'\n', rest)?;
    Ok((Reply::Merged { inputs, outputs }, rest))
}

fn stat(bytes: &[u8]) -> ReadLine<'_>
    ensures { Gives (λ x. (x.0, x.1.now)) result (line_at Stat bytes.now) }
{
    let (keys, rest) = long(b' ', bytes)?;
    let (files, rest) = long(b' ', rest)?;
    let (total, rest) = wide(u128::MAX, b' ', rest)?;
    let (live, rest) = wide(u128::MAX, b'\n', rest)?;
    let reply = Reply::Stat {
        keys,
        files,
        total,
        live,
    };
    Ok((reply, rest))
}

fn damaged(bytes: &[u8]) -> ReadLine<'_>
    ensures { Gives (λ x. (x.0, x.1.now)) result (line_at Damaged bytes.now) }
{
    let (file, rest) = short(b' ', bytes)?;
    let (at, rest) = long(b' ', rest)?;
    let (kept, rest) = hexadecimal(b' ', rest)?;
    let (found, rest) = hexadecimal(b'\n', rest)?;
    let damage = Damage {
        at,
        file: FileId(file),
        kept,
        found,
    };
    Ok((Reply::Damaged(damage), rest))
}

fn cut(bytes: &[u8]) -> ReadLine<'_>
    ensures { Gives (λ x. (x.0, x.1.now)) result (line_at Cut bytes.now) }
{
    let (file, rest) = short(b' ', bytes)?;
    let (total, rest) = long(b' ', rest)?;
    let (at, rest) = long(b'\n', rest)?;
    let file = FileId(file);
    Ok((Reply::Cut { file, total, at }, rest))
}

/// Reads what a line has behind its word.
fn line_rest(line: Line, bytes: &[u8]) -> ReadLine<'_>
    ensures { Gives (λ x. (x.0, x.1.now)) result (line_at line bytes.now) }
{
    match line {
        Line::Absent => Ok((Reply::Absent, bytes)),
        Line::Numbered => {
            let (seq, rest) = long(b'\n', bytes)?;
            Ok((Reply::Numbered(Seq(seq)), rest))
        }
        Line::End => {
            let (lines, rest) = long(b'\n', bytes)?;
            Ok((Reply::End(lines), rest))
        }
        Line::Synced => {
            let (seq, rest) = long(b'\n', bytes)?;
            Ok((Reply::Synced(Seq(seq)), rest))
        }
        Line::Merged => merged(bytes),
        Line::Held => {
            let (files, rest) = short(b'\n', bytes)?;
            Ok((Reply::Held(files), rest))
        }
        Line::Job => {
            let (id, rest) = short(b'\n', bytes)?;
            Ok((Reply::Job(FileId(id)), rest))
        }
        Line::Stat => stat(bytes),
        Line::Bye => Ok((Reply::Bye, bytes)),
        Line::Memory => Ok((Reply::Memory, bytes)),
        Line::Disk => Ok((Reply::Disk, bytes)),
        Line::Read => Ok((Reply::Read, bytes)),
        Line::Damaged => damaged(bytes),
        Line::Cut => cut(bytes),
        Line::Full(full) => Ok((Reply::Full(full), bytes)),
        Line::Syntax => {
            let (offset, rest) = long(b'\n', bytes)?;
            Ok((Reply::Syntax(offset), rest))
        }
    }
}

/// Reads what a reply has behind its word.
fn word_rest(word: Word, bytes: &[u8]) -> Result<(FoundReply<'_>, &[u8]), Stop>
    ensures { Gives (λ x. (reply_of x.0, x.1.now)) result (rest_at word bytes.now) }
{
    match word {
        Word::Value => {
            let (value, rest) = sized(0, LONGEST_VALUE, bytes)?;
            Ok((FoundReply::Value(value), rest))
        }
        Word::Pair => {
            let ((key, value), rest) = paired(b"", bytes)?;
            Ok((FoundReply::Pair(key, value), rest))
        }
        Word::Key => {
            let (key, rest) = sized(1, LONGEST_KEY, bytes)?;
            Ok((FoundReply::Key(key), rest))
        }
        Word::Line(line) => {
            let (reply, rest) = line_rest(line, bytes)?;
            Ok((FoundReply::Line(reply), rest))
        }
    }
}

#[tactic(auto, unfolding(crate::specs::ReplyReading::reply_at))]
fn found(bytes: &[u8]) -> Result<(FoundReply<'_>, &[u8]), Stop>
    ensures { Gives (λ x. (reply_of x.0, x.1.now)) result (reply_at bytes.now) }
{
    let (word, rest) = first_of(&WORDS, bytes)?;
    word_rest(word, rest)
}

/// Finds the reply at the front, and how many bytes it has.
fn find(bytes: &[u8]) -> Result<(FoundReply<'_>, usize), Stop>
    ensures { FindsReply result bytes.now }
{
    match found(bytes) {
        Ok((found, rest)) => Ok((found, bytes.len() - rest.len())),
        Err(stop) => Err(stop),
    }
}

/// Reads the reply at the front of these bytes. `Memory` comes only where a reply with a key or a
/// value stands there.
pub fn read_reply(alloc: Global, bytes: &[u8]) -> Result<ReadReply, ReplyStop>
    ensures { Reads result bytes.now }
{
    match find(bytes) {
        Ok((found, size)) => match found.to_reply(alloc) {
            Ok(reply) => Ok(ReadReply { reply, size }),
            Err(_) => Err(ReplyStop::Memory),
        },
        Err(Stop::Short) => Err(ReplyStop::Short),
        Err(Stop::Bad) => Err(ReplyStop::Bad),
    }
}
