//! Reads a line from its words.
ghost use Rattle.std.specs.Prelude.{◌≡◌};
ghost use Rattle.bk_script.specs.Lines.{Fits, FitsAction, action_words, line_words};
ghost use Rattle.bk_script.specs.Words.{FitsHead, IsBy, IsHeadedBy, Reads, action_operands, line_bytes, line_operands, now_of};

use crate::limits::{GREATEST_MAX_FILE, LEAST_MAX_FILE};
use crate::lines::{Action, Line};
use crate::operands::{flips, keep, key_and_len, key_and_value, one_key, one_number, two_numbers};
use crate::unread::Unread;
use crate::verbs::{Head, Verb};
use crate::words::words_of;
use bk_base::Moment;
use std::alloc::Global;

/// Reads a line, which comes without its line feed.
pub(crate) fn read_line(alloc: Global, bytes: &[u8]) -> Result<Line, Unread>
    ensures { Reads Fits line_bytes result bytes.now }
{
    let words = words_of(alloc, bytes)?;
    line_of(alloc, words.as_slice())
}

fn line_of(alloc: Global, words: &[&[u8]]) -> Result<Line, Unread>
    ensures { Reads Fits line_words result (now_of words.now) }
{
    let Some((first, operands)) = words.split_first() else {
        return Err(Unread::Bad);
    };
    match Head::of(first) {
        Some(head) => line_with(alloc, head, operands),
        None => Err(Unread::Bad),
    }
}

fn line_with(alloc: Global, head: Head, operands: &[&[u8]]) -> Result<Line, Unread>
    requires { FitsHead head }
    ensures { Reads (IsHeadedBy head) line_operands result (now_of operands.now) }
{
    match head {
        Head::Max => {
            let bytes = one_number(LEAST_MAX_FILE, GREATEST_MAX_FILE, operands)?;
            Ok(Line::Max(bytes as u32))
        }
        Head::Ttl => {
            let seconds = one_number(0, u32::MAX.into(), operands)?;
            Ok(Line::Ttl(seconds as u32))
        }
        Head::At => {
            let seconds = one_number(0, u32::MAX.into(), operands)?;
            Ok(Line::At(Moment(seconds as u32)))
        }
        Head::Fail => {
            let (nth, effect) = two_numbers(1, operands)?;
            Ok(Line::Fail { nth, effect })
        }
        Head::Fuse => {
            let (calls, effect) = two_numbers(0, operands)?;
            Ok(Line::Fuse { calls, effect })
        }
        Head::By(actor) => Ok(Line::By(actor, action_of(alloc, operands)?)),
        Head::Stop => stop(alloc, operands),
    }
}

fn stop(alloc: Global, operands: &[&[u8]]) -> Result<Line, Unread>
    ensures { Reads (IsHeadedBy Head.Stop) line_operands result (now_of operands.now) }
{
    let Some((first, offsets)) = operands.split_first() else {
        return Err(Unread::Bad);
    };
    let keep = keep(first)?;
    let flips = flips(alloc, offsets)?;
    Ok(Line::Stop { keep, flips })
}

fn action_of(alloc: Global, words: &[&[u8]]) -> Result<Action, Unread>
    ensures { Reads FitsAction action_words result (now_of words.now) }
{
    let Some((first, operands)) = words.split_first() else {
        return Err(Unread::Bad);
    };
    match Verb::of(first) {
        Some(verb) => action_with(alloc, verb, operands),
        None => Err(Unread::Bad),
    }
}

fn action_with(alloc: Global, verb: Verb, operands: &[&[u8]]) -> Result<Action, Unread>
    ensures { Reads (IsBy verb) action_operands result (now_of operands.now) }
{
    match verb {
        Verb::Put => {
            let (key, value) = key_and_value(alloc, operands)?;
            Ok(Action::Put { key, value })
        }
        Verb::Big => {
            let (key, len) = key_and_len(alloc, operands)?;
            Ok(Action::Big { key, len })
        }
        Verb::Delete => Ok(Action::Delete(one_key(alloc, operands)?)),
        Verb::Reap => Ok(Action::Reap(one_key(alloc, operands)?)),
        Verb::Get => Ok(Action::Get(one_key(alloc, operands)?)),
        Verb::Next => Ok(Action::Next(one_number(0, u8::MAX.into(), operands)? as u8)),
        Verb::End => Ok(Action::End(one_number(0, u8::MAX.into(), operands)? as u8)),
        Verb::Read if operands.is_empty() => Ok(Action::Read),
        Verb::Sync if operands.is_empty() => Ok(Action::Sync),
        Verb::Fold if operands.is_empty() => Ok(Action::Fold),
        Verb::Read | Verb::Sync | Verb::Fold => Err(Unread::Bad),
    }
}
