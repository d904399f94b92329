//! The line at the end of a fill.
ghost use Rattle.std.specs.Prelude.{◌≡◌, ◌≤◌, ◌<◌, ◌++◌, ℕ, List, IfOk, length};
ghost use Rattle.bk_disk.specs.Causes.{Rose};
ghost use Rattle.bk_laws.specs.Wire.{reply_text};
ghost use Rattle.bk_base.specs.declared.requests.Reply.TheVariants.{Full as full_line};
ghost use Rattle.bk_fill.specs.Filling.{HasWritten, end_due, filled_line, text_due};

use crate::ends::FillEnd;
use crate::work::Work;
use bk_base::{Full, Memory, Reply};
use bk_disk::{Sink, write_all};
use bk_store::PutError;
use bk_wire::{NUMBER_ROOM, append, append_number, reserve, write_reply};
use std::alloc::Global;

/// Writes the line that is due, and says how the fill ended.
#[tactic(auto, unfolding(bk_laws::specs::Wire::reply_text))]
pub(crate) fn tell<K: Sink>(alloc: Global, sink: &mut K, count: u32, work: Work) -> FillEnd
    ensures written { HasWritten K.tells (text_due count work.keys work.puts work.sync)
        (end_due work.puts work.sync) result (K.written sink.old) (K.written sink.new) }
    ensures wrote { K.faults sink.old ≤ K.faults sink.new }
    ensures sink { result ≡ FillEnd.Sink → Rose (K.faults sink.old) (K.faults sink.new) }
{
    match (work.puts, work.sync) {
        (Ok(bytes), Ok(_)) => write_line(
            sink,
            filled_text(alloc, count, work.keys, bytes),
            FillEnd::Done,
        ),
        (Ok(_), Err(_)) | (Err(PutError::Disk), _) => FillEnd::Disk,
        (Err(PutError::FullSeq), _) => write_line(sink, full_text(alloc, Full::Seq), FillEnd::Full),
        (Err(PutError::FullFiles), _) => write_line(
            sink,
            full_text(alloc, Full::Files),
            FillEnd::Full,
        ),
        (Err(PutError::Memory), _) => FillEnd::Memory,
    }
}

/// Writes a line and ends so; or by the sink, where that fails, or for memory, where there was none for the line.
fn write_line<K: Sink>(sink: &mut K, text: Result<Vec<u8>, Memory>, end: FillEnd) -> FillEnd
    ensures written { (line : List ℕ) → IfOk text (λ bytes. bytes.items ≡ line) → 0 < length line
        → HasWritten K.tells line end result (K.written sink.old) (K.written sink.new) }
    ensures wrote { K.faults sink.old ≤ K.faults sink.new }
    ensures sink { result ≡ FillEnd.Sink → (end ≡ FillEnd.Sink → ⊥)
        → Rose (K.faults sink.old) (K.faults sink.new) }
{
    match text {
        Ok(text) => match write_all(sink, &text) {
            Ok(()) => end,
            Err(_) => FillEnd::Sink,
        },
        Err(_) => FillEnd::Memory,
    }
}

/// The line of a fill that was done.
fn filled_text(alloc: Global, count: u32, keys: u64, bytes: u64) -> Result<Vec<u8>, Memory>
    ensures { IfOk result (λ text. text.items ≡ filled_line count keys bytes) }
{
    let mut text = Vec::new(alloc);
    reserve(&mut text, 7 + NUMBER_ROOM + NUMBER_ROOM + NUMBER_ROOM)?;
    append_number(&mut text, b"FILLED ", count.into());
    append_number(&mut text, b" ", keys.into());
    append_number(&mut text, b" ", bytes.into());
    append(&mut text, b"\n");
    Ok(text)
}

/// The line of a fill for which a seq or a file was missing.
fn full_text(alloc: Global, full: Full) -> Result<Vec<u8>, Memory>
    ensures { IfOk result (λ text. text.items ≡ reply_text (full_line full)) }
{
    let mut text = Vec::new(alloc);
    write_reply(&Reply::Full(full), &mut text)?;
    Ok(text)
}
