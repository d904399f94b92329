//! Writes the lines that a drill prints.
ghost use Rattle.std.specs.Prelude.{◌≡◌, ◌≤◌, ◌++◌, ◌∷◌, length, codes, OnOk, OnErr};
ghost use Rattle.bk_laws.specs.Wire.{line, numbered, and_number, reply_text};
ghost use Rattle.bk_script.specs.Printed.{printed_text, value_word};

use crate::appending::append_value;
use crate::printed::Printed;
use bk_base::limits::{LONGEST_KEY, LONGEST_VALUE};
use bk_base::{FileId, Memory, Reply, Seq};
use bk_wire::{NUMBER_ROOM, append, append_number, reserve, write_reply};

/// Appends a line that a drill prints. Out of memory, `out` is as it was.
#[tactic(auto, unfolding(crate::specs::Printed::printed_text, bk_laws::specs::Wire::reply_text))]
pub fn write_line(printed: &Printed, out: &mut Vec<u8>) -> Result<(), Memory>
    ensures ok { OnOk result (out.new.items ≡ out.old.items ++ printed_text printed.now) }
    ensures err { OnErr result (out.new.items ≡ out.old.items) }
{
    match printed {
        Printed::Numbered(seq) => write_reply(&Reply::Numbered(*seq), out),
        Printed::Absent => write_reply(&Reply::Absent, out),
        Printed::Loan => write_text(out, b"LOAN\n"),
        Printed::Value(value) => write_value(out, value.bytes()),
        Printed::NoLoan => write_text(out, b"NOLOAN\n"),
        Printed::Synced(seq) => write_reply(&Reply::Synced(*seq), out),
        Printed::Fold { slot, epoch } => write_fold(out, *slot, *epoch),
        Printed::Pair { key, value } => write_pair(out, key.bytes(), value.bytes()),
        Printed::End(pairs) => write_reply(&Reply::End(*pairs), out),
        Printed::Closed => write_text(out, b"CLOSED\n"),
        Printed::Reopened { seq, keys, torn } => write_reopened(out, *seq, *keys, *torn),
        Printed::Torn { file, at, bytes } => write_torn(out, *file, *at, *bytes),
        Printed::Memory => write_reply(&Reply::Memory, out),
        Printed::Disk => write_reply(&Reply::Disk, out),
        Printed::Read => write_reply(&Reply::Read, out),
        Printed::Damaged(damage) => write_reply(&Reply::Damaged(*damage), out),
        Printed::Full(full) => write_reply(&Reply::Full(*full), out),
        Printed::NoFold(slot) => write_no_fold(out, *slot),
        Printed::Syntax(offset) => write_reply(&Reply::Syntax(*offset), out),
    }
}

/// Writes a text that is always the same.
fn write_text(out: &mut Vec<u8>, text: &[u8]) -> Result<(), Memory>
    ensures ok { OnOk result (out.new.items ≡ out.old.items ++ text.now) }
    ensures err { OnErr result (out.new.items ≡ out.old.items) }
{
    reserve(out, text.len())?;
    append(out, text);
    Ok(())
}

/// Writes a value that was read.
#[tactic(auto, using(std::proofs::lemmas::List::append_assoc))]
fn write_value(out: &mut Vec<u8>, value: &[u8]) -> Result<(), Memory>
    requires { length value.now ≤ LONGEST_VALUE }
    ensures ok { OnOk result (out.new.items ≡ out.old.items ++ line (codes "VALUE " ++ value_word value.now)) }
    ensures err { OnErr result (out.new.items ≡ out.old.items) }
{
    reserve(out, 6 + value.len() + 41 + 1)?;
    append(out, b"VALUE ");
    append_value(out, value);
    append(out, b"\n");
    Ok(())
}

/// Writes a pair of a fold.
#[tactic(auto, using(std::proofs::lemmas::List::append_assoc))]
fn write_pair(out: &mut Vec<u8>, key: &[u8], value: &[u8]) -> Result<(), Memory>
    requires { (length key.now ≤ LONGEST_KEY) × (length value.now ≤ LONGEST_VALUE) }
    ensures ok { OnOk result (out.new.items
        ≡ out.old.items ++ line (codes "PAIR " ++ key.now ++ 32 ∷ value_word value.now)) }
    ensures err { OnErr result (out.new.items ≡ out.old.items) }
{
    reserve(out, 5 + key.len() + 1 + value.len() + 41 + 1)?;
    append(out, b"PAIR ");
    append(out, key);
    append(out, b" ");
    append_value(out, value);
    append(out, b"\n");
    Ok(())
}

/// Writes that a fold is open.
#[tactic(auto, using(std::proofs::lemmas::List::append_assoc))]
fn write_fold(out: &mut Vec<u8>, slot: u8, epoch: Seq) -> Result<(), Memory>
    ensures ok { OnOk result (out.new.items
        ≡ out.old.items ++ line (and_number (numbered (codes "FOLD ") slot) epoch.0)) }
    ensures err { OnErr result (out.new.items ≡ out.old.items) }
{
    reserve(out, 5 + NUMBER_ROOM + NUMBER_ROOM)?;
    append_number(out, b"FOLD ", slot.into());
    append_number(out, b" ", epoch.0.into());
    append(out, b"\n");
    Ok(())
}

/// Writes that the actor has no fold in this slot.
#[tactic(auto, using(std::proofs::lemmas::List::append_assoc))]
fn write_no_fold(out: &mut Vec<u8>, slot: u8) -> Result<(), Memory>
    ensures ok { OnOk result (out.new.items ≡ out.old.items ++ line (numbered (codes "NOFOLD ") slot)) }
    ensures err { OnErr result (out.new.items ≡ out.old.items) }
{
    reserve(out, 7 + NUMBER_ROOM)?;
    append_number(out, b"NOFOLD ", slot.into());
    append(out, b"\n");
    Ok(())
}

/// Writes what was found at a reopening.
#[tactic(auto, using(std::proofs::lemmas::List::append_assoc))]
fn write_reopened(out: &mut Vec<u8>, seq: Seq, keys: u64, torn: u64) -> Result<(), Memory>
    ensures ok { OnOk result (out.new.items ≡ out.old.items
        ++ line (and_number (and_number (numbered (codes "REOPENED ") seq.0) keys) torn)) }
    ensures err { OnErr result (out.new.items ≡ out.old.items) }
{
    reserve(out, 9 + NUMBER_ROOM + NUMBER_ROOM + NUMBER_ROOM)?;
    append_number(out, b"REOPENED ", seq.0.into());
    append_number(out, b" ", keys.into());
    append_number(out, b" ", torn.into());
    append(out, b"\n");
    Ok(())
}

/// Writes where a file was torn.
#[tactic(auto, using(std::proofs::lemmas::List::append_assoc))]
fn write_torn(out: &mut Vec<u8>, file: FileId, at: u64, bytes: u64) -> Result<(), Memory>
    ensures ok { OnOk result (out.new.items ≡ out.old.items
        ++ line (and_number (and_number (numbered (codes "TORN ") file.0) at) bytes)) }
    ensures err { OnErr result (out.new.items ≡ out.old.items) }
{
    reserve(out, 5 + NUMBER_ROOM + NUMBER_ROOM + NUMBER_ROOM)?;
    append_number(out, b"TORN ", file.0.into());
    append_number(out, b" ", at.into());
    append_number(out, b" ", bytes.into());
    append(out, b"\n");
    Ok(())
}
