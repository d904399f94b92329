//! Each line of the report.
ghost use Rattle.std.specs.Prelude.{◌≡◌, ◌++◌, OnOk, length};
ghost use Rattle.bk_report.specs.Report.{checked_line, file_line, hint_line, odd_line, torn_line, verdict_text};

use crate::appending::{append, append_hex, append_line, append_number};
use bk_base::{Memory, Name, Row};
use bk_hint::Verdict;
use bk_keydir::{HintNote, Torn};

/// The line of a data file.
#[tactic(auto, using(std::proofs::lemmas::List::append_assoc))]
pub fn write_file(out: &mut Vec<u8>, row: &Row) -> Result<(), Memory>
    ensures { OnOk result (out.new.items ≡ out.old.items ++ file_line row.now) }
{
    append_number(out, b"FILE ", row.id.0.into())?;
    append_number(out, b" ", row.len)?;
    append_number(out, b" ", row.total)?;
    append_number(out, b" ", row.live)?;
    append(out, b"\n")
}

/// The line of a torn file.
#[tactic(auto, using(std::proofs::lemmas::List::append_assoc))]
pub fn write_torn(out: &mut Vec<u8>, torn: &Torn) -> Result<(), Memory>
    ensures { OnOk result (out.new.items ≡ out.old.items ++ torn_line torn.now) }
{
    append_number(out, b"TORN ", torn.file.0.into())?;
    append_number(out, b" ", torn.at)?;
    append_number(out, b" ", torn.bytes)?;
    append(out, b"\n")
}

/// The line of a hint.
#[tactic(auto, using(std::proofs::lemmas::List::append_assoc))]
pub fn write_hint(out: &mut Vec<u8>, note: &HintNote) -> Result<(), Memory>
    ensures { OnOk result (out.new.items ≡ out.old.items ++ hint_line note.now) }
{
    append_number(out, b"HINT ", note.file.0.into())?;
    write_verdict(out, note.verdict)?;
    append(out, b"\n")
}

#[tactic(auto, using(std::proofs::lemmas::List::append_assoc))]
fn write_verdict(out: &mut Vec<u8>, verdict: Verdict) -> Result<(), Memory>
    ensures { OnOk result (out.new.items ≡ out.old.items ++ verdict_text verdict) }
{
    match verdict {
        Verdict::Good { .. } => append(out, b" GOOD"),
        Verdict::NotWhole => append(out, b" NOTWHOLE"),
        Verdict::BadCheck { stored, computed } => {
            append(out, b" BADCHECK")?;
            append_hex(out, stored)?;
            append_hex(out, computed)
        }
        Verdict::LengthDiffers { said, is } => {
            append_number(out, b" LENGTH ", said)?;
            append_number(out, b" ", is)
        }
        Verdict::BadRow(row) => append_number(out, b" ROW ", row),
    }
}

/// The line of a swap list that says nothing.
pub fn write_odd(out: &mut Vec<u8>, name: &Name) -> Result<(), Memory>
    ensures { OnOk result (out.new.items ≡ out.old.items ++ odd_line name.now) }
{
    append_line(out, b"ODD ", name.id.into(), b".bitcask.swap")
}

/// The last line: how many files were looked at, and how many of them are torn.
#[tactic(auto, using(std::proofs::lemmas::List::append_assoc))]
pub fn write_checked(out: &mut Vec<u8>, rows: &[Row], torn: &[Torn]) -> Result<(), Memory>
    ensures { OnOk result (out.new.items ≡ out.old.items ++ checked_line (length rows.now) (length torn.now)) }
{
    append_number(out, b"CHECKED ", rows.len() as u64)?;
    append_number(out, b" ", torn.len() as u64)?;
    append(out, b"\n")
}
