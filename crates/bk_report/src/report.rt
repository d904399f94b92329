//! The whole report.
ghost use Rattle.std.specs.Prelude.{◌≡◌, ◌++◌, OnOk};
ghost use Rattle.std.specs.List.{flat_map};
ghost use Rattle.bk_report.specs.Report.{hint_of, lines_of, odd_line, report_text, torn_of};

use crate::lines::{write_checked, write_file, write_hint, write_odd, write_torn};
use bk_base::{FileId, Memory, Name, Row};
use bk_keydir::{HintNote, Report, Torn};

/// Appends the report of a recovery that gave these rows: of each data file, in their order, its line, whether it is
/// torn and what its hint is; then the swap lists that say nothing, and how many files were looked at.
///
/// Only memory can refuse it; then a first part may have been appended.
#[tactic(auto, using(std::proofs::lemmas::List::append_assoc))]
pub fn write_report(out: &mut Vec<u8>, rows: &[Row], report: &Report) -> Result<(), Memory>
    ensures { OnOk result (out.new.items ≡ out.old.items ++ report_text rows.now report.now) }
{
    write_files(out, rows, report)?;
    write_odds(out, &report.odd)?;
    write_checked(out, rows, &report.torn)
}

fn write_files(out: &mut Vec<u8>, rows: &[Row], report: &Report) -> Result<(), Memory>
    ensures { OnOk result (out.new.items ≡ out.old.items ++ flat_map (lines_of report.now) rows.now) }
{
    for row in rows {
        write_lines(out, row, report)?;
    }
    Ok(())
}

#[tactic(auto, using(std::proofs::lemmas::List::append_assoc))]
fn write_lines(out: &mut Vec<u8>, row: &Row, report: &Report) -> Result<(), Memory>
    ensures { OnOk result (out.new.items ≡ out.old.items ++ lines_of report.now row.now) }
{
    write_file(out, row)?;
    write_torn_of(out, row.id, &report.torn)?;
    write_hints_of(out, row.id, &report.hints)
}

fn write_torn_of(out: &mut Vec<u8>, id: FileId, all: &[Torn]) -> Result<(), Memory>
    ensures { OnOk result (out.new.items ≡ out.old.items ++ flat_map (torn_of id.0) all.now) }
{
    for torn in all {
        write_torn_if(out, id, torn)?;
    }
    Ok(())
}

fn write_torn_if(out: &mut Vec<u8>, id: FileId, torn: &Torn) -> Result<(), Memory>
    ensures { OnOk result (out.new.items ≡ out.old.items ++ torn_of id.0 torn.now) }
{
    if torn.file != id {
        return Ok(());
    }
    write_torn(out, torn)
}

fn write_hints_of(out: &mut Vec<u8>, id: FileId, notes: &[HintNote]) -> Result<(), Memory>
    ensures { OnOk result (out.new.items ≡ out.old.items ++ flat_map (hint_of id.0) notes.now) }
{
    for note in notes {
        write_hint_if(out, id, note)?;
    }
    Ok(())
}

fn write_hint_if(out: &mut Vec<u8>, id: FileId, note: &HintNote) -> Result<(), Memory>
    ensures { OnOk result (out.new.items ≡ out.old.items ++ hint_of id.0 note.now) }
{
    if note.file != id {
        return Ok(());
    }
    write_hint(out, note)
}

fn write_odds(out: &mut Vec<u8>, odd: &[Name]) -> Result<(), Memory>
    ensures { OnOk result (out.new.items ≡ out.old.items ++ flat_map odd_line odd.now) }
{
    for name in odd {
        write_odd(out, name)?;
    }
    Ok(())
}
