//! What a load reports of the data files.
ghost use Rattle.std.specs.Prelude.{◌≡◌, IfOk, min, map, count_by};
ghost use Rattle.bk_load.specs.Found.{found_row, is_hinted, is_scanned, notes_in, torn_in};

use crate::files::FileFound;
use bk_base::{Name, Row};
use bk_hint::Verdict;
use bk_keydir::{HintNote, Report, Torn};
use std::alloc::{AllocError, Global};

/// The report of these files and these odd names.
pub(crate) fn report_of(
    alloc: Global,
    files: &[FileFound],
    odd: Vec<Name>,
) -> Result<Report, AllocError>
    ensures torn { IfOk result (λ report. report.torn.items ≡ torn_in files.now) }
    ensures hints { IfOk result (λ report. report.hints.items ≡ notes_in files.now) }
    ensures odd { IfOk result (λ report. report.odd.items ≡ odd.items) }
    ensures hinted { IfOk result (λ report. report.hinted ≡ min (count_by is_hinted files.now) 4294967295) }
    ensures scanned { IfOk result (λ report. report.scanned ≡ min (count_by is_scanned files.now) 4294967295) }
{
    Ok(Report {
        torn: torn_of(alloc, files)?,
        hints: notes_of(alloc, files)?,
        odd,
        hinted: count_hinted(files),
        scanned: count_scanned(files),
    })
}

/// The rows of these files.
pub(crate) fn rows_of(alloc: Global, files: &[FileFound]) -> Result<Vec<Row>, AllocError>
    ensures { IfOk result (λ rows. rows.items ≡ map found_row files.now) }
{
    files.iter().map(|file| file.row).collect(alloc)
}

// The files behind whose records more bytes stand.
fn torn_of(alloc: Global, files: &[FileFound]) -> Result<Vec<Torn>, AllocError>
    ensures { IfOk result (λ torn. torn.items ≡ torn_in files.now) }
{
    let mut torn = Vec::new(alloc);
    for file in files {
        let row = file.row;
        if row.total < row.len {
            torn.push(Torn {
                file: row.id,
                at: row.total,
                bytes: row.len - row.total,
            })?;
        }
    }
    Ok(torn)
}

// What each hint is.
fn notes_of(alloc: Global, files: &[FileFound]) -> Result<Vec<HintNote>, AllocError>
    ensures { IfOk result (λ notes. notes.items ≡ notes_in files.now) }
{
    let mut notes = Vec::new(alloc);
    for file in files {
        if let Some(verdict) = file.verdict {
            notes.push(HintNote {
                file: file.row.id,
                verdict,
            })?;
        }
    }
    Ok(notes)
}

fn count_hinted(files: &[FileFound]) -> u32
    ensures { result ≡ min (count_by is_hinted files.now) 4294967295 }
{
    let mut count = 0u32;
    for file in files {
        if is_hinted(file) {
            count = count.saturating_add(1);
        }
    }
    count
}

fn count_scanned(files: &[FileFound]) -> u32
    ensures { result ≡ min (count_by is_scanned files.now) 4294967295 }
{
    let mut count = 0u32;
    for file in files {
        if is_scanned(file) {
            count = count.saturating_add(1);
        }
    }
    count
}

// Whether the file has a Good hint.
fn is_hinted(file: &FileFound) -> bool
    ensures { result ≡ is_hinted file.now }
{
    matches!(file.verdict, Some(Verdict::Good { .. }))
}

// Whether it has none, or one that covers less than the file.
fn is_scanned(file: &FileFound) -> bool
    ensures { result ≡ is_scanned file.now }
{
    match file.verdict {
        Some(Verdict::Good { covered, rows: _ }) => covered < file.row.len,
        _ => true,
    }
}
