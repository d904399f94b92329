//! Laws of hints, for their callers.
ghost use Rattle.std.specs.Prelude.{◌≡◌, ℕ, ◌+◌, ◌^◌, ◌<◌, ◌≤◌, List, length};
ghost use Rattle.std.specs.List.{AllByRecursion};
ghost use Rattle.bk_base.specs.declared.numbers.FileId.{FileId};
ghost use Rattle.bk_base.specs.declared.writes.Write.{Write};
ghost use Rattle.bk_laws.specs.Hint.{FitsRow, Hinted, IsGood, IsSoundRow, RowsLeft};
ghost use Rattle.bk_laws.specs.Hint.{hint_text, rows_from, text_with, told_by, version_in};
ghost use Rattle.bk_laws.specs.Version.{placed_from};
ghost use Rattle.bk_laws.specs.Record.{IsSeq, IsWritable, records_of};
ghost use Rattle.bk_hint.specs.declared.judging.Verdict.{Verdict};
ghost use Rattle.bk_hint.specs.declared.rows.HintRow.{HintRow};
ghost use Rattle.bk_hint.specs.Passing.{HasSize, row_of};
ghost use Rattle.bk_hint.specs.Verdicts.{IsVerdict};

/// A hint that was written for the records of a file is Good for every length not below what it covers,
/// and gives their rows.
pub fn written_is_good()
    ensures { (writes : List Write) (len : ℕ) → AllByRecursion IsWritable writes →
        length (records_of writes) ≤ len → len < 2 ^ 64 →
        IsGood (hint_text writes) len (length (records_of writes)) (rows_from 0 writes) }
{}

/// A hint of any rows is Good, where no row's record ends past what it covers.
pub fn rows_are_good()
    ensures { (covered len : ℕ) (rows : List Hinted) → AllByRecursion FitsRow rows →
        AllByRecursion (IsSoundRow covered) rows → length rows < 2 ^ 64 →
        covered ≤ len → covered < 2 ^ 64 → IsGood (text_with covered rows) len covered rows }
{}

/// A row that `HintOut` added is sound, where its record ends within what is covered.
pub fn added_is_sound()
    ensures { (row : HintRow) (covered : ℕ) → IsSeq row.version.seq.0 → HasSize row.version row.key →
        row.version.at + row.version.size ≤ covered → IsSoundRow covered (row_of row) }
{}

/// Two Good readings of the same bytes are one.
pub fn one_reading()
    ensures { (bytes : List ℕ) (m n covered other : ℕ) (rows more : List Hinted) →
        IsGood bytes m covered rows → IsGood bytes n other more → (covered ≡ other) × (rows ≡ more) }
{}

/// No two verdicts come at the same bytes, so each comes exactly where it is said.
pub fn one_verdict()
    ensures { (bytes : List ℕ) (len : ℕ) (v w : Verdict) →
        IsVerdict bytes len v → IsVerdict bytes len w → v ≡ w }
{}

/// All rows of a Good hint are left before the first was read: so `HintIn` may begin.
pub fn good_rows()
    ensures { (bytes : List ℕ) (len covered : ℕ) (rows : List Hinted) →
        IsGood bytes len covered rows → RowsLeft bytes 0 covered rows }
{}

/// The rows of a file's records tell what the records themselves say.
pub fn told_records()
    ensures { (file : FileId) (at : ℕ) (writes : List Write) → AllByRecursion IsWritable writes →
        told_by file (rows_from at writes) ≡ placed_from file at writes }
{}

/// What was added tells the version that it was added for.
pub fn told_again()
    ensures { (row : HintRow) → HasSize row.version row.key →
        version_in row.version.file (row_of row) ≡ row.version }
{}
