//! Laws of records, for callers of `decode` and readers of files.
ghost use Rattle.std.specs.Prelude.{◌≡◌, ℕ, List};
ghost use Rattle.bk_base.specs.declared.writes.Write.{Write};
ghost use Rattle.bk_laws.specs.Record.{AreRecords, RecordStands, size_of};
ghost use Rattle.bk_record.specs.Header.{IsSound, header_of, said_size};
ghost use Rattle.bk_record.specs.Stops.{IsStop};
ghost use Rattle.bk_record.specs.declared.decoding.Stop.{Stop};

/// No record begins another: at most one stands at the front of the bytes.
pub fn one_record()
    ensures { (bytes : List ℕ) (v w : Write) (x y : List ℕ) →
        RecordStands bytes v x → RecordStands bytes w y → (v ≡ w) × (x ≡ y) }
{}

/// No two causes of a refusal come at the same bytes, and none but `Memory` where a record stands:
/// so each comes exactly where it is said.
pub fn one_stop()
    ensures { (bytes : List ℕ) (s t : Stop) → IsStop bytes s → IsStop bytes t → s ≡ t }
{}

/// Where a record stands, its header is sound and says its size. So a reader that has the header
/// alone knows how many bytes to ask for, or that no record stands there.
pub fn header_says()
    ensures { (bytes : List ℕ) (w : Write) (rest : List ℕ) → RecordStands bytes w rest →
        IsSound (header_of bytes) × (said_size (header_of bytes) ≡ size_of w) }
{}

/// A file has one list of records.
pub fn one_list_of_records()
    ensures { (bytes : List ℕ) (v w : List Write) → AreRecords bytes v → AreRecords bytes w → v ≡ w }
{}
