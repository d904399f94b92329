//! The counts of the rows: how many bytes of a file are live, and how many versions name it.
ghost use Rattle.std.specs.Prelude.{◌≡◌, ◌==◌, position};
ghost use Rattle.bk_base.specs.declared.rows.Row.{Row as AnyRow};
ghost use Rattle.bk_load.specs.Counting.{RowsRise, all_counted, counted_in};

use bk_base::{Row, Version};
use bk_keydir::Keydir;

/// Counts the newest versions of the keydir that are puts into the rows, which stand in order of id.
pub(crate) fn count_versions(rows: &mut [Row], keydir: &Keydir)
    requires { RowsRise 0 rows.old }
    ensures { rows.new ≡ all_counted keydir.now.entries rows.old }
{
    for position in 0..keydir.len() {
        if let Some(version) = keydir.version_at(position, 0) {
            count(rows, version);
        }
    }
}

// Counts a version, where it is a put and its file has a row.
fn count(rows: &mut [Row], version: Version)
    requires { RowsRise 0 rows.old }
    ensures { rows.new ≡ counted_in version rows.old }
{
    if version.gone {
        return;
    }
    if let Some(place) = place_of(rows, version.file.0) {
        let row = &mut rows[place];
        row.live = row.live.saturating_add(u64::from(version.size));
        row.refs = row.refs.saturating_add(1);
    }
}

// The place of a file's row among rows in order of id.
fn place_of(rows: &[Row], id: u32) -> Option<usize>
    requires { RowsRise 0 rows.now }
    ensures { result ≡ position (λ (r : AnyRow). r.id.0 == id) rows.now }
{
    let mut low = 0;
    let mut high = rows.len();
    while low < high {
        let middle = low + (high - low) / 2;
        let here = rows[middle].id.0;
        if here == id {
            return Some(middle);
        }
        if here < id {
            low = middle + 1;
        } else {
            high = middle;
        }
    }
    None
}
