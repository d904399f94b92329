//! When a merge is due.
ghost use Rattle.std.specs.Prelude.{◌↔◌, Any, IsTrue};
ghost use Rattle.bk_policy.specs.Due.{IsDue};

use crate::settings::Settings;
use bk_base::{Row, RowState};

/// Whether a merge is due: some sealed file has as many dead bytes as the settings say, or as large
/// a part of its records is dead.
pub fn due(rows: &[Row], settings: &Settings) -> bool
    ensures { IsTrue result ↔ Any (IsDue settings.now) rows.now }
{
    rows.iter().any(|row| is_due(row, settings))
}

// Whether this file makes a merge due.
fn is_due(row: &Row, settings: &Settings) -> bool
    ensures { IsTrue result ↔ IsDue settings.now row.now }
{
    let total = u128::from(row.total);
    let dead = u128::from(row.total.saturating_sub(row.live));
    let many = dead >= u128::from(settings.dead_bytes);
    let large = total > 0 && dead * 100 >= u128::from(settings.dead_percent) * total;
    matches!(row.state, RowState::Sealed) && (many || large)
}
