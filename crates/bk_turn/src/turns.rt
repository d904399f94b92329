//! The turn.
ghost use Rattle.std.specs.Prelude.{◌≡◌};
ghost use Rattle.bk_turn.specs.Badges.{IsSized};

use crate::passes::Pass;
use crate::seats::{Order, Seated};
use crate::stands::Stands;
use atomic_table::Table;
use std::alloc::Global;

/// A lock whose value stands for one growing history.
pub struct Turn<S: Stands> {
    pub(crate) table: Table<Option<S>, Seated, u64, Order<S>, Global>,
    ghost sized: { IsSized table.shared.table_id },
}

/// A new turn, and its first pass.
pub struct Opened<S: Stands> {
    pub turn: Turn<S>,
    pub pass: Pass,
}

/// There was no memory for a turn; the value comes back.
pub struct NoTurn<S> {
    pub value: S,
}
