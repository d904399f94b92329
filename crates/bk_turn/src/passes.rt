//! Passes: what a caller holds of a turn while it waits for nothing.
ghost use Rattle.std.specs.Prelude.{◌≡◌, ◌+◌, ℕ, length, IsTrue};
ghost use Rattle.bk_turn.specs.Badges.{seat_of, is_idle};

use crate::seats::Seated;
use atomic_table::Badge;

/// What a caller has seen of a turn's history, and which steps there are its own. It must be spent:
/// by `Turn::enter`, `Turn::join` or `Turn::close`.
pub struct Pass {
    pub(crate) badge: Badge<Seated>,
    /// The place up to which it has seen.
    pub(crate) seen_to: u64,
    pub(crate) number: Option<u64>,
    ghost one: { length badge.views ≡ 1 },
    ghost idle: { IsTrue (is_idle (seat_of badge.views).stage) },
    ghost seen_to_is: { seen_to ≡ (seat_of badge.views).view.first + length (seat_of badge.views).view.seen },
    ghost number_is: { number ≡ (seat_of badge.views).view.number },
}

/// The two passes of a split.
pub struct Two {
    pub left: Pass,
    pub right: Pass,
}

/// There was no memory for a split; the pass comes back.
pub struct NoSplit {
    pub pass: Pass,
}

/// The tickets are used up; the pass comes back.
pub struct Spent {
    pub pass: Pass,
}
