//! A holding of the turn.
ghost use Rattle.std.specs.Prelude.{◌≡◌, ◌+◌, ◌<◌, ℕ, length, IsTrue};
ghost use Rattle.bk_turn.specs.Badges.{holds_turn, has_empty_slot};
ghost use Rattle.bk_turn.specs.History.{number_at};

use crate::seats::Seated;
use atomic_table::Seat;

/// The turn is held: nobody else has the value. It must be spent, by `Turn::leave`.
pub struct Holding<S> {
    pub value: S,
    pub(crate) seat: Seat<Option<S>, Seated>,
    pub(crate) place: u64,
    pub(crate) number: u64,
    ghost holds: { IsTrue (holds_turn place seat.me.0.stage) },
    ghost empty: { IsTrue (has_empty_slot seat.me.1) },
    ghost below_last: { place < 18446744073709551615 },
    ghost place_is: { place ≡ seat.me.0.view.first + length seat.me.0.view.seen },
    ghost number_is: { number ≡ number_at seat.me.0.view.number place },
}

impl<S> Holding<S> {
    /// The place in the history of the step that this holding will add.
    pub fn place(&self) -> u64
        ensures { result ≡ self.now.place }
    {
        self.place
    }

    /// The caller's number in that step: the place of its first one.
    pub fn number(&self) -> u64
        ensures { result ≡ self.now.number }
    {
        self.number
    }
}
