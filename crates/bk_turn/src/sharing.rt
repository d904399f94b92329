//! A pass as a seat at the table, and how passes are split and joined.
ghost use Rattle.std.specs.Prelude.{◌≡◌, ◌+◌, ◌-◌, ◌≤◌, ℕ, [], length, IsOk, IfOk};
ghost use Rattle.bk_turn.specs.declared.seats.Stage.TheVariants.{Idle};
ghost use Rattle.bk_turn.specs.Badges.{seat_of};
ghost use Rattle.bk_turn.specs.Handles.{turn_id, pass_turn, pass_view};
ghost use Rattle.bk_turn.specs.History.{split_view, Joins};

use crate::passes::{NoSplit, Pass, Two};
use crate::plays::{Cut, Glue};
use crate::stands::Stands;
use crate::steps::{Seat, compare};
use crate::turns::Turn;

/// The pass's seat.
pub(crate) fn seat_of_pass<S>(pass: Pass) -> Seat<S>
    ensures table { result.table_id ≡ pass_turn pass }
    ensures seat { result.me ≡ (seat_of pass.badge.views, []) }
    ensures idle { result.me.0.stage ≡ Idle }
{
    let Pass {
        badge,
        seen_to: _,
        number: _,
    } = pass;
    badge.into_seat()
}

/// The pass of an idle seat.
pub(crate) fn pass_of_seat<S>(seat: Seat<S>, seen_to: u64, number: Option<u64>) -> Pass
    requires idle { (seat.me.0.stage ≡ Idle) × (seat.me.1 ≡ []) }
    requires seen_to { seen_to ≡ seat.me.0.view.first + length seat.me.0.view.seen }
    requires number { number ≡ seat.me.0.view.number }
    ensures table { pass_turn result ≡ seat.table_id }
    ensures view { pass_view result ≡ seat.me.0.view }
{
    Pass {
        badge: seat.into_badge(),
        seen_to,
        number,
    }
}

impl Pass {
    /// The place up to which the pass has seen the history.
    pub fn seen_to(&self) -> u64
        ensures { let view = pass_view self.now in result ≡ view.first + length view.seen }
    {
        self.seen_to
    }
}

impl<S: Stands> Turn<S> {
    /// Splits a pass of this turn, whose weight is at least 2. Both passes have seen what it saw; the
    /// left one keeps its number, and the right one has none and the weight 1. It takes no memory,
    /// so `NoSplit` never comes.
    pub fn split(&self, pass: Pass) -> Result<Two, NoSplit>
        requires turn { pass_turn pass ≡ turn_id self.now }
        requires weight { 2 ≤ (pass_view pass).weight }
        ensures never_refused { IsOk result }
        ensures turns { IfOk result (λ two. (pass_turn two.left ≡ turn_id self.now) × (pass_turn two.right ≡ turn_id self.now)) }
        ensures left { let view = pass_view pass in IfOk result (λ two. pass_view two.left ≡ record view { weight = view.weight - 1 }) }
        ensures right { IfOk result (λ two. pass_view two.right ≡ split_view (pass_view pass)) }
    {
        let seen_to = pass.seen_to;
        let number = pass.number;
        let mut seat = seat_of_pass(pass);
        let other = self.table.shared.split_seat::<Cut>(&mut seat);
        Ok(Two {
            left: pass_of_seat(seat, seen_to, number),
            right: pass_of_seat(other, seen_to, None),
        })
    }

    /// Makes two passes of this turn one. It has seen the longer of what they saw, and keeps the left
    /// one's number.
    pub fn join(&self, left: Pass, right: Pass) -> Pass
        requires turns { (pass_turn left ≡ turn_id self.now) × (pass_turn right ≡ turn_id self.now) }
        ensures turn { pass_turn result ≡ turn_id self.now }
        ensures joins { Joins (pass_view left) (pass_view right) (pass_view result) }
    {
        let seen_to = left.seen_to.max(right.seen_to);
        let number = left.number;
        let mut seat = seat_of_pass(left);
        let words = &self.table.shared;
        words.join_seat::<Glue>(&mut seat, seat_of_pass(right));
        compare(words, &mut seat);
        pass_of_seat(seat, seen_to, number)
    }
}
