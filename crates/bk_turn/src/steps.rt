//! The steps of one seat on the table: the only code that touches the two words and the slot.
//! Word 0 is the ticket that is served, word 1 the next one to be drawn.
ghost use Rattle.std.specs.Prelude.{◌≡◌, ◌≢◌, ◌+◌, ◌<◌, ℕ, false, List, [], ◌∷◌, ◌++◌, length, None, MatchOption};
ghost use mathlib.Core.List.{IsPrefix};
ghost use Rattle.bk_turn.specs.declared.seats.Stage.TheVariants.{Filling, Idle, Waiting, Holding};
ghost use Rattle.bk_turn.specs.Badges.{IsSized};
ghost use Rattle.bk_turn.specs.History.{own, own_of, number_at, opening_view};
ghost use Rattle.bk_turn.specs.Seats.{fresh, seated, IsNoted};
ghost use Rattle.bk_turn.specs.Steps.{with_stage, found_full, TookTurn};

use crate::patience::Patience;
use crate::plays::{Adds, Begin, Compare, Draw, Fill, Look, Opens, Serve};
use crate::seats::{Order, Seated};
use crate::stands::Stands;
use std::sync::Wait;

pub(crate) type Words<S> = atomic_table::Shared<Option<S>, Seated, u64, Order<S>>;

pub(crate) type Seat<S> = atomic_table::Seat<Option<S>, Seated>;

pub(crate) const SERVING: usize = 0;

const TICKET: usize = 1;

/// The first seat takes the empty slot, and knows the opening from now on.
pub(crate) fn begin<S: Stands, O: Opens>(words: &Words<S>, seat: &mut Seat<S>)
    requires table { IsSized words.now.table_id × (seat.old.table_id ≡ words.now.table_id) }
    requires ready { seat.old.me ≡ (fresh words.now.key, []) }
    ensures table { seat.new.table_id ≡ seat.old.table_id }
    ensures begun { seat.new.me ≡ (seated Filling (opening_view words.now.key O.opening), (0, None) ∷ []) }
{
    words.load::<Begin<O>>(seat, SERVING);
}

/// The first seat puts the value into the slot and gives it back.
pub(crate) fn fill<S: Stands, O: Opens>(words: &Words<S>, seat: &mut Seat<S>, value: S)
    requires table { IsSized words.now.table_id × (seat.old.table_id ≡ words.now.table_id) }
    requires ready { seat.old.me ≡ (seated Filling (opening_view words.now.key O.opening), (0, None) ∷ []) }
    requires stands { S.stands value words.now.key O.opening [] }
    ensures table { seat.new.table_id ≡ seat.old.table_id }
    ensures filled { seat.new.me ≡ (seated Idle (opening_view words.now.key O.opening), []) }
{
    put(words, seat, value);
    words.load::<Fill>(seat, SERVING);
}

/// Both steps of the first seat.
pub(crate) fn open<S: Stands, O: Opens>(words: &Words<S>, seat: &mut Seat<S>, value: S)
    requires table { IsSized words.now.table_id × (seat.old.table_id ≡ words.now.table_id) }
    requires ready { seat.old.me ≡ (fresh words.now.key, []) }
    requires stands { S.stands value words.now.key O.opening [] }
    ensures table { seat.new.table_id ≡ seat.old.table_id }
    ensures opened { seat.new.me ≡ (seated Idle (opening_view words.now.key O.opening), []) }
{
    begin::<S, O>(words, seat);
    fill::<S, O>(words, seat, value);
}

/// Puts a value into the slot, which the seat has and which is empty.
fn put<S: Stands>(words: &Words<S>, seat: &mut Seat<S>, value: S)
    requires table { seat.old.table_id ≡ words.now.table_id }
    requires empty { seat.old.me.1 ≡ (0, None) ∷ [] }
    ensures table { seat.new.table_id ≡ seat.old.table_id }
    ensures put { seat.new.me ≡ (seat.old.me.0, (0, Some value) ∷ []) }
{
    match words.exchange(seat, 0, Some(value)) {
        None => {}
        Some(_) => unreachable!(),
    }
}

/// Takes the value out of the slot, which the seat has.
fn take<S: Stands>(words: &Words<S>, seat: &mut Seat<S>) -> S
    requires table { seat.old.table_id ≡ words.now.table_id }
    requires full { (value : S) × (seat.old.me.1 ≡ (0, Some value) ∷ []) }
    ensures table { seat.new.table_id ≡ seat.old.table_id }
    ensures taken { seat.old.me.1 ≡ (0, Some result) ∷ [] }
    ensures left { seat.new.me ≡ (seat.old.me.0, (0, None) ∷ []) }
{
    match words.exchange(seat, 0, None) {
        Some(value) => value,
        None => unreachable!(),
    }
}

/// Draws a ticket, from `from` on; None where the last one was found.
pub(crate) fn draw<S: Stands, R: Wait>(
    rt: &R,
    words: &Words<S>,
    seat: &mut Seat<S>,
    from: u64,
) -> Option<u64>
    requires table { IsSized words.now.table_id × (seat.old.table_id ≡ words.now.table_id) }
    requires ready { (seat.old.me.0.stage ≡ Idle) × (seat.old.me.1 ≡ []) }
    requires from { from ≢ 18446744073709551615 }
    ensures table { seat.new.table_id ≡ seat.old.table_id }
    ensures drawn { MatchOption result (seat.new.me ≡ (found_full seat.old.me.0, []))
        (λ t. (seat.new.me ≡ (with_stage (Waiting t) seat.old.me.0, []))
        × (seat.old.me.0.view.full ≡ false) × (t < 18446744073709551615)) }
{
    let mut ticket = from;
    for _ in rt.forever() {
        let found = words.compare_exchange::<Draw>(seat, TICKET, ticket, ticket + 1);
        if found == ticket {
            return Some(ticket);
        }
        if found == u64::MAX {
            return None;
        }
        ticket = found;
    }
    unreachable!()
}

/// Waits until the seat's ticket is served, and takes the value.
pub(crate) fn wait<S: Stands, R: Wait>(
    rt: &R,
    words: &Words<S>,
    seat: &mut Seat<S>,
    ticket: u64,
) -> S
    requires table { IsSized words.now.table_id × (seat.old.table_id ≡ words.now.table_id) }
    requires ready { (seat.old.me.0.stage ≡ Waiting ticket) × (seat.old.me.1 ≡ []) }
    ensures table { seat.new.table_id ≡ seat.old.table_id }
    ensures took { TookTurn S.stands ticket seat.old.me.0.view result seat.new.me }
{
    let mut patience = Patience::new(ticket);
    for _ in rt.forever() {
        let serving = words.load::<Look>(seat, SERVING);
        if serving == ticket {
            return take(words, seat);
        }
        patience.wait(rt, words, serving);
    }
    unreachable!()
}

/// Puts the value back and ends the holding with its step. It wakes the others only where a ticket
/// is out. The look for them must follow the add: a look before it proves as well, but misses a seat
/// that draws its ticket in between and then sleeps, and nobody wakes that seat.
pub(crate) fn serve<S: Stands, A: Adds>(words: &Words<S>, seat: &mut Seat<S>, place: u64, value: S)
    requires table { IsSized words.now.table_id × (seat.old.table_id ≡ words.now.table_id) }
    requires ready { (seat.old.me.0.stage ≡ Holding place) × (seat.old.me.1 ≡ (0, None) ∷ []) }
    requires stands { let view = seat.old.me.0.view in S.stands value view.first view.opening (view.seen ++ A.added ∷ []) }
    requires own { A.added.entry.caller ≡ number_at seat.old.me.0.view.number place }
    ensures table { seat.new.table_id ≡ seat.old.table_id }
    ensures served { let view = seat.old.me.0.view in seat.new.me ≡ (
      seated Idle
          (record view { seen = view.seen ++ A.added ∷ []; number = Some (number_at view.number place) }),
      [],
    ) }
{
    put(words, seat, value);
    let served = words.fetch_add::<Serve<A>>(seat, SERVING, 1);
    if words.peek(TICKET) != served.wrapping_add(1) {
        words.wake_all(SERVING);
    }
}

/// Looks at the table after a join: what the two had seen are beginnings of one history.
pub(crate) fn compare<S: Stands>(words: &Words<S>, seat: &mut Seat<S>)
    requires table { IsSized words.now.table_id × (seat.old.table_id ≡ words.now.table_id) }
    requires live { seat.old.me.0.stage ≡ Idle }
    ensures table { seat.new.table_id ≡ seat.old.table_id }
    ensures same { seat.new.me ≡ seat.old.me }
    ensures noted { IsNoted seat.old.me.0.view seat.old.me.0.note }
{
    words.load::<Compare>(seat, SERVING);
}
