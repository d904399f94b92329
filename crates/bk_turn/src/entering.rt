//! How the turn is taken and left.
ghost use Rattle.std.specs.Prelude.{◌≡◌, ◌++◌, ◌∷◌, [], true, false, IfOk, IfErr, OnOk, MatchResult};
ghost use Rattle.bk_base.specs.declared.histories.Step.{Step};
ghost use Rattle.bk_turn.specs.Handles.{turn_id, pass_turn, pass_view, hold_turn, hold_view, hold_place, hold_number};
ghost use Rattle.bk_turn.specs.History.{Continues, Ends};

use crate::holdings::Holding;
use crate::passes::{Pass, Spent};
use crate::sharing::{pass_of_seat, seat_of_pass};
use crate::stands::Stands;
use crate::steps::{draw, serve, wait};
use crate::turns::Turn;
use std::marker::Brand;
use std::sync::Wait;

impl<S: Stands> Turn<S> {
    /// Waits for the turn and takes it, by a pass of this turn. The value stands for the whole
    /// history, of which a beginning is what the pass had seen. `Spent` comes exactly where the word
    /// of tickets was found at 18,446,744,073,709,551,615; the pass comes back, and is full from then
    /// on.
    pub fn enter<R: Wait>(&self, rt: &R, pass: Pass) -> Result<Holding<S>, Spent>
        requires { pass_turn pass ≡ turn_id self.now }
        ensures turn { MatchResult result (λ holding. hold_turn holding ≡ turn_id self.now) (λ spent. pass_turn spent.pass ≡ turn_id self.now) }
        ensures continues { IfOk result (λ holding. Continues (pass_view pass) (hold_place holding) (hold_number holding) (hold_view holding)) }
        ensures stands { IfOk result (λ holding. let view = hold_view holding in S.stands holding.value view.first view.opening view.seen) }
        ensures spent { let view = pass_view pass in IfErr result (λ spent. pass_view spent.pass ≡ record view { full = true }) }
        ensures tickets_left { OnOk result ((pass_view pass).full ≡ false) }
    {
        let seen_to = pass.seen_to;
        let number = pass.number;
        let mut seat = seat_of_pass(pass);
        let words = &self.table.shared;
        let from = if seen_to == u64::MAX { 0 } else { seen_to };
        let Some(place) = draw(rt, words, &mut seat, from) else {
            return Err(Spent {
                pass: pass_of_seat(seat, seen_to, number),
            });
        };
        let value = wait(rt, words, &mut seat, place);
        Ok(Holding {
            value,
            seat,
            place,
            number: number.unwrap_or(place),
        })
    }

    /// Puts the value back and ends the holding. The value stands for the history that it was taken
    /// with and one step more, whose caller is the holding's number.
    pub fn leave(&self, holding: Holding<S>) -> Pass
        ghost step: { Step }
        requires turn { hold_turn holding ≡ turn_id self.now }
        requires stands { let view = hold_view holding in S.stands holding.value view.first view.opening (view.seen ++ step ∷ []) }
        requires own { step.entry.caller ≡ hold_number holding }
        ensures turn { pass_turn result ≡ turn_id self.now }
        ensures ends { Ends (hold_view holding) (hold_number holding) step (pass_view result) }
    {
        let Holding {
            value,
            mut seat,
            place,
            number,
        } = holding;
        serve::<S, Brand>(&self.table.shared, &mut seat, place, value);
        pass_of_seat(seat, place + 1, Some(number))
    }
}
