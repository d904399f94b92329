//! Rounds of the turn.
ghost use Rattle.std.specs.Prelude.{◌≡◌, ◌<◌, ◌≤◌, ◌%◌, ◌^◌, ℕ, length, All, Option, IfSome, slice_index_or};
ghost use Rattle.bk_turn.specs.declared.passes.Pass.{Pass};
ghost use Rattle.bk_turn.specs.Handles.{turn_id, pass_turn, pass_view};
ghost use Rattle.bk_turn.specs.Places.{place_view, HasPass};

use crate::counts::Count;
use bk_turn::{NoTurn, Opened, Pass, Spent, Turn, drop_places, empty_places, put_pass, take_pass};
use std::alloc::{AllocError, Global};
use std::sync::Wait;
use std::thread::{Threads, for_each_mut};

/// Takes the turn and works, so many rounds in each of at most 64 threads, and answers how many
/// steps the history has.
pub fn hold_by<R: Threads + Wait + Sync>(
    rt: &R,
    alloc: Global,
    threads: usize,
    rounds: u64,
    work: u64,
) -> Result<u64, AllocError> {
    let threads = threads.clamp(1, 64);
    let mut places = empty_places(alloc, threads)?;
    match Turn::new(alloc, Count::new(), 1) {
        Ok(Opened { turn, pass }) => {
            let pass = hold_in_all(rt, &turn, pass, places.as_mut_slice(), rounds, work);
            drop_places(places);
            Ok(turn.close(pass).steps)
        }
        Err(NoTurn { value: _ }) => {
            drop_places(places);
            Err(AllocError)
        }
    }
}

/// A pass for each place, the rounds, and one pass again.
fn hold_in_all<R: Threads + Wait + Sync>(
    rt: &R,
    turn: &Turn<Count>,
    pass: Pass,
    places: &mut [Option<Pass>],
    rounds: u64,
    work: u64,
) -> Pass
    requires turn { pass_turn pass ≡ turn_id turn.now }
    requires places { All (λ place. place ≡ None) places.old × (length places.old < (pass_view pass).weight) }
    ensures turn { pass_turn result ≡ turn_id turn.now }
    ensures weight { (pass_view result).weight ≡ (pass_view pass).weight }
    ensures emptied { All (λ place. place ≡ None) places.new }
{
    let pass = turn.split_into(pass, places);
    hold_in_each(rt, turn, places, rounds, work);
    turn.join_from(pass, places)
}

fn hold_in_each<R: Threads + Wait + Sync>(
    rt: &R,
    turn: &Turn<Count>,
    places: &mut [Option<Pass>],
    rounds: u64,
    work: u64,
)
    requires { All (HasPass (turn_id turn.now)) places.old }
    ensures turn { All (HasPass (turn_id turn.now)) places.new }
    ensures weight { (i : ℕ) (d : Option Pass) → i < length places.old
        → (place_view (slice_index_or places.new i d)).weight ≡ (place_view (slice_index_or places.old i d)).weight }
{
    for_each_mut(
        rt,
        places,
        64,
        &|_, place: &mut Option<Pass>|
            requires { HasPass (turn_id turn.now) place.old }
            ensures { HasPass (turn_id turn.entry.now) place.new × ((place_view place.new).weight ≡ (place_view place.old).weight) }
        { hold_often(rt, turn, place, rounds, work) },
    );
}

/// So many holdings, unless the tickets are used up.
fn hold_often<R: Wait>(rt: &R, turn: &Turn<Count>, place: &mut Option<Pass>, rounds: u64, work: u64)
    requires { HasPass (turn_id turn.now) place.old }
    ensures turn { HasPass (turn_id turn.now) place.new }
    ensures weight { (place_view place.new).weight ≡ (place_view place.old).weight }
{
    for _ in 0..rounds {
        if hold(rt, turn, place, work).is_none() {
            return;
        }
    }
}

/// One holding, which works and counts itself. It answers how many steps the history then has, or
/// None where the tickets are used up.
fn hold<R: Wait>(rt: &R, turn: &Turn<Count>, place: &mut Option<Pass>, work: u64) -> Option<u64>
    requires { HasPass (turn_id turn.now) place.old }
    ensures turn { HasPass (turn_id turn.now) place.new }
    ensures weight { (place_view place.new).weight ≡ (place_view place.old).weight }
    ensures counted { IfSome result (λ count. count ≡ length (place_view place.new).seen % 2 ^ 64) }
{
    match turn.enter(rt, take_pass(place)) {
        Ok(mut holding) => {
            let count = holding.value.hold(work);
            put_pass(place, turn.leave(holding));
            Some(count)
        }
        Err(Spent { pass }) => {
            put_pass(place, pass);
            None
        }
    }
}
