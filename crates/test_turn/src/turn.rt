//! The turn with a list of numbers under it, which stands for the history of its pushes.
ghost use Rattle.std.specs.Prelude.{◌≡◌, ℕ, ◌+◌, ◌++◌, ◌∷◌, [], true, length, ◌<◌, ◌≤◌, All, Option, slice_index_or};
ghost use Rattle.bk_base.specs.declared.histories.Opening.{Opening};
ghost use Rattle.bk_base.specs.declared.histories.Step.{Step};
ghost use Rattle.bk_turn.specs.declared.passes.Pass.{Pass};
ghost use Rattle.bk_turn.specs.Handles.{turn_id, pass_turn, pass_view, hold_turn, hold_view, hold_number};
ghost use Rattle.std.specs.Bool.{OnTrue, OnFalse};
ghost use mathlib.Core.List.{IsPrefix};
ghost use Rattle.bk_turn.specs.History.{Ends};
ghost use Rattle.bk_turn.specs.Places.{place_view, HasPass};
ghost use Rattle.bk_turn.specs.Pushes.{ArePushes, Pushes, push_step};

use bk_turn::{
    Holding, NoTurn, Opened, Pass, Spent, Stands, Turn, Two, drop_places, empty_places, put_pass,
    take_pass,
};
use std::alloc::Global;
use std::hint::spin_loop;
use std::process::Abort;
use std::sync::Wait;
use std::thread::{Threads, for_each_mut, join_mut};

/// Numbers, in the order in which they were pushed.
#[derive(Drop)]
struct Tally {
    numbers: Vec<u64>,
}

impl Stands for Tally {
    ghost stands = { λ tally first opening steps. ArePushes tally.numbers.items steps };
}

/// Leaves the turn after a push of `number`.
fn leave_pushed(turn: &Turn<Tally>, holding: Holding<Tally>, number: u64) -> Pass
    ghost step: { Step }
    requires turn { hold_turn holding ≡ turn_id turn.now }
    requires step { step ≡ push_step (hold_number holding) number }
    requires pushed { ArePushes holding.value.numbers.items ((hold_view holding).seen ++ step ∷ []) }
    ensures turn { pass_turn result ≡ turn_id turn.now }
    ensures ends { Ends (hold_view holding) (hold_number holding) step (pass_view result) }
{
    turn.leave(holding)
}

/// Keeps its thread busy for so many spins, of some 5 ns each.
fn be_busy(spins: u32) {
    for _ in 0..spins {
        spin_loop();
    }
}

/// Pushes a number in one turn of so many spins, and says whether it did: not where the tickets are
/// used up.
fn push<R: Wait + Abort>(
    rt: &R,
    turn: &Turn<Tally>,
    place: &mut Option<Pass>,
    number: u64,
    spins: u32,
) -> bool
    requires { HasPass (turn_id turn.now) place.old }
    ensures turn { HasPass (turn_id turn.now) place.new }
    ensures pushed { OnTrue result (Pushes (place_view place.old) number (place_view place.new)) }
    ensures spent { let view = place_view place.old in OnFalse result (place_view place.new ≡ record view { full = true }) }
{
    match turn.enter(rt, take_pass(place)) {
        Ok(mut holding) => {
            be_busy(spins);
            holding.value.numbers.push(number).expect(rt, "memory");
            put_pass(place, leave_pushed(turn, holding, number));
            true
        }
        Err(Spent { pass }) => {
            put_pass(place, pass);
            false
        }
    }
}

/// Pushes all these numbers, each in a turn of its own.
fn push_all<R: Wait + Abort>(
    rt: &R,
    turn: &Turn<Tally>,
    place: &mut Option<Pass>,
    from: u64,
    to: u64,
    spins: u32,
)
    requires { HasPass (turn_id turn.now) place.old }
    ensures turn { HasPass (turn_id turn.now) place.new }
    ensures weight { (place_view place.new).weight ≡ (place_view place.old).weight }
    ensures seen { IsPrefix (place_view place.old).seen (place_view place.new).seen }
{
    for number in from..to {
        assert!(rt; push(rt, turn, place, number, spins));
    }
}

/// An empty turn, and its first pass.
fn opened<R: Abort>(rt: &R, alloc: Global, first: u64) -> Opened<Tally>
    ensures turn { pass_turn result.pass ≡ turn_id result.turn }
    ensures view { (pass_view result.pass).weight ≡ 4294967296 }
{
    let numbers = Vec::new(alloc);
    match Turn::new(alloc, Tally { numbers }, first) {
        Ok(opened) => opened,
        Err(NoTurn { value: _ }) => panic!(rt; "memory"),
    }
}

/// A turn, and two places with a pass each. The left one has all the weight but that of the right one.
struct Halves {
    turn: Turn<Tally>,
    left: Option<Pass>,
    right: Option<Pass>,
}

fn split_once<R: Abort>(rt: &R, alloc: Global, first: u64) -> Halves
    ensures left { HasPass (turn_id result.turn) result.left × ((place_view result.left).weight ≡ 4294967295) }
    ensures right { HasPass (turn_id result.turn) result.right × ((place_view result.right).weight ≡ 1) }
{
    let Opened { turn, pass } = opened(rt, alloc, first);
    let Two { left, right } = turn.split(pass).unwrap();
    Halves {
        turn,
        left: Some(left),
        right: Some(right),
    }
}

/// The numbers of a turn that is closed, and the place up to which its passes had seen them.
fn closed(turn: Turn<Tally>, left: Option<Pass>, right: Option<Pass>) -> (u64, Vec<u64>)
    requires left { HasPass (turn_id turn) left × ((place_view left).weight ≡ 4294967295) }
    requires right { HasPass (turn_id turn) right × ((place_view right).weight ≡ 1) }
{
    let joined = turn.join(left.unwrap(), right.unwrap());
    let seen_to = joined.seen_to();
    let Tally { numbers } = turn.close(joined);
    (seen_to, numbers)
}

/// The place up to which the pass has seen the history.
fn seen_to(place: &Option<Pass>) -> u64 {
    match place {
        Some(pass) => pass.seen_to(),
        None => 0,
    }
}

#[test]
fn an_exhausted_ticket_word_is_spent(rt: HostRuntime) {
    let Opened { turn, pass } = opened(&rt, rt.alloc(), u64::MAX);
    let mut place = Some(pass);
    assert!(rt; !push(&rt, &turn, &mut place, 7, 0));
    assert!(rt; !push(&rt, &turn, &mut place, 8, 0));
    let tally = turn.close(place.unwrap());
    assert!(rt; tally.numbers.is_empty());
}

#[test]
fn split_passes_enter_and_join(rt: HostRuntime) {
    let Halves {
        turn,
        mut left,
        mut right,
    } = split_once(&rt, rt.alloc(), 0);
    push_all(&rt, &turn, &mut left, 1, 2, 0);
    push_all(&rt, &turn, &mut right, 2, 4, 0);
    assert_eq!(rt; (seen_to(&left), seen_to(&right)), (1, 3));
    let (seen_to, numbers) = closed(turn, left, right);
    assert_eq!(rt; seen_to, 3);
    assert_eq!(rt; numbers.as_slice(), [1, 2, 3].as_slice());
}

/// The numbers below `end`, in order.
fn assert_all<R: Abort>(rt: &R, alloc: Global, numbers: Vec<u64>, end: u64) {
    let mut numbers = numbers;
    numbers.sort().expect(rt, "memory");
    let wanted: Vec<u64> = (0..end).collect(alloc).expect(rt, "memory");
    assert_eq!(*rt; numbers, wanted);
}

#[test]
fn two_threads_push_a_thousand_numbers_each(rt: HostRuntime) {
    let Halves {
        turn,
        mut left,
        mut right,
    } = split_once(&rt, rt.alloc(), 1);
    push_by_two(&rt, &turn, &mut left, &mut right);
    let (_, numbers) = closed(turn, left, right);
    assert_all(&rt, rt.alloc(), numbers, 2_000);
}

fn push_by_two<R: Threads + Wait + Abort + Sync>(
    rt: &R,
    turn: &Turn<Tally>,
    left: &mut Option<Pass>,
    right: &mut Option<Pass>,
)
    requires { HasPass (turn_id turn.now) left.old × HasPass (turn_id turn.now) right.old }
    ensures left { HasPass (turn_id turn.now) left.new × ((place_view left.new).weight ≡ (place_view left.old).weight) }
    ensures right { HasPass (turn_id turn.now) right.new × ((place_view right.new).weight ≡ (place_view right.old).weight) }
{
    join_mut(
        rt,
        &mut ||
            requires { HasPass (turn_id turn.now) left.now }
            ensures { HasPass (turn_id turn.entry.now) left.exit.now × ((place_view left.exit.now).weight ≡ (place_view left.entry.now).weight) }
        { push_all(rt, turn, left, 0, 1_000, 0) },
        &mut ||
            requires { HasPass (turn_id turn.now) right.now }
            ensures { HasPass (turn_id turn.entry.now) right.exit.now
                × ((place_view right.exit.now).weight ≡ (place_view right.entry.now).weight) }
        { push_all(rt, turn, right, 1_000, 2_000, 0) },
    );
}

#[test]
fn eight_threads_push_and_all_passes_come_back(rt: HostRuntime) {
    push_by_many(&rt, rt.alloc(), 8, 0);
}

// More threads than a small machine has processors, and holdings longer than the looks at the
// ticket: the threads sleep, and each is woken.
#[test]
fn sixteen_threads_sleep_and_are_woken(rt: HostRuntime) {
    push_by_many(&rt, rt.alloc(), 16, 5_000);
}

/// Pushes a hundred numbers in each of at most 16 threads, and finds them all.
fn push_by_many<R: Threads + Wait + Abort + Sync>(
    rt: &R,
    alloc: Global,
    threads: usize,
    spins: u32,
) {
    let threads = threads.min(16);
    let count = 100 * threads as u64;
    let Opened { turn, pass } = opened(rt, alloc, 1);
    let mut places = empty_places(alloc, threads).expect(rt, "memory");
    let pass = push_by_all(rt, &turn, pass, places.as_mut_slice(), spins);
    drop_places(places);
    assert_eq!(*rt; pass.seen_to(), count + 1);
    let Tally { numbers } = turn.close(pass);
    assert_all(rt, alloc, numbers, count);
}

fn push_by_all<R: Threads + Wait + Abort + Sync>(
    rt: &R,
    turn: &Turn<Tally>,
    pass: Pass,
    places: &mut [Option<Pass>],
    spins: u32,
) -> Pass
    requires turn { pass_turn pass ≡ turn_id turn.now }
    requires places { All (λ place. place ≡ None) places.old × (length places.old ≤ 16) × (16 < (pass_view pass).weight) }
    ensures turn { pass_turn result ≡ turn_id turn.now }
    ensures weight { (pass_view result).weight ≡ (pass_view pass).weight }
    ensures emptied { All (λ place. place ≡ None) places.new }
{
    let pass = turn.split_into(pass, places);
    push_by_each(rt, turn, places, spins);
    turn.join_from(pass, places)
}

fn push_by_each<R: Threads + Wait + Abort + Sync>(
    rt: &R,
    turn: &Turn<Tally>,
    places: &mut [Option<Pass>],
    spins: u32,
)
    requires { All (HasPass (turn_id turn.now)) places.old × (length places.old ≤ 16) }
    ensures turn { All (HasPass (turn_id turn.now)) places.new }
    ensures weight { (i : ℕ) (d : Option Pass) → i < length places.old
        → (place_view (slice_index_or places.new i d)).weight ≡ (place_view (slice_index_or places.old i d)).weight }
{
    for_each_mut(
        rt,
        places,
        16,
        &|i: usize, place: &mut Option<Pass>|
            requires { HasPass (turn_id turn.now) place.old × (i < 16) }
            ensures { HasPass (turn_id turn.entry.now) place.new × ((place_view place.new).weight ≡ (place_view place.old).weight) }
        {
            let from = 100 * i as u64;
            push_all(rt, turn, place, from, from + 100, spins)
        },
    );
}

#[test]
fn a_pass_is_split_and_joined_while_others_hold(rt: HostRuntime) {
    let Halves {
        turn,
        mut left,
        mut right,
    } = split_once(&rt, rt.alloc(), 5);
    split_beside_pushes(&rt, &turn, &mut left, &mut right);
    let (seen_to, numbers) = closed(turn, left, right);
    assert_eq!(rt; seen_to, 505);
    let wanted: Vec<u64> = (0..500u64).collect(rt.alloc()).expect(&rt, "memory");
    assert_eq!(rt; numbers, wanted);
}

/// Splits a pass and joins its parts again, so many times.
fn split_and_join(turn: &Turn<Tally>, place: &mut Option<Pass>, times: u64)
    requires { HasPass (turn_id turn.now) place.old × (2 ≤ (place_view place.old).weight) }
    ensures { HasPass (turn_id turn.now) place.new × ((place_view place.new).weight ≡ (place_view place.old).weight) }
{
    for _ in 0..times {
        let Two { left, right } = turn.split(take_pass(place)).unwrap();
        put_pass(place, turn.join(left, right));
    }
}

fn split_beside_pushes<R: Threads + Wait + Abort + Sync>(
    rt: &R,
    turn: &Turn<Tally>,
    left: &mut Option<Pass>,
    right: &mut Option<Pass>,
)
    requires left { HasPass (turn_id turn.now) left.old × (2 ≤ (place_view left.old).weight) }
    requires right { HasPass (turn_id turn.now) right.old }
    ensures left { HasPass (turn_id turn.now) left.new × ((place_view left.new).weight ≡ (place_view left.old).weight) }
    ensures right { HasPass (turn_id turn.now) right.new × ((place_view right.new).weight ≡ (place_view right.old).weight) }
{
    join_mut(
        rt,
        &mut ||
            requires { HasPass (turn_id turn.now) left.now × (2 ≤ (place_view left.now).weight) }
            ensures { HasPass (turn_id turn.entry.now) left.exit.now × ((place_view left.exit.now).weight ≡ (place_view left.entry.now).weight) }
        { split_and_join(turn, left, 500) },
        &mut ||
            requires { HasPass (turn_id turn.now) right.now }
            ensures { HasPass (turn_id turn.entry.now) right.exit.now
                × ((place_view right.exit.now).weight ≡ (place_view right.entry.now).weight) }
        { push_all(rt, turn, right, 0, 500, 0) },
    );
}
