//! Passes in places: in an `Option`, since no closure can own a pass, and in a row of them.
ghost use Rattle.std.specs.Prelude.{◌≡◌, ◌-◌, ◌<◌, ◌≤◌, ℕ, length, Option, None, All, IsSome, IfOk, slice_index_or, vec_len};
ghost use Rattle.bk_turn.specs.declared.passes.Pass.{Pass};
ghost use Rattle.bk_turn.specs.Handles.{turn_id, pass_turn, pass_view};
ghost use Rattle.bk_turn.specs.Places.{place_view, end_of, weights_of, HasPass, MayHavePass, HasSplit, Keeps, IsSeenIn};

use crate::passes::{Pass, Two};
use crate::stands::Stands;
use crate::turns::Turn;
use std::alloc::{AllocError, Global};

/// Takes the pass out of its place.
pub fn take_pass(place: &mut Option<Pass>) -> Pass
    requires { IsSome place.old }
    ensures pass { place.old ≡ Some result }
    ensures left { place.new ≡ None }
{
    place.take().unwrap()
}

/// Puts a pass into an empty place.
pub fn put_pass(place: &mut Option<Pass>, pass: Pass)
    requires { place.old ≡ None }
    ensures { place.new ≡ Some pass }
{
    match place.replace(pass) {
        None => {}
        Some(_) => unreachable!(),
    }
}

/// So many empty places.
pub fn empty_places(alloc: Global, count: usize) -> Result<Vec<Option<Pass>>, AllocError>
    ensures count { IfOk result (λ places. vec_len places ≡ count) }
    ensures empty { IfOk result (λ places. All (λ place. place ≡ None) places.items) }
{
    let mut places = Vec::with_capacity(alloc, count)?;
    for _ in 0..count {
        places.push_reserved(None);
    }
    Ok(places)
}

/// Lets empty places go.
pub fn drop_places(mut places: Vec<Option<Pass>>)
    requires { All (λ place. place ≡ None) places.items }
{
    while let Some(place) = places.pop() {
        match place {
            None => {}
            Some(_) => unreachable!(),
        }
    }
    places.destroy_empty();
}

impl<S: Stands> Turn<S> {
    /// Splits a pass for each empty place from one whose weight is greater than their number.
    pub fn split_into(&self, pass: Pass, places: &mut [Option<Pass>]) -> Pass
        requires turn { pass_turn pass ≡ turn_id self.now }
        requires weight { length places.old < (pass_view pass).weight }
        requires empty { All (λ place. place ≡ None) places.old }
        ensures turn { pass_turn result ≡ turn_id self.now }
        ensures kept { let view = pass_view pass in pass_view result ≡ record view { weight = view.weight - length places.old } }
        ensures given { All (HasSplit (turn_id self.now) (pass_view pass)) places.new }
    {
        let mut pass = pass;
        for place in places.iter_mut() {
            let Two { left, right } = self.split(pass).unwrap();
            pass = left;
            put_pass(place, right);
        }
        pass
    }

    /// Joins the pass of each place into one. It has seen all that they saw, and keeps its number.
    /// Among what it has seen, the steps that each of them had seen as its own are all of its own.
    pub fn join_from(&self, pass: Pass, places: &mut [Option<Pass>]) -> Pass
        requires turn { pass_turn pass ≡ turn_id self.now }
        requires filled { All (HasPass (turn_id self.now)) places.old }
        ensures turn { pass_turn result ≡ turn_id self.now }
        ensures keeps { Keeps (pass_view pass) (weights_of places.old) (pass_view result) }
        ensures joined { All (IsSeenIn (pass_view result).seen) places.old }
        ensures emptied { All (λ place. place ≡ None) places.new }
    {
        if places.is_empty() {
            return pass;
        }
        // The place that has seen most comes first: from then on nothing is added to what was seen,
        // so no pass that was joined can have a step of its own in a part that it had not seen.
        let most = farthest(places);
        let pass = self.join(pass, take_pass(&mut places[most]));
        self.join_each(pass, places)
    }

    /// Joins the passes that are there into one that has seen as much as any of them.
    fn join_each(&self, pass: Pass, places: &mut [Option<Pass>]) -> Pass
        requires turn { pass_turn pass ≡ turn_id self.now }
        requires filled { All (MayHavePass (turn_id self.now)) places.old }
        requires farthest { All (λ place. end_of (place_view place) ≤ end_of (pass_view pass)) places.old }
        ensures turn { pass_turn result ≡ turn_id self.now }
        ensures keeps { Keeps (pass_view pass) (weights_of places.old) (pass_view result) }
        ensures seen { (pass_view result).seen ≡ (pass_view pass).seen }
        ensures joined { All (IsSeenIn (pass_view pass).seen) places.old }
        ensures emptied { All (λ place. place ≡ None) places.new }
    {
        let mut pass = pass;
        for place in places.iter_mut() {
            pass = self.join_one(pass, place);
        }
        pass
    }

    /// Joins the pass of a place, if there is one, into one that has seen as much.
    fn join_one(&self, pass: Pass, place: &mut Option<Pass>) -> Pass
        requires turn { pass_turn pass ≡ turn_id self.now }
        requires filled { MayHavePass (turn_id self.now) place.old }
        requires farthest { end_of (place_view place.old) ≤ end_of (pass_view pass) }
        ensures turn { pass_turn result ≡ turn_id self.now }
        ensures keeps { Keeps (pass_view pass) (place_view place.old).weight (pass_view result) }
        ensures seen { (pass_view result).seen ≡ (pass_view pass).seen }
        ensures joined { IsSeenIn (pass_view pass).seen place.old }
        ensures emptied { place.new ≡ None }
    {
        match place.take() {
            Some(other) => self.join(pass, other),
            None => pass,
        }
    }
}

/// Which place has seen most.
fn farthest(places: &[Option<Pass>]) -> usize
    requires { 0 < length places.now }
    ensures within { result < length places.now }
    ensures farthest { (k : ℕ) (d : Option Pass) → k < length places.now
        → end_of (place_view (slice_index_or places.now k d)) ≤ end_of (place_view (slice_index_or places.now result d)) }
{
    let mut most = 0;
    for i in 0..places.len() {
        if seen_to(&places[i]) > seen_to(&places[most]) {
            most = i;
        }
    }
    most
}

/// The place in the history up to which the pass has seen it; 0 where there is no pass.
fn seen_to(place: &Option<Pass>) -> u64
    ensures { result ≡ end_of (place_view place.now) }
{
    match place {
        Some(pass) => pass.seen_to(),
        None => 0,
    }
}
