//! What each step on the table tells. These types are for the proofs alone.
ghost use Rattle.bk_base.specs.declared.histories.Opening.{Opening};
ghost use Rattle.bk_base.specs.declared.histories.Step.{Step};
ghost use Rattle.bk_base.specs.Blanks.{blank_opening, blank_step};
ghost use Rattle.bk_turn.specs.Seats.{spent, cut_left, cut_right, joined};
ghost use Rattle.bk_turn.specs.Steps.{begun, filled, drawn, looked, served, compared};

use crate::seats::Seated;
use crate::stands::Stands;
use atomic_table::{Join, Play, Split};
use std::marker::{Brand, PhantomData};

/// The opening that the turn is made with; the call that makes it picks it.
pub(crate) trait Opens {
    ghost opening: { Opening };
}

impl Opens for Brand {
    ghost opening = { blank_opening };
}

/// The step that a holding adds; the call that ends the holding picks it.
pub(crate) trait Adds {
    ghost added: { Step };
}

impl Adds for Brand {
    ghost added = { blank_step };
}

/// The first seat takes the slot.
pub(crate) struct Begin<O> {
    opening: PhantomData<O>,
}

impl<S, O: Opens> Play<Option<S>, Seated> for Begin<O> {
    ghost then = { begun O.opening };
}

/// The first seat gives the slot back, filled.
pub(crate) struct Fill;

impl<S> Play<Option<S>, Seated> for Fill {
    ghost then = { filled };
}

/// A seat draws a ticket, or finds that there is none left.
pub(crate) struct Draw;

impl<S> Play<Option<S>, Seated> for Draw {
    ghost then = { drawn };
}

/// A seat takes the slot where its ticket is served.
pub(crate) struct Look;

impl<S: Stands> Play<Option<S>, Seated> for Look {
    ghost then = { looked S.stands };
}

/// A holding ends with its step, and the next ticket is served.
pub(crate) struct Serve<A> {
    added: PhantomData<A>,
}

impl<S, A: Adds> Play<Option<S>, Seated> for Serve<A> {
    ghost then = { served A.added };
}

/// A seat compares what its last join put together.
pub(crate) struct Compare;

impl<S> Play<Option<S>, Seated> for Compare {
    ghost then = { compared };
}

/// The right seat has seen as much, with a weight of 1.
pub(crate) struct Cut;

impl Split<Seated> for Cut {
    ghost left = { cut_left };

    ghost right = { cut_right };
}

/// The left seat takes over what the right one has seen.
pub(crate) struct Glue;

impl Join<Seated> for Glue {
    ghost both = { joined };

    ghost spent = { spent };
}
