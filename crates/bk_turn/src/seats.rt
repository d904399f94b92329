//! What a seat at the table is doing, and the rule that all seats keep. No value of these is made.

use crate::stands::Stands;
use crate::views::View;
use atomic_table::TableRule;
use bk_base::{Opening, Step};
use std::collections::LinkedList;
use std::marker::PhantomData;

/// How far a seat is. The first seat is `Fresh` and then `Filling` while the turn is made.
pub enum Stage {
    Fresh,
    Filling,
    Idle,
    /// It has drawn this ticket.
    Waiting(u64),
    /// It has the turn by this ticket.
    Holding(u64),
    /// It was joined into another seat.
    Gone,
}

/// What two seats had seen when they were made one, which the next look at the table compares.
pub struct Note {
    pub opening: Opening,
    pub left: LinkedList<Step>,
    pub right: LinkedList<Step>,
    pub number: Option<u64>,
    pub first: u64,
}

/// A seat: what its owner knows, the note of its last join, and how far it is.
pub struct Seated {
    pub view: View,
    pub note: Note,
    pub stage: Stage,
}

/// The rule of the turn's table; `specs/Rule.antt` has its six points.
pub struct Order<S> {
    value: PhantomData<S>,
}

impl<S: Stands> TableRule<Option<S>, Seated, u64> for Order<S> {
    ghost use Rattle.bk_turn.specs.Rule.{Orderly};
    ghost use Rattle.bk_turn.specs.Seats.{fresh};

    ghost holds = { λ first. Orderly S.stands first };

    ghost first = { λ first. fresh first };
}
