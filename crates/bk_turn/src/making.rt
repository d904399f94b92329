//! How a turn is made and closed.
ghost use Rattle.std.specs.Prelude.{◌≡◌, [], IfOk, IfErr};
ghost use Rattle.bk_base.specs.declared.histories.Opening.{Opening};
ghost use Rattle.bk_turn.specs.Handles.{turn_id, pass_turn, pass_view};
ghost use Rattle.bk_turn.specs.History.{opening_view};

use crate::passes::Pass;
use crate::sharing::{pass_of_seat, seat_of_pass};
use crate::stands::Stands;
use crate::steps::open;
use crate::turns::{NoTurn, Opened, Turn};
use atomic_table::Table;
use std::alloc::Global;
use std::marker::Brand;

impl<S: Stands> Turn<S> {
    /// A turn with this value, and its first pass, which has all the weight. Places are counted from
    /// `first`, the length of the history before the opening. `NoTurn` is out of memory.
    pub fn new(alloc: Global, value: S, first: u64) -> Result<Opened<S>, NoTurn<S>>
        ghost opening: { Opening }
        requires { S.stands value first opening [] }
        ensures turn { IfOk result (λ opened. pass_turn opened.pass ≡ turn_id opened.turn) }
        ensures view { IfOk result (λ opened. pass_view opened.pass ≡ opening_view first opening) }
        ensures value_returned { IfErr result (λ refused. refused.value ≡ value) }
    {
        let Ok((table, mut seat)) = Table::vacant(alloc, &[first, first], 1, &first) else {
            return Err(NoTurn { value });
        };
        open::<S, Brand>(&table.shared, &mut seat, value);
        Ok(Opened {
            turn: Turn { table },
            pass: pass_of_seat(seat, first, None),
        })
    }

    /// Ends the turn and gives its value back, which stands for what the pass has seen. All other
    /// passes were joined into this one: it has all the weight.
    pub fn close(self, pass: Pass) -> S
        requires turn { pass_turn pass ≡ turn_id self }
        requires all { (pass_view pass).weight ≡ 4294967296 }
        ensures { let view = pass_view pass in S.stands result view.first view.opening view.seen }
    {
        let Turn { table } = self;
        let mut closed = table.close_with(seat_of_pass(pass));
        let found = closed.take(0);
        closed.free();
        match found {
            Some(value) => value,
            None => unreachable!(),
        }
    }
}
