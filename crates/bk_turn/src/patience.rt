//! How a seat waits between two looks at the ticket that is served: it looks again at once, then
//! lends its processor, and sleeps last.
ghost use Rattle.std.specs.Prelude.{◌≡◌};

use crate::stands::Stands;
use crate::steps::{SERVING, Words};
use std::hint::spin_loop;
use std::sync::Wait;
use std::thread::yield_now;

/// How often a seat looks again at once. These looks take about 10 µs, for a wake costs as much.
const LOOKS: u32 = 2_000;

/// How often it then lends its processor before it sleeps.
const LOANS: u32 = 20;

/// A seat with more tickets before it than these lends its processor at once: where there are more
/// threads than processors, it would keep one from those that come first.
const NEAR: u64 = 3;

/// What a waiting seat has done since it saw another ticket served.
#[derive(Drop)]
pub(crate) struct Patience {
    ticket: u64,
    serving: u64,
    tries: u32,
}

impl Patience {
    /// The seat with this ticket has not looked yet.
    pub(crate) fn new(ticket: u64) -> Patience {
        Patience {
            ticket,
            serving: ticket,
            tries: 0,
        }
    }

    /// Waits until it is time for the next look. Whenever another ticket is served, it starts anew:
    /// while the turn goes round fast, nobody sleeps.
    pub(crate) fn wait<S: Stands, R: Wait>(&mut self, rt: &R, words: &Words<S>, serving: u64)
        requires { words.now.table_id.words ≡ 2 }
    {
        if serving != self.serving {
            self.serving = serving;
            let near = self.ticket.wrapping_sub(serving) <= NEAR;
            self.tries = if near { 0 } else { LOOKS };
        }
        if self.tries < LOOKS {
            self.tries += 1;
            spin_loop();
        } else if self.tries < LOOKS + LOANS {
            self.tries += 1;
            yield_now();
        } else {
            words.park(rt, SERVING, (serving % (1 << 32)) as u32);
        }
    }
}
