//! A clock that gives the moments of a list.
ghost use Rattle.std.specs.Prelude.{◌≡◌};

use bk_base::Moment;
use bk_disk::Clock;
use std::marker::Model;

/// A clock that gives each of its moments in turn, and the last again and again; Moment 0 where
/// there is none. Contracts see the moments still to give.
#[derive(Drop)]
pub struct ListClock {
    moments: Vec<Moment>,
    given: usize,
}

impl Model for ListClock {
    ghost use Rattle.std.specs.Prelude.{List, drop, length, ◌<◌, ◌≡◌, ◌⊎◌};
    ghost use Rattle.bk_base.specs.declared.numbers.Moment.{Moment};

    ghost Value = { List Moment };

    ghost view = { λ c. drop c.given c.moments.items };

    ghost invariant = { λ c. (c.given ≡ 0) ⊎ (c.given < length c.moments.items) };
}

impl ListClock {
    pub fn new(moments: Vec<Moment>) -> ListClock
        ensures { result ≡ moments.items }
    {
        ListClock { moments, given: 0 }
    }
}

impl Clock for ListClock {
    ghost use Rattle.std.specs.Prelude.{true};

    ghost tells = { true };

    ghost moments = { λ c. c };

    fn now(&mut self) -> Moment {
        let Some(&moment) = self.moments.get(self.given) else {
            return Moment(0);
        };
        if self.given + 1 < self.moments.len() {
            self.given += 1;
        }
        moment
    }
}
