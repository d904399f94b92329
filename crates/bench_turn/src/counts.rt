//! The smallest value: a number that stands for how many steps there are.

use bk_turn::Stands;

/// How many steps there are, and what the work of the holdings came to.
#[derive(Drop)]
pub struct Count {
    pub steps: u64,
    pub mixed: u64,
}

impl Stands for Count {
    ghost use Rattle.std.specs.Prelude.{◌≡◌, ◌%◌, ◌^◌, length};

    ghost stands = { λ count first opening steps. count.steps ≡ length steps % 2 ^ 64 };
}

impl Count {
    ghost use Rattle.std.specs.Prelude.{◌≡◌, ◌+◌, ◌%◌, ◌^◌};

    pub fn new() -> Count
        ensures { result.steps ≡ 0 }
    {
        Count { steps: 0, mixed: 1 }
    }

    /// Works for so many steps of a mix, counts one holding, and answers the count.
    pub fn hold(&mut self, work: u64) -> u64
        ensures counted { self.new.steps ≡ (self.old.steps + 1) % 2 ^ 64 }
        ensures answer { result ≡ self.new.steps }
    {
        self.mixed = mixed(self.mixed, work);
        self.steps = self.steps.wrapping_add(1);
        self.steps
    }
}

/// So many steps of a mix, each of which waits for the one before.
fn mixed(seed: u64, work: u64) -> u64 {
    let mut x = seed;
    for _ in 0..work {
        x ^= x << 13;
        x ^= x >> 7;
        x ^= x << 17;
    }
    x
}
