//! What time it is.
ghost use Rattle.std.specs.Prelude.{◌≡◌, Bool, List, IsTrue};
ghost use Rattle.bk_disk.specs.Streams.{first_moment, later_moments};

use bk_base::Moment;

/// A clock. It can't fail.
pub trait Clock {
    ghost use Rattle.bk_base.specs.declared.numbers.Moment.{Moment};

    /// Whether the moments are told.
    ghost tells: { Bool };

    /// The moments that the clock has still to give.
    ghost moments: { Self → List Moment };

    /// The first of the moments, which is taken off; the last of them stays for good. Moment 0
    /// where there is none.
    fn now(&mut self) -> Moment
        ensures moment { IsTrue tells → result ≡ first_moment (moments self.old) }
        ensures later { IsTrue tells → moments self.new ≡ later_moments (moments self.old) };
}
