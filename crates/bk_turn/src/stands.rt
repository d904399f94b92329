//! What the value under the turn stands for.
ghost use Rattle.std.specs.Prelude.{ℕ, List};
ghost use Rattle.bk_base.specs.declared.histories.Opening.{Opening};
ghost use Rattle.bk_base.specs.declared.histories.Step.{Step};

use std::alloc::Global;

/// A value that stands for histories. `stands value first opening steps` says that the value is as
/// these steps leave it after the opening, where places are counted from `first`.
pub trait Stands {
    ghost stands: { Self → ℕ → Opening → List Step → Type 0 };
}

/// A value in a box stands for what it stands for alone, so that what moves under the turn is small.
impl<T: Stands> Stands for Box<T, Global> {
    ghost stands = { λ boxed. T.stands boxed.value };
}
