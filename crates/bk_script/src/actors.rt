//! Who acts in a script.

/// An actor of a script: 1 to 26, which the letters `a` to `z` stand for.
#[derive(Clone, Copy, Debug, PartialEq, Eq, PartialOrd, Ord, Hash)]
pub struct Actor(pub u8);
