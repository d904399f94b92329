//! A put that is ready to be made.
ghost use Rattle.std.specs.Prelude.{◌≡◌, ◌<◌, ◌≤◌, ℕ, length, IfOk, IsErrOf};

use crate::errors::PrepareError;
use bk_base::limits::LONGEST_VALUE;
use bk_base::{Key, Value};
use std::alloc::Global;

/// The key and the value of a put.
#[derive(Drop)]
pub struct Prepared {
    pub key: Key,
    pub value: Value,
}

impl Prepared {
    /// Copies the value. `ValueLength` comes exactly where it is longer than a value may be.
    pub fn new(alloc: Global, key: Key, value: &[u8]) -> Result<Prepared, PrepareError>
        ensures prepared { IfOk result (λ p. (p.key ≡ key) × (p.value ≡ value.now)) }
        ensures fits { IfOk result (λ p. length value.now ≤ LONGEST_VALUE) }
        ensures too_long { LONGEST_VALUE < length value.now
            → IsErrOf result (PrepareError.ValueLength (length value.now)) }
        ensures length { (n : ℕ) → IsErrOf result (PrepareError.ValueLength n)
            → (LONGEST_VALUE < length value.now) × (n ≡ length value.now) }
    {
        if value.len() > LONGEST_VALUE as usize {
            return Err(PrepareError::ValueLength { len: value.len() });
        }
        let bytes = value.to_vec(alloc)?;
        match Value::new(bytes) {
            Ok(value) => Ok(Prepared { key, value }),
            Err(refused) => Err(PrepareError::ValueLength { len: refused.len }),
        }
    }
}
