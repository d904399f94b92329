//! Values.
ghost use Rattle.std.specs.Prelude.{◌≡◌, ◌↔◌, length, IsOk, IfOk, IfErr};
ghost use Rattle.bk_base.specs.Bounds.{AreBytes, IsValue};

use crate::limits::LONGEST_VALUE;
use std::marker::Model;

/// A value: at most 16,777,216 bytes. Contracts see the list of its bytes.
#[derive(Debug, Drop)]
pub struct Value {
    bytes: Vec<u8>,
}

/// The bytes were too many for a value; `len` is how many there were.
#[derive(Clone, Copy, Debug, PartialEq, Eq)]
pub struct ValueLength {
    pub len: usize,
}

impl Model for Value {
    ghost use Rattle.std.specs.Prelude.{List, ℕ};
    ghost use Rattle.bk_base.specs.Bounds.{AreBytes, IsValue};

    ghost Value = { List ℕ };

    ghost view = { λ value. value.bytes.items };

    ghost invariant = { λ value. IsValue value.bytes.items × AreBytes value.bytes.items };
}

impl Value {
    /// The value of these bytes, or `ValueLength` exactly where they are more than 16,777,216.
    pub fn new(bytes: Vec<u8>) -> Result<Value, ValueLength>
        ensures accepted { IsOk result ↔ IsValue bytes.items }
        ensures value { IfOk result (λ value. value ≡ bytes.items) }
        ensures refused { IfErr result (λ refusal. refusal.len ≡ length bytes.items) }
    {
        let len = bytes.len();
        if len > LONGEST_VALUE as usize {
            return Err(ValueLength { len });
        }
        Ok(Value { bytes })
    }

    /// The value's bytes.
    pub fn bytes(&self) -> &[u8]
        ensures value { result.now ≡ self.now }
        ensures bounds { IsValue self.now }
        ensures octets { AreBytes self.now }
    {
        self.bytes.as_slice()
    }
}
