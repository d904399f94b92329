//! Values with bytes of their own.
ghost use Rattle.bk_base.specs.Bounds.{IsValue};
ghost use Rattle.std.specs.Prelude.{◌≡◌, IfOk};

use bk_base::{Memory, Value};
use std::alloc::Global;

pub fn owned_value(alloc: Global, bytes: &[u8]) -> Result<Value, Memory>
    requires { IsValue bytes.now }
    ensures { IfOk result (λ value. value ≡ bytes.now) }
{
    let bytes = bytes.to_vec(alloc).map_err(|_| Memory)?;
    Ok(Value::new(bytes).unwrap())
}
