//! From a write to its record.
ghost use Rattle.std.specs.Prelude.{◌≡◌, ◌++◌, ◌+◌, ◌≤◌, IsOk, OnOk, OnErr};
ghost use Rattle.bk_laws.specs.Record.{IsSeq, IsWritable, record_of, size_of, value_of};
ghost use Rattle.std.specs.Vec.{vec_capacity, vec_len};

use crate::header::fields;
use bk_base::limits::RECORD_HEADER;
use bk_base::{Body, Memory, Write};
use bk_crc::Running;

/// Appends the record of the write. `Memory` leaves `out` as it was.
pub fn encode(write: &Write, out: &mut Vec<u8>) -> Result<(), Memory>
    requires { IsSeq write.now.seq.0 }
    ensures ok { OnOk result (out.new.items ≡ out.old.items ++ record_of write.now) }
    ensures err { OnErr result (out.new.items ≡ out.old.items) }
    // Room that is there is enough, so no record is refused for want of it.
    ensures enough { vec_len out.old + size_of write.now ≤ vec_capacity out.old → IsOk result }
    ensures capacity { vec_capacity out.old ≤ vec_capacity out.new }
    // So what was written can be read again.
    ensures writable { IsWritable write.now }
{
    let fields = fields(write);
    let key = write.key.bytes();
    let value = value_bytes(&write.body);
    let mut check = Running::new();
    check.add(&fields);
    check.add(key);
    check.add(value);
    out.reserve(RECORD_HEADER + key.len() + value.len())?;
    out.extend_from_slice(&check.end().to_be_bytes())?;
    out.extend_from_slice(&fields)?;
    out.extend_from_slice(key)?;
    out.extend_from_slice(value)?;
    Ok(())
}

// The value of a put; a tombstone has none.
fn value_bytes(body: &Body) -> &[u8]
    ensures { result.now ≡ value_of body.now }
{
    match body {
        Body::Put(value) => value.bytes(),
        Body::Gone => &[],
    }
}
