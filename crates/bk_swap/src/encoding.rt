//! From a swap list to its bytes.
ghost use Rattle.std.specs.Prelude.{◌≡◌, ◌+◌, ◌*◌, ◌^◌, ◌<◌, ◌≤◌, ◌++◌, length, OnOk, OnErr, IsOk, vec_len, vec_capacity};
ghost use Rattle.bk_laws.specs.SwapList.{counted_text, swap_text};
ghost use Rattle.bk_swap.specs.Lists.{numbers};

use bk_base::{FileId, Memory};
use bk_crc::crc32;
use std::alloc::AllocError;

/// Appends the text of the list of these inputs and outputs. `Memory` leaves `out` as it was.
pub fn encode(inputs: &[FileId], outputs: &[FileId], out: &mut Vec<u8>) -> Result<(), Memory>
    requires inputs { length inputs.now < 2 ^ 32 }
    requires outputs { length outputs.now < 2 ^ 32 }
    ensures ok { OnOk result (out.new.items ≡ out.old.items
        ++ swap_text (record { inputs = numbers inputs.now; outputs = numbers outputs.now })) }
    ensures err { OnErr result (out.new.items ≡ out.old.items) }
{
    let begin = out.len();
    out.reserve(12 + 4 * (inputs.len() + outputs.len()))?;
    append_counted(inputs, out)?;
    append_counted(outputs, out)?;
    let check = crc32(&out[begin..]);
    out.extend_from_slice(&check.to_be_bytes())?;
    Ok(())
}

// Appends the ids behind their number, where there is room.
fn append_counted(ids: &[FileId], out: &mut Vec<u8>) -> Result<(), AllocError>
    requires count { length ids.now < 2 ^ 32 }
    requires room { vec_len out.old + 4 + 4 * length ids.now ≤ vec_capacity out.old }
    ensures text { out.new.items ≡ out.old.items ++ counted_text (numbers ids.now) }
    ensures len { vec_len out.new ≡ vec_len out.old + 4 + 4 * length ids.now }
    ensures room { vec_capacity out.old ≤ vec_capacity out.new }
    ensures ok { IsOk result }
{
    out.extend_from_slice(&(ids.len() as u32).to_be_bytes())?;
    for id in ids {
        out.extend_from_slice(&id.0.to_be_bytes())?;
    }
    Ok(())
}
