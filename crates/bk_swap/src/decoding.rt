//! From bytes to a swap list.
ghost use Rattle.std.specs.Prelude.{◌≡◌, ◌+◌, ◌*◌, ◌≤◌, List, ℕ, length, take, drop, MatchResult, IfOk, IfErr};
ghost use Rattle.bk_laws.specs.SwapList.{IsWhole, SwapList};
ghost use Rattle.bk_swap.specs.Lists.{ids_in, inputs_count, list_in, list_of, needed, number_at as the_number_at, numbers, outputs_count};
ghost use Rattle.bk_swap.specs.Stops.{IsSwapStop};
ghost use Rattle.bk_swap.specs.declared.lists.SwapStop.TheVariants.{Memory as memory_stop};

use crate::lists::{Swap, SwapStop};
use bk_base::{FileId, Memory};
use bk_crc::crc32;
use std::alloc::Global;

/// The list whose text the bytes are; or why they are none.
pub fn decode(alloc: Global, bytes: &[u8]) -> Result<Swap, SwapStop>
    ensures whole { IfOk result (λ swap. IsWhole bytes.now (list_of swap)) }
    ensures stop { IfErr result (IsSwapStop bytes.now) }
    // A whole list is read, unless memory runs out.
    ensures again { (l : SwapList) → IsWhole bytes.now l →
        MatchResult result (λ swap. list_of swap ≡ l) (λ stop. stop ≡ memory_stop) }
{
    let counts = Counts::of(bytes);
    check(bytes, &counts)?;
    match lists_of(alloc, bytes, &counts) {
        Ok(swap) => Ok(swap),
        Err(Memory) => Err(SwapStop::Memory),
    }
}

// How many ids the bytes say that there are.
#[derive(Clone, Copy)]
struct Counts {
    inputs: u32,
    outputs: u32,
}

impl Counts {
    // What can't be read counts as 0.
    fn of(bytes: &[u8]) -> Counts
        ensures { result ≡ record { inputs = inputs_count bytes.now; outputs = outputs_count bytes.now } }
    {
        let inputs = number_at(bytes, 0);
        let outputs = number_at(bytes, 4 + 4 * inputs as usize);
        Counts { inputs, outputs }
    }

    // How many bytes the list has.
    fn needed(&self) -> u64
        ensures { result ≡ 12 + 4 * (self.now.inputs + self.now.outputs) }
    {
        12 + 4 * (u64::from(self.inputs) + u64::from(self.outputs))
    }
}

// Whether the bytes are the text of a list, which has so many ids.
fn check(bytes: &[u8], counts: &Counts) -> Result<(), SwapStop>
    requires { counts.now ≡ record { inputs = inputs_count bytes.now; outputs = outputs_count bytes.now } }
    ensures whole { IfOk result (λ _. (length bytes.now ≡ needed bytes.now) × IsWhole bytes.now (list_in bytes.now)) }
    ensures stop { IfErr result (IsSwapStop bytes.now) }
{
    let need = counts.needed();
    let have = bytes.len() as u64;
    if have < need {
        return Err(SwapStop::Short { need, have });
    }
    if need < have {
        return Err(SwapStop::Long { need, have });
    }
    let end = bytes.len() - 4;
    let stored = number_at(bytes, end);
    let computed = crc32(&bytes[..end]);
    if stored != computed {
        return Err(SwapStop::BadCheck { stored, computed });
    }
    Ok(())
}

// The ids in bytes that are as many as are needed.
fn lists_of(alloc: Global, bytes: &[u8], counts: &Counts) -> Result<Swap, Memory>
    requires counts { counts.now ≡ record { inputs = inputs_count bytes.now; outputs = outputs_count bytes.now } }
    requires long { length bytes.now ≡ needed bytes.now }
    ensures { IfOk result (λ swap. list_of swap ≡ list_in bytes.now) }
{
    let inputs_len = 4 * counts.inputs as usize;
    let outputs_len = 4 * counts.outputs as usize;
    Ok(Swap {
        inputs: ids_of(alloc, &bytes[4..4 + inputs_len])?,
        outputs: ids_of(alloc, &bytes[8 + inputs_len..8 + inputs_len + outputs_len])?,
    })
}

// The number of four bytes at this place, or 0 where there are fewer.
fn number_at(bytes: &[u8], at: usize) -> u32
    requires { at + 4 ≤ usize.MAX }
    ensures { result ≡ the_number_at bytes.now at }
{
    if bytes.len() < at + 4 {
        return 0;
    }
    u32::from_be_bytes([bytes[at], bytes[at + 1], bytes[at + 2], bytes[at + 3]])
}

// Each four bytes as an id.
fn ids_of(alloc: Global, bytes: &[u8]) -> Result<Vec<FileId>, Memory>
    ensures { IfOk result (λ ids. numbers ids.items ≡ ids_in bytes.now) }
{
    let mut ids = Vec::with_capacity(alloc, bytes.len() / 4)?;
    let mut rest = bytes;
    while let Some((id, behind)) = rest.split_first_chunk::<4>() {
        ids.push(FileId(u32::from_be_bytes(*id)))?;
        rest = behind;
    }
    Ok(ids)
}
