//! What a crash leaves of the bytes that weren't synced.
ghost use Rattle.std.specs.Prelude.{◌≡◌, ◌≤◌, length, IfOk, OnOk};
ghost use Rattle.bk_base.specs.Bounds.{AreBytes};
ghost use Rattle.bk_memdisk.specs.Crash.{left_of, kept_part, flipped};

use std::alloc::{AllocError, Global};

/// What a crash leaves of a file's unsynced part: its first `keep` bytes, all for None, and of
/// these the bytes at the offsets of `flips`, counted from the part's start, with their lowest bit
/// changed.
#[derive(Debug, Drop)]
pub struct Choice {
    pub keep: Option<u64>,
    pub flips: Vec<u64>,
}

// What is left of a file's bytes, of which so many are synced.
pub(crate) fn left(
    alloc: Global,
    bytes: &[u8],
    synced: usize,
    choice: &Choice,
) -> Result<Vec<u8>, AllocError>
    requires { synced ≤ length bytes.now }
    ensures are_bytes { IfOk result (λ left. AreBytes left.items) }
    ensures left { IfOk result (λ left. left.items ≡ left_of choice.now.keep choice.now.flips.items synced
        bytes.now) }
{
    let part = kept(&bytes[synced..], choice.keep);
    let mut left = bytes[..synced].to_vec(alloc)?;
    for (offset, byte) in part.iter().enumerate() {
        left.push(flip(*byte, offset as u64, &choice.flips))?;
    }
    Ok(left)
}

fn kept(part: &[u8], keep: Option<u64>) -> &[u8]
    ensures { result.now ≡ kept_part keep part.now }
{
    match keep {
        Some(keep) => &part[..(keep as usize).min(part.len())],
        None => part,
    }
}

fn flip(byte: u8, offset: u64, flips: &[u64]) -> u8
    ensures { result ≡ flipped flips.now offset byte }
{
    if flips.contains(&offset) {
        byte ^ 1
    } else {
        byte
    }
}
