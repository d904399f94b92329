//! A few bytes that lie in the value itself.
ghost use Rattle.std.specs.Prelude.{◌≡◌, ◌↔◌, ◌<◌, length, IfSome, IsNone};
ghost use Rattle.bk_base.specs.declared.inline_bytes.TheConstants.{MOST_INLINE};

use std::marker::Model;

/// The most bytes that lie in place.
const MOST_INLINE: usize = 30;

/// At most 30 bytes in place, and nothing on the heap. Contracts see the list of the bytes.
#[derive(Drop)]
pub(crate) struct InlineBytes {
    len: u8,
    // Those past the length are zero.
    place: [u8; MOST_INLINE],
}

impl Model for InlineBytes {
    ghost use Rattle.std.specs.Prelude.{◌≡◌, ◌≤◌, List, ℕ, length, take};
    ghost use Rattle.bk_base.specs.declared.inline_bytes.TheConstants.{MOST_INLINE};

    ghost Value = { List ℕ };

    ghost view = { λ bytes. take bytes.len bytes.place };

    ghost invariant = { λ bytes. bytes.len ≤ length bytes.place };
}

impl InlineBytes {
    /// These bytes, where they are few enough.
    pub(crate) fn of(bytes: &[u8]) -> Option<InlineBytes>
        ensures some { IfSome result (λ copy. copy ≡ bytes.now) }
        ensures none { IsNone result ↔ (MOST_INLINE < length bytes.now) }
    {
        if bytes.len() > MOST_INLINE {
            return None;
        }
        let mut place = [0; MOST_INLINE];
        place[..bytes.len()].copy_from_slice(bytes);
        Some(InlineBytes {
            len: bytes.len() as u8,
            place,
        })
    }

    /// The bytes.
    pub(crate) fn as_slice(&self) -> &[u8]
        ensures { result.now ≡ self.now }
    {
        &self.place[..self.len as usize]
    }

    /// The same bytes.
    pub(crate) fn copy(&self) -> InlineBytes
        ensures { result ≡ self.now }
    {
        InlineBytes {
            len: self.len,
            place: self.place,
        }
    }
}
