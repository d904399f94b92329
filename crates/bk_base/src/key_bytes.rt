//! The bytes of a key, where they lie.
ghost use Rattle.std.specs.Prelude.{◌≡◌, IfOk};
ghost use Rattle.bk_base.specs.KeyBytes.{bytes_in};

use crate::errors::Memory;
use crate::inline_bytes::InlineBytes;
use std::alloc::Global;

/// Bytes in place where they are few, else on the heap. So most keys take no allocation, and a
/// look-up of one reads nothing outside its entry.
#[derive(Drop)]
pub(crate) enum KeyBytes {
    Inline(InlineBytes),
    Heap(Vec<u8>),
}

impl KeyBytes {
    /// These bytes.
    pub(crate) fn of(bytes: Vec<u8>) -> KeyBytes
        ensures { bytes_in result ≡ bytes.items }
    {
        match InlineBytes::of(bytes.as_slice()) {
            Some(inline) => KeyBytes::Inline(inline),
            None => KeyBytes::Heap(bytes),
        }
    }

    /// A copy of these bytes; only memory can refuse it.
    pub(crate) fn copied(alloc: Global, bytes: &[u8]) -> Result<KeyBytes, Memory>
        ensures { IfOk result (λ copy. bytes_in copy ≡ bytes.now) }
    {
        match InlineBytes::of(bytes) {
            Some(inline) => Ok(KeyBytes::Inline(inline)),
            None => Ok(KeyBytes::Heap(bytes.to_vec(alloc)?)),
        }
    }

    /// The bytes.
    pub(crate) fn as_slice(&self) -> &[u8]
        ensures { result.now ≡ bytes_in self.now }
    {
        match self {
            KeyBytes::Inline(bytes) => bytes.as_slice(),
            KeyBytes::Heap(bytes) => bytes.as_slice(),
        }
    }

    /// The same bytes; only memory can refuse them.
    pub(crate) fn copy(&self) -> Result<KeyBytes, Memory>
        ensures { IfOk result (λ copy. bytes_in copy ≡ bytes_in self.now) }
    {
        match self {
            KeyBytes::Inline(bytes) => Ok(KeyBytes::Inline(bytes.copy())),
            KeyBytes::Heap(bytes) => Ok(KeyBytes::Heap(bytes.clone()?)),
        }
    }
}
