//! Keys.
ghost use Rattle.std.specs.Prelude.{◌≡◌, ◌↔◌, [], ◌∷◌, length, IsOk, IfOk, IfErr, IsTrue};
ghost use Rattle.std.specs.Cmp.Rules.{comparing, hashing};
ghost use Rattle.std.specs.Str.{bytes_eq};
ghost use Rattle.std.proofs.Common.{rules};
ghost use Rattle.bk_base.specs.Bounds.{AreBytes, IsKey};

use crate::errors::Memory;
use crate::key_bytes::KeyBytes;
use crate::limits::LONGEST_KEY;
use std::alloc::Global;
use std::fmt;
use std::hash::{Hash, Hasher};
use std::marker::Model;

/// A key: 1 to 65,535 bytes. Contracts see the list of its bytes. Up to 30 of them lie in the key
/// itself, and more on the heap.
#[derive(Drop)]
pub struct Key {
    bytes: KeyBytes,
}

// A `Vec` takes 24 bytes, so these are as few as its variant allows.
const _: () = prove!(size_of::<Key>() == 32);

/// The bytes were too few or too many for a key; `len` is how many there were.
#[derive(Clone, Copy, Debug, PartialEq, Eq)]
pub struct KeyLength {
    pub len: usize,
}

impl Model for Key {
    ghost use Rattle.std.specs.Prelude.{List, ℕ};
    ghost use Rattle.bk_base.specs.Bounds.{AreBytes, IsKey};
    ghost use Rattle.bk_base.specs.KeyBytes.{bytes_in};

    ghost Value = { List ℕ };

    ghost view = { λ key. bytes_in key.bytes };

    ghost invariant = { λ key. IsKey (bytes_in key.bytes) × AreBytes (bytes_in key.bytes) };
}

impl Key {
    /// The key of these bytes, or `KeyLength` exactly where their number isn't 1 to 65,535.
    pub fn new(bytes: Vec<u8>) -> Result<Key, KeyLength>
        ensures accepted { IsOk result ↔ IsKey bytes.items }
        ensures key { IfOk result (λ key. key ≡ bytes.items) }
        ensures refused { IfErr result (λ refusal. refusal.len ≡ length bytes.items) }
    {
        let len = bytes.len();
        if len == 0 || len > LONGEST_KEY as usize {
            return Err(KeyLength { len });
        }
        Ok(Key {
            bytes: KeyBytes::of(bytes),
        })
    }

    /// A key with a copy of these bytes; only memory can refuse it.
    pub fn of(alloc: Global, bytes: &[u8]) -> Result<Key, Memory>
        requires { IsKey bytes.now }
        ensures { IfOk result (λ key. key ≡ bytes.now) }
    {
        let bytes = KeyBytes::copied(alloc, bytes)?;
        Ok(Key { bytes })
    }

    /// The key's bytes.
    pub fn bytes(&self) -> &[u8]
        ensures value { result.now ≡ self.now }
        ensures bounds { IsKey self.now }
        ensures octets { AreBytes self.now }
    {
        self.bytes.as_slice()
    }

    /// A key of the same bytes; only memory can refuse it.
    pub fn copy(&self) -> Result<Key, Memory>
        ensures { IfOk result (λ key. key ≡ self.now) }
    {
        Ok(Key {
            bytes: self.bytes.copy()?,
        })
    }
}

impl fmt::Debug for Key {
    fn fmt<W: fmt::Write>(&self, f: &mut fmt::Formatter<W>) -> fmt::Result {
        f.debug_struct("Key").field("bytes", &self.bytes()).finish()
    }
}

impl PartialEq for Key {
    ghost eq = { bytes_eq };

    ghost laws = { Prim.search (comparing, rules) };

    fn eq(&self, other: &Key) -> bool
        ensures value { result ≡ bytes_eq self.now other.now }
        ensures exact { IsTrue result ↔ (self.now ≡ other.now) }
    {
        self.bytes.as_slice() == other.bytes.as_slice()
    }
}

impl Eq for Key {
    ghost laws = { Prim.search (comparing, rules) };
}

impl Hash for Key {
    ghost hash_input = { λ key. key ∷ [] };

    ghost respects_eq = { Prim.search (hashing, rules) };

    // All bytes in one write: a derive would hand them over one by one.
    fn hash<H: Hasher>(&self, state: &mut H) {
        state.write(self.bytes.as_slice());
    }
}
