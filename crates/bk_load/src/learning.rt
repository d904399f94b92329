//! The keydir, as the files fill it.
ghost use Rattle.std.specs.Prelude.{◌≡◌, ◌+◌, ◌<◌, ◌^◌, ◌∷◌, [], length, max, OnOk};
ghost use Rattle.std.specs.List.{IsDistinct};
ghost use Rattle.std.specs.Map.{keys_of};
ghost use Rattle.std.specs.Str.{bytes_eq};
ghost use Rattle.bk_keydir.specs.Keydir.{without_gone};
ghost use Rattle.bk_keydir.specs.Slots.{has_open};
ghost use Rattle.bk_load.specs.Learning.{AreFit, FitsVersion, Grows, KeepsWithin, Learns};

use bk_base::{Key, Memory, Seq, Version};
use bk_keydir::Keydir;
use std::alloc::Global;
use std::marker::Model;

/// The newest version of each key in what was read so far, and the greatest seq.
#[derive(Drop)]
pub(crate) struct Learned {
    keydir: Keydir,
    last: Seq,
}

impl Model for Learned {
    ghost use Rattle.std.specs.Prelude.{◌≡◌, false, length};
    ghost use Rattle.bk_base.specs.declared.limits.TheConstants.{MOST_FOLDS};
    ghost use Rattle.bk_keydir.specs.Slots.{has_open};
    ghost use Rattle.bk_load.specs.Learning.{Known};

    ghost Value = { Known };

    ghost view = { λ l. record { keys = l.keydir; last = l.last.0 } };

    ghost invariant = { λ l. (has_open l.keydir.slots ≡ false) × (length l.keydir.slots ≡ MOST_FOLDS) };
}

impl Learned {
    /// Nothing was read.
    pub(crate) fn new(alloc: Global) -> Learned
        ensures entries { result.keys.entries ≡ [] }
        ensures last { result.last ≡ 0 }
    {
        Learned {
            keydir: Keydir::new(alloc),
            last: Seq(0),
        }
    }

    /// Takes in what a record says of its key. Of two records with one seq the first one stays.
    pub(crate) fn learn(&mut self, key: Key, version: Version) -> Result<(), Memory>
        requires { FitsVersion key version }
        ensures learns { OnOk result
            (Learns ((key, version) ∷ []) self.old.keys.entries self.new.keys.entries) }
        ensures grows { OnOk result
            (Grows version.file.0 version.size self.old.keys.entries self.new.keys.entries) }
        ensures kept { OnOk result (KeepsWithin version.file (version.at + version.size)
            self.old.keys.entries self.new.keys.entries) }
        ensures last { OnOk result (self.new.last ≡ max self.old.last version.seq.0) }
        ensures fit { AreFit self.old → OnOk result (AreFit self.new) }
    {
        if self.keydir.is_newer(&key, version.seq) {
            self.keydir.ready(&key)?;
            let _earlier = self.keydir.put_version(key, version);
        }
        self.last = Seq(self.last.0.max(version.seq.0));
        Ok(())
    }

    /// The keydir without the keys that are gone, and the greatest seq.
    pub(crate) fn finish(self) -> (Keydir, Seq)
        ensures entries { result.0.entries ≡ without_gone self.keys.entries }
        ensures slots { result.0.slots ≡ self.keys.slots }
        ensures few { length self.keys.entries < 2 ^ 63 }
        ensures once { IsDistinct bytes_eq (keys_of self.keys.entries) }
        ensures last { result.1.0 ≡ self.last }
    {
        let Learned { mut keydir, last } = self;
        let _keys = keydir.len();
        keydir.drop_gone();
        (keydir, last)
    }
}
