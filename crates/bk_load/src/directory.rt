//! What the listing of a directory says.
ghost use Rattle.std.specs.Prelude.{◌≡◌, ◌≤◌, ℕ, ◌⊎◌, IfOk, length};
ghost use Rattle.std.specs.BTreeMap.{get};
ghost use Rattle.std.specs.Ordering.{nat_cmp};
ghost use Rattle.bk_disk.specs.Names.{same};
ghost use Rattle.bk_load.specs.Directory.{AreNumbered, greatest_in, len_in};

use bk_base::{Kind, Memory, Name};
use bk_disk::Listed;
use std::alloc::{AllocError, Global};
use std::collections::BTreeMap;

/// A file of some kind.
#[derive(Clone, Copy, Debug, PartialEq, Eq)]
pub(crate) struct Numbered {
    pub(crate) len: u64,
    pub(crate) id: u32,
}

/// Whether the file has this name.
#[tactic(auto, unfolding(bk_disk::specs::Names::same))]
pub(crate) fn is_named(file: &Listed, name: Name) -> bool
    ensures { result ≡ same name file.now.name }
{
    file.name == name
}

/// The lengths of the files of a kind, by their ids.
pub(crate) fn lengths(
    alloc: Global,
    files: &[Listed],
    kind: Kind,
) -> Result<BTreeMap<u32, u64>, AllocError>
    ensures { IfOk result (λ lengths. (id : ℕ) → get nat_cmp lengths id
        ≡ len_in files.now (record { id = id; kind = kind })) }
{
    let mut lengths = BTreeMap::new(alloc);
    for file in files {
        let id = file.name.id;
        if is_named(file, Name { id, kind }) {
            lengths.insert(id, file.len)?;
        }
    }
    Ok(lengths)
}

/// The files of a kind whose ids are at least `least`, in order of id.
pub(crate) fn in_order(
    alloc: Global,
    files: &[Listed],
    kind: Kind,
    least: u32,
) -> Result<Vec<Numbered>, Memory>
    ensures { IfOk result (λ numbered. AreNumbered files.now kind least numbered.items) }
{
    let lengths = lengths(alloc, files, kind)?;
    let mut numbered = Vec::with_capacity(alloc, lengths.len())?;
    for (id, len) in &lengths {
        if *id >= least {
            numbered.push(Numbered { id: *id, len: *len })?;
        }
    }
    Ok(numbered)
}

/// The greatest id of a file, 0 where there is none.
pub(crate) fn greatest_id(files: &[Listed]) -> u32
    ensures { result ≡ greatest_in files.now }
{
    let mut greatest = 0;
    for file in files {
        greatest = greatest.max(file.name.id);
    }
    greatest
}
