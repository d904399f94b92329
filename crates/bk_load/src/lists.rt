//! The swap lists that stand in a directory.
ghost use Rattle.std.specs.Prelude.{◌≡◌, ◌↔◌, IsTrue, IfOk};
ghost use Rattle.bk_base.specs.declared.names.Kind.TheVariants.{Swap as swap_kind};
ghost use Rattle.bk_disk.specs.Told.{at, listing};
ghost use Rattle.bk_load.specs.Courses.{Course};
ghost use Rattle.bk_load.specs.Lists.{AreLists, AreOdd, IsInputOf, TakesIn};

use crate::calls::{named, read_whole};
use crate::directory::in_order;
use crate::errors::OpenError;
use bk_base::{FileId, Kind, Memory, Name};
use bk_disk::{Disk, Listed};
use bk_swap::{Swap, SwapStop, decode};
use std::alloc::Global;

/// A whole swap list, under the name with this id.
#[derive(Debug, Drop)]
pub(crate) struct Standing {
    pub(crate) list: Swap,
    pub(crate) id: u32,
}

/// The files under a name of a swap list: whole lists, and names of files that hold none. Both are
/// in order of id.
#[derive(Debug, Drop)]
pub(crate) struct Lists {
    pub(crate) whole: Vec<Standing>,
    pub(crate) odd: Vec<Name>,
}

/// Reads the swap lists among the files of a directory.
pub(crate) fn read_lists<D: Disk>(
    alloc: Global,
    disk: &mut D,
    files: &[Listed],
) -> Result<Lists, OpenError>
    requires { IsTrue D.tells → files.now ≡ listing (D.shown disk.old).told.image }
    ensures course { Course D.tells (D.shown disk.old) (D.shown disk.new) result }
    ensures image { IsTrue D.tells → (D.shown disk.new).told.image ≡ (D.shown disk.old).told.image }
    ensures whole { IsTrue D.tells → IfOk result
        (λ lists. AreLists (at (D.shown disk.old).told.image) lists.whole.items) }
    ensures odd { IsTrue D.tells → IfOk result
        (λ lists. AreOdd (at (D.shown disk.old).told.image) lists.odd.items) }
{
    let swaps = in_order(alloc, files, Kind::Swap, 0)?;
    let mut lists = Lists {
        whole: Vec::new(alloc),
        odd: Vec::new(alloc),
    };
    for swap in &swaps {
        let name = named(FileId(swap.id), Kind::Swap);
        let bytes = read_whole(alloc, disk, name, swap.len)?;
        lists.take(alloc, name, &bytes)?;
    }
    Ok(lists)
}

impl Lists {
    // Takes in what stands under a name.
    fn take(&mut self, alloc: Global, name: Name, bytes: &[u8]) -> Result<(), Memory>
        ensures { IfOk result (λ _. TakesIn name bytes.now self.old self.new) }
    {
        match decode(alloc, bytes) {
            Ok(list) => self.whole.push(Standing { id: name.id, list })?,
            Err(SwapStop::Memory) => return Err(Memory),
            Err(_) => self.odd.push(name)?,
        }
        Ok(())
    }
}

/// Whether one of the lists names the file as an input.
pub(crate) fn is_input(lists: &[Standing], file: FileId) -> bool
    ensures { IsTrue result ↔ IsInputOf lists.now file.0 }
{
    for standing in lists {
        if standing.list.inputs.contains(&file) {
            return true;
        }
    }
    false
}
