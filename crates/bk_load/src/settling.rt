//! A merge that was committed is brought to its end: its outputs take their names, its inputs go, and
//! then its swap list.
ghost use Rattle.std.specs.Prelude.{◌≡◌, ◌⊎◌, ◌↔◌, ◌∷◌, [], ℕ, false, IsTrue, OnOk};
ghost use Rattle.bk_disk.specs.Told.{at};
ghost use Rattle.bk_image.specs.CountedFiles.{HasNoList, IsInput, IsOutput};
ghost use Rattle.bk_image.specs.Readings.{In, main, main_temp};
ghost use Rattle.bk_swap.specs.Lists.{numbers};
ghost use Rattle.bk_load.specs.Courses.{Course};
ghost use Rattle.bk_load.specs.Directory.{IsListed};
ghost use Rattle.bk_load.specs.Lists.{AreLists, IsInputOf};
ghost use Rattle.bk_load.specs.Steps.{HaveTakenNames, LosesInputs};

use crate::calls::{list_files, named, remove_file, rename_data};
use crate::directory::is_named;
use crate::errors::OpenError;
use crate::lists::{Standing, is_input};
use bk_base::{FileId, Kind, Name};
use bk_disk::{Disk, Listed};

/// Settles the lists one after the other. They are all whole lists that stand, in order of id.
pub(crate) fn settle_lists<D: Disk>(disk: &mut D, lists: &[Standing]) -> Result<(), OpenError>
    requires { IsTrue D.tells → AreLists (at (D.shown disk.old).told.image) lists.now }
    ensures course { Course D.tells (D.shown disk.old) (D.shown disk.new) result }
    ensures none { IsTrue D.tells → OnOk result (HasNoList (at (D.shown disk.new).told.image)) }
{
    let mut waiting = lists;
    'lists: while let Some((first, later)) = waiting.split_first() {
        rename_outputs(disk, &first.list.outputs, waiting)?;
        drop_inputs(disk, &first.list.inputs)?;
        remove_file(disk, named(FileId(first.id), Kind::Swap))?;
        waiting = later;
    }
    Ok(())
}

// Each output of the first list that counts under its temporary name takes its own.
fn rename_outputs<D: Disk>(
    disk: &mut D,
    outputs: &[FileId],
    waiting: &[Standing],
) -> Result<(), OpenError>
    requires lists { IsTrue D.tells → AreLists (at (D.shown disk.old).told.image) waiting.now }
    requires outputs { IsTrue D.tells → (id : ℕ) → In id (numbers outputs.now)
        → IsOutput (at (D.shown disk.old).told.image) id }
    ensures course { Course D.tells (D.shown disk.old) (D.shown disk.new) result }
    ensures named { IsTrue D.tells → OnOk result (HaveTakenNames (numbers outputs.now)
        (at (D.shown disk.old).told.image) (at (D.shown disk.new).told.image)) }
{
    let files = list_files(disk)?;
    for output in outputs {
        if takes_name(&files, waiting, *output) {
            rename_data(disk, *output)?;
        }
    }
    Ok(())
}

// Whether the data file counts, as an output, under its temporary name: it has no other, and no list
// has it as an input.
fn takes_name(files: &[Listed], waiting: &[Standing], output: FileId) -> bool
    ensures yes { IsTrue result → IsListed files.now (main_temp output.0)
        × (IsListed files.now (main output.0) → ⊥) × (IsInputOf waiting.now output.0 → ⊥) }
    ensures stays { result ≡ false → IsListed files.now (main_temp output.0)
        → IsListed files.now (main output.0) ⊎ IsInputOf waiting.now output.0 }
{
    if is_input(waiting, output) || has_name(files, named(output, Kind::Main)) {
        return false;
    }
    has_name(files, named(output, Kind::MainTemp))
}

// Whether a file of this name is listed.
fn has_name(files: &[Listed], name: Name) -> bool
    ensures { IsTrue result ↔ IsListed files.now name }
{
    for file in files {
        if is_named(file, name) {
            return true;
        }
    }
    false
}

// The files of the inputs go: first the hint of each, and its data file last.
fn drop_inputs<D: Disk>(disk: &mut D, inputs: &[FileId]) -> Result<(), OpenError>
    requires { IsTrue D.tells → (id : ℕ) → In id (numbers inputs.now)
        → IsInput (at (D.shown disk.old).told.image) id }
    ensures course { Course D.tells (D.shown disk.old) (D.shown disk.new) result }
    ensures lost { IsTrue D.tells → OnOk result (LosesInputs (numbers inputs.now)
        (at (D.shown disk.old).told.image) (at (D.shown disk.new).told.image)) }
{
    for input in inputs {
        drop_input(disk, *input)?;
    }
    Ok(())
}

fn drop_input<D: Disk>(disk: &mut D, input: FileId) -> Result<(), OpenError>
    requires { IsTrue D.tells → IsInput (at (D.shown disk.old).told.image) input.0 }
    ensures course { Course D.tells (D.shown disk.old) (D.shown disk.new) result }
    ensures lost { IsTrue D.tells → OnOk result (LosesInputs (numbers (input ∷ []))
        (at (D.shown disk.old).told.image) (at (D.shown disk.new).told.image)) }
{
    remove_file(disk, named(input, Kind::Hint))?;
    remove_file(disk, named(input, Kind::MainTemp))?;
    remove_file(disk, named(input, Kind::Main))
}
