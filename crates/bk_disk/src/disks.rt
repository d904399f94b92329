//! A disk: a directory of named files that are appended to.
ghost use Rattle.std.specs.Prelude.{◌≡◌, ◌≤◌, ◌⊎◌, Bool, true, false, List, [], ℕ, length, is_ok};
ghost use Rattle.std.specs.Prelude.{is_err, IsTrue, IsOk, IfOk, OnOk, OnErr, IsErrOf};
ghost use Rattle.bk_disk.specs.Causes.{IsCaused, HasCause, bumped, most, has_failed};
ghost use Rattle.bk_disk.specs.Names.{same};
ghost use Rattle.bk_disk.specs.Shown.{DiskShown};
ghost use Rattle.bk_disk.specs.Told.{listing, bytes_of, IsOurs, IsLent, IsAbsent, IsOneThere};
ghost use Rattle.bk_disk.specs.Told.{CutsWithin, IsWithin, range_of, IsWell};
ghost use Rattle.bk_disk.specs.Calls.{Appended, Synced, Made, Cut, Removed, Renamed, Returned};
ghost use Rattle.bk_disk.specs.Calls.{viewed};

use crate::errors::{DiskError, Failed};
use crate::outs::Out;
use crate::views::View;
use bk_base::{Memory, Name};

/// One file of a disk's listing.
#[derive(Clone, Copy, Debug, PartialEq, Eq)]
pub struct Listed {
    pub name: Name,
    pub len: u64,
}

/// A directory of files. A disk that tells its content tells it by one record, `told`: what the
/// files hold, what a crash may leave of them now and at each moment before, and what was asked of
/// it. A moment is the time between two changes that a crash can tell.
///
/// The disk keeps its allocator. `Memory` says that an allocation was refused: what is told and the
/// count of faults are as before. `Failed` counts one fault, and each call says what it leaves.
pub trait Disk {
    ghost use Rattle.bk_base.specs.declared.names.Name.{Name};

    type View: View + Drop;

    type Out: Out + Drop;

    /// Whether the content is told.
    ghost tells: { Bool };

    /// What the disk shows: what it tells, how often a call has failed, and how many fallible views
    /// and fallible files it made.
    ghost shown: { Self → DiskShown };

    /// How many bytes may be appended to a file before the next `ready`.
    ghost room: { Self → Name → ℕ };

    /// Whether it may keep appended bytes back until a `flush`.
    ghost gathers: { Bool };

    /// How often a flush has failed. It is a count of its own, since a flush is no event of a store.
    ghost failed_flushes: { Self → ℕ };

    /// All files with their lengths, each once. After `Failed` all is as before.
    fn list(&mut self) -> Result<Vec<Listed>, DiskError>
        ensures files { IsTrue tells → IfOk result (λ files. files.items ≡ listing (shown self.old).told.image) }
        ensures told { IsTrue tells → (shown self.new).told ≡ (shown self.old).told }
        ensures rooms { (n : Name) → room self.old n ≤ room self.new n }
        ensures cause { HasCause (shown self.old).faults (shown self.new).faults result }
        ensures faults { (shown self.new).faults ≡ bumped (has_failed result) (shown self.old).faults }
        ensures views { (shown self.new).views ≡ (shown self.old).views }
        ensures outs { (shown self.new).outs ≡ (shown self.old).outs }
        ensures flushes { failed_flushes self.new ≡ failed_flushes self.old };

    /// A view of `len` bytes of a file from `at` on, as they are now. A range past the file's end,
    /// or of a name that isn't there, is `Failed`, and told as a stray view. No `Failed` changes a
    /// file.
    fn view(&mut self, name: Name, at: u64, len: u64) -> Result<Self::View, DiskError>
        ensures within { IsTrue tells → OnOk result (IsWithin name at len (shown self.old).told.image) }
        ensures bytes { IsTrue tells → IfOk result (λ v. Self.View.left v
            ≡ range_of name at len (shown self.old).told.image) }
        ensures rest { IfOk result (λ v. Self.View.rest v ≡ len) }
        ensures told { IsTrue tells → (shown self.new).told ≡ viewed (is_ok result) name at len (shown self.old).told }
        ensures memory { IsTrue tells → IsErrOf result DiskError.Memory → (shown self.new).told ≡ (shown self.old).told }
        ensures rooms { (n : Name) → room self.old n ≤ room self.new n }
        ensures cause { HasCause (shown self.old).faults (shown self.new).faults result }
        ensures faults { (shown self.new).faults ≡ bumped (has_failed result) (shown self.old).faults }
        ensures views { IfOk result (λ v. (shown self.new).views
            ≡ bumped (Self.View.fallible v) (shown self.old).views) }
        ensures no_view { OnErr result ((shown self.new).views ≡ (shown self.old).views) }
        ensures outs { (shown self.new).outs ≡ (shown self.old).outs }
        ensures flushes { failed_flushes self.new ≡ failed_flushes self.old };

    /// Makes an empty file, or leaves the empty one that is there. After `Failed` it is done or not.
    fn create(&mut self, name: Name) -> Result<(), DiskError>
        requires { IsTrue tells → bytes_of name (shown self.old).told.image ≡ [] }
        ensures created { IsTrue tells → OnOk result (Made name false (shown self.old).told (shown self.new).told) }
        ensures err { IsTrue tells → OnErr result (((shown self.new).told ≡ (shown self.old).told)
            ⊎ Made name false (shown self.old).told (shown self.new).told) }
        ensures memory { IsTrue tells → IsErrOf result DiskError.Memory → (shown self.new).told ≡ (shown self.old).told }
        ensures rooms { (n : Name) → room self.old n ≤ room self.new n }
        ensures cause { HasCause (shown self.old).faults (shown self.new).faults result }
        ensures faults { (shown self.new).faults ≡ bumped (has_failed result) (shown self.old).faults }
        ensures views { (shown self.new).views ≡ (shown self.old).views }
        ensures outs { (shown self.new).outs ≡ (shown self.old).outs }
        ensures flushes { failed_flushes self.new ≡ failed_flushes self.old };

    /// Makes a file's room at least `bytes`, and changes nothing else.
    fn ready(&mut self, name: Name, bytes: u64) -> Result<(), Memory>
        requires { IsTrue tells → IsOurs name (shown self.old).told }
        ensures room { OnOk result (bytes ≤ room self.new name) }
        ensures enough { bytes ≤ room self.old name → IsOk result }
        ensures told { IsTrue tells → (shown self.new).told ≡ (shown self.old).told }
        ensures rooms { (n : Name) → room self.old n ≤ room self.new n }
        ensures faults { (shown self.new).faults ≡ (shown self.old).faults }
        ensures views { (shown self.new).views ≡ (shown self.old).views }
        ensures outs { (shown self.new).outs ≡ (shown self.old).outs }
        ensures flushes { failed_flushes self.new ≡ failed_flushes self.old };

    /// Appends a piece that isn't longer than the file's room. After `Failed` a first part of it,
    /// from none to all of it, stands at the end.
    fn append(&mut self, name: Name, piece: &[u8]) -> Result<(), Failed>
        requires ours { IsTrue tells → IsOurs name (shown self.old).told }
        requires room { length piece.now ≤ room self.old name }
        ensures appended { IsTrue tells → OnOk result (Appended name (length piece.now) piece.now
            (shown self.old).told (shown self.new).told) }
        ensures err { IsTrue tells → OnErr result ((n : ℕ) × Appended name n piece.now
            (shown self.old).told (shown self.new).told) }
        ensures rooms { (n : Name) → same n name ≡ false → room self.old n ≤ room self.new n }
        ensures cause { IsCaused (shown self.old).faults (shown self.new).faults result }
        ensures faults { (shown self.new).faults ≡ bumped (is_err result) (shown self.old).faults }
        ensures views { (shown self.new).views ≡ (shown self.old).views }
        ensures outs { (shown self.new).outs ≡ (shown self.old).outs }
        ensures flushes { failed_flushes self.new ≡ failed_flushes self.old };

    /// Cuts a file to a length between its synced length and its length. After `Failed` it is done
    /// or not. Until the next sync a crash may undo it.
    fn cut(&mut self, name: Name, len: u64) -> Result<(), Failed>
        requires ours { IsTrue tells → IsOurs name (shown self.old).told }
        requires within { IsTrue tells → CutsWithin name len (shown self.old).told }
        ensures shorter { IsTrue tells → OnOk result (Cut name len (shown self.old).told (shown self.new).told) }
        ensures err { IsTrue tells → OnErr result (((shown self.new).told ≡ (shown self.old).told)
            ⊎ Cut name len (shown self.old).told (shown self.new).told) }
        ensures rooms { (n : Name) → room self.old n ≤ room self.new n }
        ensures cause { IsCaused (shown self.old).faults (shown self.new).faults result }
        ensures faults { (shown self.new).faults ≡ bumped (is_err result) (shown self.old).faults }
        ensures views { (shown self.new).views ≡ (shown self.old).views }
        ensures outs { (shown self.new).outs ≡ (shown self.old).outs }
        ensures flushes { failed_flushes self.new ≡ failed_flushes self.old };

    /// Syncs a file: a crash leaves all its bytes. After `Failed` all is as before.
    fn sync(&mut self, name: Name) -> Result<(), Failed>
        requires { IsTrue tells → IsOurs name (shown self.old).told }
        ensures synced { IsTrue tells → OnOk result (Synced name (shown self.old).told (shown self.new).told) }
        ensures err { IsTrue tells → OnErr result ((shown self.new).told ≡ (shown self.old).told) }
        ensures rooms { (n : Name) → room self.old n ≤ room self.new n }
        ensures cause { IsCaused (shown self.old).faults (shown self.new).faults result }
        ensures faults { (shown self.new).faults ≡ bumped (is_err result) (shown self.old).faults }
        ensures views { (shown self.new).views ≡ (shown self.old).views }
        ensures outs { (shown self.new).outs ≡ (shown self.old).outs }
        ensures flushes { failed_flushes self.new ≡ failed_flushes self.old };

    /// Makes a new file, to be written elsewhere and brought back by `adopt`. Until then it reads
    /// as empty here, and a crash may leave any bytes of it. After `Failed` the name is lent or
    /// isn't there.
    fn lend(&mut self, name: Name) -> Result<Self::Out, DiskError>
        requires { IsTrue tells → IsAbsent name (shown self.old).told.image }
        ensures lent { IsTrue tells → OnOk result (Made name true (shown self.old).told (shown self.new).told) }
        ensures name { IfOk result (λ out. Self.Out.name out ≡ name) }
        ensures empty { IsTrue tells → IfOk result (λ out. Self.Out.bytes out ≡ []) }
        ensures unsynced { IsTrue tells → IfOk result (λ out. Self.Out.synced out ≡ 0) }
        ensures err { IsTrue tells → OnErr result (((shown self.new).told ≡ (shown self.old).told)
            ⊎ Made name true (shown self.old).told (shown self.new).told) }
        ensures memory { IsTrue tells → IsErrOf result DiskError.Memory → (shown self.new).told ≡ (shown self.old).told }
        ensures rooms { (n : Name) → room self.old n ≤ room self.new n }
        ensures cause { HasCause (shown self.old).faults (shown self.new).faults result }
        ensures faults { (shown self.new).faults ≡ bumped (has_failed result) (shown self.old).faults }
        ensures views { (shown self.new).views ≡ (shown self.old).views }
        ensures outs { IfOk result (λ out. (shown self.new).outs
            ≡ bumped (Self.Out.fallible out) (shown self.old).outs) }
        ensures no_out { OnErr result ((shown self.new).outs ≡ (shown self.old).outs) }
        ensures flushes { failed_flushes self.new ≡ failed_flushes self.old };

    /// Takes a file back that was lent under its name and is synced whole. It takes no memory and
    /// can't fail.
    fn adopt(&mut self, out: Self::Out)
        requires lent { IsTrue tells → IsLent (Self.Out.name out) (shown self.old).told }
        requires synced { IsTrue tells → Self.Out.synced out ≡ length (Self.Out.bytes out) }
        ensures returned { IsTrue tells → Returned (Self.Out.name out) (Self.Out.bytes out)
            (shown self.old).told (shown self.new).told }
        ensures rooms { (n : Name) → room self.old n ≤ room self.new n }
        ensures faults { (shown self.new).faults ≡ (shown self.old).faults }
        ensures views { (shown self.new).views ≡ (shown self.old).views }
        ensures outs { (shown self.new).outs ≡ (shown self.old).outs }
        ensures flushes { failed_flushes self.new ≡ failed_flushes self.old };

    /// Gives a file another name, where exactly one of the two is there; where that is `to` already,
    /// it changes no file. After `Failed` it is done or not; where not, no room falls.
    fn rename(&mut self, from: Name, to: Name) -> Result<(), DiskError>
        requires { IsTrue tells → IsOneThere from to (shown self.old).told.image }
        ensures renamed { IsTrue tells → OnOk result (Renamed from to (shown self.old).told (shown self.new).told) }
        ensures err { IsTrue tells → OnErr result (((shown self.new).told ≡ (shown self.old).told)
            ⊎ Renamed from to (shown self.old).told (shown self.new).told) }
        ensures memory { IsTrue tells → IsErrOf result DiskError.Memory → (shown self.new).told ≡ (shown self.old).told }
        ensures rooms { (n : Name) → same n from ≡ false → same n to ≡ false
            → room self.old n ≤ room self.new n }
        ensures already { IsTrue tells → IsAbsent from (shown self.old).told.image
            → (n : Name) → room self.old n ≤ room self.new n }
        ensures undone { IsTrue tells → (shown self.new).told ≡ (shown self.old).told
            → (n : Name) → room self.old n ≤ room self.new n }
        ensures cause { HasCause (shown self.old).faults (shown self.new).faults result }
        ensures faults { (shown self.new).faults ≡ bumped (has_failed result) (shown self.old).faults }
        ensures views { (shown self.new).views ≡ (shown self.old).views }
        ensures outs { (shown self.new).outs ≡ (shown self.old).outs }
        ensures flushes { failed_flushes self.new ≡ failed_flushes self.old };

    /// Removes a file, if it is there. A lent name that was removed is lent no more. After `Failed`
    /// it is done or not; where not, no room falls.
    fn remove(&mut self, name: Name) -> Result<(), DiskError>
        ensures removed { IsTrue tells → OnOk result (Removed name (shown self.old).told (shown self.new).told) }
        ensures err { IsTrue tells → OnErr result (((shown self.new).told ≡ (shown self.old).told)
            ⊎ Removed name (shown self.old).told (shown self.new).told) }
        ensures memory { IsTrue tells → IsErrOf result DiskError.Memory → (shown self.new).told ≡ (shown self.old).told }
        ensures rooms { (n : Name) → same n name ≡ false → room self.old n ≤ room self.new n }
        ensures undone { IsTrue tells → (shown self.new).told ≡ (shown self.old).told
            → (n : Name) → room self.old n ≤ room self.new n }
        ensures cause { HasCause (shown self.old).faults (shown self.new).faults result }
        ensures faults { (shown self.new).faults ≡ bumped (has_failed result) (shown self.old).faults }
        ensures views { (shown self.new).views ≡ (shown self.old).views }
        ensures outs { (shown self.new).outs ≡ (shown self.old).outs }
        ensures flushes { failed_flushes self.new ≡ failed_flushes self.old };

    /// Hands all that was gathered to the system. It changes nothing that is shown: what is told has
    /// the gathered bytes already. After `Failed` the rest is still gathered. A disk that gathers
    /// nothing has nothing to do.
    fn flush(&mut self) -> Result<(), Failed>
        ensures shown { shown self.new ≡ shown self.old }
        ensures rooms { (n : Name) → room self.old n ≤ room self.new n }
        ensures cause { IsCaused (failed_flushes self.old) (failed_flushes self.new) result }
        ensures nothing { gathers ≡ false → IsOk result };

    /// Each name stands once in what is told.
    ghost well: { (d : Self) → IsTrue tells → IsWell (shown d).told };

    /// No count stands past its last value, so none ever falls.
    ghost most_views: { (d : Self) → (shown d).views ≤ most };

    ghost most_outs: { (d : Self) → (shown d).outs ≤ most };

    /// The views of a disk that tells its content tell theirs.
    ghost views_tell: { IsTrue tells → IsTrue Self.View.tells };

    /// The lent files of a disk that tells its content tell theirs.
    ghost outs_tell: { IsTrue tells → IsTrue Self.Out.tells };
}
