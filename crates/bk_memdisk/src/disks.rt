//! A disk in memory.
ghost use Rattle.std.specs.Prelude.{◌≡◌, ◌≤◌, ◌⊎◌, ◌↔◌, ℕ, min, true, false, IsTrue, IsSome};
ghost use Rattle.std.specs.Prelude.{IfSome, is_some, is_ok, is_err, IsOk, IsErr, IsErrOf, []};
ghost use Rattle.std.specs.Prelude.{length, IfOk, OnOk, OnErr, option_copied};
ghost use Rattle.bk_disk.specs.Causes.{Rose, bumped, most};
ghost use Rattle.bk_disk.specs.Well.{is_well};

use crate::choices::Choice;
use crate::directory::Directory;
use crate::outs::MemOut;
use crate::plans::Plan;
use crate::views::MemView;
use bk_base::Name;
use bk_disk::{Disk, DiskError, Failed, Listed, Memory};
use std::alloc::Global;

/// A disk in memory that tells its content. It fails exactly where `fail` or `fuse` chose the call,
/// or a view asks past the end.
#[derive(Drop)]
pub struct MemDisk {
    alloc: Global,
    directory: Directory,
    calls: Plan,
    views: Plan,
    faults: u64,
    fallible_views: u64,
    ghost well: { IsTrue (is_well directory.told) },
    ghost views_within: { fallible_views ≤ most },
}

impl MemDisk {
    ghost use Rattle.bk_disk.specs.Told.{nothing_told, at};
    ghost use Rattle.bk_disk.specs.Crashes.{MayLeaveNow, IsSynced};
    ghost use Rattle.bk_memdisk.specs.Contents.{Placed, room_of};
    ghost use Rattle.bk_base.specs.declared.names.Name.{Name};
    ghost use Rattle.bk_disk.specs.Names.{same};
    ghost use Rattle.bk_memdisk.specs.Crash.{crashed};
    ghost use Rattle.bk_memdisk.specs.Plans.{nothing_chosen, chosen, fused};
    ghost use Rattle.bk_memdisk.specs.Disk.{told_by, calls_of, views_of, faults_of};
    ghost use Rattle.bk_memdisk.specs.Disk.{fallible_views_of, SameCounts};

    /// An empty disk. Nothing is set to fail.
    pub fn new(alloc: Global) -> MemDisk
        ensures told { told_by result ≡ nothing_told }
        ensures calls { calls_of result ≡ nothing_chosen }
        ensures views { views_of result ≡ nothing_chosen }
        ensures faults { faults_of result ≡ 0 }
        ensures fallible_views { fallible_views_of result ≡ 0 }
    {
        MemDisk {
            alloc,
            directory: Directory::new(alloc),
            calls: Plan::new(alloc),
            views: Plan::new(alloc),
            faults: 0,
            fallible_views: 0,
        }
    }

    /// Puts a synced file there, in the place of one of that name.
    pub fn place(&mut self, name: Name, bytes: &[u8]) -> Result<(), Memory>
        ensures ok { OnOk result (Placed name bytes.now (told_by self.old) (told_by self.new)) }
        ensures err { OnErr result (told_by self.new ≡ told_by self.old) }
        ensures rooms { (n : Name) → same n name ≡ false → room_of self.old.directory n
            ≤ room_of self.new.directory n }
        ensures plans { (calls_of self.new ≡ calls_of self.old) × (views_of self.new ≡ views_of self.old) }
        ensures counts { SameCounts self.old self.new }
    {
        let Ok(kept) = bytes.to_vec(self.alloc) else {
            return Err(Memory);
        };
        let Ok(copy) = bytes.to_vec(self.alloc) else {
            return Err(Memory);
        };
        match self.directory.place(name, kept, copy) {
            Ok(()) => Ok(()),
            Err(_) => Err(Memory),
        }
    }

    /// The disk that a crash leaves by this choice: of each file its synced bytes, and of the bytes
    /// past them what the choice says. All of it is synced, no name is lent, nothing is set to fail.
    pub fn crash(self, choice: &Choice) -> Result<MemDisk, Memory>
        ensures image { IfOk result (λ after. (told_by after).image
            ≡ crashed choice.now.keep choice.now.flips.items (told_by self).fronts
            (told_by self).image) }
        ensures allowed { IfOk result (λ after. MayLeaveNow (told_by self) (told_by after).image) }
        ensures synced { IfOk result (λ after. IsSynced (told_by after)) }
        ensures nothing_fails { IfOk result (λ after. (calls_of after ≡ nothing_chosen)
            × (views_of after ≡ nothing_chosen)) }
        ensures counts { IfOk result (λ after. (faults_of after ≡ 0) × (fallible_views_of after ≡ 0)) }
    {
        let Ok(directory) = self.directory.crash(choice) else {
            return Err(Memory);
        };
        Ok(MemDisk {
            alloc: self.alloc,
            directory,
            calls: Plan::new(self.alloc),
            views: Plan::new(self.alloc),
            faults: 0,
            fallible_views: 0,
        })
    }

    /// A file's bytes as it reads.
    pub fn bytes(&self, name: Name) -> Option<&[u8]>
        ensures { option_copied result ≡ at (told_by self.now).image name }
    {
        self.directory.bytes(name)
    }

    /// How many calls were made, those that failed among them.
    pub fn calls(&self) -> u64
        ensures { result ≡ (calls_of self.now).calls }
    {
        self.calls.calls()
    }

    /// The nth call from now, 1 is the next, fails with this effect: of an append so many bytes get
    /// through; a call on the directory and a cut are not done at 0 and done at any other number.
    pub fn fail(&mut self, nth: u64, effect: u64) -> Result<(), Memory>
        ensures ok { OnOk result (calls_of self.new ≡ chosen nth effect (calls_of self.old)) }
        ensures err { OnErr result (calls_of self.new ≡ calls_of self.old) }
        ensures others { (told_by self.new ≡ told_by self.old) × (views_of self.new ≡ views_of self.old) }
        ensures counts { SameCounts self.old self.new }
    {
        self.calls.choose(nth, effect).map_err(|_| Memory)
    }

    /// Each read of the nth view from now fails.
    pub fn fail_view(&mut self, nth: u64) -> Result<(), Memory>
        ensures ok { OnOk result (views_of self.new ≡ chosen nth 0 (views_of self.old)) }
        ensures err { OnErr result (views_of self.new ≡ views_of self.old) }
        ensures others { (told_by self.new ≡ told_by self.old) × (calls_of self.new ≡ calls_of self.old) }
        ensures counts { SameCounts self.old self.new }
    {
        self.views.choose(nth, 0).map_err(|_| Memory)
    }

    /// After so many calls all fail, the first with this effect, the others with 0. A later fuse
    /// takes the place of an earlier one.
    pub fn fuse(&mut self, calls: u64, effect: u64)
        ensures fused { calls_of self.new ≡ fused calls effect (calls_of self.old) }
        ensures others { (told_by self.new ≡ told_by self.old) × (views_of self.new ≡ views_of self.old) }
        ensures counts { SameCounts self.old self.new }
    {
        self.calls.fuse(calls, effect);
    }
}

// Counts a fault.
fn fault(faults: &mut u64) -> Failed
    ensures later { faults.old ≤ faults.new }
    ensures rose { Rose faults.old faults.new }
    ensures counted { faults.new ≡ bumped true faults.old }
{
    *faults = faults.saturating_add(1);
    Failed
}

#[tactic(auto, using(crate::proofs::Stays::stays))]
impl Disk for MemDisk {
    ghost use Rattle.std.specs.Prelude.{false, refl};
    ghost use Rattle.bk_base.specs.declared.names.Name.{Name};
    ghost use Rattle.bk_memdisk.specs.Contents.{room_of, KeepsRooms};
    ghost use Rattle.bk_memdisk.specs.Disk.{told_by, calls_of, views_of, faults_of, SamePlans};
    ghost use Rattle.bk_memdisk.specs.Disk.{Answers, Fails};
    ghost use Rattle.bk_memdisk.specs.Plans.{next_effect, one_later};
    ghost use Rattle.bk_disk.specs.Names.{same};
    ghost use Rattle.bk_disk.specs.Told.{bytes_of, listing, range_of, IsWithin, IsOurs, IsLent};
    ghost use Rattle.bk_disk.specs.Told.{IsAbsent, IsOneThere, CutsWithin};
    ghost use Rattle.bk_disk.specs.Calls.{Made, Appended, Cut, Synced, Removed, Renamed, Returned};
    ghost use Rattle.bk_disk.specs.Calls.{viewed};
    ghost use Rattle.bk_disk.specs.Causes.{IsCaused, HasCause, bumped, has_failed};
    ghost use Rattle.bk_disk.proofs.Unique.{from_test};
    ghost use Rattle.bk_disk.proofs.Counts.{none_within};

    type View = MemView;

    type Out = MemOut;

    ghost tells = { true };

    ghost shown = { λ d. record { told = d.directory.told; faults = d.faults; views = d.fallible_views; outs = 0 } };

    ghost room = { λ d n. room_of d.directory n };

    ghost gathers = { false };

    ghost failed_flushes = { λ _. 0 };

    ghost well = { λ d _. from_test d.directory.told d.well };

    ghost most_views = { λ d. d.views_within };

    ghost most_outs = { λ _. none_within };

    ghost views_tell = { λ _. refl };

    ghost outs_tell = { λ _. refl };

    fn list(&mut self) -> Result<Vec<Listed>, DiskError>
        ensures files { IfOk result (λ files. files.items ≡ listing (told_by self.old).image) }
        ensures told { told_by self.new ≡ told_by self.old }
        ensures rooms { (n : Name) → room_of self.old.directory n ≤ room_of self.new.directory n }
        ensures cause { HasCause (faults_of self.old) (faults_of self.new) result }
        ensures faults { faults_of self.new ≡ bumped (has_failed result) (faults_of self.old) }
        ensures views { self.new.fallible_views ≡ self.old.fallible_views }
        ensures failed { IsErrOf result DiskError.Failed ↔ IsSome (next_effect (calls_of self.old)) }
        ensures counted { calls_of self.new ≡ one_later (calls_of self.old) }
        ensures kept_views { views_of self.new ≡ views_of self.old }
    {
        if self.calls.next().is_some() {
            return Err(fault(&mut self.faults).into());
        }
        Ok(self.directory.list()?)
    }

    fn view(&mut self, name: Name, at: u64, len: u64) -> Result<MemView, DiskError>
        ensures within { OnOk result (IsWithin name at len (told_by self.old).image) }
        ensures bytes { IfOk result (λ view. view.left ≡ range_of name at len (told_by self.old).image) }
        ensures rest { IfOk result (λ view. length view.left ≡ len) }
        ensures told { told_by self.new ≡ viewed (is_ok result) name at len (told_by self.old) }
        ensures memory { IsErrOf result DiskError.Memory → told_by self.new ≡ told_by self.old }
        ensures rooms { (n : Name) → room_of self.old.directory n ≤ room_of self.new.directory n }
        ensures cause { HasCause (faults_of self.old) (faults_of self.new) result }
        ensures faults { faults_of self.new ≡ bumped (has_failed result) (faults_of self.old) }
        ensures views { IfOk result (λ view. self.new.fallible_views ≡ bumped view.fallible self.old.fallible_views) }
        ensures no_view { OnErr result (self.new.fallible_views ≡ self.old.fallible_views) }
        ensures fallible { IfOk result (λ view. view.fallible ≡ is_some (next_effect (views_of self.old))) }
        ensures counted_views { OnOk result (views_of self.new ≡ one_later (views_of self.old)) }
        ensures kept_views { OnErr result (views_of self.new ≡ views_of self.old) }
        ensures failed { IsErrOf result DiskError.Failed ↔ (IsSome (next_effect (calls_of self.old))
            ⊎ ¬ (IsWithin name at len (told_by self.old).image)) }
        ensures counted { calls_of self.new ≡ one_later (calls_of self.old) }
    {
        let fails = self.calls.next().is_some();
        match self.directory.view(name, at, len, fails) {
            Ok(bytes) => {
                let fallible = self.views.next().is_some();
                if fallible {
                    self.fallible_views = self.fallible_views.saturating_add(1);
                }
                Ok(MemView::new(bytes, fallible))
            }
            Err(DiskError::Failed) => Err(fault(&mut self.faults).into()),
            Err(DiskError::Memory) => Err(DiskError::Memory),
        }
    }

    fn create(&mut self, name: Name) -> Result<(), DiskError>
        requires { bytes_of name (told_by self.old).image ≡ [] }
        ensures created { OnOk result (Made name false (told_by self.old) (told_by self.new)) }
        ensures err { OnErr result ((told_by self.new ≡ told_by self.old)
            ⊎ Made name false (told_by self.old) (told_by self.new)) }
        ensures memory { IsErrOf result DiskError.Memory → told_by self.new ≡ told_by self.old }
        ensures rooms { (n : Name) → room_of self.old.directory n ≤ room_of self.new.directory n }
        ensures cause { HasCause (faults_of self.old) (faults_of self.new) result }
        ensures faults { faults_of self.new ≡ bumped (has_failed result) (faults_of self.old) }
        ensures views { self.new.fallible_views ≡ self.old.fallible_views }
        ensures answers { Answers (next_effect (calls_of self.old)) result
            (Made name false (told_by self.old) (told_by self.new))
            (told_by self.new ≡ told_by self.old) }
        ensures counted { calls_of self.new ≡ one_later (calls_of self.old) }
        ensures kept_views { views_of self.new ≡ views_of self.old }
    {
        match self.calls.next() {
            None => Ok(self.directory.create(name, false)?),
            Some(0) => Err(fault(&mut self.faults).into()),
            Some(_) => {
                self.directory.create(name, false)?;
                Err(fault(&mut self.faults).into())
            }
        }
    }

    fn ready(&mut self, name: Name, bytes: u64) -> Result<(), Memory>
        requires { IsOurs name (told_by self.old) }
        ensures room { OnOk result (bytes ≤ room_of self.new.directory name) }
        ensures enough { bytes ≤ room_of self.old.directory name → IsOk result }
        ensures told { told_by self.new ≡ told_by self.old }
        ensures rooms { (n : Name) → room_of self.old.directory n ≤ room_of self.new.directory n }
        ensures faults { faults_of self.new ≡ faults_of self.old }
        ensures views { self.new.fallible_views ≡ self.old.fallible_views }
        ensures plans { SamePlans self.old self.new }
    {
        self.directory
            .ready(name, bytes as usize)
            .map_err(|_| Memory)
    }

    fn append(&mut self, name: Name, piece: &[u8]) -> Result<(), Failed>
        requires ours { IsOurs name (told_by self.old) }
        requires room { length piece.now ≤ room_of self.old.directory name }
        ensures appended { OnOk result (Appended name (length piece.now) piece.now (told_by self.old)
            (told_by self.new)) }
        ensures err { OnErr result ((n : ℕ) × Appended name n piece.now (told_by self.old)
            (told_by self.new)) }
        ensures rooms { (n : Name) → same n name ≡ false → room_of self.old.directory n
            ≤ room_of self.new.directory n }
        ensures cause { IsCaused (faults_of self.old) (faults_of self.new) result }
        ensures faults { faults_of self.new ≡ bumped (is_err result) (faults_of self.old) }
        ensures views { self.new.fallible_views ≡ self.old.fallible_views }
        ensures failed { IsErr result ↔ IsSome (next_effect (calls_of self.old)) }
        ensures through { IfSome (next_effect (calls_of self.old))
            (λ effect. Appended name (min effect (length piece.now)) piece.now
            (told_by self.old) (told_by self.new)) }
        ensures counted { calls_of self.new ≡ one_later (calls_of self.old) }
        ensures kept_views { views_of self.new ≡ views_of self.old }
    {
        match self.calls.next() {
            None => {
                self.directory.append(name, piece, piece.len());
                Ok(())
            }
            Some(effect) => {
                let through = (effect as usize).min(piece.len());
                self.directory.append(name, piece, through);
                Err(fault(&mut self.faults))
            }
        }
    }

    fn cut(&mut self, name: Name, len: u64) -> Result<(), Failed>
        requires ours { IsOurs name (told_by self.old) }
        requires within { CutsWithin name len (told_by self.old) }
        ensures shorter { OnOk result (Cut name len (told_by self.old) (told_by self.new)) }
        ensures err { OnErr result ((told_by self.new ≡ told_by self.old)
            ⊎ Cut name len (told_by self.old) (told_by self.new)) }
        ensures rooms { (n : Name) → room_of self.old.directory n ≤ room_of self.new.directory n }
        ensures cause { IsCaused (faults_of self.old) (faults_of self.new) result }
        ensures faults { faults_of self.new ≡ bumped (is_err result) (faults_of self.old) }
        ensures views { self.new.fallible_views ≡ self.old.fallible_views }
        ensures fails { Fails (next_effect (calls_of self.old)) result
            (Cut name len (told_by self.old) (told_by self.new))
            (told_by self.new ≡ told_by self.old) }
        ensures counted { calls_of self.new ≡ one_later (calls_of self.old) }
        ensures kept_views { views_of self.new ≡ views_of self.old }
    {
        match self.calls.next() {
            None => {
                self.directory.cut(name, len as usize);
                Ok(())
            }
            Some(0) => Err(fault(&mut self.faults)),
            Some(_) => {
                self.directory.cut(name, len as usize);
                Err(fault(&mut self.faults))
            }
        }
    }

    fn sync(&mut self, name: Name) -> Result<(), Failed>
        requires { IsOurs name (told_by self.old) }
        ensures synced { OnOk result (Synced name (told_by self.old) (told_by self.new)) }
        ensures err { OnErr result (told_by self.new ≡ told_by self.old) }
        ensures rooms { (n : Name) → room_of self.old.directory n ≤ room_of self.new.directory n }
        ensures cause { IsCaused (faults_of self.old) (faults_of self.new) result }
        ensures faults { faults_of self.new ≡ bumped (is_err result) (faults_of self.old) }
        ensures views { self.new.fallible_views ≡ self.old.fallible_views }
        ensures failed { IsErr result ↔ IsSome (next_effect (calls_of self.old)) }
        ensures counted { calls_of self.new ≡ one_later (calls_of self.old) }
        ensures kept_views { views_of self.new ≡ views_of self.old }
    {
        if self.calls.next().is_some() {
            return Err(fault(&mut self.faults));
        }
        self.directory.sync(name);
        Ok(())
    }

    fn lend(&mut self, name: Name) -> Result<MemOut, DiskError>
        requires { IsAbsent name (told_by self.old).image }
        ensures lent { OnOk result (Made name true (told_by self.old) (told_by self.new)) }
        ensures out { IfOk result (λ out. out ≡ record { name = name; bytes = []; synced = 0 }) }
        ensures err { OnErr result ((told_by self.new ≡ told_by self.old)
            ⊎ Made name true (told_by self.old) (told_by self.new)) }
        ensures memory { IsErrOf result DiskError.Memory → told_by self.new ≡ told_by self.old }
        ensures rooms { (n : Name) → room_of self.old.directory n ≤ room_of self.new.directory n }
        ensures cause { HasCause (faults_of self.old) (faults_of self.new) result }
        ensures faults { faults_of self.new ≡ bumped (has_failed result) (faults_of self.old) }
        ensures views { self.new.fallible_views ≡ self.old.fallible_views }
        ensures answers { Answers (next_effect (calls_of self.old)) result
            (Made name true (told_by self.old) (told_by self.new))
            (told_by self.new ≡ told_by self.old) }
        ensures counted { calls_of self.new ≡ one_later (calls_of self.old) }
        ensures kept_views { views_of self.new ≡ views_of self.old }
    {
        match self.calls.next() {
            None => {
                self.directory.create(name, true)?;
                Ok(MemOut::new(self.alloc, name))
            }
            Some(0) => Err(fault(&mut self.faults).into()),
            Some(_) => {
                self.directory.create(name, true)?;
                Err(fault(&mut self.faults).into())
            }
        }
    }

    fn adopt(&mut self, out: MemOut)
        requires lent { IsLent out.name (told_by self.old) }
        requires synced { out.synced ≡ length out.bytes }
        ensures returned { Returned out.name out.bytes (told_by self.old) (told_by self.new) }
        ensures rooms { (n : Name) → room_of self.old.directory n ≤ room_of self.new.directory n }
        ensures faults { faults_of self.new ≡ faults_of self.old }
        ensures views { self.new.fallible_views ≡ self.old.fallible_views }
        ensures plans { SamePlans self.old self.new }
    {
        let (name, bytes, copy) = out.into_parts();
        self.directory.adopt(name, bytes, copy);
    }

    fn rename(&mut self, from: Name, to: Name) -> Result<(), DiskError>
        requires { IsOneThere from to (told_by self.old).image }
        ensures renamed { OnOk result (Renamed from to (told_by self.old) (told_by self.new)) }
        ensures err { OnErr result ((told_by self.new ≡ told_by self.old)
            ⊎ Renamed from to (told_by self.old) (told_by self.new)) }
        ensures memory { IsErrOf result DiskError.Memory → told_by self.new ≡ told_by self.old }
        ensures rooms { (n : Name) → same n from ≡ false → same n to ≡ false → room_of self.old.directory n
            ≤ room_of self.new.directory n }
        ensures already { IsAbsent from (told_by self.old).image
            → KeepsRooms self.old.directory self.new.directory }
        ensures undone { told_by self.new ≡ told_by self.old
            → KeepsRooms self.old.directory self.new.directory }
        ensures cause { HasCause (faults_of self.old) (faults_of self.new) result }
        ensures faults { faults_of self.new ≡ bumped (has_failed result) (faults_of self.old) }
        ensures views { self.new.fallible_views ≡ self.old.fallible_views }
        ensures answers { Answers (next_effect (calls_of self.old)) result
            (Renamed from to (told_by self.old) (told_by self.new))
            (told_by self.new ≡ told_by self.old) }
        ensures counted { calls_of self.new ≡ one_later (calls_of self.old) }
        ensures kept_views { views_of self.new ≡ views_of self.old }
    {
        match self.calls.next() {
            None => Ok(self.directory.rename(from, to)?),
            Some(0) => Err(fault(&mut self.faults).into()),
            Some(_) => {
                self.directory.rename(from, to)?;
                Err(fault(&mut self.faults).into())
            }
        }
    }

    fn remove(&mut self, name: Name) -> Result<(), DiskError>
        ensures removed { OnOk result (Removed name (told_by self.old) (told_by self.new)) }
        ensures err { OnErr result ((told_by self.new ≡ told_by self.old)
            ⊎ Removed name (told_by self.old) (told_by self.new)) }
        ensures memory { IsErrOf result DiskError.Memory → told_by self.new ≡ told_by self.old }
        ensures rooms { (n : Name) → same n name ≡ false → room_of self.old.directory n
            ≤ room_of self.new.directory n }
        ensures undone { told_by self.new ≡ told_by self.old
            → KeepsRooms self.old.directory self.new.directory }
        ensures cause { HasCause (faults_of self.old) (faults_of self.new) result }
        ensures faults { faults_of self.new ≡ bumped (has_failed result) (faults_of self.old) }
        ensures views { self.new.fallible_views ≡ self.old.fallible_views }
        ensures answers { Answers (next_effect (calls_of self.old)) result
            (Removed name (told_by self.old) (told_by self.new))
            (told_by self.new ≡ told_by self.old) }
        ensures counted { calls_of self.new ≡ one_later (calls_of self.old) }
        ensures kept_views { views_of self.new ≡ views_of self.old }
    {
        match self.calls.next() {
            None => Ok(self.directory.remove(name)?),
            Some(0) => Err(fault(&mut self.faults).into()),
            Some(_) => {
                self.directory.remove(name)?;
                Err(fault(&mut self.faults).into())
            }
        }
    }

    fn flush(&mut self) -> Result<(), Failed>
        ensures same { self.new ≡ self.old }
        ensures done { IsOk result }
    {
        Ok(())
    }
}
