//! A disk that tells nothing, and callers at a bound: the clauses are usable from both sides.
ghost use Rattle.std.specs.Prelude.{◌≡◌, ◌≤◌, IsTrue, OnOk, IsErrOf, ◌⊎◌};
ghost use Rattle.bk_disk.specs.Causes.{HasCause, Rose, most};
ghost use Rattle.bk_disk.specs.Told.{bytes_of, IsAbsent};

use bk_base::{Kind, Name};
use bk_disk::{Disk, DiskError, Failed, Listed, Memory, Out, View};
use std::alloc::Global;

#[derive(Drop)]
struct SilentView {
    left: u64,
    faults: u64,
}

impl View for SilentView {
    ghost use Rattle.std.specs.Prelude.{true, false, []};
    ghost use Rattle.bk_disk.specs.Told.{untold};

    ghost tells = { false };

    ghost left = { λ _. [] };

    ghost rest = { λ v. v.left };

    ghost faults = { λ v. v.faults };

    ghost fallible = { λ _. true };

    ghost told_rest = { λ _ h. untold h };

    fn read(&mut self, into: &mut [u8]) -> Result<usize, Failed> {
        if into.len() as u64 >= self.left {
            self.faults = self.faults.saturating_add(1);
            return Err(Failed);
        }
        self.left -= into.len() as u64;
        Ok(into.len())
    }
}

#[derive(Drop)]
struct SilentOut {
    name: Name,
    faults: u64,
}

impl Out for SilentOut {
    ghost use Rattle.std.specs.Prelude.{true, false, []};

    ghost tells = { false };

    ghost name = { λ o. o.name };

    ghost bytes = { λ _. [] };

    ghost synced = { λ _. 0 };

    ghost faults = { λ o. o.faults };

    ghost fallible = { λ _. true };

    fn append(&mut self, _piece: &[u8]) -> Result<(), DiskError> {
        self.faults = self.faults.saturating_add(1);
        Err(DiskError::Failed)
    }

    fn sync(&mut self) -> Result<(), Failed> {
        Ok(())
    }
}

#[derive(Drop)]
struct SilentDisk {
    alloc: Global,
    faults: u64,
    fallible_views: u64,
    fallible_outs: u64,
    ghost views_within: { fallible_views ≤ most },
    ghost outs_within: { fallible_outs ≤ most },
}

impl Disk for SilentDisk {
    ghost use Rattle.std.specs.Prelude.{false, []};
    ghost use Rattle.bk_disk.specs.Told.{nothing_told, untold};

    type View = SilentView;

    type Out = SilentOut;

    ghost tells = { false };

    ghost shown = { λ d. record {
      told = nothing_told;
      faults = d.faults;
      views = d.fallible_views;
      outs = d.fallible_outs;
    } };

    ghost room = { λ _ _. 18446744073709551615 };

    ghost gathers = { false };

    ghost failed_flushes = { λ _. 0 };

    ghost well = { λ _ h. untold h };

    ghost most_views = { λ d. d.views_within };

    ghost most_outs = { λ d. d.outs_within };

    ghost views_tell = { λ h. h };

    ghost outs_tell = { λ h. h };

    fn list(&mut self) -> Result<Vec<Listed>, DiskError> {
        Ok(Vec::new(self.alloc))
    }

    fn view(&mut self, _name: Name, _at: u64, len: u64) -> Result<SilentView, DiskError> {
        self.fallible_views = self.fallible_views.saturating_add(1);
        Ok(SilentView {
            left: len,
            faults: 0,
        })
    }

    fn create(&mut self, _name: Name) -> Result<(), DiskError> {
        Err(DiskError::Memory)
    }

    fn ready(&mut self, _name: Name, _bytes: u64) -> Result<(), Memory> {
        Ok(())
    }

    fn append(&mut self, _name: Name, _piece: &[u8]) -> Result<(), Failed> {
        self.faults = self.faults.saturating_add(1);
        Err(Failed)
    }

    fn cut(&mut self, _name: Name, _len: u64) -> Result<(), Failed> {
        Ok(())
    }

    fn sync(&mut self, _name: Name) -> Result<(), Failed> {
        Ok(())
    }

    fn lend(&mut self, name: Name) -> Result<SilentOut, DiskError> {
        self.fallible_outs = self.fallible_outs.saturating_add(1);
        Ok(SilentOut { name, faults: 0 })
    }

    fn adopt(&mut self, _out: SilentOut) {}

    fn rename(&mut self, _from: Name, _to: Name) -> Result<(), DiskError> {
        Ok(())
    }

    fn remove(&mut self, _name: Name) -> Result<(), DiskError> {
        Ok(())
    }

    fn flush(&mut self) -> Result<(), Failed> {
        Ok(())
    }
}

// Makes a file of these bytes and syncs it.
fn store<D: Disk>(disk: &mut D, name: Name, bytes: &[u8]) -> Result<(), DiskError>
    requires { IsTrue D.tells → IsAbsent name (D.shown disk.old).told.image }
    ensures stored { IsTrue D.tells → OnOk result (bytes_of name (D.shown disk.new).told.image ≡ bytes.now) }
    ensures cause { HasCause (D.shown disk.old).faults (D.shown disk.new).faults result }
    ensures views { (D.shown disk.new).views ≡ (D.shown disk.old).views }
{
    disk.create(name)?;
    disk.ready(name, bytes.len() as u64)?;
    disk.append(name, bytes)?;
    disk.sync(name)?;
    Ok(())
}

// The first bytes of a file, as many as `into` has.
fn load<D: Disk>(disk: &mut D, name: Name, into: &mut [u8]) -> Result<usize, DiskError>
    ensures cause { IsErrOf result DiskError.Failed → Rose (D.shown disk.old).faults (D.shown disk.new).faults
        ⊎ Rose (D.shown disk.old).views (D.shown disk.new).views }
{
    let mut view = disk.view(name, 0, into.len() as u64)?;
    Ok(view.read(into)?)
}

#[test]
fn a_silent_disk_serves(rt: HostRuntime) {
    let mut disk = SilentDisk {
        alloc: rt.alloc(),
        faults: 0,
        fallible_views: 0,
        fallible_outs: 0,
    };
    let name = Name {
        id: 1,
        kind: Kind::Main,
    };
    assert_eq!(rt; store(&mut disk, name, b"ab"), Err(DiskError::Memory));
    let mut into = [0; 2];
    assert_eq!(rt; load(&mut disk, name, &mut into), Err(DiskError::Failed));
}
