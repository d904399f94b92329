//! The events that look at all keys or all files.
ghost use Rattle.std.specs.Prelude.{◌≡◌, ◌≤◌, ◌+◌, ◌-◌, ◌<◌, ◌^◌, ◌↔◌, ℕ, Bool, true, false, [], None, Some, cond, length, min, sum_by, IsTrue, IfSome, Any};
ghost use Rattle.std.specs.List.{IsDistinct};
ghost use Rattle.std.specs.Map.{keys_of};
ghost use Rattle.std.specs.Str.{bytes_eq};
ghost use Rattle.bk_base.specs.declared.rows.Row.{Row};
ghost use Rattle.bk_policy.specs.Due.{IsDue};
ghost use Rattle.bk_files.specs.Files.{rows_of};
ghost use Rattle.bk_store.specs.Appends.{CountsAlone};
ghost use Rattle.bk_store.specs.Events.{CrashMeets, Keeps, quiet_by};
ghost use Rattle.bk_store.specs.Sweeps.{Cleans, GoesOnAt, IsPruned, IsStat, IsSwept, IsVisited, has_put};
ghost use Rattle.bk_store.specs.Loans.{is_put};
ghost use Rattle.bk_keydir.specs.Keydir.{newest_of, versions_at};

use crate::counting::take_refs;
use crate::store::Store;
use bk_base::Row;
use bk_disk::Disk;
use bk_files::Files;
use bk_keydir::{Keydir, Swept};
use bk_policy::due;

/// What a store has: its keys, its files, and the bytes of their records and of the live ones.
#[derive(Clone, Copy, Debug, PartialEq, Eq)]
pub struct Stat {
    pub total: u128,
    pub live: u128,
    pub keys: u64,
    pub files: u64,
}

impl<D: Disk> Store<D> {
    /// Visits `n` keys from a position on, fewer where the end comes first, and drops what neither a get
    /// nor an open fold can see any more: older versions, and keys that were deleted. A key that takes
    /// the place of a dropped one is the next. It takes no memory and makes no disk call.
    pub fn sweep(&mut self, from: u64, n: u32) -> Swept
        ensures swept { IsSwept from n result self.old.keys self.new.keys }
        ensures alone { CountsAlone D.tells self.old.files self.new.files }
        ensures rest { self.new ≡ record self.old { files = self.new.files; keys = self.new.keys } }
        ensures quiet { IsTrue D.tells → (who : ℕ) → Keeps D.tells (quiet_by who) self.old self.new }
        ensures crash { IsTrue D.tells → CrashMeets [] self.old self.new }
    {
        sweep_keys(&mut self.files, &mut self.keydir, from, n)
    }

    /// The numbers of the store. It takes no memory and makes no disk call.
    pub fn stat(&mut self) -> Stat
        ensures stat { IsStat result self.old }
        ensures same { self.new ≡ self.old }
        ensures quiet { IsTrue D.tells → (who : ℕ) → Keeps D.tells (quiet_by who) self.old self.new }
        ensures crash { IsTrue D.tells → CrashMeets [] self.old self.new }
    {
        let rows = self.files.rows();
        let (total, live) = sums(rows);
        Stat {
            total,
            live,
            keys: count_puts(&self.keydir),
            files: rows.len() as u64,
        }
    }

    /// Whether a merge is due, by the settings. It takes no memory and makes no disk call.
    pub fn merge_due(&mut self) -> bool
        ensures due { IsTrue result ↔ Any (IsDue self.old.settings) (rows_of self.old.files) }
        ensures same { self.new ≡ self.old }
        ensures quiet { IsTrue D.tells → (who : ℕ) → Keeps D.tells (quiet_by who) self.old self.new }
        ensures crash { IsTrue D.tells → CrashMeets [] self.old self.new }
    {
        due(self.files.rows(), &self.settings)
    }
}

// Visits keys from a position on.
fn sweep_keys<D: Disk>(files: &mut Files<D>, keydir: &mut Keydir, from: u64, n: u32) -> Swept
    ensures swept { IsSwept from n result keydir.old keydir.new }
    ensures cleans { Cleans D.tells files.old keydir.old files.new keydir.new }
{
    let visits = u64::from(n).min(keydir.len().saturating_sub(from));
    let mut position = from;
    let mut pruned: u64 = 0;
    let mut dropped: u64 = 0;
    for _visit in 0..visits {
        let (older, has_gone) = visit(files, keydir, position);
        pruned = pruned.saturating_add(older);
        if has_gone {
            dropped += 1;
        } else {
            position += 1;
        }
    }
    Swept {
        next: next_below(position, keydir.len()),
        pruned,
        dropped,
    }
}

// The position, where a key stands there.
fn next_below(position: u64, len: u64) -> Option<u64>
    ensures { GoesOnAt result len position }
{
    if position < len { Some(position) } else { None }
}

// Drops what nothing sees of the key at a position: first its older versions, then itself. It gives how
// many versions went besides, and whether the key has gone.
fn visit<D: Disk>(files: &mut Files<D>, keydir: &mut Keydir, position: u64) -> (u64, bool)
    requires { position < length keydir.old.entries }
    ensures visited { IsVisited position result.0 result.1 keydir.old keydir.new }
    ensures cleans { Cleans D.tells files.old keydir.old files.new keydir.new }
{
    let pruned = prune(files, keydir, position);
    // That no key stands twice is what `len` says, before and after.
    let _before = keydir.len();
    let has_gone = keydir.drop_at(position);
    let _after = keydir.len();
    (pruned, has_gone)
}

// Drops the versions of the key at a position that nothing sees, and gives their number.
fn prune<D: Disk>(files: &mut Files<D>, keydir: &mut Keydir, position: u64) -> u64
    requires { position < length keydir.old.entries }
    ensures pruned { IsPruned position result keydir.old keydir.new }
    ensures cleans { Cleans D.tells files.old keydir.old files.new keydir.new }
{
    let mut pruned: u64 = 0;
    while let Some(version) = keydir.prune_at(position) {
        take_refs(files, version);
        pruned = pruned.saturating_add(1);
    }
    pruned
}

// The number of keys whose newest version is a put.
fn count_puts(keydir: &Keydir) -> u64
    ensures puts { result ≡ sum_by has_put keydir.now.entries }
    ensures once { IsDistinct bytes_eq (keys_of keydir.now.entries) }
{
    let mut puts: u64 = 0;
    for position in 0..keydir.len() {
        if is_put_at(keydir, position) {
            puts += 1;
        }
    }
    puts
}

// Whether the newest version of the key at a position is a put.
fn is_put_at(keydir: &Keydir, position: u64) -> bool
    requires { position < length keydir.now.entries }
    ensures { result ≡ is_put (newest_of (versions_at position keydir.now.entries)) }
{
    match keydir.version_at(position, 0) {
        Some(version) => !version.gone,
        None => false,
    }
}

// The bytes of all files' records, and those that are live.
fn sums(rows: &[Row]) -> (u128, u128)
    ensures total { result.0 ≡ sum_by (λ (r : Row). r.total) rows.now }
    ensures live { result.1 ≡ sum_by (λ (r : Row). r.live) rows.now }
{
    let mut total: u128 = 0;
    let mut live: u128 = 0;
    for place in 0..number_of(rows) {
        total += wide(rows[place].total);
        live += wide(rows[place].live);
    }
    (total, live)
}

// How many there are: fewer than 2^64, so that the sums above fit.
fn number_of(rows: &[Row]) -> usize
    ensures { result ≡ length rows.now }
{
    rows.len()
}

fn wide(n: u64) -> u128
    ensures same { result ≡ n }
    ensures small { result < 2 ^ 64 }
{
    u128::from(n)
}
