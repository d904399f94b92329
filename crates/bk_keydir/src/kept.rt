//! What is kept of one key.
ghost use Rattle.std.specs.Prelude.{◌≡◌, ◌<◌, ◌∷◌, [], cond, length, position, slice_get, false, true, None, Some};
ghost use Rattle.std.specs.Vec.{vec_capacity};
ghost use Rattle.bk_keydir.specs.Kept.{IsChain, IsEmptyChain, room_in, version_in, versions_in};
ghost use Rattle.bk_keydir.specs.Keydir.{is_lone_gone, is_put_of, is_unseen, left_by_prune, moved, newest_of, older_of, pruned};
ghost use Rattle.bk_keydir.specs.Slots.{at_epoch};

use crate::slots::Slots;
use bk_base::{FileId, Moment, Seq, Version};

/// A version but for what it says of its key, which stands elsewhere.
#[derive(Clone, Copy, Debug, PartialEq, Eq)]
pub(crate) struct Place {
    pub(crate) seq: Seq,
    pub(crate) at: u64,
    pub(crate) moment: Moment,
    pub(crate) file: FileId,
    pub(crate) size: u32,
    pub(crate) crc: u32,
}

impl Place {
    fn of(version: Version) -> Place
        ensures { version_in version.gone result ≡ version }
    {
        Place {
            seq: version.seq,
            at: version.at,
            moment: version.moment,
            file: version.file,
            size: version.size,
            crc: version.crc,
        }
    }

    fn version(&self, gone: bool) -> Version
        ensures { result ≡ version_in gone self.now }
    {
        Version {
            seq: self.seq,
            at: self.at,
            moment: self.moment,
            file: self.file,
            size: self.size,
            crc: self.crc,
            gone,
        }
    }
}

/// The versions of one key. Most keys have one version, which then stands here in 40 bytes: whether
/// it is a put is told by the variant.
#[derive(Drop)]
pub(crate) enum Kept {
    Put(Place),
    Gone(Place),
    /// Newest first.
    Several(Vec<Version>),
}

const _: () = prove!(size_of::<Kept>() == 40);

impl Kept {
    /// One version alone.
    pub(crate) fn one(version: Version) -> Kept
        ensures { versions_in result ≡ version ∷ [] }
    {
        let place = Place::of(version);
        if version.gone {
            Kept::Gone(place)
        } else {
            Kept::Put(place)
        }
    }

    /// The newest version.
    pub(crate) fn newest(&self) -> Version
        requires { IsChain (versions_in self.now) }
        ensures { newest_of (versions_in self.now) ≡ Some result }
    {
        match self {
            Kept::Put(place) => place.version(false),
            Kept::Gone(place) => place.version(true),
            Kept::Several(versions) => versions[0],
        }
    }

    /// The version of this number, newest first.
    pub(crate) fn nth(&self, number: usize) -> Option<Version>
        ensures { result ≡ slice_get (versions_in self.now) number }
    {
        match self {
            Kept::Put(place) if number == 0 => Some(place.version(false)),
            Kept::Gone(place) if number == 0 => Some(place.version(true)),
            Kept::Several(versions) => versions.get(number).copied(),
            _ => None,
        }
    }

    /// How many versions there are.
    pub(crate) fn len(&self) -> usize
        ensures { result ≡ length (versions_in self.now) }
    {
        match self {
            Kept::Several(versions) => versions.len(),
            _ => 1,
        }
    }

    /// The newest version with a seq of at most the epoch.
    pub(crate) fn at_epoch(&self, epoch: Seq) -> Option<Version>
        ensures { result ≡ at_epoch epoch.0 (versions_in self.now) }
    {
        match self {
            Kept::Put(place) => up_to(place.version(false), epoch),
            Kept::Gone(place) => up_to(place.version(true), epoch),
            Kept::Several(versions) => first_up_to(versions, epoch),
        }
    }

    /// Whether there is one version, which says that the key is gone.
    pub(crate) fn is_lone_gone(&self) -> bool
        ensures { result ≡ is_lone_gone (versions_in self.now) }
    {
        match self {
            Kept::Put(_) => false,
            Kept::Gone(_) => true,
            Kept::Several(versions) => versions.len() == 1 && versions[0].gone,
        }
    }

    /// These versions with another newest one in place of theirs.
    pub(crate) fn replaced(self, version: Version) -> Kept
        ensures { versions_in result ≡ version ∷ older_of (versions_in self) }
    {
        match self {
            Kept::Several(mut versions) if !versions.is_empty() => {
                versions[0] = version;
                Kept::Several(versions)
            }
            _ => Kept::one(version),
        }
    }

    /// These versions behind a newer one; `chain` has room for all of them.
    pub(crate) fn behind(self, version: Version, chain: Vec<Version>) -> Kept
        requires empty { chain.items ≡ [] }
        requires room { length (versions_in self) < vec_capacity chain }
        ensures { versions_in result ≡ version ∷ versions_in self }
    {
        let mut versions = chain;
        let pushed = versions.push(version);
        let _ = pushed.unwrap();
        let added = match self {
            Kept::Put(place) => versions.push(place.version(false)).is_ok(),
            Kept::Gone(place) => versions.push(place.version(true)).is_ok(),
            Kept::Several(older) => versions.extend_from_slice(older.as_slice()).is_ok(),
        };
        let _ = added;
        Kept::Several(versions)
    }

    /// These versions with a newer one over them. Where the newest of them is seen they all stay, in
    /// the chain that was made ready.
    pub(crate) fn overwritten(
        self,
        version: Version,
        is_seen: bool,
        chain: &mut Option<Vec<Version>>,
    ) -> Kept
        requires empty { IsEmptyChain chain.old }
        requires room { is_seen ≡ true → length (versions_in self) < room_in chain.old }
        ensures versions { versions_in result
            ≡ version ∷ cond is_seen (versions_in self) (older_of (versions_in self)) }
        ensures empty { IsEmptyChain chain.new }
    {
        if is_seen {
            self.behind(version, chain.take().unwrap())
        } else {
            self.replaced(version)
        }
    }

    /// Moves the newest version where it is a put with this seq.
    pub(crate) fn move_if(&mut self, seq: Seq, to: FileId, at: u64) -> bool
        ensures moved { result ≡ is_put_of seq.0 (versions_in self.old) }
        ensures versions { versions_in self.new ≡ moved seq.0 to at (versions_in self.old) }
    {
        match self {
            Kept::Put(place) if place.seq == seq => {
                place.file = to;
                place.at = at;
                true
            }
            Kept::Several(versions) => move_first(versions, seq, to, at),
            _ => false,
        }
    }

    /// Takes the first of the older versions that no open fold sees.
    pub(crate) fn prune(&mut self, slots: &Slots) -> Option<Version>
        requires { IsChain (versions_in self.old) }
        ensures pruned { result ≡ pruned slots.now (versions_in self.old) }
        ensures versions { versions_in self.new ≡ left_by_prune slots.now (versions_in self.old) }
    {
        let Kept::Several(versions) = self else {
            return None;
        };
        let place = first_unseen(versions, slots)?;
        let version = versions.remove(place + 1);
        if versions.len() == 1 {
            *self = Kept::one(versions[0]);
        }
        Some(version)
    }
}

// A version, where its seq is at most the epoch.
fn up_to(version: Version, epoch: Seq) -> Option<Version>
    ensures { result ≡ at_epoch epoch.0 (version ∷ []) }
{
    if version.seq.0 <= epoch.0 {
        Some(version)
    } else {
        None
    }
}

// Moves the first version where it is a put with this seq.
fn move_first(versions: &mut Vec<Version>, seq: Seq, to: FileId, at: u64) -> bool
    ensures moved { result ≡ is_put_of seq.0 versions.old.items }
    ensures versions { versions.new.items ≡ moved seq.0 to at versions.old.items }
{
    match versions.first() {
        Some(first) if first.seq == seq && !first.gone => {
            let moved = Version {
                at,
                file: to,
                ..*first
            };
            versions[0] = moved;
            true
        }
        _ => false,
    }
}

// The first version with a seq of at most the epoch.
fn first_up_to(versions: &[Version], epoch: Seq) -> Option<Version>
    ensures { result ≡ at_epoch epoch.0 versions.now }
{
    for version in versions {
        if version.seq.0 <= epoch.0 {
            return Some(*version);
        }
    }
    None
}

// The place among the older versions of the first that no open fold sees.
fn first_unseen(versions: &[Version], slots: &Slots) -> Option<usize>
    requires { IsChain versions.now }
    ensures { result ≡ position (is_unseen slots.now versions.now) (older_of versions.now) }
{
    let older = &versions[1..];
    for place in 0..older.len() {
        if !slots.lie_within(older[place].seq, versions[place].seq) {
            return Some(place);
        }
    }
    None
}
