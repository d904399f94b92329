//! The journal of a disk in memory.

use bk_base::Name;

// A change that a crash can tell. What a crash may leave at each moment is a function of these: so an
// append keeps its place in the file and its bytes, and a sync its length.
#[derive(Drop)]
pub(crate) enum Change {
    Made {
        name: Name,
        lent: bool,
    },
    // All of `bytes` were handed to an append, and the first `through` of them stand at `at`.
    Handed {
        name: Name,
        at: usize,
        through: usize,
        bytes: Vec<u8>,
    },
    Synced {
        name: Name,
        len: usize,
    },
    // A lent file came back with these bytes.
    Returned {
        name: Name,
        bytes: Vec<u8>,
    },
    // A synced file was put there.
    Placed {
        name: Name,
        bytes: Vec<u8>,
    },
    Renamed {
        from: Name,
        to: Name,
    },
    Removed {
        name: Name,
    },
}
