//! What a swap list says, and why bytes are none.

use bk_base::FileId;

/// The data files that a merge read, and those that it wrote in their place.
#[derive(Debug, Drop)]
pub struct Swap {
    pub inputs: Vec<FileId>,
    pub outputs: Vec<FileId>,
}

/// Why no list was read. The causes are tested in this order.
#[derive(Clone, Copy, Debug, PartialEq, Eq)]
pub enum SwapStop {
    /// There are fewer bytes than the list needs. With fewer than four that is 12, and where the
    /// number of the outputs can't be read, it is as if there were none.
    Short { need: u64, have: u64 },
    /// There are more bytes than the list needs.
    Long { need: u64, have: u64 },
    /// The checksum that is stored isn't that of the bytes.
    BadCheck { stored: u32, computed: u32 },
    /// A whole list stands here, and memory for it was refused.
    Memory,
}
