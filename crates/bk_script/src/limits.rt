//! The limits of a script.

/// The most bytes of a line, its line feed among them.
pub const LONGEST_LINE: usize = 256;

/// The most lines of a script.
pub const MOST_LINES: u32 = 65_536;

/// The most bytes of a key or a value that a line spells out; the least is 1.
pub const LONGEST_WORD: usize = 64;

/// The least and the greatest number of a line `max`, which are those of the setting `max_file`.
pub(crate) const LEAST_MAX_FILE: u64 = 4_096;

pub(crate) const GREATEST_MAX_FILE: u64 = 1_073_741_824;
