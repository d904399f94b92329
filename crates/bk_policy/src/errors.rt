//! Why a settings text was refused.

use crate::names::SettingName;

/// Why no settings were read. The causes are tested in this order, and the last three for one key
/// after the other, in the order of the keys' bytes.
#[derive(Clone, Copy, Debug, PartialEq, Eq)]
pub enum SettingsError {
    /// The text has more than 65,536 bytes.
    TooLong { len: u64 },
    /// The text isn't TOML.
    NotToml,
    /// A key is none of the four.
    UnknownKey,
    /// A setting's value is no integer.
    NotInteger(SettingName),
    /// A setting's value is out of its range.
    OutOfRange { name: SettingName, value: i64 },
    /// An allocation was refused, which may come anywhere behind the test of the length.
    Memory,
}
