//! How a drill ended.

/// How a drill ended.
#[derive(Clone, Copy, Debug, PartialEq, Eq)]
pub enum DrillEnd {
    End,
    /// No line of a script stands at this offset of the input.
    Syntax(u64),
    Source,
    Sink,
    Long,
    Memory,
}
