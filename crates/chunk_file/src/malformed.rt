//! Why bytes are no chunk.

/// The bytes are off the format.
#[derive(Clone, Copy, Debug, PartialEq, Eq)]
pub struct Malformed {
    /// Where the first item begins that doesn't read or doesn't fit those before it, or the first
    /// byte left over.
    pub offset: usize,
}
