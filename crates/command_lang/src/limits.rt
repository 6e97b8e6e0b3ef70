//! The limit of a line.

/// The most bytes of a line, without its end.
pub const LINE_BYTES_MAX: usize = 65_536;
