//! Limits of rows and of chunks of rows.

/// The most bytes of a row's key columns.
pub const ROW_KEY_BYTES_MAX: usize = 4096;

/// The most bytes of a row value.
pub const ROW_VALUE_BYTES_MAX: usize = 32768;

/// The most entries of a chunk.
pub const CHUNK_ENTRIES_MAX: u64 = 256;
