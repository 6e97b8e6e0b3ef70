//! Limits of names, of tables and of layers.

/// The most bytes of a name.
pub const NAME_BYTES_MAX: usize = 32;

/// The most columns of a table.
pub const COLUMNS_MAX: usize = 64;

/// The greatest id that a column to be added can be given next; a table that has come to it takes
/// no more columns.
pub const NEXT_COLUMN_ID_MAX: u32 = 4294967295;

/// The most chunks of a layer, whose numbers have six digits.
pub const CHUNKS_MAX: u32 = 1_000_000;
