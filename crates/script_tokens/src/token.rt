//! The tokens of a line.
use mvcc_keys::{Blob, Text};
use table_descriptors::Name;

/// A piece of a line.
#[derive(Drop)]
pub enum Token {
    /// A word in lower case.
    Word(Name),
    Number(i64),
    Text(Text),
    Bytes(Blob),
    /// One of `( ) , . ; * =`.
    Mark(u8),
    /// Bytes that form no token.
    Bad,
}
