//! A piece of the key space.
use crate::dates::Dates;
use mvcc_keys::Blob;

/// The keys from `start` up to the next piece, and the dates of the range deletions that cover
/// them.
#[derive(Drop)]
pub struct Piece {
    pub start: Blob,
    pub dates: Dates,
}
