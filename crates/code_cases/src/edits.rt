//! Bytes with a part changed.
use crate::words::{bytes_of, first_word};
use mvcc_keys::Memory;
use std::alloc::Global;

/// The bytes with so many of them, from a place on, replaced.
fn replaced(
    alloc: Global,
    bytes: &[u8],
    at: usize,
    count: usize,
    piece: &[u8],
) -> Result<Vec<u8>, Memory> {
    let (front, rest) = bytes.split_at(at.min(bytes.len()));
    let back = rest.split_at(count.min(rest.len())).1;
    let mut edited = Vec::from_slice(alloc, front)?;
    edited.extend_from_slice(piece)?;
    edited.extend_from_slice(back)?;
    Ok(edited)
}

/// The bytes with so many of them, from a place on, replaced: `56 0 ff` in words.
fn replaced_in(alloc: Global, bytes: &[u8], at: usize, words: &str) -> Result<Vec<u8>, Memory> {
    let (count, digits) = first_word(words);
    let piece = bytes_of(alloc, digits)?;
    replaced(alloc, bytes, at, count.parse().unwrap_or(0), &piece)
}

/// The bytes after `cut 12`, `change 56 ff`, `replace 56 1 fd00` or `append 00`.
pub fn edited(alloc: Global, bytes: &[u8], line: &str) -> Result<Vec<u8>, Memory> {
    let (word, rest) = first_word(line);
    let (place, words) = first_word(rest);
    let at = place.parse().unwrap_or(usize::MAX);
    match word {
        "cut" => replaced(alloc, bytes, at, usize::MAX, &[]),
        "append" => replaced(alloc, bytes, usize::MAX, 0, &bytes_of(alloc, place)?),
        "replace" => replaced_in(alloc, bytes, at, words),
        _ => {
            let piece = bytes_of(alloc, words)?;
            replaced(alloc, bytes, at, piece.len(), &piece)
        }
    }
}
