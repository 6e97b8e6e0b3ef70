//! Words of a line, and how entries are spelled: `7=1@3` for a put of value 1 at key 7 and date 3,
//! `7-@3` for a deletion, `3..9@4` for a range deletion.
use key_encoding::{put_uvarint, take_uvarint};
use mvcc_keys::{Blob, Entry, Hlc, Memory};
use std::alloc::Global;

/// The table of all chunks.
pub const TABLE: u32 = 100;

/// A word of a line, from 0.
pub fn word(line: &str, place: usize) -> &str {
    line.split(' ').nth(place).unwrap_or("")
}

pub fn number(text: &str) -> u64 {
    text.parse::<u64>().unwrap_or(0)
}

pub fn size(text: &str) -> usize {
    text.parse::<usize>().unwrap_or(0)
}

pub fn date(text: &str) -> Hlc {
    Hlc::new(0, text.parse::<u32>().unwrap_or(0)).unwrap_or(Hlc::zero())
}

/// The row key of a number.
pub fn key(alloc: Global, number: u64) -> Result<Blob, Memory> {
    let mut bytes = Vec::new(alloc);
    put_uvarint(u64::from(TABLE), &mut bytes).or(Err(Memory))?;
    bytes.push(137)?;
    put_uvarint(number, &mut bytes).or(Err(Memory))?;
    bytes.push(136)?;
    Ok(Blob::from_vec(bytes))
}

/// The row value of a number, in column 1.
fn value(alloc: Global, number: u64) -> Result<Blob, Memory> {
    let mut bytes = Vec::new(alloc);
    put_uvarint(1, &mut bytes).or(Err(Memory))?;
    bytes.push(1)?;
    put_uvarint(number, &mut bytes).or(Err(Memory))?;
    Ok(Blob::from_vec(bytes))
}

pub fn put_of(alloc: Global, key_number: u64, value_number: u64, at: Hlc) -> Result<Entry, Memory> {
    let key = key(alloc, key_number)?;
    let value = value(alloc, value_number)?;
    Ok(Entry::Put { key, at, value })
}

fn range_of(alloc: Global, lo: u64, hi: u64, at: Hlc) -> Result<Entry, Memory> {
    let lo = key(alloc, lo)?;
    let hi = key(alloc, hi)?;
    Ok(Entry::Range { lo, hi, at })
}

fn deletion_of(alloc: Global, key_number: u64, at: Hlc) -> Result<Entry, Memory> {
    let key = key(alloc, key_number)?;
    Ok(Entry::Del { key, at })
}

pub fn entry_of(alloc: Global, text: &str) -> Result<Entry, Memory> {
    let (keys, at) = text.split_once('@').unwrap_or((text, "0"));
    if let Some((key, value)) = keys.split_once('=') {
        return put_of(alloc, number(key), number(value), date(at));
    }
    if let Some((lo, hi)) = keys.split_once("..") {
        return range_of(alloc, number(lo), number(hi), date(at));
    }
    deletion_of(
        alloc,
        number(keys.strip_suffix('-').unwrap_or(keys)),
        date(at),
    )
}

/// Appends the number that is spelled behind some bytes.
fn put_number(bytes: &[u8], before: usize, out: &mut String) -> Result<(), Memory> {
    match take_uvarint(bytes.get(before..).unwrap_or(&[])) {
        Ok((number, _)) => Ok(write!(out, "{number}")?),
        Err(_) => Ok(out.push('?')?),
    }
}

/// How many bytes stand before the number of a row key, and of a row value.
const BYTES_BEFORE: usize = 2;

fn put_date(at: Hlc, out: &mut String) -> Result<(), Memory> {
    let logical = at.logical();
    Ok(write!(out, "@{logical}")?)
}

fn put_pair(first: &[u8], mark: &str, second: &[u8], out: &mut String) -> Result<(), Memory> {
    put_number(first, BYTES_BEFORE, out)?;
    out.push_str(mark)?;
    put_number(second, BYTES_BEFORE, out)
}

fn put_deletion(key: &[u8], out: &mut String) -> Result<(), Memory> {
    put_number(key, BYTES_BEFORE, out)?;
    Ok(out.push('-')?)
}

fn put_keys(entry: &Entry, out: &mut String) -> Result<(), Memory> {
    match entry {
        Entry::Put { key, value, .. } => put_pair(key.as_slice(), "=", value.as_slice(), out),
        Entry::Del { key, .. } => put_deletion(key.as_slice(), out),
        Entry::Range { lo, hi, .. } => put_pair(lo.as_slice(), "..", hi.as_slice(), out),
    }
}

fn date_of(entry: &Entry) -> Hlc {
    match entry {
        Entry::Put { at, .. } => *at,
        Entry::Del { at, .. } => *at,
        Entry::Range { at, .. } => *at,
    }
}

pub fn put_entry(entry: &Entry, out: &mut String) -> Result<(), Memory> {
    out.push(' ')?;
    put_keys(entry, out)?;
    put_date(date_of(entry), out)
}
