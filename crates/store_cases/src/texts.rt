//! Words of a line, and how values are spelled.
use key_encoding::{put_uvarint, take_uvarint};
use mvcc_keys::{Blob, Entry, Hlc, Memory};
use range_tombstones::Upto;
use std::alloc::Global;

/// The table of a key that names none.
pub const TABLE: u32 = 100;

/// A word of a line, from 0.
pub fn word(line: &str, place: usize) -> &str {
    line.split(' ').nth(place).unwrap_or("")
}

pub fn number(text: &str) -> u64 {
    text.parse::<u64>().unwrap_or(0)
}

pub fn short(text: &str) -> u32 {
    text.parse::<u32>().unwrap_or(0)
}

pub fn size(text: &str) -> usize {
    text.parse::<usize>().unwrap_or(0)
}

/// The time `wall.logical`, or `logical` at wall 0.
pub fn time(text: &str) -> Hlc {
    let (wall, logical) = text.split_once('.').unwrap_or(("0", text));
    Hlc::new(number(wall), short(logical)).unwrap_or(Hlc::zero())
}

/// An end of an interval: `5` with that time, `<5` before it.
pub fn upto(text: &str) -> Upto {
    match text.strip_prefix('<') {
        Some(end) => Upto::Before(time(end)),
        None => Upto::At(time(text)),
    }
}

/// The key `table/bytes`, or `bytes` in table 100.
pub fn key(alloc: Global, text: &str) -> Result<Blob, Memory> {
    let (table, rest) = match text.split_once('/') {
        Some((table, rest)) => (short(table), rest),
        None => (TABLE, text),
    };
    let mut bytes = Vec::new(alloc);
    put_uvarint(u64::from(table), &mut bytes).or(Err(Memory))?;
    bytes.extend_from_slice(rest.as_bytes())?;
    Ok(Blob::from_vec(bytes))
}

pub fn put_time(time: Hlc, out: &mut String) -> Result<(), Memory> {
    let (wall, logical) = (time.wall(), time.logical());
    if wall == 0 {
        Ok(write!(out, "{logical}")?)
    } else {
        Ok(write!(out, "{wall}.{logical}")?)
    }
}

/// Appends bytes that are text.
pub fn put_text(bytes: &[u8], out: &mut String) -> Result<(), Memory> {
    Ok(out.push_str(str::from_utf8(bytes).unwrap_or("?"))?)
}

pub fn put_key(key: &[u8], out: &mut String) -> Result<(), Memory> {
    let Ok((table, rest)) = take_uvarint(key) else {
        return Ok(out.push('?')?);
    };
    if table != u64::from(TABLE) {
        write!(out, "{table}/")?;
    }
    put_text(rest, out)
}

fn put_date(at: Hlc, out: &mut String) -> Result<(), Memory> {
    out.push('@')?;
    put_time(at, out)
}

fn put_value(key: &[u8], value: &[u8], out: &mut String) -> Result<(), Memory> {
    put_key(key, out)?;
    out.push('=')?;
    put_text(value, out)
}

fn put_deletion(key: &[u8], out: &mut String) -> Result<(), Memory> {
    put_key(key, out)?;
    Ok(out.push('-')?)
}

fn put_range(lo: &[u8], hi: &[u8], out: &mut String) -> Result<(), Memory> {
    put_key(lo, out)?;
    out.push_str("..")?;
    put_key(hi, out)
}

fn put_fact(entry: &Entry, out: &mut String) -> Result<(), Memory> {
    match entry {
        Entry::Put { key, value, .. } => put_value(key.as_slice(), value.as_slice(), out),
        Entry::Del { key, .. } => put_deletion(key.as_slice(), out),
        Entry::Range { lo, hi, .. } => put_range(lo.as_slice(), hi.as_slice(), out),
    }
}

pub fn date_of(entry: &Entry) -> Hlc {
    match entry {
        Entry::Put { at, .. } => *at,
        Entry::Del { at, .. } => *at,
        Entry::Range { at, .. } => *at,
    }
}

/// Appends ` k=v@3` for a put, ` k-@3` for a deletion, ` k..m@3` for a range deletion.
pub fn put_entries(entries: &[Entry], out: &mut String) -> Result<(), Memory> {
    for entry in entries {
        out.push(' ')?;
        put_fact(entry, out)?;
        put_date(date_of(entry), out)?;
    }
    Ok(())
}
