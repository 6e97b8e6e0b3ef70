//! The words that cases are given in, and texts that several answers share.
use mvcc_keys::{Hlc, Memory, parse_time};
use row_codec::Kind;
use std::alloc::Global;
use std::cmp::Ordering;

/// A line's first word, and what follows it.
pub fn first_word(line: &str) -> (&str, &str) {
    line.split_once(' ').unwrap_or((line, ""))
}

/// The bytes that hexadecimal digits spell, or none of them for the word `none`.
pub fn bytes_of(alloc: Global, digits: &str) -> Result<Vec<u8>, Memory> {
    if digits == "none" {
        return Ok(Vec::new(alloc));
    }
    hex::decode(alloc, digits).map_err(|_| Memory)
}

pub fn number_of(word: &str) -> u64 {
    word.parse().unwrap_or(0)
}

pub fn id_of(word: &str) -> u32 {
    word.parse().unwrap_or(0)
}

pub fn time_of(word: &str) -> Hlc {
    match parse_time(word.as_bytes()) {
        Ok(time) => time,
        Err(_) => Hlc::zero(),
    }
}

/// Ids with commas between them, or `none`.
pub fn ids_of(alloc: Global, list: &str) -> Result<Vec<u32>, Memory> {
    let mut ids = Vec::new(alloc);
    if list == "none" {
        return Ok(ids);
    }
    for word in list.split(',') {
        ids.push(id_of(word))?;
    }
    Ok(ids)
}

pub fn kind_of(word: &str) -> Kind {
    match word {
        "STRING" => Kind::Text,
        "BYTES" => Kind::Bytes,
        "BOOL" => Kind::Bool,
        "INT-" => Kind::IntDown,
        "STRING-" => Kind::TextDown,
        "BYTES-" => Kind::BytesDown,
        "BOOL-" => Kind::BoolDown,
        _ => Kind::Int,
    }
}

pub fn kind_text(kind: Kind) -> &'static str {
    match kind {
        Kind::Int => "INT",
        Kind::Text => "STRING",
        Kind::Bytes => "BYTES",
        Kind::Bool => "BOOL",
        Kind::IntDown => "INT-",
        Kind::TextDown => "STRING-",
        Kind::BytesDown => "BYTES-",
        Kind::BoolDown => "BOOL-",
    }
}

/// Kinds with commas between them, or `none`.
pub fn kinds_of(alloc: Global, list: &str) -> Result<Vec<Kind>, Memory> {
    let mut kinds = Vec::new(alloc);
    if list == "none" {
        return Ok(kinds);
    }
    for word in list.split(',') {
        kinds.push(kind_of(word))?;
    }
    Ok(kinds)
}

pub fn order_text(order: Ordering) -> &'static str {
    match order {
        Ordering::Less => "less",
        Ordering::Equal => "equal",
        Ordering::Greater => "greater",
    }
}

/// Appends a blank and bytes in hexadecimal digits, or ` none`.
pub fn put_bytes(bytes: &[u8], out: &mut String) -> Result<(), Memory> {
    out.push(' ')?;
    if bytes.is_empty() {
        out.push_str("none")?;
    }
    for byte in bytes {
        write!(out, "{byte:02x}")?;
    }
    Ok(())
}

/// Appends the bytes that a value is written as, and the bytes after those that it was read from.
pub fn put_spelling(spelling: &[u8], rest: &[u8], out: &mut String) -> Result<(), Memory> {
    put_bytes(spelling, out)?;
    if rest.is_empty() {
        return Ok(());
    }
    out.push_str(" then")?;
    put_bytes(rest, out)
}

/// Appends whether bytes were written as they were read.
pub fn put_again(again: &[u8], read: &[u8], out: &mut String) -> Result<(), Memory> {
    Ok(out.push_str(if again == read { " again" } else { " other" })?)
}

pub fn put_id_list(ids: &[u32], out: &mut String) -> Result<(), Memory> {
    for id in ids {
        write!(out, " {id}")?;
    }
    Ok(())
}
