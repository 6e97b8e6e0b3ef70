//! The fields of a line, which are parted by single blanks.
use mvcc_keys::{Hlc, Memory, Text, parse_time};
use std::alloc::Global;
use table_descriptors::Name;

/// A field, counted from 0, and nothing after the last.
pub fn field(line: &str, index: usize) -> &str {
    line.split(' ').nth(index).unwrap_or("")
}

/// A number of 32 bits, and 0 for anything else.
pub fn id(line: &str, index: usize) -> u32 {
    field(line, index).parse::<u32>().unwrap_or(0)
}

/// A number of 64 bits, and 0 for anything else.
pub fn count(line: &str, index: usize) -> u64 {
    field(line, index).parse::<u64>().unwrap_or(0)
}

/// A number of the machine's size, and 0 for anything else.
pub fn size(line: &str, index: usize) -> usize {
    field(line, index).parse::<usize>().unwrap_or(0)
}

/// A time, and the first for anything else.
pub fn time(line: &str, index: usize) -> Hlc {
    let Ok(time) = parse_time(field(line, index).as_bytes()) else {
        return Hlc::zero();
    };
    time
}

pub fn name(alloc: Global, line: &str, index: usize) -> Result<Option<Name>, Memory> {
    Name::parse(alloc, field(line, index).as_bytes())
}

pub fn text(alloc: Global, line: &str, index: usize) -> Result<Text, Memory> {
    Text::copy_of(alloc, field(line, index))
}

/// A digest in hexadecimal digits.
pub fn digest(line: &str, index: usize) -> [u8; 32] {
    let mut digest = [0u8; 32];
    let _ = hex::decode_to_slice(field(line, index), &mut digest);
    digest
}

/// A digest, or `none`.
pub fn digest_or_none(line: &str, index: usize) -> Option<[u8; 32]> {
    if field(line, index) == "none" {
        return None;
    }
    Some(digest(line, index))
}

/// The database and the name of a table, in two fields.
pub fn table(alloc: Global, line: &str, index: usize) -> Result<Option<(Name, Name)>, Memory> {
    let Some(database) = name(alloc, line, index)? else {
        return Ok(None);
    };
    let Some(table) = name(alloc, line, index.saturating_add(1))? else {
        return Ok(None);
    };
    Ok(Some((database, table)))
}
