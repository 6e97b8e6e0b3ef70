//! The words of a line: times, names, numbers and bytes.
use mvcc_keys::{Hlc, Memory};
use std::alloc::Global;
use table_descriptors::Name;

/// The first word of a line, and what follows it.
pub fn cut(line: &str) -> (&str, &str) {
    line.split_once(' ').unwrap_or((line, ""))
}

/// The word after another one, or nothing.
pub fn after<'a>(line: &'a str, word: &str) -> &'a str {
    let mut found = false;
    for next in line.split(' ') {
        if found {
            return next;
        }
        found = next == word;
    }
    ""
}

pub fn has(line: &str, word: &str) -> bool {
    line.split(' ').any(|next| next == word)
}

pub fn number(text: &str) -> u32 {
    text.parse::<u32>().unwrap_or(0)
}

/// `5.2` is wall time 5 and counter 2, and `2` is counter 2 at wall time 0.
pub fn time(text: &str) -> Hlc {
    let (wall, counter) = text.split_once('.').unwrap_or(("0", text));
    Hlc::new(wall.parse::<u64>().unwrap_or(0), number(counter)).unwrap_or(Hlc::zero())
}

pub fn put_time(time: Hlc, out: &mut String) -> Result<(), Memory> {
    let wall = time.wall();
    let counter = time.logical();
    Ok(write!(out, "{wall}.{counter}")?)
}

pub fn name(alloc: Global, text: &str) -> Result<Name, Memory> {
    Name::parse(alloc, text.as_bytes())?.ok_or(Memory)
}

/// The database and the name of `d.t`.
pub fn table_name(alloc: Global, text: &str) -> Result<(Name, Name), Memory> {
    let (database, table) = text.split_once('.').unwrap_or((text, ""));
    let database = name(alloc, database)?;
    Ok((database, name(alloc, table)?))
}

/// The names in `d.t,d.u`.
pub fn table_names(alloc: Global, text: &str) -> Result<Vec<(Name, Name)>, Memory> {
    let mut names = Vec::new(alloc);
    for word in text.split(',') {
        if !word.is_empty() {
            names.push(table_name(alloc, word)?)?;
        }
    }
    Ok(names)
}

/// The numbers in `100,102`.
pub fn numbers(alloc: Global, text: &str) -> Result<Vec<u32>, Memory> {
    let mut numbers = Vec::new(alloc);
    for word in text.split(',') {
        if !word.is_empty() {
            numbers.push(number(word))?;
        }
    }
    Ok(numbers)
}

/// The bytes of digits in hex.
pub fn bytes(alloc: Global, digits: &str) -> Result<Vec<u8>, Memory> {
    hex::decode(alloc, digits).map_err(|_| Memory)
}

pub fn put_bytes(bytes: &[u8], out: &mut String) -> Result<(), Memory> {
    for byte in bytes {
        write!(out, "{byte:02x}")?;
    }
    Ok(())
}
