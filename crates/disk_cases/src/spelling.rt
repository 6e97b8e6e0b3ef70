//! Words of a line, and how names and bytes are spelled.
use mvcc_keys::{Memory, Text};
use sha2::{Digest, Sha256};
use std::alloc::Global;

/// A word of a line, from 0.
pub fn word(line: &str, place: usize) -> &str {
    line.split(' ').nth(place).unwrap_or("")
}

pub fn number(text: &str) -> u64 {
    text.parse::<u64>().unwrap_or(0)
}

pub fn short(text: &str) -> u32 {
    text.parse::<u32>().unwrap_or(0)
}

pub fn size(text: &str) -> usize {
    text.parse::<usize>().unwrap_or(0)
}

/// The name that a line spells: `~gate` is `gate` after the front.
pub fn name_of(alloc: Global, front: &str, text: &str) -> Result<Text, Memory> {
    let name = match text.strip_prefix('~') {
        Some(rest) => format!(in alloc; "{front}{rest}")?,
        None => String::from_str(alloc, text)?,
    };
    Ok(Text::from_string(name))
}

/// Appends a name, with `~` in place of the front.
pub fn put_name(name: &str, front: &str, out: &mut String) -> Result<(), Memory> {
    match name.strip_prefix(front) {
        Some(rest) if !front.is_empty() => Ok(write!(out, "~{rest}")?),
        _ => Ok(out.push_str(name)?),
    }
}

pub fn put_names(names: &[Text], front: &str, out: &mut String) -> Result<(), Memory> {
    for name in names {
        out.push(' ')?;
        put_name(name.as_str(), front, out)?;
    }
    Ok(())
}

/// Appends a text with `~` in place of each front.
pub fn put_shortened(text: &str, front: &str, out: &mut String) -> Result<(), Memory> {
    if front.is_empty() {
        return Ok(out.push_str(text)?);
    }
    for (place, piece) in text.split(front).enumerate() {
        if place > 0 {
            out.push('~')?;
        }
        out.push_str(piece)?;
    }
    Ok(())
}

pub fn put_hex(bytes: &[u8], out: &mut String) -> Result<(), Memory> {
    for byte in bytes {
        write!(out, "{byte:02x}")?;
    }
    Ok(())
}

/// The most bytes that are shown and not counted.
const SHOWN_MAX: usize = 64;

/// Appends `'text'`, or bytes that are no printable text in hex, or the count and the digest of
/// many.
pub fn put_bytes(bytes: &[u8], out: &mut String) -> Result<(), Memory> {
    let len = bytes.len();
    if len > SHOWN_MAX {
        write!(out, "{len} bytes ")?;
        return put_hex(&Sha256::digest(bytes), out);
    }
    if !bytes.iter().all(|byte| *byte >= 32 && *byte < 127) {
        return put_hex(bytes, out);
    }
    let text = str::from_utf8(bytes).unwrap_or("");
    Ok(write!(out, "'{text}'")?)
}
