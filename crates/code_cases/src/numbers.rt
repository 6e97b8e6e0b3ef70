//! Numbers and byte strings of keys.
use crate::words::{put_bytes, put_spelling};
use key_encoding::{
    KeyFault, KeyKind, put_bytes as write_bytes, put_bytes_down, put_uvarint, put_varint,
    put_varint_down, take_bytes, take_bytes_down, take_uvarint, take_varint, take_varint_down,
};
use mvcc_keys::Memory;
use std::alloc::Global;

pub fn fault_text(kind: KeyKind) -> &'static str {
    match kind {
        KeyKind::Short => "Short",
        KeyKind::Marker => "Marker",
        KeyKind::NotLeast => "NotLeast",
        KeyKind::Escape => "Escape",
        KeyKind::Memory => "Memory",
    }
}

pub fn put_fault(fault: KeyFault, out: &mut String) -> Result<(), Memory> {
    let kind = fault_text(fault.kind);
    let offset = fault.offset;
    Ok(write!(out, "{kind} {offset}")?)
}

fn put_number(value: u64, rest: &[u8], alloc: Global, out: &mut String) -> Result<(), Memory> {
    write!(out, "{value}")?;
    let mut spelling = Vec::new(alloc);
    put_uvarint(value, &mut spelling).map_err(|_| Memory)?;
    put_spelling(&spelling, rest, out)
}

pub fn put_unsigned(alloc: Global, bytes: &[u8], out: &mut String) -> Result<(), Memory> {
    match take_uvarint(bytes) {
        Ok((value, rest)) => put_number(value, rest, alloc, out),
        Err(fault) => put_fault(fault, out),
    }
}

/// Appends a signed number and its bytes, those of a descending column if `down`.
fn put_signed_number(
    value: i64,
    down: bool,
    rest: &[u8],
    alloc: Global,
    out: &mut String,
) -> Result<(), Memory> {
    write!(out, "{value}")?;
    let mut spelling = Vec::new(alloc);
    let written = if down {
        put_varint_down(value, &mut spelling)
    } else {
        put_varint(value, &mut spelling)
    };
    written.map_err(|_| Memory)?;
    put_spelling(&spelling, rest, out)
}

pub fn put_signed(alloc: Global, bytes: &[u8], out: &mut String) -> Result<(), Memory> {
    match take_varint(bytes) {
        Ok((value, rest)) => put_signed_number(value, false, rest, alloc, out),
        Err(fault) => put_fault(fault, out),
    }
}

pub fn put_signed_down(alloc: Global, bytes: &[u8], out: &mut String) -> Result<(), Memory> {
    match take_varint_down(bytes) {
        Ok((value, rest)) => put_signed_number(value, true, rest, alloc, out),
        Err(fault) => put_fault(fault, out),
    }
}

/// Appends a byte string and its bytes, those of a descending column if `down`.
fn put_string_of(
    value: &[u8],
    down: bool,
    rest: &[u8],
    alloc: Global,
    out: &mut String,
) -> Result<(), Memory> {
    out.push('x')?;
    put_bytes(value, out)?;
    let mut spelling = Vec::new(alloc);
    let written = if down {
        put_bytes_down(value, &mut spelling)
    } else {
        write_bytes(value, &mut spelling)
    };
    written.map_err(|_| Memory)?;
    put_spelling(&spelling, rest, out)
}

pub fn put_string(alloc: Global, bytes: &[u8], out: &mut String) -> Result<(), Memory> {
    match take_bytes(alloc, bytes) {
        Ok((value, rest)) => put_string_of(&value, false, rest, alloc, out),
        Err(fault) => put_fault(fault, out),
    }
}

pub fn put_string_down(alloc: Global, bytes: &[u8], out: &mut String) -> Result<(), Memory> {
    match take_bytes_down(alloc, bytes) {
        Ok((value, rest)) => put_string_of(&value, true, rest, alloc, out),
        Err(fault) => put_fault(fault, out),
    }
}
