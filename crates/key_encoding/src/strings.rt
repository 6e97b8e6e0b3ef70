//! The codes of bytes. `down` says that each byte after the marker is written as its complement.
ghost use Rattle.std.specs.Prelude.{◌≡◌, ◌++◌, ◌∷◌, ◌≤◌, length, map, take, false, OnOk, OnErr};
ghost use Rattle.key_encoding.specs.Spelling.{turned, escape, escaped, bytes_code, bytes_down_code};
ghost use Rattle.key_encoding.specs.Reading.{read_bytes, read_bytes_down, read_marked, read_next, result_now, unescaped, Answers};

use crate::{KeyFault, KeyKind, Memory};
use std::alloc::Global;

/// The byte, or its complement in a descending column.
fn complement_if(byte: u8, down: bool) -> u8
    ensures { result ≡ turned down byte }
{
    if down { 255 - byte } else { byte }
}

/// Appends one byte, escaped.
fn put_escaped(byte: u8, down: bool, out: &mut Vec<u8>) -> Result<(), Memory>
    ensures ok { OnOk result (out.new.items ≡ out.old.items ++ map (turned down) (escape byte)) }
    ensures err { OnErr result (out.new.items ≡ out.old.items) }
{
    if byte == 0 {
        out.extend_from_slice(&[complement_if(0, down), complement_if(255, down)])
            .map_err(|_| Memory)
    } else {
        out.push(complement_if(byte, down)).map_err(|_| Memory)
    }
}

/// Appends a marker and bytes, escaped; where memory is wanting, a part of them.
fn put_each(marker: u8, b: &[u8], down: bool, out: &mut Vec<u8>) -> Result<(), Memory>
    ensures ok { OnOk result (out.new.items ≡ out.old.items ++ marker ∷ map (turned down) (escaped b.now)) }
    ensures err { OnErr result (take (length out.old.items) out.new.items ≡ out.old.items) }
{
    out.push(marker).map_err(|_| Memory)?;
    for byte in b {
        put_escaped(*byte, down, out)?;
    }
    out.extend_from_slice(&[complement_if(0, down), complement_if(1, down)])
        .map_err(|_| Memory)
}

fn put_marked(marker: u8, b: &[u8], down: bool, out: &mut Vec<u8>) -> Result<(), Memory>
    ensures ok { OnOk result (out.new.items ≡ out.old.items ++ marker ∷ map (turned down) (escaped b.now)) }
    ensures err { OnErr result (out.new.items ≡ out.old.items) }
{
    let before = out.len();
    let done = put_each(marker, b, down, out);
    if done.is_err() {
        out.truncate(before);
    }
    done
}

/// Appends the spelling of some bytes.
pub fn put_bytes(b: &[u8], out: &mut Vec<u8>) -> Result<(), Memory>
    ensures ok { OnOk result (out.new.items ≡ out.old.items ++ bytes_code b.now) }
    ensures err { OnErr result (out.new.items ≡ out.old.items) }
{
    put_marked(0x12, b, false, out)
}

/// Appends the spelling of some bytes whose order is turned round.
pub fn put_bytes_down(b: &[u8], out: &mut Vec<u8>) -> Result<(), Memory>
    ensures ok { OnOk result (out.new.items ≡ out.old.items ++ bytes_down_code b.now) }
    ensures err { OnErr result (out.new.items ≡ out.old.items) }
{
    put_marked(0x13, b, true, out)
}

/// The next of a string's bytes, or none at its end, and what follows. The offset of a fault
/// counts in the whole input, of `len` bytes.
pub fn next_escaped(left: &[u8], len: usize, down: bool) -> Result<(Option<u8>, &[u8]), KeyFault>
    requires { length left.now ≤ len }
    ensures { result_now result ≡ read_next down len left.now }
{
    let Some((first, rest)) = left.split_first() else {
        return Err(KeyFault::at(KeyKind::Short, len));
    };
    let first = complement_if(*first, down);
    if first != 0 {
        return Ok((Some(first), rest));
    }
    let Some((second, after)) = rest.split_first() else {
        return Err(KeyFault::at(KeyKind::Short, len));
    };
    match complement_if(*second, down) {
        255 => Ok((Some(0), after)),
        1 => Ok((None, after)),
        _ => Err(KeyFault::at(KeyKind::Escape, len - rest.len())),
    }
}

/// Reads escaped bytes in an input of `len` bytes.
fn take_escaped(
    alloc: Global,
    b: &[u8],
    len: usize,
    down: bool,
) -> Result<(Vec<u8>, &[u8]), KeyFault>
    requires { length b.now ≤ len }
    ensures { Answers result (unescaped down len false b.now) }
{
    let mut value = Vec::new(alloc);
    let mut left = b;
    loop {
        match next_escaped(left, len, down) {
            Ok((Some(byte), rest)) => {
                if value.push(byte).is_err() {
                    return Err(KeyFault::at(KeyKind::Memory, 0));
                }
                left = rest;
            }
            Ok((None, rest)) => return Ok((value, rest)),
            Err(fault) => return Err(fault),
        }
    }
}

fn take_marked(
    alloc: Global,
    marker: u8,
    b: &[u8],
    down: bool,
) -> Result<(Vec<u8>, &[u8]), KeyFault>
    ensures { Answers result (read_marked down marker b.now) }
{
    let Some((first, rest)) = b.split_first() else {
        return Err(KeyFault::at(KeyKind::Short, 0));
    };
    if *first != marker {
        return Err(KeyFault::at(KeyKind::Marker, 0));
    }
    take_escaped(alloc, rest, b.len(), down)
}

/// Reads the bytes whose spelling stands in front, and hands out what follows it.
pub fn take_bytes(alloc: Global, b: &[u8]) -> Result<(Vec<u8>, &[u8]), KeyFault>
    ensures { Answers result (read_bytes b.now) }
{
    take_marked(alloc, 0x12, b, false)
}

/// Reads the bytes whose spelling in the order turned round stands in front, and hands out what
/// follows it.
pub fn take_bytes_down(alloc: Global, b: &[u8]) -> Result<(Vec<u8>, &[u8]), KeyFault>
    ensures { Answers result (read_bytes_down b.now) }
{
    take_marked(alloc, 0x13, b, true)
}
