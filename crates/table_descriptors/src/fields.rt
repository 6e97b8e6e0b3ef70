//! Fields of files. A reader answers a value and what follows it, or how many bytes are left where
//! the first item begins that doesn't read.
ghost use Rattle.std.specs.Prelude.{◌≡◌, ◌++◌, length, take, OnOk, OnErr};
ghost use Rattle.key_encoding.specs.Spelling.{uvarint};
ghost use Rattle.table_descriptors.specs.Fields.{Reads, list_code, read_number, read_id, read_count, read_exactly, read_sized, read_name, read_time, read_byte, flag_of};
ghost use Rattle.table_descriptors.specs.declared.fields.FieldFault.TheVariants.{Broken};

use crate::names::Name;
use mvcc_keys::{Hlc, Memory};
use std::alloc::Global;

/// Why fields weren't read.
#[derive(Clone, Copy, Debug, PartialEq, Eq)]
pub enum FieldFault {
    /// So many bytes are left where the first item begins that doesn't read.
    Broken { left: usize },
    /// Want of memory.
    Memory,
}

impl From<Memory> for FieldFault {
    ghost use Rattle.std.specs.Prelude.{◌≡◌};
    ghost use Rattle.table_descriptors.specs.declared.fields.FieldFault.TheVariants.{Memory as no_memory};

    ghost from_gives = { λ _ e. e ≡ no_memory };

    fn from(_refused: Memory) -> FieldFault {
        FieldFault::Memory
    }
}

/// Appends a number.
pub fn put_number(n: u64, out: &mut Vec<u8>) -> Result<(), Memory>
    ensures ok { OnOk result (out.new.items ≡ out.old.items ++ uvarint n) }
    ensures err { OnErr result (out.new.items ≡ out.old.items) }
{
    key_encoding::put_uvarint(n, out).map_err(|_| Memory)
}

/// Appends the number of some ids, and the ids; where memory is wanting, a part of them.
pub fn put_ids(ids: &[u32], out: &mut Vec<u8>) -> Result<(), Memory>
    ensures ok { OnOk result (out.new.items ≡ out.old.items ++ list_code uvarint ids.now) }
    ensures err { OnErr result (take (length out.old.items) out.new.items ≡ out.old.items) }
{
    put_number(ids.len() as u64, out)?;
    for id in ids {
        put_number(u64::from(*id), out)?;
    }
    Ok(())
}

/// The fault of an item that begins where these bytes do.
pub fn broken(b: &[u8]) -> FieldFault
    ensures { result ≡ Broken (length b.now) }
{
    FieldFault::Broken { left: b.len() }
}

/// A number of 64 bits.
pub fn take_number(b: &[u8]) -> Result<(u64, &[u8]), FieldFault>
    ensures { Reads (λ p. (p.0, p.1.now)) result (read_number b.now) }
{
    match key_encoding::take_uvarint(b) {
        Ok((n, rest)) => Ok((n, rest)),
        Err(_) => Err(broken(b)),
    }
}

/// A number of 32 bits.
pub fn take_id(b: &[u8]) -> Result<(u32, &[u8]), FieldFault>
    ensures { Reads (λ p. (p.0, p.1.now)) result (read_id b.now) }
{
    let (n, rest) = take_number(b)?;
    if n > u64::from(u32::MAX) {
        return Err(broken(b));
    }
    Ok((n as u32, rest))
}

/// A number of 32 bits from 1.
pub fn take_count(b: &[u8]) -> Result<(u32, &[u8]), FieldFault>
    ensures { Reads (λ p. (p.0, p.1.now)) result (read_count b.now) }
{
    let (n, rest) = take_id(b)?;
    if n == 0 {
        return Err(broken(b));
    }
    Ok((n, rest))
}

/// So many bytes.
pub fn take_exactly(n: u64, b: &[u8]) -> Result<(&[u8], &[u8]), FieldFault>
    ensures { Reads (λ p. (p.0.now, p.1.now)) result (read_exactly n b.now) }
{
    if n > b.len() as u64 {
        return Err(broken(b));
    }
    Ok(b.split_at(n as usize))
}

/// Bytes after their length.
pub fn take_sized(b: &[u8]) -> Result<(&[u8], &[u8]), FieldFault>
    ensures { Reads (λ p. (p.0.now, p.1.now)) result (read_sized b.now) }
{
    let (n, rest) = take_number(b)?;
    if n > rest.len() as u64 {
        return Err(broken(b));
    }
    Ok(rest.split_at(n as usize))
}

/// A name after its length.
pub fn take_name(alloc: Global, b: &[u8]) -> Result<(Name, &[u8]), FieldFault>
    ensures { Reads (λ p. (p.0, p.1.now)) result (read_name b.now) }
{
    let (bytes, rest) = take_sized(b)?;
    match Name::parse(alloc, bytes)? {
        Some(name) => Ok((name, rest)),
        None => Err(broken(b)),
    }
}

pub fn take_time(b: &[u8]) -> Result<(Hlc, &[u8]), FieldFault>
    ensures { Reads (λ p. (p.0, p.1.now)) result (read_time b.now) }
{
    match mvcc_keys::take_time(b) {
        Some((t, rest)) => Ok((t, rest)),
        None => Err(broken(b)),
    }
}

/// `00` for false, `01` for true.
pub fn take_flag(b: &[u8]) -> Result<(bool, &[u8]), FieldFault>
    ensures { Reads (λ p. (p.0, p.1.now)) result (read_byte flag_of b.now) }
{
    match b.split_first() {
        Some((0, rest)) => Ok((false, rest)),
        Some((1, rest)) => Ok((true, rest)),
        _ => Err(broken(b)),
    }
}
