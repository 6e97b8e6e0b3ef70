//! The codes of numbers.
ghost use Rattle.std.specs.Prelude.{◌≡◌, ◌++◌, ◌∷◌, ◌≤◌, ◌<◌, ◌^◌, length, ◌-◌, IfOk, OnOk, OnErr};
ghost use Rattle.key_encoding.specs.Spelling.{byte_count, uvarint, negative, varint, varint_down};
ghost use Rattle.key_encoding.specs.Reading.{number_of, read_uvarint, read_negative, read_signed, read_varint, read_varint_down, result_now, signed};

use crate::{KeyFault, KeyKind, Memory};

/// How many bytes a number takes, from 1.
fn byte_count(v: u64) -> usize
    ensures count { result ≡ byte_count v }
    ensures least { 1 ≤ result }
    ensures most { result ≤ 8 }
{
    match v {
        0..=0xff => 1,
        0x100..=0xffff => 2,
        0x1_0000..=0xff_ffff => 3,
        0x100_0000..=0xffff_ffff => 4,
        0x1_0000_0000..=0xff_ffff_ffff => 5,
        0x100_0000_0000..=0xffff_ffff_ffff => 6,
        0x1_0000_0000_0000..=0xff_ffff_ffff_ffff => 7,
        _ => 8,
    }
}

fn put_digits(marker: u8, digits: &[u8], out: &mut Vec<u8>) -> Result<(), Memory>
    ensures ok { OnOk result (out.new.items ≡ out.old.items ++ marker ∷ digits.now) }
    ensures err { OnErr result (out.new.items ≡ out.old.items) }
{
    out.push(marker).map_err(|_| Memory)?;
    if out.extend_from_slice(digits).is_err() {
        out.pop();
        return Err(Memory);
    }
    Ok(())
}

/// Appends the spelling of a number.
pub fn put_uvarint(v: u64, out: &mut Vec<u8>) -> Result<(), Memory>
    ensures ok { OnOk result (out.new.items ≡ out.old.items ++ uvarint v) }
    ensures err { OnErr result (out.new.items ≡ out.old.items) }
{
    if v < 110 {
        return out.push(136 + v as u8).map_err(|_| Memory);
    }
    let count = byte_count(v);
    put_digits(245 + count as u8, &v.to_be_bytes()[8 - count..], out)
}

/// Appends the spelling of `-1 - k`.
fn put_negative(k: u64, out: &mut Vec<u8>) -> Result<(), Memory>
    requires { k < 2 ^ 63 }
    ensures ok { OnOk result (out.new.items ≡ out.old.items ++ negative k) }
    ensures err { OnErr result (out.new.items ≡ out.old.items) }
{
    let count = byte_count(k + 1);
    put_digits(
        136 - count as u8,
        &(u64::MAX - k).to_be_bytes()[8 - count..],
        out,
    )
}

/// Appends the spelling of a signed number.
pub fn put_varint(v: i64, out: &mut Vec<u8>) -> Result<(), Memory>
    ensures ok { OnOk result (out.new.items ≡ out.old.items ++ varint v) }
    ensures err { OnErr result (out.new.items ≡ out.old.items) }
{
    if v < 0 {
        put_negative((-1 - v) as u64, out)
    } else {
        put_uvarint(v as u64, out)
    }
}

/// Appends the spelling of a signed number whose order is turned round.
pub fn put_varint_down(v: i64, out: &mut Vec<u8>) -> Result<(), Memory>
    ensures ok { OnOk result (out.new.items ≡ out.old.items ++ varint_down v) }
    ensures err { OnErr result (out.new.items ≡ out.old.items) }
{
    if v < 0 {
        put_uvarint((-1 - v) as u64, out)
    } else {
        put_negative(v as u64, out)
    }
}

/// The number of up to 8 digits, the highest first.
fn number_of(digits: &[u8]) -> u64
    requires { length digits.now ≤ 8 }
    ensures value { result ≡ number_of digits.now }
    ensures fits { result < 256 ^ length digits.now }
{
    let mut v = 0;
    for digit in digits {
        v = v * 256 + u64::from(*digit);
    }
    v
}

/// Reads the number whose spelling stands in front, and hands out what follows it.
pub fn take_uvarint(b: &[u8]) -> Result<(u64, &[u8]), KeyFault>
    ensures { result_now result ≡ read_uvarint b.now }
{
    let Some((first, rest)) = b.split_first() else {
        return Err(KeyFault::at(KeyKind::Short, 0));
    };
    if *first < 136 || *first > 253 {
        return Err(KeyFault::at(KeyKind::Marker, 0));
    }
    if *first <= 245 {
        return Ok((u64::from(*first - 136), rest));
    }
    let count = usize::from(*first - 245);
    if rest.len() < count {
        return Err(KeyFault::at(KeyKind::Short, b.len()));
    }
    let (digits, rest) = rest.split_at(count);
    let v = number_of(digits);
    if v < 110 || byte_count(v) != count {
        return Err(KeyFault::at(KeyKind::NotLeast, 0));
    }
    Ok((v, rest))
}

/// The greatest number of some digits.
fn greatest(count: usize) -> u64
    requires least { 1 ≤ count }
    requires most { count ≤ 8 }
    ensures { result ≡ 256 ^ count - 1 }
{
    u64::MAX >> (64 - 8 * count)
}

/// The `k` of the spelling of `-1 - k` with some digits, in an input of `len` bytes.
fn take_negative(count: usize, b: &[u8], len: usize) -> Result<(u64, &[u8]), KeyFault>
    requires least { 1 ≤ count }
    requires most { count ≤ 8 }
    ensures value { result_now result ≡ read_negative count len b.now }
    ensures fits { IfOk result (λ p. p.0 < 2 ^ 63) }
{
    if b.len() < count {
        return Err(KeyFault::at(KeyKind::Short, len));
    }
    let (digits, rest) = b.split_at(count);
    let k = greatest(count) - number_of(digits);
    if k > i64::MAX as u64 || byte_count(k + 1) != count {
        return Err(KeyFault::at(KeyKind::NotLeast, 0));
    }
    Ok((k, rest))
}

/// Reads a signed number as `v` or, with `true`, as the `k` of `-1 - k`.
fn take_signed(b: &[u8]) -> Result<((bool, u64), &[u8]), KeyFault>
    ensures value { result_now result ≡ read_signed b.now }
    ensures fits { IfOk result (λ p. p.0.1 < 2 ^ 63) }
{
    let Some((first, rest)) = b.split_first() else {
        return Err(KeyFault::at(KeyKind::Short, 0));
    };
    if *first >= 128 && *first < 136 {
        return match take_negative(usize::from(136 - *first), rest, b.len()) {
            Ok((k, rest)) => Ok(((true, k), rest)),
            Err(fault) => Err(fault),
        };
    }
    match take_uvarint(b) {
        Ok((v, rest)) if v <= i64::MAX as u64 => Ok(((false, v), rest)),
        Ok(_) => Err(KeyFault::at(KeyKind::NotLeast, 0)),
        Err(fault) => Err(fault),
    }
}

fn signed(negative: bool, k: u64) -> i64
    requires { k < 2 ^ 63 }
    ensures { result ≡ signed negative k }
{
    if negative { -1 - k as i64 } else { k as i64 }
}

/// Reads the signed number whose spelling stands in front, and hands out what follows it.
pub fn take_varint(b: &[u8]) -> Result<(i64, &[u8]), KeyFault>
    ensures { result_now result ≡ read_varint b.now }
{
    match take_signed(b) {
        Ok(((negative, k), rest)) => Ok((signed(negative, k), rest)),
        Err(fault) => Err(fault),
    }
}

/// Reads the signed number whose spelling in the order turned round stands in front, and hands
/// out what follows it.
pub fn take_varint_down(b: &[u8]) -> Result<(i64, &[u8]), KeyFault>
    ensures { result_now result ≡ read_varint_down b.now }
{
    match take_signed(b) {
        Ok(((negative, k), rest)) => Ok((signed(!negative, k), rest)),
        Err(fault) => Err(fault),
    }
}
