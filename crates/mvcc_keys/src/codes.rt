//! Times in 12 bytes, and the keys of versions, both ways.
ghost use Rattle.std.specs.Prelude.{◌≡◌, ◌++◌, ◌≤◌, length, take, OnOk, OnErr};
ghost use Rattle.std.specs.Option.{option_map};
ghost use Rattle.mvcc_keys.specs.declared.time.TheConstants.{LOGICAL_MAX};
ghost use Rattle.mvcc_keys.specs.Codes.{bytes32, bytes64, number32, number64, time_bytes, read_time_bytes, mvcc_key, counter_bytes, read_wall, read_counter, read_mvcc_key, mvcc_cmp, TimeBytesAreExact, MvccKeysAreExact};

use crate::{Hlc, LOGICAL_MAX, Memory};
use std::cmp::Ordering;

/// Appends two pieces, or none.
fn put_both(first: &[u8], second: &[u8], out: &mut Vec<u8>) -> Result<(), Memory>
    ensures appended { OnOk result (out.new.items ≡ out.old.items ++ (first.now ++ second.now)) }
    ensures kept { OnErr result (out.new.items ≡ out.old.items) }
{
    let before = out.len();
    out.extend_from_slice(first).map_err(|_| Memory)?;
    if out.extend_from_slice(second).is_err() {
        out.truncate(before);
        return Err(Memory);
    }
    Ok(())
}

#[tactic(auto, unfolding(crate::specs::Codes::number64))]
fn number64(b: &[u8]) -> u64
    requires { length b.now ≡ 8 }
    ensures { result ≡ number64 b.now }
{
    u64::from_be_bytes([b[0], b[1], b[2], b[3], b[4], b[5], b[6], b[7]])
}

#[tactic(auto, unfolding(crate::specs::Codes::number32))]
fn number32(b: &[u8]) -> u32
    requires { length b.now ≡ 4 }
    ensures { result ≡ number32 b.now }
{
    u32::from_be_bytes([b[0], b[1], b[2], b[3]])
}

#[tactic(auto, unfolding(crate::specs::Codes::bytes64))]
fn bytes64(n: u64) -> [u8; 8]
    ensures { result ≡ bytes64 n }
{
    n.to_be_bytes()
}

#[tactic(auto, unfolding(crate::specs::Codes::bytes32))]
fn bytes32(n: u32) -> [u8; 4]
    ensures { result ≡ bytes32 n }
{
    n.to_be_bytes()
}

/// Appends the 12 bytes of a time.
#[tactic(auto, unfolding(crate::specs::Codes::time_bytes))]
pub fn put_time(t: Hlc, out: &mut Vec<u8>) -> Result<(), Memory>
    ensures appended { OnOk result (out.new.items ≡ out.old.items ++ time_bytes t) }
    ensures kept { OnErr result (out.new.items ≡ out.old.items) }
{
    put_both(&bytes64(t.wall()), &bytes32(t.logical()), out)
}

/// The time whose 12 bytes stand in front, and what follows them.
#[tactic(auto, unfolding(crate::specs::Codes::read_time_bytes))]
pub fn take_time(b: &[u8]) -> Option<(Hlc, &[u8])>
    ensures { option_map (λ p. (p.0, p.1.now)) result ≡ read_time_bytes b.now }
{
    if b.len() < 12 {
        return None;
    }
    let (wall, rest) = b.split_at(8);
    let (counter, rest) = rest.split_at(4);
    match Hlc::new(number64(wall), number32(counter)) {
        Some(t) => Some((t, rest)),
        None => None,
    }
}

/// Appends the end of a version's key.
fn put_counter(logical: u32, out: &mut Vec<u8>) -> Result<(), Memory>
    ensures appended { OnOk result (out.new.items ≡ out.old.items ++ counter_bytes logical) }
    ensures kept { OnErr result (out.new.items ≡ out.old.items) }
{
    if logical == 0 {
        out.push(9).map_err(|_| Memory)
    } else {
        put_both(&bytes32(logical), &[13], out)
    }
}

/// Appends a version's key; where memory is wanting, a part of it.
#[tactic(auto, unfolding(crate::specs::Codes::mvcc_key))]
fn put_mvcc(key: &[u8], t: Hlc, out: &mut Vec<u8>) -> Result<(), Memory>
    ensures appended { OnOk result (out.new.items ≡ out.old.items ++ mvcc_key key.now t) }
    ensures kept { OnErr result (take (length out.old.items) out.new.items ≡ out.old.items) }
{
    out.extend_from_slice(key).map_err(|_| Memory)?;
    put_both(&[0], &bytes64(t.wall()), out)?;
    put_counter(t.logical(), out)
}

/// Appends the key of a key's version at a time.
pub fn encode_mvcc(key: &[u8], t: Hlc, out: &mut Vec<u8>) -> Result<(), Memory>
    ensures appended { OnOk result (out.new.items ≡ out.old.items ++ mvcc_key key.now t) }
    ensures kept { OnErr result (out.new.items ≡ out.old.items) }
{
    let before = out.len();
    let done = put_mvcc(key, t, out);
    if done.is_err() {
        out.truncate(before);
    }
    done
}

/// The key before a wall, and the time of the wall and a counter.
#[tactic(auto, unfolding(crate::specs::Codes::read_wall))]
fn split_wall(b: &[u8], logical: u32) -> Option<(&[u8], Hlc)>
    requires { logical ≤ LOGICAL_MAX }
    ensures { option_map (λ p. (p.0.now, p.1)) result ≡ read_wall b.now logical }
{
    if b.len() < 9 {
        return None;
    }
    let (key, date) = b.split_at(b.len() - 9);
    if date[0] != 0 {
        return None;
    }
    match Hlc::new(number64(date.split_at(1).1), logical) {
        Some(t) => Some((key, t)),
        None => None,
    }
}

/// The key and the time before a written counter.
#[tactic(auto, unfolding(crate::specs::Codes::read_counter))]
fn split_counter(b: &[u8]) -> Option<(&[u8], Hlc)>
    ensures { option_map (λ p. (p.0.now, p.1)) result ≡ read_counter b.now }
{
    if b.len() < 4 {
        return None;
    }
    let (front, counter) = b.split_at(b.len() - 4);
    let logical = number32(counter);
    if logical < 1 || logical > LOGICAL_MAX {
        return None;
    }
    split_wall(front, logical)
}

/// The key and the time that a version's key is of.
#[tactic(auto, unfolding(crate::specs::Codes::read_mvcc_key))]
pub fn split_mvcc(b: &[u8]) -> Option<(&[u8], Hlc)>
    ensures { option_map (λ p. (p.0.now, p.1)) result ≡ read_mvcc_key b.now }
{
    if b.is_empty() {
        return None;
    }
    let (front, last) = b.split_at(b.len() - 1);
    match last[0] {
        9 => split_wall(front, 0),
        13 => split_counter(front),
        _ => None,
    }
}

/// The order of versions: by key, and of one key the newer first.
pub fn cmp_mvcc(a: &[u8], ta: Hlc, b: &[u8], tb: Hlc) -> Ordering
    ensures { result ≡ mvcc_cmp a.now ta b.now tb }
{
    a.cmp(b).then(tb.cmp(&ta))
}

/// A law: what `take_time` reads are just the bytes that `put_time` writes, and none begins
/// another.
pub fn time_bytes_are_exact()
    ensures { TimeBytesAreExact }
{}

/// A law: what `split_mvcc` splits are just the keys that `encode_mvcc` writes.
pub fn mvcc_keys_are_exact()
    ensures { MvccKeysAreExact }
{}
