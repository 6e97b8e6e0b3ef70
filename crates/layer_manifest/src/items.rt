//! The items of a manifest before its tables.
ghost use Rattle.std.specs.Prelude.{◌≡◌, [], Err, length};
ghost use Rattle.table_descriptors.specs.Fields.{Reads, read_items};
ghost use Rattle.layer_manifest.specs.Manifests.{comes_after};
ghost use Rattle.layer_manifest.specs.ManifestFiles.{read_version, read_end, read_floor, read_history, read_scope_id, read_ids, scope_at, read_scope};

use mvcc_keys::{Hlc, Items};
use std::alloc::Global;
use table_descriptors::{
    FieldFault, Scope, broken, take_exactly, take_flag, take_id, take_name, take_number, take_time,
};

/// The first four bytes, which tell the version.
pub(crate) fn take_version(b: &[u8]) -> Result<(u8, &[u8]), FieldFault>
    ensures { Reads (λ p. (p.0, p.1.now)) result (read_version b.now) }
{
    let (mark, rest) = take_exactly(4, b)?;
    if mark == b"MAN1".as_slice() {
        return Ok((1, rest));
    }
    if mark == b"MAN2".as_slice() {
        return Ok((2, rest));
    }
    Err(broken(b))
}

/// The end, which is after the start and not before the time of the full layer.
pub(crate) fn take_end(full: Hlc, start: Hlc, b: &[u8]) -> Result<(Hlc, &[u8]), FieldFault>
    ensures { Reads (λ p. (p.0, p.1.now)) result (read_end full start b.now) }
{
    match take_time(b) {
        Ok((end, rest)) if start < end && full <= end => Ok((end, rest)),
        Ok(_) => Err(broken(b)),
        Err(fault) => Err(fault),
    }
}

pub(crate) fn take_floor(start: Hlc, end: Hlc, b: &[u8]) -> Result<(Hlc, &[u8]), FieldFault>
    ensures { Reads (λ p. (p.0, p.1.now)) result (read_floor start end b.now) }
{
    match take_time(b) {
        Ok((floor, rest)) if start <= floor && floor <= end => Ok((floor, rest)),
        Ok(_) => Err(broken(b)),
        Err(fault) => Err(fault),
    }
}

/// The flag of history, without which the floor is the start.
pub(crate) fn take_history(start: Hlc, floor: Hlc, b: &[u8]) -> Result<(bool, &[u8]), FieldFault>
    ensures { Reads (λ p. (p.0, p.1.now)) result (read_history start floor b.now) }
{
    let (history, rest) = take_flag(b)?;
    if !history && floor != start {
        return Err(broken(b));
    }
    Ok((history, rest))
}

fn comes_after(before: &[u32], id: u32) -> bool
    ensures { result ≡ comes_after (λ n. n) before.now id }
{
    match before.last() {
        Some(last) => *last < id,
        None => true,
    }
}

#[tactic(auto, unfolding(crate::specs::ManifestFiles::read_scope_id))]
fn take_scope_id<'a>(before: &[u32], b: &'a [u8]) -> Result<(u32, &'a [u8]), FieldFault>
    ensures { Reads (λ p. (p.0, p.1.now)) result (read_scope_id before.now b.now) }
{
    let (id, rest) = take_id(b)?;
    if !comes_after(before, id) {
        return Err(broken(b));
    }
    Ok((id, rest))
}

fn take_each_id(alloc: Global, count: u64, b: &[u8]) -> Result<(Vec<u32>, &[u8]), FieldFault>
    ensures { Reads (λ p. (p.0.items, p.1.now)) result (read_items read_scope_id count [] b.now) }
{
    let mut ids = Vec::new(alloc);
    let mut left = b;
    let mut wanted = count;
    'ids: while wanted > 0 {
        let (id, rest) = take_scope_id(ids.as_slice(), left)?;
        if ids.push(id).is_err() {
            return Err(FieldFault::Memory);
        }
        left = rest;
        wanted -= 1;
    }
    Ok((ids, left))
}

fn take_ids(alloc: Global, b: &[u8]) -> Result<(Vec<u32>, &[u8]), FieldFault>
    ensures { Reads (λ p. (p.0.items, p.1.now)) result (read_ids b.now) }
{
    let (count, rest) = take_number(b)?;
    if count < 1 {
        return Err(broken(b));
    }
    take_each_id(alloc, count, rest)
}

/// A scope after its mark.
fn take_marked(alloc: Global, mark: u8, b: &[u8]) -> Result<(Scope, &[u8]), FieldFault>
    ensures { Reads (λ p. (p.0, p.1.now)) result (scope_at mark b.now) }
{
    if mark == 1 {
        let (name, rest) = take_name(alloc, b)?;
        return Ok((Scope::Database(name), rest));
    }
    if mark == 2 {
        let (ids, rest) = take_ids(alloc, b)?;
        return Ok((Scope::Tables(Items::from_vec(ids)), rest));
    }
    Err(broken(b))
}

/// What a backup covers.
#[tactic(auto, unfolding(crate::specs::ManifestFiles::read_scope))]
pub(crate) fn take_scope(alloc: Global, b: &[u8]) -> Result<(Scope, &[u8]), FieldFault>
    ensures { Reads (λ p. (p.0, p.1.now)) result (read_scope b.now) }
{
    let Some((mark, rest)) = b.split_first() else {
        return Err(broken(b));
    };
    match take_marked(alloc, *mark, rest) {
        Ok(read) => Ok(read),
        Err(FieldFault::Broken { .. }) => Err(broken(b)),
        Err(FieldFault::Memory) => Err(FieldFault::Memory),
    }
}
