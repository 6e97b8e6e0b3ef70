//! Keys under new ids.
use crate::numbers::put_fault;
use crate::words::{first_word, id_of, ids_of, put_bytes};
use key_rewriter::{IdMap, RewriteFault, are_ascending, rewrite};
use mvcc_keys::Memory;
use std::alloc::Global;

/// The map of ids to the ids from `first` on, if there is one.
fn map_of(alloc: Global, first: u32, old: &[u32]) -> Result<Option<IdMap>, Memory> {
    if !are_ascending(old) || u64::from(first) + old.len() as u64 > 1 << 32 {
        return Ok(None);
    }
    match IdMap::new(alloc, old, first) {
        Ok(map) => Ok(Some(map)),
        Err(_) => Err(Memory),
    }
}

/// The map that words name: the first new id, and the old ids.
fn named_map(alloc: Global, words: &str) -> Result<Option<IdMap>, Memory> {
    let (first, old) = first_word(words);
    let old = ids_of(alloc, old)?;
    map_of(alloc, id_of(first), &old)
}

fn put_pairs(map: &IdMap, out: &mut String) -> Result<(), Memory> {
    out.push_str("pairs")?;
    for (old, new) in map.pairs() {
        write!(out, " {old}>{new}")?;
    }
    Ok(())
}

/// Appends what the map gives for the least ids.
fn put_partners(map: &IdMap, out: &mut String) -> Result<(), Memory> {
    for id in 100..112 {
        if let Some(new) = map.get(id) {
            write!(out, " {id} gives {new}")?;
        }
    }
    Ok(())
}

/// Makes a map of ids.
pub fn put_ids(alloc: Global, words: &str, out: &mut String) -> Result<(), Memory> {
    let Some(map) = named_map(alloc, words)? else {
        return Ok(out.push_str("no map")?);
    };
    put_pairs(&map, out)?;
    put_partners(&map, out)
}

fn put_rewrite_fault(fault: RewriteFault, out: &mut String) -> Result<(), Memory> {
    match fault {
        RewriteFault::NotMapped { id } => Ok(write!(out, "not mapped {id}")?),
        RewriteFault::Key(fault) => put_fault(fault, out),
        RewriteFault::Memory => Err(Memory),
    }
}

fn put_key(alloc: Global, map: &IdMap, key: &[u8], out: &mut String) -> Result<(), Memory> {
    let mut rewritten = Vec::new(alloc);
    match rewrite(key, map, &mut rewritten) {
        Ok(()) => put_bytes(&rewritten, out),
        Err(fault) => put_rewrite_fault(fault, out),
    }
}

/// Writes a key under the new id of its table.
pub fn put_rewritten(
    alloc: Global,
    parameters: &str,
    key: &[u8],
    out: &mut String,
) -> Result<(), Memory> {
    let Some(map) = named_map(alloc, parameters)? else {
        return Ok(out.push_str("no map")?);
    };
    put_key(alloc, &map, key, out)
}
