//! Calls on both stores.
use crate::exports::{is_export, put_export};
use crate::version_calls::{call_of, put_answer};
use mvcc_keys::Memory;
use std::alloc::Global;
use version_store::{FactList, MvccMap, VersionCall, Versions, replay};

/// The two stores, which are made the same calls.
#[derive(Drop)]
struct Stores {
    list: FactList,
    map: MvccMap,
}

/// Makes the calls on a store, and answers a line for each.
fn replayed<V: Versions>(
    alloc: Global,
    store: &mut V,
    calls: &[VersionCall],
) -> Result<String, Memory> {
    let mut text = String::new(alloc);
    for answer in &replay(alloc, store, calls)? {
        put_answer(answer, &mut text)?;
        text.push('\n')?;
    }
    Ok(text)
}

fn exported<V: Versions>(alloc: Global, store: &V, line: &str) -> Result<String, Memory> {
    let mut text = String::new(alloc);
    put_export(alloc, store, line, &mut text)?;
    Ok(text)
}

/// Appends what both stores answer, once where they agree.
fn put_both(list: &str, map: &str, out: &mut String) -> Result<(), Memory> {
    if list == map {
        return Ok(out.push_str(list)?);
    }
    Ok(write!(out, "the list answers\n{list}and the map\n{map}")?)
}

impl Stores {
    fn new(alloc: Global) -> Stores {
        Stores {
            list: FactList::new(alloc),
            map: MvccMap::new(alloc),
        }
    }

    /// Makes the calls that came, and forgets them.
    fn replay(
        &mut self,
        alloc: Global,
        calls: &mut Vec<VersionCall>,
        out: &mut String,
    ) -> Result<(), Memory> {
        let list = replayed(alloc, &mut self.list, calls)?;
        let map = replayed(alloc, &mut self.map, calls)?;
        calls.clear();
        put_both(list.as_str(), map.as_str(), out)
    }

    fn export(&self, alloc: Global, line: &str, out: &mut String) -> Result<(), Memory> {
        let list = exported(alloc, &self.list, line)?;
        let map = exported(alloc, &self.map, line)?;
        put_both(list.as_str(), map.as_str(), out)
    }
}

/// Makes the calls of the lines on stores without facts.
pub fn answer(alloc: Global, lines: &str, out: &mut String) -> Result<(), Memory> {
    let mut stores = Stores::new(alloc);
    let mut calls = Vec::new(alloc);
    for line in lines.split('\n').filter(|line| !line.is_empty()) {
        if is_export(line) {
            stores.replay(alloc, &mut calls, out)?;
            stores.export(alloc, line, out)?;
        } else {
            calls.push(call_of(alloc, line)?)?;
        }
    }
    stores.replay(alloc, &mut calls, out)
}
