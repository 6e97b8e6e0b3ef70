//! Two lists of puts and deletions as one.
ghost use Rattle.std.specs.Prelude.{◌≡◌, ◌++◌, ◌∷◌, [], take, drop, IfOk, OnOk};
ghost use Rattle.span_export.specs.Lists.{comes_before, first_passes, front, rest, merged};

use crate::cursor::{date_of, key_of};
use mvcc_keys::{Entry, Memory, cmp_mvcc};
use std::alloc::Global;
use std::collections::VecDeque;

/// Whether another put or deletion comes before an entry.
fn comes_before(entry: &Entry, other: &Entry) -> bool
    ensures { result ≡ comes_before entry.now other.now }
{
    cmp_mvcc(key_of(other), date_of(other), key_of(entry), date_of(entry)).is_lt()
}

fn is_first_before(newer: &VecDeque<Entry>, entry: &Entry) -> bool
    ensures { result ≡ first_passes (comes_before entry.now) newer.now.items }
{
    match newer.front() {
        Some(first) => comes_before(entry, first),
        None => false,
    }
}

fn move_first(merged: &mut Vec<Entry>, newer: &mut VecDeque<Entry>) -> Result<(), Memory>
    ensures moved { OnOk result (merged.new.items ≡ merged.old.items ++ take 1 newer.old.items) }
    ensures left { newer.new.items ≡ drop 1 newer.old.items }
{
    match newer.pop_front() {
        Some(first) => merged.push(first).map_err(|_| Memory),
        None => Ok(()),
    }
}

/// Moves what comes before an entry.
fn move_before(
    merged: &mut Vec<Entry>,
    newer: &mut VecDeque<Entry>,
    entry: &Entry,
) -> Result<(), Memory>
    ensures moved { OnOk result (merged.new.items ≡ merged.old.items ++ front (comes_before entry.now) newer.old.items) }
    ensures left { OnOk result (newer.new.items ≡ rest (comes_before entry.now) newer.old.items) }
{
    while is_first_before(newer, entry) {
        move_first(merged, newer)?;
    }
    Ok(())
}

fn add_merged(
    merged: &mut Vec<Entry>,
    newer: &mut VecDeque<Entry>,
    entry: Entry,
) -> Result<(), Memory>
    ensures moved { OnOk result (merged.new.items ≡ merged.old.items ++ (front (comes_before entry) newer.old.items ++ entry ∷ [])) }
    ensures left { OnOk result (newer.new.items ≡ rest (comes_before entry) newer.old.items) }
{
    move_before(merged, newer, &entry)?;
    merged.push(entry).map_err(|_| Memory)
}

/// Two lists by key and newest first, as one.
pub fn merged(alloc: Global, older: Vec<Entry>, newer: Vec<Entry>) -> Result<Vec<Entry>, Memory>
    ensures { IfOk result (λ all. all.items ≡ merged older.items newer.items) }
{
    let mut all = Vec::new(alloc);
    let mut newer = VecDeque::from(newer);
    for entry in older {
        add_merged(&mut all, &mut newer, entry)?;
    }
    let mut left = Vec::from(newer);
    all.append(&mut left)?;
    Ok(all)
}
