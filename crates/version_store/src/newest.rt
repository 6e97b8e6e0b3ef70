//! The newest puts and deletions of each key.
ghost use Rattle.std.specs.Prelude.{◌≡◌, ◌++◌, ◌∷◌, [], None, IfOk, OnOk};
ghost use Rattle.version_store.specs.Lists.{entries_same, firsts, is_same, last_of};

use crate::entries::key_of;
use mvcc_keys::{Entry, Memory};
use std::alloc::Global;

fn is_of_last(kept: &[Entry], entry: &Entry) -> bool
    ensures { result ≡ is_same entries_same (last_of None kept.now) entry.now }
{
    match kept.last() {
        Some(last) => key_of(last).cmp(key_of(entry)).is_eq(),
        None => false,
    }
}

/// Keeps an entry, unless the last one kept has its key.
fn keep(kept: &mut Vec<Entry>, entry: Entry) -> Result<(), Memory>
    ensures { OnOk result (kept.new.items ≡ kept.old.items ++ firsts entries_same (last_of None kept.old.items) (entry ∷ [])) }
{
    if is_of_last(kept.as_slice(), &entry) {
        return Ok(());
    }
    kept.push(entry).map_err(|_| Memory)
}

/// Of puts and deletions by key and newest first, the first of each key.
pub fn newest_among(alloc: Global, points: Vec<Entry>) -> Result<Vec<Entry>, Memory>
    ensures { IfOk result (λ kept. kept.items ≡ firsts entries_same None points.items) }
{
    let mut kept = Vec::new(alloc);
    for entry in points {
        keep(&mut kept, entry)?;
    }
    Ok(kept)
}
