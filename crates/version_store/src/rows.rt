//! Rows of versions by key.
ghost use Rattle.std.specs.Option.{option_to_list};
ghost use Rattle.std.specs.Prelude.{◌≡◌, ◌++◌, ◌∷◌, [], not, IfOk, OnOk, OnErr, length, take, option_map, ◌==◌};
ghost use Rattle.range_tombstones.specs.Ranges.{newest_cover};
ghost use Rattle.fact_model.specs.Facts.{Version as FactVersion};
ghost use Rattle.version_store.specs.Tables.{entry_of};
ghost use Rattle.version_store.specs.Lists.{seen_item};
ghost use Rattle.version_store.specs.Rows.{chosen_in, first_between, first_upto, hits, hits_past, is_after, is_event, row_at, row_chosen, row_events, row_shown, rows_from, seen_past, start_of, trimmed, trimmed_rows, version_fact, version_seen, IsRowAdded, KeysAscend};

use crate::choice::Choice;
use crate::row::{Row, Version, is_between, is_hidden};
use mvcc_keys::{Blob, Entry, Hlc, Memory, cmp_mvcc};
use range_tombstones::{Fragments, Upto};
use std::alloc::Global;
use std::collections::BTreeMap;

// ---- reading

/// What a row shows as of a time.
fn row_value<'a>(row: &'a Row, ranges: &Fragments, key: &[u8], t: Hlc) -> Option<(&'a [u8], Hlc)>
    ensures { option_map version_seen result ≡ row_shown (first_upto t row.now) (newest_cover key.now t ranges.now) }
{
    let Some(version) = row.first_upto(t) else {
        return None;
    };
    if is_hidden(version.at, ranges.newest(key, t)) {
        return None;
    }
    match &version.value {
        Some(value) => Some((value.as_slice(), version.at)),
        None => None,
    }
}

/// The value of a key as of a time.
pub fn value_in<'a>(
    rows: &'a BTreeMap<Vec<u8>, Row>,
    ranges: &Fragments,
    key: &[u8],
    t: Hlc,
) -> Option<&'a [u8]>
    ensures value { option_map (λ v. v.now) result ≡ option_map (λ (v : FactVersion _). v.value) (row_shown (first_upto t (row_at key.now rows.now.entries)) (newest_cover key.now t ranges.now)) }
    ensures ordered { KeysAscend rows.now.entries }
{
    let _ = rows.len();
    match rows.get(key) {
        Some(row) => match row_value(row, ranges, key, t) {
            Some((value, _)) => Some(value),
            None => None,
        },
        None => None,
    }
}

fn add_put(
    alloc: Global,
    seen: &mut Vec<Entry>,
    key: &[u8],
    at: Hlc,
    value: &[u8],
) -> Result<(), Memory>
    ensures { OnOk result (seen.new.items ≡ seen.old.items ++ Entry.Put key.now at value.now ∷ []) }
{
    let key = Blob::copy_of(alloc, key)?;
    let value = Blob::copy_of(alloc, value)?;
    seen.push(Entry::Put { key, at, value }).map_err(|_| Memory)
}

/// Appends the put that a row shows as of a time.
fn add_row(
    alloc: Global,
    seen: &mut Vec<Entry>,
    key: &[u8],
    row: &Row,
    ranges: &Fragments,
    t: Hlc,
) -> Result<(), Memory>
    ensures { OnOk result (seen.new.items ≡ seen.old.items ++ seen_item key.now (row_shown (first_upto t row.now) (newest_cover key.now t ranges.now))) }
{
    match row_value(row, ranges, key, t) {
        None => Ok(()),
        Some((value, at)) => add_put(alloc, seen, key, at, value),
    }
}

/// The puts that are visible as of a time, by key.
#[tactic(auto, unfolding(crate::specs::Rows::hits))]
pub fn scan_rows(
    alloc: Global,
    rows: &BTreeMap<Vec<u8>, Row>,
    ranges: &Fragments,
    t: Hlc,
) -> Result<Vec<Entry>, Memory>
    ensures seen { IfOk result (λ seen. seen.items ≡ hits t ranges.now rows.now.entries) }
    ensures ordered { KeysAscend rows.now.entries }
{
    let mut seen = Vec::new(alloc);
    for (key, row) in rows.iter() {
        add_row(alloc, &mut seen, key.as_slice(), row, ranges, t)?;
    }
    Ok(seen)
}

// ---- places

/// Whether a key and a date come after a place.
fn is_after(place: &Option<(Blob, Hlc)>, key: &[u8], at: Hlc) -> bool
    ensures { result ≡ is_after place.now key.now at }
{
    match place {
        None => true,
        Some((past, date)) => cmp_mvcc(past.as_slice(), *date, key, at).is_lt(),
    }
}

fn start_key(alloc: Global, place: &Option<(Blob, Hlc)>) -> Result<Vec<u8>, Memory>
    ensures { IfOk result (λ key. key.items ≡ start_of place.now) }
{
    match place {
        Some((key, _)) => Ok(key.copy(alloc)?.into_vec()),
        None => Ok(Vec::new(alloc)),
    }
}

/// Appends the put that a row shows as of a time, where it comes after a place.
fn add_row_after(
    alloc: Global,
    seen: &mut Vec<Entry>,
    key: &[u8],
    row: &Row,
    ranges: &Fragments,
    t: Hlc,
    place: &Option<(Blob, Hlc)>,
) -> Result<(), Memory>
    ensures { OnOk result (seen.new.items ≡ seen.old.items ++ seen_past place.now key.now (row_shown (first_upto t row.now) (newest_cover key.now t ranges.now))) }
{
    let Some((value, at)) = row_value(row, ranges, key, t) else {
        return Ok(());
    };
    if !is_after(place, key, at) {
        return Ok(());
    }
    add_put(alloc, seen, key, at, value)
}

/// At least the first `n` of the puts that are visible as of a time and come after a place.
#[tactic(auto, unfolding(crate::specs::Rows::hits_past))]
pub fn scan_from(
    alloc: Global,
    rows: &BTreeMap<Vec<u8>, Row>,
    ranges: &Fragments,
    t: Hlc,
    place: &Option<(Blob, Hlc)>,
    n: usize,
) -> Result<Vec<Entry>, Memory>
    ensures seen { IfOk result (λ seen. take n seen.items ≡ take n (hits_past place.now t ranges.now (rows_from (start_of place.now) rows.now.entries))) }
    ensures ordered { KeysAscend rows.now.entries }
{
    let _ = rows.len();
    let start = start_key(alloc, place)?;
    let mut seen = Vec::new(alloc);
    for (key, row) in rows.range(start..) {
        if seen.len() >= n {
            return Ok(seen);
        }
        add_row_after(alloc, &mut seen, key.as_slice(), row, ranges, t, place)?;
    }
    Ok(seen)
}

// ---- events

fn is_event(key: &[u8], at: Hlc, from: Hlc, upto: &Upto, place: &Option<(Blob, Hlc)>) -> bool
    ensures { result ≡ is_event from upto.now place.now key.now at }
{
    is_between(from, upto, at) && is_after(place, key, at)
}

/// The entry of a version.
fn entry_of(alloc: Global, key: &[u8], version: &Version) -> Result<Entry, Memory>
    ensures { IfOk result (λ e. e ≡ entry_of (version_fact key.now version.now)) }
{
    let key = Blob::copy_of(alloc, key)?;
    let at = version.at;
    match &version.value {
        None => Ok(Entry::Del { key, at }),
        Some(value) => {
            let value = value.copy(alloc)?;
            Ok(Entry::Put { key, at, value })
        }
    }
}

fn add_event(
    alloc: Global,
    seen: &mut Vec<Entry>,
    key: &[u8],
    version: &Version,
    from: Hlc,
    upto: &Upto,
    place: &Option<(Blob, Hlc)>,
) -> Result<(), Memory>
    ensures { OnOk result (seen.new.items ≡ seen.old.items ++ row_events (is_event from upto.now place.now) key.now (version.now ∷ [])) }
{
    if !is_event(key, version.at, from, upto, place) {
        return Ok(());
    }
    let entry = entry_of(alloc, key, version)?;
    seen.push(entry).map_err(|_| Memory)
}

/// Appends the entries of some versions' events, while there are fewer than `n` entries.
fn add_events(
    alloc: Global,
    seen: &mut Vec<Entry>,
    key: &[u8],
    versions: &[Version],
    from: Hlc,
    upto: &Upto,
    place: &Option<(Blob, Hlc)>,
    n: usize,
) -> Result<(), Memory>
    ensures { OnOk result (take n seen.new.items ≡ take n (seen.old.items ++ row_events (is_event from upto.now place.now) key.now versions.now)) }
{
    for version in versions.iter() {
        if seen.len() >= n {
            return Ok(());
        }
        add_event(alloc, seen, key, version, from, upto, place)?;
    }
    Ok(())
}

/// The same of a row.
fn add_row_events(
    alloc: Global,
    seen: &mut Vec<Entry>,
    key: &[u8],
    row: &Row,
    from: Hlc,
    upto: &Upto,
    place: &Option<(Blob, Hlc)>,
    n: usize,
) -> Result<(), Memory>
    ensures { OnOk result (take n seen.new.items ≡ take n (seen.old.items ++ row_events (is_event from upto.now place.now) key.now row.now)) }
{
    let (newer, older) = row.as_slices();
    add_events(alloc, seen, key, newer, from, upto, place, n)?;
    add_events(alloc, seen, key, older, from, upto, place, n)
}

/// Appends a version's entry, where it comes after a place.
fn add_after(
    alloc: Global,
    seen: &mut Vec<Entry>,
    key: &[u8],
    version: &Version,
    place: &Option<(Blob, Hlc)>,
) -> Result<(), Memory>
    ensures { OnOk result (seen.new.items ≡ seen.old.items ++ row_events (is_after place.now) key.now (version.now ∷ [])) }
{
    if !is_after(place, key, version.at) {
        return Ok(());
    }
    let entry = entry_of(alloc, key, version)?;
    seen.push(entry).map_err(|_| Memory)
}

/// Appends the entry of a row's newest version of an interval, where it comes after a place.
fn add_newest(
    alloc: Global,
    seen: &mut Vec<Entry>,
    key: &[u8],
    row: &Row,
    from: Hlc,
    upto: &Upto,
    place: &Option<(Blob, Hlc)>,
) -> Result<(), Memory>
    ensures { OnOk result (seen.new.items ≡ seen.old.items ++ row_events (is_after place.now) key.now (option_to_list (first_between from upto.now row.now))) }
{
    match row.first_between(from, upto) {
        Some(version) => add_after(alloc, seen, key, version, place),
        None => Ok(()),
    }
}

/// Appends what a choice has of a row after a place, at least up to `n` entries.
fn add_chosen(
    alloc: Global,
    seen: &mut Vec<Entry>,
    key: &[u8],
    row: &Row,
    choice: &Choice,
    place: &Option<(Blob, Hlc)>,
    n: usize,
) -> Result<(), Memory>
    ensures { OnOk result (take n seen.new.items ≡ take n (seen.old.items ++ row_chosen choice.now place.now key.now row.now)) }
{
    match choice {
        Choice::All { from, upto } => {
            add_row_events(alloc, seen, key, row, *from, upto, place, n)
        }
        Choice::Newest { from, upto } => add_newest(alloc, seen, key, row, *from, upto, place),
    }
}

/// At least the first `n` of the puts and deletions that a choice has after a place, row by row.
#[tactic(auto, unfolding(crate::specs::Rows::chosen_in))]
pub fn events_from(
    alloc: Global,
    rows: &BTreeMap<Vec<u8>, Row>,
    choice: &Choice,
    place: &Option<(Blob, Hlc)>,
    n: usize,
) -> Result<Vec<Entry>, Memory>
    ensures seen { IfOk result (λ seen. take n seen.items ≡ take n (chosen_in choice.now place.now (rows_from (start_of place.now) rows.now.entries))) }
    ensures ordered { KeysAscend rows.now.entries }
{
    let _ = rows.len();
    let mut seen = Vec::new(alloc);
    let start = start_key(alloc, place)?;
    for (key, row) in rows.range(start..) {
        if seen.len() >= n {
            return Ok(seen);
        }
        add_chosen(alloc, &mut seen, key.as_slice(), row, choice, place, n)?;
    }
    Ok(seen)
}

// ---- changes

/// Puts a version into the row of its key.
pub fn add_version(
    rows: &mut BTreeMap<Vec<u8>, Row>,
    alloc: Global,
    key: &[u8],
    version: Version,
) -> Result<(), Memory>
    ensures ok { OnOk result (IsRowAdded (version_fact key.now version) rows.old.entries rows.new.entries) }
    ensures err { OnErr result (rows.new.entries ≡ rows.old.entries) }
{
    if let Some(row) = rows.get_mut(key) {
        let refused = row.insert(version).is_err();
        if refused {
            return Err(Memory);
        }
        return Ok(());
    }
    let Ok(key) = Vec::from_slice(alloc, key) else {
        return Err(Memory);
    };
    let mut row = Row::new(alloc);
    let refused = row.insert(version).is_err();
    if refused {
        return Err(Memory);
    }
    let refused = rows.insert(key, row).is_err();
    if refused {
        return Err(Memory);
    }
    Ok(())
}

/// Trims a row, and tells whether something is left of it.
fn is_left(key: &[u8], row: &mut Row, ranges: &Fragments, g: Hlc) -> bool
    ensures row { row.new ≡ trimmed g (newest_cover key.now g ranges.now) row.old }
    ensures left { result ≡ not (length row.new == 0) }
{
    row.trim(g, ranges.newest(key, g));
    !row.is_empty()
}

/// Keeps the versions after `g` and what the rows show at `g`.
pub fn collect_rows(rows: &mut BTreeMap<Vec<u8>, Row>, ranges: &Fragments, g: Hlc)
    ensures rows { rows.new.entries ≡ trimmed_rows g ranges.now rows.old.entries }
    ensures ordered { KeysAscend rows.old.entries }
{
    rows.retain(|key, row| is_left(key.as_slice(), row, ranges, g));
}
