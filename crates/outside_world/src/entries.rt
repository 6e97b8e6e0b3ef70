//! Lists by name: a disk's objects, and its touched names.
ghost use Rattle.std.specs.Prelude.{◌≡◌, ◌<◌, ◌≤◌, ℕ, List, length, take_while, Some, None, T, map, IfOk, OnOk, OnErr, option_map, vec_len, vec_capacity};
ghost use Rattle.std.specs.FinMap.{keys};
ghost use Rattle.std.specs.Cmp.Lexicographic.{slice_cmp};
ghost use Rattle.std.specs.Ordering.{is_gt, nat_cmp};
ghost use Rattle.outside_world.specs.Objects.{at};
ghost use Rattle.outside_world.specs.Entries.{IsSet, IsTouched, in_order, are_in_order, objects_of, others, last_value};

use mvcc_keys::{Blob, Memory, Text};
use std::alloc::Global;

/// A copy of each entry.
pub(crate) fn copy_entries(
    alloc: Global,
    entries: &[(Text, Blob)],
) -> Result<Vec<(Text, Blob)>, Memory>
    ensures { IfOk result (λ all. all.items ≡ entries.now) }
{
    let mut all = Vec::with_capacity(alloc, entries.len())?;
    for entry in entries {
        all.push((entry.0.copy(alloc)?, entry.1.copy(alloc)?))?;
    }
    Ok(all)
}

/// A copy of each name.
pub(crate) fn copy_names(alloc: Global, names: &[Text]) -> Result<Vec<Text>, Memory>
    ensures { IfOk result (λ all. all.items ≡ names.now) }
{
    let mut all = Vec::with_capacity(alloc, names.len())?;
    for name in names {
        all.push(name.copy(alloc)?)?;
    }
    Ok(all)
}

/// The name of each entry.
pub(crate) fn names_of(alloc: Global, entries: &[(Text, Blob)]) -> Result<Vec<Text>, Memory>
    requires { T (in_order entries.now) }
    ensures { IfOk result (λ names. names.items ≡ keys (objects_of entries.now)) }
{
    let mut names = Vec::with_capacity(alloc, entries.len())?;
    for entry in entries {
        names.push(entry.0.copy(alloc)?)?;
    }
    Ok(names)
}

/// A copy of the bytes under a name.
pub(crate) fn bytes_of(
    alloc: Global,
    entries: &[(Text, Blob)],
    name: &Text,
) -> Result<Option<Vec<u8>>, Memory>
    requires { T (in_order entries.now) }
    ensures { IfOk result (λ found. option_map (λ v. v.items) found ≡ at (objects_of entries.now) name.now) }
{
    for entry in entries {
        if name.as_bytes().cmp(entry.0.as_bytes()).is_eq() {
            return Ok(Some(entry.1.copy(alloc)?.into_vec()));
        }
    }
    Ok(None)
}

/// Removes what stands under a name.
pub(crate) fn remove_entry(entries: &mut Vec<(Text, Blob)>, name: &Text)
    requires { T (in_order entries.old.items) }
    ensures items { entries.new.items ≡ others (λ e. e.0) name.now entries.old.items }
    ensures set { IsSet name.now None entries.old.items entries.new.items }
    ensures len { vec_len entries.new ≤ vec_len entries.old }
    ensures capacity { vec_capacity entries.new ≡ vec_capacity entries.old }
{
    entries.retain(|entry| name.as_bytes().cmp(entry.0.as_bytes()).is_ne());
}

/// How many entries come before a name's.
fn entry_place(entries: &[(Text, Blob)], name: &Text) -> usize
    ensures { result ≡ length (take_while (λ e. is_gt (slice_cmp nat_cmp name.now e.0)) entries.now) }
{
    entries
        .iter()
        .take_while(|entry| name.as_bytes().cmp(entry.0.as_bytes()).is_gt())
        .count()
}

/// Sets what stands under a name.
pub(crate) fn put_entry(entries: &mut Vec<(Text, Blob)>, name: Text, bytes: Blob)
    requires ordered { T (in_order entries.old.items) }
    requires room { vec_len entries.old < vec_capacity entries.old }
    ensures { IsSet name (Some bytes) entries.old.items entries.new.items }
{
    remove_entry(entries, &name);
    let place = entry_place(entries, &name);
    entries.insert(place, (name, bytes)).unwrap();
}

/// These objects by name. Of two with one name the later counts.
pub(crate) fn sort_entries(
    alloc: Global,
    objects: Vec<(Text, Blob)>,
) -> Result<Vec<(Text, Blob)>, Memory>
    ensures ordered { IfOk result (λ es. T (in_order es.items)) }
    ensures objects { IfOk result (λ es. (n : List ℕ) → at (objects_of es.items) n ≡ last_value n objects.items None) }
{
    let mut entries = Vec::new(alloc);
    for (name, bytes) in objects {
        entries.reserve(1)?;
        put_entry(&mut entries, name, bytes);
    }
    Ok(entries)
}

/// Takes a name out of the others.
fn remove_name(names: &mut Vec<Text>, name: &Text)
    ensures items { names.new.items ≡ others (λ n. n) name.now names.old.items }
    ensures len { vec_len names.new ≤ vec_len names.old }
    ensures capacity { vec_capacity names.new ≡ vec_capacity names.old }
{
    names.retain(|other| name.as_bytes().cmp(other.as_bytes()).is_ne());
}

/// How many names come before one.
fn name_place(names: &[Text], name: &Text) -> usize
    ensures { result ≡ length (take_while (λ n. is_gt (slice_cmp nat_cmp name.now n)) names.now) }
{
    names
        .iter()
        .take_while(|other| name.as_bytes().cmp(other.as_bytes()).is_gt())
        .count()
}

/// Puts a name among the others.
pub(crate) fn add_name(names: &mut Vec<Text>, name: Text)
    requires ordered { T (are_in_order names.old.items) }
    requires room { vec_len names.old < vec_capacity names.old }
    ensures { IsTouched name names.old.items names.new.items }
{
    remove_name(names, &name);
    let place = name_place(names, &name);
    names.insert(place, name).unwrap();
}
