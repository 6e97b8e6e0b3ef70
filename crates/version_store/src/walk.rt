//! What a list of facts shows, found by walks over the whole list.
ghost use Rattle.std.specs.Prelude.{◌≡◌, ◌++◌, ◌∷◌, [], None, IfOk, OnOk, option_map, take, filter};
ghost use Rattle.fact_model.specs.Facts.{newest, value, Version};
ghost use Rattle.fact_model.specs.Scans.{image};
ghost use Rattle.version_store.specs.Tables.{bytes_cmp, entries_of, is_past};
ghost use Rattle.version_store.specs.Lists.{entries_same, fact_of, facts_of, firsts, of_table, listed, newest_step, seen_item, stays};
ghost use Rattle.version_store.specs.declared.listings.Listing.TheVariants.{Points};

use crate::entries::{copy_of, date_of, is_of, key_of, put_of, touches};
use crate::listings::{Listing, listed};
use crate::newest::newest_among;
use mvcc_keys::{Blob, Entry, Hlc, Memory, cmp_mvcc};
use range_tombstones::Upto;
use std::alloc::Global;

/// The fact, where it counts for the key as of t and isn't before the best so far.
fn newer<'a>(
    fact: &'a Entry,
    best: Option<&'a Entry>,
    table: u64,
    key: &[u8],
    t: Hlc,
) -> Option<&'a Entry>
    ensures { option_map (λ e. fact_of e.now) result ≡ newest_step table key.now t fact.now (option_map (λ e. fact_of e.now) best.entry) }
{
    if !is_of(fact, table) {
        return best;
    }
    if !(touches(fact, key) && date_of(fact) <= t) {
        return best;
    }
    match best {
        Some(found) if date_of(fact) < date_of(found) => Some(found),
        _ => Some(fact),
    }
}

/// The fact of the latest date up to t that touches the key.
#[tactic(auto, using(crate::proofs::Walks::newest_more, crate::proofs::Walks::newest_none))]
pub fn newest_of<'a>(facts: &'a [Entry], table: u64, key: &[u8], t: Hlc) -> Option<&'a Entry>
    ensures { option_map (λ e. fact_of e.now) result ≡ newest bytes_cmp key.now t (facts_of (of_table table facts.now)) }
{
    let mut best: Option<&Entry> = None;
    let mut left = facts.len();
    while left > 0 {
        left -= 1;
        best = newer(&facts[left], best, table, key, t);
    }
    best
}

/// The value of the key as of t.
#[tactic(auto, unfolding(fact_model::specs::Facts::value))]
pub fn value_of<'a>(facts: &'a [Entry], table: u64, key: &[u8], t: Hlc) -> Option<&'a [u8]>
    ensures { option_map (λ v. v.now) result ≡ option_map (λ (v : Version _). v.value) (value bytes_cmp key.now t (facts_of (of_table table facts.now))) }
{
    match newest_of(facts, table, key, t) {
        Some(Entry::Put { value, .. }) => Some(value.as_slice()),
        _ => None,
    }
}

/// Appends the put that the key shows as of t.
#[tactic(auto, unfolding(fact_model::specs::Facts::value))]
fn add_seen(
    alloc: Global,
    seen: &mut Vec<Entry>,
    facts: &[Entry],
    table: u64,
    key: &[u8],
    t: Hlc,
) -> Result<(), Memory>
    ensures { OnOk result (seen.new.items ≡ seen.old.items ++ seen_item key.now (value bytes_cmp key.now t (facts_of (of_table table facts.now)))) }
{
    match newest_of(facts, table, key, t) {
        Some(Entry::Put { at, value, .. }) => {
            let key = Blob::copy_of(alloc, key)?;
            let value = value.copy(alloc)?;
            seen.push(Entry::Put {
                key,
                at: *at,
                value,
            })
            .map_err(|_| Memory)
        }
        _ => Ok(()),
    }
}

/// The puts that are visible as of t, by key.
pub fn scan_of(alloc: Global, facts: &[Entry], table: u64, t: Hlc) -> Result<Vec<Entry>, Memory>
    ensures { IfOk result (λ seen. seen.items ≡ entries_of (image bytes_cmp t (facts_of (of_table table facts.now)))) }
{
    let puts = listed(alloc, facts, table, &Listing::Puts)?;
    let mut seen = Vec::new(alloc);
    for put in puts.iter() {
        add_seen(alloc, &mut seen, facts, table, key_of(put), t)?;
    }
    Ok(seen)
}

fn is_past(place: &Option<(Blob, Hlc)>, fact: &Entry) -> bool
    ensures { result ≡ is_past place.now (fact_of fact.now) }
{
    match place {
        None => true,
        Some((key, at)) => cmp_mvcc(key.as_slice(), *at, key_of(fact), date_of(fact)).is_lt(),
    }
}

/// The first `n` of some puts and deletions that come after a place.
fn first_after(seen: Vec<Entry>, place: &Option<(Blob, Hlc)>, n: usize) -> Vec<Entry>
    ensures { result.items ≡ take n (filter (λ e. is_past place.now (fact_of e)) seen.items) }
{
    let mut left = seen;
    left.retain(|fact| is_past(place, fact));
    left.truncate(n);
    left
}

/// The first `n` of the puts that are visible as of t and come after a place.
pub fn scan_after_of(
    alloc: Global,
    facts: &[Entry],
    table: u64,
    t: Hlc,
    place: &Option<(Blob, Hlc)>,
    n: usize,
) -> Result<Vec<Entry>, Memory>
    ensures { IfOk result (λ seen. seen.items ≡ take n (filter (λ e. is_past place.now (fact_of e)) (entries_of (image bytes_cmp t (facts_of (of_table table facts.now)))))) }
{
    let seen = scan_of(alloc, facts, table, t)?;
    Ok(first_after(seen, place, n))
}

/// The first `n`, after a place, of the newest puts and deletions of each key in an interval.
pub fn newest_events_of(
    alloc: Global,
    facts: &[Entry],
    table: u64,
    from: Hlc,
    upto: Upto,
    place: &Option<(Blob, Hlc)>,
    n: usize,
) -> Result<Vec<Entry>, Memory>
    ensures { IfOk result (λ seen. seen.items ≡ take n (filter (λ e. is_past place.now (fact_of e)) (firsts entries_same None (listed (Points from upto) table facts.now)))) }
{
    let points = listed(alloc, facts, table, &Listing::Points { from, upto })?;
    let newest = newest_among(alloc, points)?;
    Ok(first_after(newest, place, n))
}

/// The first `n` puts and deletions of an interval after a place.
pub fn events_of(
    alloc: Global,
    facts: &[Entry],
    table: u64,
    from: Hlc,
    upto: Upto,
    place: &Option<(Blob, Hlc)>,
    n: usize,
) -> Result<Vec<Entry>, Memory>
    ensures { IfOk result (λ seen. seen.items ≡ take n (filter (λ e. is_past place.now (fact_of e)) (listed (Points from upto) table facts.now))) }
{
    let seen = listed(alloc, facts, table, &Listing::Points { from, upto })?;
    Ok(first_after(seen, place, n))
}

fn is_staying(fact: &Entry, table: u64, g: Hlc) -> bool
    ensures { result ≡ stays table g fact.now }
{
    !is_of(fact, table) || g < date_of(fact)
}

fn add_staying(
    alloc: Global,
    held: &mut Vec<Entry>,
    fact: &Entry,
    table: u64,
    g: Hlc,
) -> Result<(), Memory>
    ensures { OnOk result (held.new.items ≡ held.old.items ++ filter (stays table g) (fact.now ∷ [])) }
{
    if !is_staying(fact, table, g) {
        return Ok(());
    }
    let fact = copy_of(alloc, fact)?;
    held.push(fact).map_err(|_| Memory)
}

/// The image of the table at g, and after it the facts that stay as they are.
pub fn collected(alloc: Global, facts: &[Entry], table: u64, g: Hlc) -> Result<Vec<Entry>, Memory>
    ensures { IfOk result (λ held. held.items ≡ entries_of (image bytes_cmp g (facts_of (of_table table facts.now))) ++ filter (stays table g) facts.now) }
{
    let mut held = scan_of(alloc, facts, table, g)?;
    for fact in facts.iter() {
        add_staying(alloc, &mut held, fact, table, g)?;
    }
    Ok(held)
}
