//! Listings: some of a table's facts, in order without repeats.
ghost use Rattle.std.specs.Prelude.{◌≡◌, IfOk, OnOk};
ghost use Rattle.range_tombstones.specs.Intervals.{is_between};
ghost use Rattle.fact_model.specs.Ordered.{insert_by};
ghost use Rattle.version_store.specs.Lists.{is_listed, listing_cmp, listed, with_listed, IsPlace};

use crate::entries::{copy_of, date_of, is_of, is_point, key_of};
use mvcc_keys::{Entry, Hlc, Memory, cmp_mvcc};
use range_tombstones::Upto;
use std::alloc::Global;
use std::cmp::Ordering;

/// All puts by key, one for each; the puts and deletions of an interval by key and newest first;
/// the range deletions of an interval by date.
#[derive(Clone, Copy)]
pub enum Listing {
    Puts,
    Points { from: Hlc, upto: Upto },
    Ranges { from: Hlc, upto: Upto },
}

fn is_between(from: &Hlc, upto: &Upto, t: Hlc) -> bool
    ensures { result ≡ is_between from.now upto.now t }
{
    *from < t && upto.holds(t)
}

fn is_listed(listing: &Listing, fact: &Entry) -> bool
    ensures { result ≡ is_listed listing.now fact.now }
{
    match listing {
        Listing::Puts => matches!(fact, Entry::Put { .. }),
        Listing::Points { from, upto } => is_point(fact) && is_between(from, upto, date_of(fact)),
        Listing::Ranges { from, upto } => !is_point(fact) && is_between(from, upto, date_of(fact)),
    }
}

fn order(listing: &Listing, a: &Entry, b: &Entry) -> Ordering
    ensures { result ≡ listing_cmp listing.now a.now b.now }
{
    match listing {
        Listing::Puts => key_of(a).cmp(key_of(b)),
        Listing::Points { .. } => cmp_mvcc(key_of(a), date_of(a), key_of(b), date_of(b)),
        Listing::Ranges { .. } => date_of(a).cmp(&date_of(b)),
    }
}

/// Where a fact goes in a listing, unless its like is there.
fn place_of(list: &[Entry], listing: &Listing, fact: &Entry) -> Option<usize>
    ensures { IsPlace (listing_cmp listing.now) fact.now list.now result }
{
    let mut place = 0;
    while place < list.len() {
        match order(listing, fact, &list[place]) {
            Ordering::Less => return Some(place),
            Ordering::Equal => return None,
            Ordering::Greater => place += 1,
        }
    }
    Some(place)
}

fn insert_fact(
    alloc: Global,
    list: &mut Vec<Entry>,
    listing: &Listing,
    fact: &Entry,
) -> Result<(), Memory>
    ensures { OnOk result (list.new.items ≡ insert_by (listing_cmp listing.now) fact.now list.old.items) }
{
    match place_of(list.as_slice(), listing, fact) {
        Some(place) => {
            let fact = copy_of(alloc, fact)?;
            list.insert(place, fact).map_err(|_| Memory)
        }
        None => Ok(()),
    }
}

fn add_fact(
    alloc: Global,
    list: &mut Vec<Entry>,
    table: u64,
    listing: &Listing,
    fact: &Entry,
) -> Result<(), Memory>
    ensures { OnOk result (list.new.items ≡ with_listed listing.now table fact.now list.old.items) }
{
    if is_of(fact, table) && is_listed(listing, fact) {
        insert_fact(alloc, list, listing, fact)
    } else {
        Ok(())
    }
}

/// The listing of a table's facts.
#[tactic(auto, using(crate::proofs::Places::listed_more, crate::proofs::Places::listed_none))]
pub fn listed(
    alloc: Global,
    facts: &[Entry],
    table: u64,
    listing: &Listing,
) -> Result<Vec<Entry>, Memory>
    ensures { IfOk result (λ list. list.items ≡ listed listing.now table facts.now) }
{
    let mut list = Vec::new(alloc);
    let mut left = facts.len();
    while left > 0 {
        left -= 1;
        add_fact(alloc, &mut list, table, listing, &facts[left])?;
    }
    Ok(list)
}
