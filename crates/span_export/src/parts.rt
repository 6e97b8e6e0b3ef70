//! The puts and deletions of a plan, and its range deletions.
ghost use Rattle.std.specs.Prelude.{◌≡◌, true, IfOk, take, filter};
ghost use Rattle.mvcc_keys.specs.Times.{time_le};
ghost use Rattle.range_tombstones.specs.Intervals.{is_between};
ghost use Rattle.version_store.specs.Tables.{Tables, entries_of, is_past};
ghost use Rattle.span_export.specs.Plans.{plan_points, plan_ranges, start_of, whole_points};

use crate::Plan;
use crate::merging::merged;
use mvcc_keys::{Blob, Entry, Hlc, Memory};
use range_tombstones::Upto;
use std::alloc::Global;
use version_store::Versions;

/// The first `n` after a place of the puts that are visible at a floor and of the puts and
/// deletions of the interval after it.
fn whole_points_after<V: Versions>(
    alloc: Global,
    store: &V,
    table: u32,
    floor: Hlc,
    upto: Upto,
    place: &Option<(Blob, Hlc)>,
    n: usize,
) -> Result<Vec<Entry>, Memory>
    ensures { IfOk result (λ seen. (h : Tables) → V.stands store.now h → time_le (h.threshold table) floor ≡ true → seen.items ≡ entries_of (take n (filter (is_past place.now) (whole_points floor (is_between floor upto) (h.facts table))))) }
{
    let older = store.scan_after(table, floor, place, n)?;
    let newer = store.events(table, floor, upto, place, n)?;
    let mut all = merged(alloc, older, newer)?;
    all.truncate(n);
    Ok(all)
}

/// The first `n` puts and deletions of a plan after a place.
pub fn points_after<V: Versions>(
    alloc: Global,
    store: &V,
    table: u32,
    plan: &Plan,
    place: &Option<(Blob, Hlc)>,
    n: usize,
) -> Result<Vec<Entry>, Memory>
    ensures { IfOk result (λ seen. (h : Tables) → V.stands store.now h → time_le (h.threshold table) (start_of plan.now) ≡ true → seen.items ≡ entries_of (take n (filter (is_past place.now) (plan_points (h.facts table) plan.now)))) }
{
    match *plan {
        Plan::Changes {
            after,
            upto,
            every: true,
        } => store.events(table, after, upto, place, n),
        Plan::Changes {
            after,
            upto,
            every: false,
        } => store.newest_events(table, after, upto, place, n),
        Plan::Whole {
            floor,
            upto,
            every: true,
        } => whole_points_after(alloc, store, table, floor, upto, place, n),
        Plan::Whole {
            floor,
            every: false,
            ..
        } => store.scan_after(table, floor, place, n),
    }
}

/// The range deletions of a plan.
pub fn plan_ranges<V: Versions>(
    alloc: Global,
    store: &V,
    table: u32,
    plan: &Plan,
) -> Result<Vec<Entry>, Memory>
    ensures { IfOk result (λ seen. (h : Tables) → V.stands store.now h → time_le (h.threshold table) (start_of plan.now) ≡ true → seen.items ≡ entries_of (plan_ranges (h.facts table) plan.now)) }
{
    match *plan {
        Plan::Changes { after, upto, .. } => store.ranges(table, after, upto),
        Plan::Whole {
            floor,
            upto,
            every: true,
        } => store.ranges(table, floor, upto),
        Plan::Whole { every: false, .. } => Ok(Vec::new(alloc)),
    }
}
