//! A plan's entries in pieces.
ghost use Rattle.std.specs.Prelude.{◌≡◌, ◌≤◌, ◌++◌, true, length, take, IfOk};
ghost use Rattle.mvcc_keys.specs.Times.{time_le};
ghost use Rattle.version_store.specs.Tables.{Tables, entries_of};
ghost use Rattle.span_export.specs.Plans.{plan_entries, plan_points, plan_ranges, start_of};
ghost use Rattle.span_export.specs.Pieces.{after_place, cursor_after};

use crate::parts::{plan_ranges, points_after};
use crate::{Cursor, Plan};
use mvcc_keys::{Entry, Memory};
use std::alloc::Global;
use version_store::Versions;

/// The next `n` puts and deletions of a plan after a cursor.
fn points_left<V: Versions>(
    alloc: Global,
    store: &V,
    table: u32,
    plan: &Plan,
    cursor: &Cursor,
    n: usize,
) -> Result<Vec<Entry>, Memory>
    ensures { IfOk result (λ seen. (h : Tables) → V.stands store.now h → time_le (h.threshold table) (start_of plan.now) ≡ true → seen.items ≡ take n (after_place cursor.now (entries_of (plan_points (h.facts table) plan.now)))) }
{
    if cursor.is_past_points() {
        return Ok(Vec::new(alloc));
    }
    let place = cursor.point(alloc)?;
    points_after(alloc, store, table, plan, &place, n)
}

/// The range deletions of a plan after a cursor.
fn ranges_left<V: Versions>(
    alloc: Global,
    store: &V,
    table: u32,
    plan: &Plan,
    cursor: &Cursor,
) -> Result<Vec<Entry>, Memory>
    ensures { IfOk result (λ seen. (h : Tables) → V.stands store.now h → time_le (h.threshold table) (start_of plan.now) ≡ true → seen.items ≡ after_place cursor.now (entries_of (plan_ranges (h.facts table) plan.now))) }
{
    let mut ranges = plan_ranges(alloc, store, table, plan)?;
    ranges.retain(|entry| cursor.is_before(entry));
    Ok(ranges)
}

/// Puts and deletions, and the range deletions of a plan that follow, unless there are `n` already.
fn with_ranges<V: Versions>(
    alloc: Global,
    store: &V,
    table: u32,
    plan: &Plan,
    cursor: &Cursor,
    n: usize,
    points: Vec<Entry>,
) -> Result<Vec<Entry>, Memory>
    ensures { IfOk result (λ all. (h : Tables) → V.stands store.now h → time_le (h.threshold table) (start_of plan.now) ≡ true → take n all.items ≡ take n (points.items ++ after_place cursor.now (entries_of (plan_ranges (h.facts table) plan.now)))) }
{
    if points.len() >= n {
        return Ok(points);
    }
    let mut entries = points;
    let mut ranges = ranges_left(alloc, store, table, plan, cursor)?;
    entries.append(&mut ranges)?;
    Ok(entries)
}

/// The next `n` entries of a plan after a cursor, or all where fewer are left, and the cursor at
/// the last of them, or as it was where none is left. Puts and deletions come first, by key and
/// newest first, then range deletions by date.
///
/// It asks for a plan that starts no earlier than the table's threshold. Which entries are left
/// is told by their order alone, so any place serves as a cursor. The store searches for the
/// place, so a piece costs what it gives and the keys that it passes over; the pieces of a plan
/// together cost one walk. Range deletions are listed anew for each piece that has some.
pub fn export<V: Versions>(
    alloc: Global,
    store: &V,
    table: u32,
    plan: &Plan,
    cursor: &Cursor,
    n: usize,
) -> Result<(Vec<Entry>, Cursor), Memory>
    ensures piece { IfOk result (λ r. (h : Tables) → V.stands store.now h → time_le (h.threshold table) (start_of plan.now) ≡ true → r.0.items ≡ take n (after_place cursor.now (plan_entries h table plan.now))) }
    ensures few { IfOk result (λ r. length r.0.items ≤ n) }
    ensures place { IfOk result (λ r. r.1 ≡ cursor_after cursor.now r.0.items) }
{
    let points = points_left(alloc, store, table, plan, cursor, n)?;
    let mut entries = with_ranges(alloc, store, table, plan, cursor, n, points)?;
    entries.truncate(n);
    let cursor = cursor.moved(alloc, entries.as_slice())?;
    Ok((entries, cursor))
}
