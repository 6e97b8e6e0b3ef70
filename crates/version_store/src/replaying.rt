//! A list of calls, made one after the other on any store.
ghost use Rattle.std.specs.Prelude.{◌≡◌, ◌≤◌, ℕ, IfOk, OnOk, OnErr, option_map, length, take};
ghost use Rattle.version_store.specs.Tables.{Tables};
ghost use Rattle.version_store.specs.Calls.{after_call, after_calls, answer_of, answers_of, AreAllowed, IsAllowed};

use crate::calls::{VersionAnswer, VersionCall};
use crate::versions::Versions;
use mvcc_keys::{Blob, Items, Memory};
use std::alloc::Global;

fn kept_value(alloc: Global, value: Option<&[u8]>) -> Result<Option<Blob>, Memory>
    ensures { IfOk result (λ kept. kept ≡ option_map (λ v. v.now) value.entry) }
{
    match value {
        Some(value) => Ok(Some(Blob::copy_of(alloc, value)?)),
        None => Ok(None),
    }
}

/// Makes one call.
fn play<V: Versions>(
    alloc: Global,
    store: &mut V,
    call: &VersionCall,
) -> Result<VersionAnswer, Memory>
    ensures answer { IfOk result (λ answer. (h : Tables) → V.stands store.old h → IsAllowed h call.now → answer ≡ answer_of h call.now) }
    ensures after { OnOk result ((h : Tables) → V.stands store.old h → IsAllowed h call.now → V.stands store.new (after_call call.now h)) }
    ensures kept { OnErr result ((h : Tables) → V.stands store.old h → V.stands store.new h) }
{
    match call {
        VersionCall::Put { key, at, value } => {
            store.put(key.as_slice(), *at, value.as_slice())?;
            Ok(VersionAnswer::Put)
        }
        VersionCall::Delete { key, at } => {
            store.delete(key.as_slice(), *at)?;
            Ok(VersionAnswer::Delete)
        }
        VersionCall::DeleteRange { lo, hi, at } => {
            store.delete_range(lo.as_slice(), hi.as_slice(), *at)?;
            Ok(VersionAnswer::DeleteRange)
        }
        VersionCall::GetAsOf { key, t } => {
            let value = kept_value(alloc, store.get_as_of(key.as_slice(), *t))?;
            Ok(VersionAnswer::GetAsOf(value))
        }
        VersionCall::ScanAsOf { table, t } => {
            let seen = store.scan_as_of(*table, *t)?;
            Ok(VersionAnswer::ScanAsOf(Items::from_vec(seen)))
        }
        VersionCall::ScanAfter { table, t, after, n } => {
            let seen = store.scan_after(*table, *t, after, *n)?;
            Ok(VersionAnswer::ScanAfter(Items::from_vec(seen)))
        }
        VersionCall::Events {
            table,
            from,
            upto,
            after,
            n,
        } => {
            let seen = store.events(*table, *from, *upto, after, *n)?;
            Ok(VersionAnswer::Events(Items::from_vec(seen)))
        }
        VersionCall::NewestEvents {
            table,
            from,
            upto,
            after,
            n,
        } => {
            let seen = store.newest_events(*table, *from, *upto, after, *n)?;
            Ok(VersionAnswer::NewestEvents(Items::from_vec(seen)))
        }
        VersionCall::Ranges { table, from, upto } => {
            let seen = store.ranges(*table, *from, *upto)?;
            Ok(VersionAnswer::Ranges(Items::from_vec(seen)))
        }
        VersionCall::Collect { table, g } => {
            store.collect(*table, *g)?;
            Ok(VersionAnswer::Collect)
        }
        VersionCall::Threshold { table } => Ok(VersionAnswer::Threshold(store.threshold(*table))),
    }
}

/// Makes the calls in their order, and answers what they answered. It asks that each call meets
/// its condition when its turn comes. Where memory is wanting, the first calls, up to some place,
/// were made, and the others weren't.
pub fn replay<V: Versions>(
    alloc: Global,
    store: &mut V,
    calls: &[VersionCall],
) -> Result<Vec<VersionAnswer>, Memory>
    ensures answers { IfOk result (λ answers. (h : Tables) → V.stands store.old h → AreAllowed h calls.now → answers.items ≡ answers_of h calls.now) }
    ensures after { OnOk result ((h : Tables) → V.stands store.old h → AreAllowed h calls.now → V.stands store.new (after_calls calls.now h)) }
    ensures stopped { OnErr result ((h : Tables) → V.stands store.old h → AreAllowed h calls.now → (n : ℕ) × (n ≤ length calls.now) × V.stands store.new (after_calls (take n calls.now) h)) }
{
    let mut answers = Vec::new(alloc);
    for call in calls.iter() {
        let answer = play(alloc, store, call)?;
        answers.push(answer)?;
    }
    Ok(answers)
}
