//! A range deletion as it was added, and lists of them by date.
ghost use Rattle.std.specs.Prelude.{◌≡◌, ◌<◌, ◌≤◌, [], ◌∷◌, ◌++◌, false, not, filter, length, map, take, drop, IfOk, OnErr, OnOk};
ghost use Rattle.std.specs.List.{remove};
ghost use Rattle.mvcc_keys.specs.Times.{time_lt};
ghost use Rattle.range_tombstones.specs.Dates.{Ascends};
ghost use Rattle.range_tombstones.specs.Ranges.{by_date, entry_of, is_dated, range, ranges_between, with_range};

use crate::upto::{Upto, is_between};
use mvcc_keys::{Blob, Entry, Hlc, Memory};
use std::alloc::Global;

/// The keys from `lo` up to, not including, `hi` are deleted.
#[derive(Drop)]
pub struct RangeDeletion {
    pub lo: Blob,
    pub hi: Blob,
    pub at: Hlc,
}

/// Whether one of the range deletions has the date.
pub(crate) fn is_dated(ranges: &[RangeDeletion], t: Hlc) -> bool
    ensures { result ≡ is_dated t ranges.now }
{
    for deletion in ranges {
        if t == deletion.at {
            return true;
        }
    }
    false
}

/// How many are dated before a time.
fn count_before(ranges: &[RangeDeletion], t: Hlc) -> usize
    requires { Ascends by_date ranges.now }
    ensures bound { result ≤ length ranges.now }
    ensures front { take result ranges.now ≡ filter (λ r. time_lt r.at t) ranges.now }
    ensures back { drop result ranges.now ≡ filter (λ r. not (time_lt r.at t)) ranges.now }
{
    ranges.partition_point(
        |r: &RangeDeletion| -> bool
            ensures { result ≡ time_lt r.now.at t }
        { r.at < t },
    )
}

/// Adds one behind those of earlier dates, and answers at which place.
pub(crate) fn add(
    ranges: &mut Vec<RangeDeletion>,
    lo: &[u8],
    hi: &[u8],
    t: Hlc,
) -> Result<usize, Memory>
    requires order { Ascends by_date ranges.old.items }
    requires new_date { is_dated t ranges.old.items ≡ false }
    ensures ok { OnOk result (ranges.new.items ≡ with_range (range lo.now hi.now t) ranges.old.items) }
    ensures place { IfOk result (λ place. place < length ranges.new.items) }
    ensures back { IfOk result (λ place. remove ranges.new.items place ≡ ranges.old.items) }
    ensures err { OnErr result (ranges.new.items ≡ ranges.old.items) }
{
    let alloc = *ranges.allocator();
    let place = count_before(ranges.as_slice(), t);
    let deletion = RangeDeletion {
        lo: Blob::copy_of(alloc, lo)?,
        hi: Blob::copy_of(alloc, hi)?,
        at: t,
    };
    let refused = ranges.insert(place, deletion).is_err();
    if refused {
        return Err(Memory);
    }
    Ok(place)
}

fn entry_of(alloc: Global, deletion: &RangeDeletion) -> Result<Entry, Memory>
    ensures { IfOk result (λ e. e ≡ entry_of deletion.now) }
{
    Ok(Entry::Range {
        lo: deletion.lo.copy(alloc)?,
        hi: deletion.hi.copy(alloc)?,
        at: deletion.at,
    })
}

fn add_entry(alloc: Global, deletion: &RangeDeletion, found: &mut Vec<Entry>) -> Result<(), Memory>
    ensures { OnOk result (found.new.items ≡ found.old.items ++ (entry_of deletion.now ∷ [])) }
{
    let entry = entry_of(alloc, deletion)?;
    found.push(entry).map_err(|_| Memory)
}

/// Those dated after a time and in an interval.
pub(crate) fn between(
    alloc: Global,
    ranges: &[RangeDeletion],
    from: Hlc,
    upto: &Upto,
) -> Result<Vec<Entry>, Memory>
    ensures { IfOk result (λ es. es.items ≡ map entry_of (ranges_between from upto.now ranges.now)) }
{
    let mut found = Vec::new(alloc);
    for deletion in ranges {
        if is_between(from, upto, deletion.at) {
            add_entry(alloc, deletion, &mut found)?;
        }
    }
    Ok(found)
}
