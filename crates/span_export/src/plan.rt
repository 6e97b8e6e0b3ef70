//! Which entries of a table are exported.
use mvcc_keys::Hlc;
use range_tombstones::Upto;

/// What changed in an interval, or the whole table as of a floor and what changed after it.
///
/// With `every` all facts of the interval are exported. Without it `Changes` has of each key the
/// newest put or deletion, and the range deletions; `Whole` has the visible puts alone.
#[derive(Clone, Copy, Debug)]
pub enum Plan {
    Changes { after: Hlc, upto: Upto, every: bool },
    Whole { floor: Hlc, upto: Upto, every: bool },
}
