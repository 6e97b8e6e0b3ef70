//! Which puts and deletions are listed.
use mvcc_keys::Hlc;
use range_tombstones::Upto;

/// Of the puts and deletions dated after `from` and within `upto` all, or of each key the newest.
#[derive(Clone, Copy)]
pub enum Choice {
    All { from: Hlc, upto: Upto },
    Newest { from: Hlc, upto: Upto },
}
