//! Range deletions as pieces of the key space.
ghost use Rattle.std.specs.Prelude.{◌≡◌, [], true, false, map, IfOk, OnOk, OnErr};
ghost use Rattle.range_tombstones.specs.Dates.{Ascends};
ghost use Rattle.range_tombstones.specs.Ranges.{by_date, bytes_lt, entry_of, is_dated, newest_cover, range, ranges_after, ranges_between, with_range};

use crate::deletion::RangeDeletion;
use crate::piece::Piece;
use crate::upto::Upto;
use crate::{changes, deletion, pieces};
use mvcc_keys::{Entry, Hlc, Memory};
use std::alloc::Global;
use std::marker::Model;

/// Range deletions by date. Beside the list of them there are adjoining pieces of the key space,
/// so that the newest one that covers a key is found by two searches, whatever their number.
#[derive(Drop)]
pub struct Fragments {
    pieces: Vec<Piece>,
    ranges: Vec<RangeDeletion>,
}

impl Model for Fragments {
    ghost use Rattle.std.specs.Prelude.{List};
    ghost use Rattle.range_tombstones.specs.declared.deletion.RangeDeletion.{RangeDeletion};
    ghost use Rattle.range_tombstones.specs.Pieces.{IsMadeOf};

    ghost Value = { List RangeDeletion };

    ghost view = { λ f. f.ranges.items };

    ghost invariant = { λ f. IsMadeOf f.pieces.items f.ranges.items };
}

impl Fragments {
    pub fn new(alloc: Global) -> Fragments
        ensures { result ≡ [] }
    {
        Fragments {
            pieces: Vec::new(alloc),
            ranges: Vec::new(alloc),
        }
    }

    /// Whether a range deletion has the date.
    pub fn has_date(&self, t: Hlc) -> bool
        ensures { result ≡ is_dated t self.now }
    {
        deletion::is_dated(self.ranges.as_slice(), t)
    }

    /// Deletes the keys from `lo` up to, not including, `hi`.
    pub fn add(&mut self, lo: &[u8], hi: &[u8], t: Hlc) -> Result<(), Memory>
        requires order { bytes_lt lo.now hi.now ≡ true }
        requires new_date { is_dated t self.old ≡ false }
        ensures ok { OnOk result (self.new ≡ with_range (range lo.now hi.now t) self.old) }
        ensures err { OnErr result (self.new ≡ self.old) }
    {
        let place = deletion::add(&mut self.ranges, lo, hi, t)?;
        let refused = changes::add_range(&mut self.pieces, lo, hi, t).is_err();
        if refused {
            self.ranges.remove(place);
            return Err(Memory);
        }
        Ok(())
    }

    /// The greatest date up to a time of a range deletion that covers the key.
    pub fn newest(&self, key: &[u8], upto: Hlc) -> Option<Hlc>
        ensures { result ≡ newest_cover key.now upto self.now }
    {
        match pieces::piece_at(self.pieces.as_slice(), key) {
            Some(piece) => piece.dates.last_upto(upto),
            None => None,
        }
    }

    /// The range deletions dated after a time and in an interval, by date, as they were added.
    pub fn originals(&self, from: Hlc, upto: Upto) -> Result<Vec<Entry>, Memory>
        ensures listed { IfOk result (λ es. es.items ≡ map entry_of (ranges_between from upto self.now)) }
        ensures by_date { Ascends by_date self.now }
    {
        let alloc = *self.ranges.allocator();
        deletion::between(alloc, self.ranges.as_slice(), from, &upto)
    }

    /// Forgets those dated up to a time.
    pub fn collect(&mut self, g: Hlc)
        ensures { self.new ≡ ranges_after g self.old }
    {
        changes::collect(&mut self.pieces, g);
        self.ranges.retain(|r| g < r.at);
    }
}
