//! The dates of a piece.
ghost use Rattle.std.specs.Prelude.{◌≡◌, ◌≤◌, [], IfOk, OnOk, OnErr, filter, length, take, drop};
ghost use Rattle.std.specs.Cmp.Lexicographic.{pointwise};
ghost use Rattle.mvcc_keys.specs.Times.{time_lt, time_le, time_eq};
ghost use Rattle.range_tombstones.specs.Dates.{Ascends, has_date, with_date, without_date, last_upto};

use mvcc_keys::{Hlc, Memory};
use std::alloc::Global;
use std::marker::Model;

/// Dates without repeats, ascending.
#[derive(Debug, Drop)]
pub struct Dates {
    list: Vec<Hlc>,
}

impl Model for Dates {
    ghost use Rattle.std.specs.Prelude.{List};
    ghost use Rattle.mvcc_keys.specs.Times.{Time, time_lt};
    ghost use Rattle.range_tombstones.specs.Dates.{Ascends};

    ghost Value = { List Time };

    ghost view = { λ d. d.list.items };

    ghost invariant = { λ d. Ascends time_lt d.list.items };
}

/// How many dates are at or before a time.
fn count_upto(dates: &[Hlc], t: Hlc) -> usize
    requires { Ascends time_lt dates.now }
    ensures bound { result ≤ length dates.now }
    ensures front { take result dates.now ≡ filter (λ d. time_le d t) dates.now }
    ensures back { drop result dates.now ≡ filter (λ d. time_lt t d) dates.now }
{
    dates.partition_point(
        |d: &Hlc| -> bool
            ensures { result ≡ time_le d.now t }
        { *d <= t },
    )
}

impl Dates {
    pub fn new(alloc: Global) -> Dates
        ensures { result ≡ [] }
    {
        Dates {
            list: Vec::new(alloc),
        }
    }

    pub fn copy(&self, alloc: Global) -> Result<Dates, Memory>
        ensures { IfOk result (λ d. d ≡ self.now) }
    {
        Ok(Dates {
            list: Vec::from_slice(alloc, self.list.as_slice())?,
        })
    }

    pub fn as_slice(&self) -> &[Hlc]
        ensures { result.now ≡ self.now }
    {
        self.list.as_slice()
    }

    pub fn is_same(&self, other: &Dates) -> bool
        ensures { result ≡ pointwise time_eq self.now other.now }
    {
        self.list.as_slice() == other.list.as_slice()
    }

    /// The last date at or before a time.
    #[tactic(auto, unfolding(crate::specs::Dates::last_upto))]
    pub fn last_upto(&self, t: Hlc) -> Option<Hlc>
        ensures { result ≡ last_upto t self.now }
    {
        let dates = self.list.as_slice();
        dates[..count_upto(dates, t)].last().copied()
    }

    pub fn has(&self, t: Hlc) -> bool
        ensures { result ≡ has_date t self.now }
    {
        let _ = &self.list;
        match self.last_upto(t) {
            Some(last) => last == t,
            None => false,
        }
    }

    pub fn insert(&mut self, t: Hlc) -> Result<(), Memory>
        ensures ok { OnOk result (self.new ≡ with_date t self.old) }
        ensures err { OnErr result (self.new ≡ self.old) }
    {
        if self.has(t) {
            return Ok(());
        }
        let place = count_upto(self.list.as_slice(), t);
        let refused = self.list.insert(place, t).is_err();
        if refused {
            return Err(Memory);
        }
        Ok(())
    }

    pub fn remove(&mut self, t: Hlc)
        ensures { self.new ≡ without_date t self.old }
    {
        self.list.retain(|d| *d != t);
    }

    /// Keeps the dates after a time.
    pub fn keep_after(&mut self, g: Hlc)
        ensures { self.new ≡ filter (λ d. time_lt g d) self.old }
    {
        self.list.retain(|d| g < *d);
    }
}
